//! Creates the pollers of all slots of a board. The poller of a slot has the slot's environment and the parameters of
//! the request that refreshes the slot.
ghost use Rattle.std.specs.Prelude.{◌≡◌, All, IfOk, IsTrue, length, map};
ghost use Rattle.unl_http_api.specs.RequestText.{fits_line};
ghost use Rattle.unl_refresh.specs.SlotParameters.{no_tags, parameters_of, slot_parameters, tag_of};

use crate::slot_poller::{SlotPoller, poller_with};
use std::alloc::Global;
use unl_documents::{List, Memory, Text};

/// Returns one poller for each token, in the order of the tokens. `environments` has the environment of each token, in
/// the same order. With `delta`, the pollers request events, otherwise whole feeds.
///
/// # Errors
/// `Memory` if out of memory.
pub(crate) fn slot_pollers(
    alloc: Global,
    host: &Text,
    tokens: &List<Text>,
    environments: &List<Text>,
    delta: bool,
) -> Result<Vec<SlotPoller>, Memory>
    requires host { IsTrue (fits_line host.now) }
    requires tokens { All (λ token. IsTrue (fits_line token)) tokens.now }
    requires environments { length environments.now ≡ length tokens.now }
    ensures count { IfOk result (λ slot_pollers. length slot_pollers.items ≡ length tokens.now) }
    ensures parameters { IfOk result (λ slot_pollers. map parameters_of slot_pollers.items
        ≡ slot_parameters host.now delta tokens.now environments.now) }
    ensures tags { IfOk result (λ slot_pollers. map tag_of slot_pollers.items ≡ no_tags tokens.now) }
{
    pollers_of(
        alloc,
        host,
        tokens.as_slice(),
        environments.as_slice(),
        delta,
    )
}

/// As [`slot_pollers`], for slices.
fn pollers_of(
    alloc: Global,
    host: &Text,
    tokens: &[Text],
    environments: &[Text],
    delta: bool,
) -> Result<Vec<SlotPoller>, Memory>
    requires host { IsTrue (fits_line host.now) }
    requires tokens { All (λ token. IsTrue (fits_line token)) tokens.now }
    requires environments { length environments.now ≡ length tokens.now }
    ensures count { IfOk result (λ slot_pollers. length slot_pollers.items ≡ length tokens.now) }
    ensures parameters { IfOk result (λ slot_pollers. map parameters_of slot_pollers.items
        ≡ slot_parameters host.now delta tokens.now environments.now) }
    ensures tags { IfOk result (λ slot_pollers. map tag_of slot_pollers.items ≡ no_tags tokens.now) }
{
    let mut slot_pollers = Vec::new(alloc);
    for place in 0..tokens.len() {
        slot_pollers.push(poller_with(alloc, host, &tokens[place], &environments[place], delta)?)?;
    }
    Ok(slot_pollers)
}
