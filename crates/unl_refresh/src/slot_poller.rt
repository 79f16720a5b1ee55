//! The environment of one slot, and the parameters of the request that refreshes the slot.
ghost use Rattle.std.specs.Prelude.{◌≡◌, IfOk, IsTrue, None};
ghost use Rattle.unl_http_api.specs.RequestText.{fits_if_any, fits_line};

use crate::Ask;
use std::alloc::Global;
use unl_documents::{Memory, Text};

/// The environment of a slot, and the parameters of the request that refreshes the slot.
#[derive(Drop)]
pub(crate) struct SlotPoller {
    /// The name of the environment.
    pub environment: Text,
    /// The parameters of the next request.
    pub ask: Ask,
    ghost host: { IsTrue (fits_line ask.host) },
    ghost token: { IsTrue (fits_line ask.token) },
    ghost tag: { IsTrue (fits_if_any ask.tag) },
}

/// Creates the poller of a slot for `environment`. Its first ask is what [`first_ask`] creates from the other
/// arguments. The only error is out of memory.
pub(crate) fn poller_with(
    alloc: Global,
    host: &Text,
    token: &Text,
    environment: &Text,
    delta: bool,
) -> Result<SlotPoller, Memory>
    requires host { IsTrue (fits_line host.now) }
    requires token { IsTrue (fits_line token.now) }
    ensures environment { IfOk result (λ slot_poller. slot_poller.environment ≡ environment.now) }
    ensures ask { IfOk result (λ slot_poller. slot_poller.ask
        ≡ record { host = host.now; token = token.now; delta = delta; tag = None }) }
{
    let environment = Text::new(alloc, environment.as_str())?;
    let ask = first_ask(alloc, host, token, delta)?;
    Ok(SlotPoller { environment, ask })
}

/// Creates the parameters of a first request to the server `host` (`HOST:PORT`): with this token, for events if `delta`
/// and otherwise for a whole feed, and without a tag, so that the server sends everything.
///
/// # Errors
/// `Memory` if out of memory.
pub fn first_ask(alloc: Global, host: &Text, token: &Text, delta: bool) -> Result<Ask, Memory>
    ensures { IfOk result (λ ask. ask ≡ record { host = host.now; token = token.now; delta = delta; tag = None }) }
{
    let host = Text::new(alloc, host.as_str())?;
    let token = Text::new(alloc, token.as_str())?;
    Ok(Ask {
        host,
        token,
        delta,
        tag: None,
    })
}
