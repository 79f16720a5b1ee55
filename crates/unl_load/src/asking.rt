//! The asks (evaluations) of the command `load`: each evaluates one feature for one user.
ghost use Rattle.std.specs.Prelude.{◌≡◌, ◌≤◌, ◌<◌, ◌+◌, ◌^◌, false, codes, IfOk, if◌then◌else◌};
ghost use Rattle.std.specs.List.{count_by};
ghost use Rattle.std.specs.Option.{option_map_or};
ghost use Rattle.serde_json.specs.Data.{member, no_members, object, string};
ghost use Rattle.serde_json.specs.View.{view};
ghost use Rattle.unl_load.specs.Input.{asks, user_context, is_on_for};

use crate::documents::{FEATURES, decimal_text, name};
use crate::words::take;
use rand_pcg::Lcg64Xsh32;
use serde_json::{Value, json};
use std::alloc::{AllocError, Global};
use unl_compiled::Snapshot;
use unl_context::Context;
use unl_dependencies::Evaluation;
use unl_documents::Memory;
use unl_strategies::Moment;
use unl_tokens::Projects;

/// Makes `count` asks. Takes two random words for each ask: the first selects the feature, the second is the number of
/// the user. Returns the number of asks whose feature is on.
pub(crate) fn count_on(
    alloc: Global,
    snapshot: &Snapshot,
    words: &mut Lcg64Xsh32,
    count: u64,
) -> Result<u64, Memory>
    ensures on { IfOk result (λ on. on ≡ count_by (is_on_for snapshot.now.state) (asks count words.old)) }
    ensures most { IfOk result (λ on. on ≤ count) }
{
    let mut on = 0;
    for asked in 0..count {
        let feature = take(words) % FEATURES;
        let user = take(words);
        on = counted(on, is_on_for(alloc, snapshot, feature, user)?);
    }
    Ok(on)
}

/// Returns `count`, plus one if `counts` is true.
fn counted(count: u64, counts: bool) -> u64
    requires { count + 1 < 2 ^ 64 }
    ensures { result ≡ (if counts then 1 + count else count) }
{
    if counts { count + 1 } else { count }
}

/// Returns whether the feature with this index is on for the user with this number, at time 0 with random word 0, on a
/// host without a name. Returns `false` if the snapshot lacks the feature.
#[tactic(auto, unfolding(crate::specs::Input::is_on_for))]
fn is_on_for(alloc: Global, snapshot: &Snapshot, feature: u32, user: u32) -> Result<bool, Memory>
    ensures { IfOk result (λ on. on ≡ is_on_for snapshot.now.state (record { feature = feature; user = user })) }
{
    let name = name(alloc, feature)?;
    let context = context(alloc, user)?;
    let moment = Moment {
        now: 0,
        word: 0,
        host: "",
    };
    let found = snapshot.evaluate(alloc, name.as_str(), &Projects::All, &context, &moment)?;
    Ok(found_on(&found))
}

/// Returns whether the feature was found and is on.
fn found_on(found: &Option<Evaluation>) -> bool
    ensures { result ≡ option_map_or (λ e. e.on) found.now false }
{
    match found {
        Some(evaluation) => evaluation.on,
        None => false,
    }
}

/// Returns the context whose `userId` is this number in decimal. The only error is out of memory.
fn context(alloc: Global, user: u32) -> Result<Context, Memory>
    ensures { IfOk result (λ context. context ≡ user_context user) }
{
    let number = decimal_text(alloc, user)?;
    let value = user_value(alloc, number.as_str())?;
    match Context::take_json(alloc, value) {
        Ok(context) => Ok(context),
        Err(_) => Err(Memory),
    }
}

/// Returns the JSON object of a context whose `userId` is `user`.
fn user_value(alloc: Global, user: &str) -> Result<Value, AllocError>
    ensures { IfOk result (λ value. view value ≡ object (member (codes "userId") (string user.now) no_members)) }
{
    json!(in alloc; {"userId": user})
}
