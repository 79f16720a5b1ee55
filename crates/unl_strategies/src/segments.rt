//! The segments that strategies refer to.
ghost use Rattle.std.specs.Prelude.{◌≡◌, IfOk};
ghost use Rattle.std.specs.List.{list_all};
ghost use Rattle.unl_strategies.specs.Strategy.{is_segment_met};

use std::alloc::Global;
use unl_constraints::segment_holds;
use unl_context::Context;
use unl_documents::{List, Memory, Segment, Shared, segment_of};

/// Whether the context satisfies, for each of the ids, the first segment with that id. False if any id has no segment
/// in the list. `now` is in milliseconds since 1970. The only error is out of memory.
pub(crate) fn all_met(
    alloc: Global,
    ids: &[u64],
    segments: &List<Shared<Segment>>,
    context: &Context,
    now: u64,
) -> Result<bool, Memory>
    ensures { IfOk result (λ b. b ≡ list_all (is_segment_met segments.now context.now now) ids.now) }
{
    for id in ids {
        if !is_met(alloc, *id, segments, context, now)? {
            return Ok(false);
        }
    }
    Ok(true)
}

/// Whether the list has a segment with the id, and the context satisfies the first such segment.
#[tactic(auto, unfolding(crate::specs::Strategy::is_segment_met))]
fn is_met(
    alloc: Global,
    id: u64,
    segments: &List<Shared<Segment>>,
    context: &Context,
    now: u64,
) -> Result<bool, Memory>
    ensures { IfOk result (λ b. b ≡ is_segment_met segments.now context.now now id) }
{
    match segment_of(segments, id) {
        None => Ok(false),
        Some(segment) => segment_holds(alloc, segment, context, now),
    }
}
