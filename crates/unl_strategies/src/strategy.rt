//! Decides whether a strategy is active.
ghost use Rattle.std.specs.Prelude.{◌≡◌, IfOk};
ghost use Rattle.unl_strategies.specs.Strategy.{is_active};

use crate::moment::Moment;
use crate::rules::rule;
use crate::segments::all_met;
use std::alloc::Global;
use unl_constraints::all_hold;
use unl_context::Context;
use unl_documents::{List, Memory, Segment, Shared, Strategy, Text};

/// Whether a strategy is active: all of its constraints hold, each segment that it refers to is in `segments` and all
/// constraints of that segment hold, and its own [`rule`] holds. `feature` is the name of the strategy's feature, and
/// `index` is the strategy's index in the feature, from 0. If several segments have the same id, the first counts. The
/// only error is out of memory.
#[tactic(auto, unfolding(crate::specs::Strategy::is_active))]
pub fn active(
    alloc: Global,
    strategy: &Strategy,
    feature: &Text,
    index: u32,
    segments: &List<Shared<Segment>>,
    context: &Context,
    moment: &Moment,
) -> Result<bool, Memory>
    ensures { IfOk result (λ b. b ≡ is_active strategy.now feature.now index segments.now context.now moment.entry.now) }
{
    let now = moment.now;
    if !all_hold(alloc, strategy.constraints.as_slice(), context, now)? {
        return Ok(false);
    }
    if !all_met(alloc, strategy.segments.as_slice(), segments, context, now)? {
        return Ok(false);
    }
    rule(alloc, strategy, feature, index, context, moment)
}
