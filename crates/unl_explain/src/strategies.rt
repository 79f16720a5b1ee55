//! Explains each strategy of a feature: which of its constraints hold, which of its segments exist and which
//! constraints of these segments hold, whether its rule (the condition that the strategy's name selects) holds, and
//! whether the strategy is active.
ghost use Rattle.std.specs.Prelude.{◌≡◌, ◌≤◌, IfOk, length, map};
ghost use Rattle.unl_documents.specs.Valid.{IsValidFeature};
ghost use Rattle.unl_explain.specs.Reasons.{reasons_from, segment_reason, strategy_reason, truths_of};

use crate::reason::{SegmentReason, StrategyReason};
use std::alloc::Global;
use unl_constraints::holds;
use unl_context::Context;
use unl_documents::{
    Constraint, Feature, List, Memory, Segment, Shared, Strategy, Text, TryClone, segment_of,
};
use unl_strategies::{Moment, active, rule};

/// Explains for each strategy of a feature whether it is active, and why. `segments` are those of the feature's state.
/// The feature must be within the limits that are checked when a feature is read from JSON.
pub(crate) fn explain_strategies(
    alloc: Global,
    feature: &Feature,
    segments: &List<Shared<Segment>>,
    context: &Context,
    moment: &Moment,
) -> Result<List<StrategyReason>, Memory>
    requires valid { IsValidFeature feature.now }
    ensures { IfOk result (λ r. r ≡ reasons_from 0 feature.now.strategies feature.now.name segments.now context.now moment.entry.now) }
{
    let strategies = feature.strategies.as_slice();
    explain_each(alloc, strategies, &feature.name, segments, context, moment)
}

/// Explains each of the given strategies, which are all those of the feature with the name `feature`.
fn explain_each(
    alloc: Global,
    strategies: &[Strategy],
    feature: &Text,
    segments: &List<Shared<Segment>>,
    context: &Context,
    moment: &Moment,
) -> Result<List<StrategyReason>, Memory>
    requires few { length strategies.now ≤ 100 }
    ensures { IfOk result (λ r. r ≡ reasons_from 0 strategies.now feature.now segments.now context.now moment.entry.now) }
{
    let mut reasons = List::new(alloc);
    let mut place = 0;
    for strategy in strategies {
        let reason = explain_strategy(alloc, strategy, feature, place, segments, context, moment)?;
        reasons.push(reason)?;
        place += 1;
    }
    Ok(reasons)
}

/// Explains whether the strategy at the index `place` of the feature with the name `feature` is active, and why.
#[tactic(auto, unfolding(crate::specs::Reasons::strategy_reason))]
fn explain_strategy(
    alloc: Global,
    strategy: &Strategy,
    feature: &Text,
    place: u32,
    segments: &List<Shared<Segment>>,
    context: &Context,
    moment: &Moment,
) -> Result<StrategyReason, Memory>
    ensures { IfOk result (λ reason. reason ≡ strategy_reason feature.now segments.now context.now moment.entry.now place strategy.now) }
{
    let now = moment.now;
    let ids = strategy.segments.as_slice();
    Ok(StrategyReason {
        name: strategy.name.copy(alloc)?,
        constraints: truths(alloc, strategy.constraints.as_slice(), context, now)?,
        segments: explain_segments(alloc, ids, segments, context, now)?,
        rule: rule(alloc, strategy, feature, place, context, moment)?,
        active: active(alloc, strategy, feature, place, segments, context, moment)?,
    })
}

/// Returns for each id whether a segment with that id exists, and which of the segment's constraints hold. `now` is in
/// milliseconds since 1970.
fn explain_segments(
    alloc: Global,
    ids: &[u64],
    segments: &List<Shared<Segment>>,
    context: &Context,
    now: u64,
) -> Result<List<SegmentReason>, Memory>
    ensures { IfOk result (λ reasons. reasons ≡ map (segment_reason segments.now context.now now) ids.now) }
{
    let mut reasons = List::new(alloc);
    for id in ids {
        reasons.push(explain_segment(alloc, *id, segments, context, now)?)?;
    }
    Ok(reasons)
}

/// Returns whether the segment with the given id exists, and which of its constraints hold.
#[tactic(auto, unfolding(crate::specs::Reasons::segment_reason))]
fn explain_segment(
    alloc: Global,
    id: u64,
    segments: &List<Shared<Segment>>,
    context: &Context,
    now: u64,
) -> Result<SegmentReason, Memory>
    ensures { IfOk result (λ reason. reason ≡ segment_reason segments.now context.now now id) }
{
    match segment_of(segments, id) {
        None => Ok(SegmentReason {
            id,
            found: false,
            constraints: List::new(alloc),
        }),
        Some(segment) => Ok(SegmentReason {
            id,
            found: true,
            constraints: truths(alloc, segment.constraints.as_slice(), context, now)?,
        }),
    }
}

/// Returns for each constraint whether it holds.
#[tactic(auto, unfolding(crate::specs::Reasons::truths_of))]
fn truths(
    alloc: Global,
    constraints: &[Constraint],
    context: &Context,
    now: u64,
) -> Result<List<bool>, Memory>
    ensures { IfOk result (λ truths. truths ≡ truths_of constraints.now context.now now) }
{
    let mut truths = List::new(alloc);
    for constraint in constraints {
        truths.push(holds(alloc, constraint, context, now)?)?;
    }
    Ok(truths)
}
