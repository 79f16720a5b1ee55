//! Computes the explanation of a feature: the feature's evaluation, and the result of each part of the evaluation.
ghost use Rattle.std.specs.Prelude.{◌≡◌, IfOk};
ghost use Rattle.unl_documents.specs.States.{IsValidState};
ghost use Rattle.unl_documents.specs.Valid.{IsValidFeature};
ghost use Rattle.unl_explain.specs.Reasons.{reason_of, reasons_of};

use crate::parents::explain_parents;
use crate::reason::Reason;
use crate::source::source_of;
use crate::strategies::explain_strategies;
use std::alloc::Global;
use unl_context::Context;
use unl_dependencies::{evaluate_feature, feature_named, first_active};
use unl_documents::{Feature, Memory, State};
use unl_strategies::Moment;

/// Explains why the feature with the given name is on or off for a context at a moment (a time, a random word and a
/// host name). The state must be valid: its features and segments are within their limits, and feature names and
/// segment ids increase strictly. The only error is out of memory. On success, the result is `None` if and only if the
/// state has no feature with that name. The evaluation in the explanation is the one that
/// [`evaluate`](unl_dependencies::evaluate) returns. Every dependency and every strategy is explained, even if the
/// feature is off.
#[tactic(auto, unfolding(crate::specs::Reasons::reasons_of))]
pub fn explain(
    alloc: Global,
    state: &State,
    name: &str,
    context: &Context,
    moment: &Moment,
) -> Result<Option<Reason>, Memory>
    requires valid { IsValidState state.now }
    ensures value { IfOk result (λ reason. reason ≡ reasons_of state.now name.now context.now moment.entry.now) }
{
    match feature_named(&state.features, name) {
        None => Ok(None),
        Some(feature) => Ok(Some(explain_feature(alloc, state, feature, context, moment)?)),
    }
}

/// Explains why a feature of the state is on or off for a context at a moment.
#[tactic(auto, unfolding(crate::specs::Reasons::reason_of))]
fn explain_feature(
    alloc: Global,
    state: &State,
    feature: &Feature,
    context: &Context,
    moment: &Moment,
) -> Result<Reason, Memory>
    requires valid { IsValidState state.now }
    requires feature { IsValidFeature feature.now }
    ensures { IfOk result (λ reason. reason ≡ reason_of state.now context.now moment.entry.now feature.now) }
{
    let segments = &state.segments;
    let evaluation = evaluate_feature(alloc, state, feature, context, moment)?;
    let dependencies = feature.dependencies.as_slice();
    let parents = explain_parents(alloc, dependencies, state, context, moment)?;
    let strategies = explain_strategies(alloc, feature, segments, context, moment)?;
    let first = first_active(alloc, state, feature, context, moment)?;
    let source = source_of(evaluation.on, feature, context, moment, first);
    Ok(Reason {
        evaluation,
        enabled: feature.enabled,
        parents,
        strategies,
        first,
        source,
    })
}
