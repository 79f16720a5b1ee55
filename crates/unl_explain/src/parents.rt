//! Explains the dependencies of a feature on other features (its parents).
ghost use Rattle.std.specs.Prelude.{◌≡◌, IfOk, map};
ghost use Rattle.unl_documents.specs.States.{IsValidState};
ghost use Rattle.unl_documents.specs.Valid.{IsValidFeature};
ghost use Rattle.unl_explain.specs.Reasons.{cause_in as cause_by_name, cause_of as cause_of_feature, parent_reason};

use crate::reason::{ParentCause, ParentReason};
use std::alloc::Global;
use unl_context::Context;
use unl_dependencies::{evaluate_where, feature_named, is_met};
use unl_documents::{Dependency, Feature, List, Memory, State, TryClone};
use unl_strategies::Moment;

/// Explains for each dependency whether it is met, and why.
pub(crate) fn explain_parents(
    alloc: Global,
    dependencies: &[Dependency],
    state: &State,
    context: &Context,
    moment: &Moment,
) -> Result<List<ParentReason>, Memory>
    requires valid { IsValidState state.now }
    ensures { IfOk result (λ parents. parents ≡ map (parent_reason state.now context.now moment.entry.now) dependencies.now) }
{
    let mut parents = List::new(alloc);
    for dependency in dependencies {
        parents.push(explain_parent(alloc, dependency, state, context, moment)?)?;
    }
    Ok(parents)
}

/// Explains whether a dependency is met, and why.
#[tactic(auto, unfolding(crate::specs::Reasons::parent_reason))]
fn explain_parent(
    alloc: Global,
    dependency: &Dependency,
    state: &State,
    context: &Context,
    moment: &Moment,
) -> Result<ParentReason, Memory>
    requires valid { IsValidState state.now }
    ensures { IfOk result (λ parent. parent ≡ parent_reason state.now context.now moment.entry.now dependency.now) }
{
    let name = dependency.feature.as_str();
    Ok(ParentReason {
        feature: dependency.feature.copy(alloc)?,
        cause: cause_in(alloc, state, name, context, moment)?,
        met: is_met(alloc, dependency, state, context, moment)?,
    })
}

/// Returns the status of the parent with the given name: `Absent` if the state has no feature with that name.
#[tactic(auto, unfolding(crate::specs::Reasons::cause_in))]
fn cause_in(
    alloc: Global,
    state: &State,
    name: &str,
    context: &Context,
    moment: &Moment,
) -> Result<ParentCause, Memory>
    requires valid { IsValidState state.now }
    ensures { IfOk result (λ cause. cause ≡ cause_by_name state.now context.now moment.entry.now name.now) }
{
    match feature_named(&state.features, name) {
        None => Ok(ParentCause::Absent),
        Some(parent) => cause_of(alloc, state, parent, context, moment),
    }
}

/// Returns the status of a parent: `HasParents` if the parent has dependencies of its own (then the parent is not
/// evaluated), otherwise `On` with the name of the parent's variant, or `Off`, as the parent's evaluation says.
#[tactic(auto, unfolding(crate::specs::Reasons::cause_of))]
fn cause_of(
    alloc: Global,
    state: &State,
    parent: &Feature,
    context: &Context,
    moment: &Moment,
) -> Result<ParentCause, Memory>
    requires parent { IsValidFeature parent.now }
    ensures { IfOk result (λ cause. cause ≡ cause_of_feature state.now.segments context.now moment.entry.now parent.now) }
{
    if !parent.dependencies.is_empty() {
        return Ok(ParentCause::HasParents);
    }
    let evaluation = evaluate_where(alloc, true, state, parent, context, moment)?;
    if !evaluation.on {
        return Ok(ParentCause::Off);
    }
    Ok(ParentCause::On(evaluation.variant.name.copy(alloc)?))
}
