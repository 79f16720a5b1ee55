//! Decides whether the dependencies of a feature on other features (its parents) are met, by the Unleash reference on
//! dependencies.
ghost use Rattle.std.specs.Prelude.{◌≡◌, IfOk};
ghost use Rattle.unl_documents.specs.States.{IsValidState};
ghost use Rattle.unl_documents.specs.Valid.{IsValidFeature};
ghost use Rattle.unl_variants.specs.Variant.{is_among as among};
ghost use Rattle.unl_dependencies.specs.Evaluation.{is_met as met, is_met_by as met_by, agrees as agreeing, dependencies_met};
ghost use Rattle.unl_dependencies.specs.Decision.{evaluation_by, asks_for as asks_for_parent};

use crate::evaluation::{Decision, Evaluation, no_variant};
use crate::features::{Features, valid_named};
use crate::picking::decision_where;
use std::alloc::Global;
use unl_context::Context;
use unl_documents::{Dependency, Memory, Text};
use unl_strategies::Moment;

/// Whether all of the dependencies are met in a state, for a context at a moment. The state must be valid: documents
/// within their limits, names and ids strictly ascending. The only error is out of memory.
#[tactic(auto, unfolding(crate::specs::Evaluation::dependencies_met))]
pub fn all_met<F: Features>(
    alloc: Global,
    dependencies: &[Dependency],
    features: &F,
    context: &Context,
    moment: &Moment,
) -> Result<bool, Memory>
    requires valid { IsValidState (F.state features.now) }
    ensures { IfOk result (λ b. b
        ≡ dependencies_met dependencies.now (F.state features.now) context.now moment.entry.now) }
{
    for dependency in dependencies {
        if !is_met(alloc, dependency, features, context, moment)? {
            return Ok(false);
        }
    }
    Ok(true)
}

/// Whether a dependency is met: the state has the parent, and the parent satisfies the dependency. The state must be
/// valid: documents within their limits, names and ids strictly ascending. The only error is out of memory.
#[tactic(auto, unfolding(crate::specs::Evaluation::is_met))]
pub fn is_met<F: Features>(
    alloc: Global,
    dependency: &Dependency,
    features: &F,
    context: &Context,
    moment: &Moment,
) -> Result<bool, Memory>
    requires valid { IsValidState (F.state features.now) }
    ensures { IfOk result (λ b. b ≡ met (F.state features.now) context.now moment.entry.now dependency.now) }
{
    match valid_named(features, dependency.feature.as_str()) {
        None => Ok(false),
        Some(parent) => is_met_by(alloc, dependency, features, parent, context, moment),
    }
}

/// Whether the feature `parent` satisfies a dependency. The name of `parent` is not checked. A parent that has
/// dependencies of its own satisfies no dependency, so a parent's parents are never considered. The parent must be
/// within its limits. The only error is out of memory.
#[tactic(auto, unfolding(crate::specs::Evaluation::is_met_by))]
pub fn is_met_by<F: Features>(
    alloc: Global,
    dependency: &Dependency,
    features: &F,
    parent: &F::Feature,
    context: &Context,
    moment: &Moment,
) -> Result<bool, Memory>
    requires parent { IsValidFeature (F.document parent.now) }
    ensures { IfOk result (λ b. b
        ≡ met_by (F.state features.now).segments context.now moment.entry.now dependency.now (F.document parent.now)) }
{
    if !F::document(parent).dependencies.is_empty() {
        return Ok(false);
    }
    let decision = decision_where(alloc, true, features, parent, context, moment)?;
    Ok(decision_agrees(dependency, decision))
}

/// Whether the evaluation of a parent is the one that a dependency requires. A dependency that is not `enabled`
/// requires that the parent is off. Any other requires that the parent is on and, if the dependency lists variants,
/// that the parent's variant is one of them. A parent without a variant counts as having the variant `disabled`. Does
/// not allocate.
pub fn agrees(dependency: &Dependency, parent: &Evaluation) -> bool
    ensures { result ≡ agreeing dependency.now parent.now }
{
    asks_for(dependency, parent.on, parent.variant.name.as_str())
}

/// Like [`agrees`], for the decision on a parent.
fn decision_agrees(dependency: &Dependency, parent: Decision) -> bool
    ensures { result ≡ agreeing dependency.now (evaluation_by parent.entry) }
{
    match parent {
        Decision::Off => asks_for(dependency, false, no_variant()),
        Decision::On(None) => asks_for(dependency, true, no_variant()),
        Decision::On(Some(variant)) => asks_for(dependency, true, variant.name.as_str()),
    }
}

/// Whether a dependency accepts a parent that is `on` or off and has the variant with this name (`disabled` if it has
/// none).
fn asks_for(dependency: &Dependency, on: bool, variant: &str) -> bool
    ensures { result ≡ asks_for_parent dependency.now on variant.now }
{
    if !dependency.enabled {
        return !on;
    }
    on && (dependency.variants.is_empty() || is_among(dependency.variants.as_slice(), variant))
}

fn is_among(names: &[Text], name: &str) -> bool
    ensures { result ≡ among names.now name.now }
{
    names.iter().any(|one| one.as_str() == name)
}
