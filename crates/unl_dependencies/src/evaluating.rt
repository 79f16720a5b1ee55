//! Evaluates a feature of a state, including its dependencies, for a context (the data about a user) at a moment (the
//! time, the source of random numbers and the host name).
ghost use Rattle.std.specs.Prelude.{◌≡◌, IfOk};
ghost use Rattle.unl_documents.specs.States.{IsValidState};
ghost use Rattle.unl_documents.specs.Valid.{IsValidFeature};
ghost use Rattle.unl_dependencies.specs.Evaluation.{feature_evaluation, evaluation_of};
ghost use Rattle.unl_dependencies.specs.Decision.{evaluation_by};

use crate::dependencies::all_met;
use crate::evaluation::{Decision, Evaluation};
use crate::features::{Features, valid_named};
use crate::picking::decision_where;
use std::alloc::Global;
use unl_context::Context;
use unl_documents::Memory;
use unl_strategies::Moment;

/// Evaluates the feature with the given name for a context at a moment. The state must be valid: documents within their
/// limits, names and ids strictly ascending. Returns `Ok(None)` exactly if the state has no feature with that name. The
/// only error is out of memory.
#[tactic(auto, unfolding(crate::specs::Evaluation::evaluation_of))]
pub fn evaluate<F: Features>(
    alloc: Global,
    features: &F,
    name: &str,
    context: &Context,
    moment: &Moment,
) -> Result<Option<Evaluation>, Memory>
    requires valid { IsValidState (F.state features.now) }
    ensures value { IfOk result (λ found. found
        ≡ evaluation_of (F.state features.now) name.now context.now moment.entry.now) }
{
    match valid_named(features, name) {
        None => Ok(None),
        Some(feature) => Ok(Some(evaluate_feature(alloc, features, feature, context, moment)?)),
    }
}

/// Evaluates a feature for a context at a moment, in a state. The state must be valid: documents within their limits,
/// names and ids strictly ascending. The feature must be within its limits; it need not be in the state. Of the state,
/// the result depends only on the feature's parents, and on the segments that the strategies of the feature and its
/// parents refer to. The only error is out of memory.
pub fn evaluate_feature<F: Features>(
    alloc: Global,
    features: &F,
    feature: &F::Feature,
    context: &Context,
    moment: &Moment,
) -> Result<Evaluation, Memory>
    requires valid { IsValidState (F.state features.now) }
    requires feature { IsValidFeature (F.document feature.now) }
    ensures value { IfOk result (λ e. e
        ≡ feature_evaluation (F.state features.now) (F.document feature.now) context.now moment.entry.now) }
{
    decide(alloc, features, feature, context, moment)?.evaluation(alloc)
}

/// Like [`evaluate_feature`], but borrows the variant instead of copying it. The only error is out of memory.
#[tactic(auto, unfolding(crate::specs::Evaluation::feature_evaluation))]
pub fn decide<'a, F: Features>(
    alloc: Global,
    features: &F,
    feature: &'a F::Feature,
    context: &Context,
    moment: &Moment,
) -> Result<Decision<'a>, Memory>
    requires valid { IsValidState (F.state features.now) }
    requires feature { IsValidFeature (F.document feature.now) }
    ensures { IfOk result (λ v. evaluation_by v
        ≡ feature_evaluation (F.state features.now) (F.document feature.now) context.now moment.entry.now) }
{
    let dependencies = F::document(feature).dependencies.as_slice();
    let met = all_met(alloc, dependencies, features, context, moment)?;
    decision_where(alloc, met, features, feature, context, moment)
}
