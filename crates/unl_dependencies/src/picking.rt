//! Decides whether a feature is on, and with which variant, once it is known whether its dependencies are met.
ghost use Rattle.std.specs.Prelude.{◌≡◌, ◌≤◌, length, IfOk, option_map};
ghost use Rattle.unl_documents.specs.Valid.{IsValidFeature};
ghost use Rattle.unl_variants.specs.Variant.{AreWithinLimits};
ghost use Rattle.unl_dependencies.specs.Evaluation.{first_active as first_active_of};
ghost use Rattle.unl_dependencies.specs.Evaluation.{strategy_variant as variant_of_strategy, own_variant as own_variant_of};
ghost use Rattle.unl_dependencies.specs.Evaluation.{variant_of_feature};
ghost use Rattle.unl_dependencies.specs.Evaluation.{variant_in as variant_chosen_in, evaluation_where};
ghost use Rattle.unl_dependencies.specs.Decision.{evaluation_by};
ghost use Rattle.unl_strategies.specs.Random.{random_number, random_id as id_number};

use crate::evaluation::{Decision, Evaluation};
use crate::features::Features;
use std::alloc::Global;
use unl_context::Context;
use unl_documents::{Feature, List, Memory, Variant};
use unl_strategies::{Mark, Moment, parameter_or, random_for, random_id};
use unl_variants::choose;

/// Evaluates a feature for a context at a moment. `met` says whether the feature's dependencies are met; they are not
/// evaluated here. Of the state, only the segments are used. The feature must be within its limits. The only error is
/// out of memory.
pub fn evaluate_where<F: Features>(
    alloc: Global,
    met: bool,
    features: &F,
    feature: &F::Feature,
    context: &Context,
    moment: &Moment,
) -> Result<Evaluation, Memory>
    requires valid { IsValidFeature (F.document feature.now) }
    ensures { IfOk result (λ e. e ≡ evaluation_where met (F.document feature.now) (F.state features.now).segments
        context.now moment.entry.now) }
{
    decision_where(alloc, met, features, feature, context, moment)?.evaluation(alloc)
}

/// Like [`evaluate_where`], but borrows the variant instead of copying it.
#[tactic(auto, unfolding(crate::specs::Evaluation::evaluation_where, crate::specs::Evaluation::is_on))]
pub(crate) fn decision_where<'a, F: Features>(
    alloc: Global,
    met: bool,
    features: &F,
    feature: &'a F::Feature,
    context: &Context,
    moment: &Moment,
) -> Result<Decision<'a>, Memory>
    requires valid { IsValidFeature (F.document feature.now) }
    ensures { IfOk result (λ v. evaluation_by v ≡ evaluation_where met (F.document feature.now) (F.state features.now).segments
        context.now moment.entry.now) }
{
    let document = F::document(feature);
    if !document.enabled || !met {
        return Ok(Decision::Off);
    }
    let first = first_active(alloc, features, feature, context, moment)?;
    if !document.strategies.is_empty() && first.is_none() {
        return Ok(Decision::Off);
    }
    Ok(Decision::On(variant_of(document, context, moment, first)))
}

/// Returns the index, from 0, of the first strategy that is active, or `None` if none is. The feature must be within
/// its limits. The only error is out of memory.
pub fn first_active<F: Features>(
    alloc: Global,
    features: &F,
    feature: &F::Feature,
    context: &Context,
    moment: &Moment,
) -> Result<Option<u32>, Memory>
    requires valid { IsValidFeature (F.document feature.now) }
    ensures { IfOk result (λ first. first
        ≡ first_active_of (F.document feature.now) (F.state features.now).segments context.now moment.entry.now) }
{
    let count = F::document(feature).strategies.len();
    first_among(alloc, count, features, feature, context, moment)
}

#[tactic(auto, unfolding(crate::specs::Evaluation::first_active))]
fn first_among<F: Features>(
    alloc: Global,
    count: usize,
    features: &F,
    feature: &F::Feature,
    context: &Context,
    moment: &Moment,
) -> Result<Option<u32>, Memory>
    requires few { count ≤ 100 }
    requires all { count ≡ length (F.document feature.now).strategies }
    ensures { IfOk result (λ first. first
        ≡ first_active_of (F.document feature.now) (F.state features.now).segments context.now moment.entry.now) }
{
    for place in 0..count {
        if features.is_active(alloc, feature, place as u32, context, moment)? {
            return Ok(Some(place as u32));
        }
    }
    Ok(None)
}

/// Returns the variant of a feature that is on. `first` is the index of the feature's first active strategy, if there
/// is one. The variant is chosen among those of this strategy, or else among the feature's own. The feature must be
/// within its limits. Does not allocate.
#[tactic(auto, unfolding(crate::specs::Evaluation::variant_of_feature))]
pub fn variant_of<'a>(
    feature: &'a Feature,
    context: &Context,
    moment: &Moment,
    first: Option<u32>,
) -> Option<&'a Variant>
    requires valid { IsValidFeature feature.now }
    ensures { option_map (λ v. v.now) result ≡ variant_of_feature feature.now context.now moment.entry.now first }
{
    match first {
        None => own_variant(feature, context, moment),
        Some(place) => match strategy_variant(feature, context, moment, place) {
            Some(variant) => Some(variant),
            None => own_variant(feature, context, moment),
        },
    }
}

/// Returns the variant that is chosen among those of the strategy at the index `place`, from 0. Returns `None` if there
/// is no such strategy or no variant is chosen. The group, which is hashed to choose by weight, is the strategy's
/// parameter `groupId`, or the feature's name if this parameter is absent or empty. The feature must be within its
/// limits. Does not allocate.
#[tactic(auto, unfolding(crate::specs::Evaluation::strategy_variant))]
pub fn strategy_variant<'a>(
    feature: &'a Feature,
    context: &Context,
    moment: &Moment,
    place: u32,
) -> Option<&'a Variant>
    requires valid { IsValidFeature feature.now }
    ensures { option_map (λ v. v.now) result ≡ variant_of_strategy feature.now context.now moment.entry.now place }
{
    let strategy = feature.strategies.get(place as usize)?;
    let group = parameter_or(&strategy.parameters, "groupId", feature.name.as_str());
    let name = feature.name.as_str();
    variant_drawn(
        group,
        &strategy.variants,
        context,
        name,
        Mark::Strategy(place),
        moment.word,
    )
}

/// Returns the variant that is chosen among the feature's own, with the feature's name as the group, or `None` if no
/// variant is chosen. The feature must be within its limits. Does not allocate.
#[tactic(auto, unfolding(crate::specs::Evaluation::own_variant))]
pub fn own_variant<'a>(
    feature: &'a Feature,
    context: &Context,
    moment: &Moment,
) -> Option<&'a Variant>
    requires valid { IsValidFeature feature.now }
    ensures { option_map (λ v. v.now) result ≡ own_variant_of feature.now context.now moment.entry.now }
{
    let name = feature.name.as_str();
    variant_drawn(
        name,
        &feature.variants,
        context,
        name,
        Mark::Own,
        moment.word,
    )
}

/// Like `variant_in`, with a random id that comes from a random number for the feature and `mark`. The mark says
/// whether the variants are a strategy's or the feature's own. The number is computed only if there are variants.
#[tactic(auto, unfolding(crate::specs::Evaluation::variant_in, unl_variants::specs::Variant::choice_of))]
fn variant_drawn<'a>(
    group: &str,
    variants: &'a List<Variant>,
    context: &Context,
    feature: &str,
    mark: Mark,
    word: u64,
) -> Option<&'a Variant>
    requires limits { AreWithinLimits variants.now }
    ensures { option_map (λ v. v.now) result
        ≡ variant_chosen_in group.now variants.now context.now (id_number (random_number feature.now mark word)) }
{
    if variants.is_empty() {
        return None;
    }
    let random = random_for(feature, mark, word);
    variant_in(group, variants, context, random_id(random))
}

/// Returns the first variant with an override for the context, or else one chosen by weight. Returns `None` if the
/// weights sum to 0, even if there is such an override. The choice by weight hashes `group` and the text of the context
/// that the stickiness selects. If the stickiness selects no text, the random id `random` is hashed instead.
#[tactic(auto, unfolding(crate::specs::Evaluation::variant_in))]
fn variant_in<'a>(
    group: &str,
    variants: &'a List<Variant>,
    context: &Context,
    random: u32,
) -> Option<&'a Variant>
    requires limits { AreWithinLimits variants.now }
    ensures { option_map (λ v. v.now) result ≡ variant_chosen_in group.now variants.now context.now random }
{
    variants.get(choose(group, variants, context, random)?)
}
