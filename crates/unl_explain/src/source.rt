//! Finds where the variant of a feature comes from: its first active strategy, its own variants, or neither.
ghost use Rattle.std.specs.Prelude.{◌≡◌, is_some, option_and_then};
ghost use Rattle.unl_documents.specs.Valid.{IsValidFeature};
ghost use Rattle.unl_dependencies.specs.Evaluation.{own_variant as own_variant_of, strategy_variant as variant_of_strategy};
ghost use Rattle.unl_explain.specs.Reasons.{origin_of};

use crate::reason::Origin;
use unl_context::Context;
use unl_dependencies::{own_variant, strategy_variant};
use unl_documents::Feature;
use unl_strategies::Moment;

/// Returns where the variant of a feature comes from. `on` says whether the feature is on, and `first` is the index of
/// the feature's first active strategy, or `None` if no strategy is active. The feature must be within
/// the limits that are checked when a feature is read from JSON.
#[tactic(auto, unfolding(crate::specs::Reasons::origin_of))]
pub(crate) fn source_of(
    on: bool,
    feature: &Feature,
    context: &Context,
    moment: &Moment,
    first: Option<u32>,
) -> Origin
    requires valid { IsValidFeature feature.now }
    ensures { result ≡ origin_of on feature.now context.now moment.entry.now first }
{
    if !on {
        return Origin::NoVariant;
    }
    if is_given_by_first(feature, context, moment, first) {
        return Origin::Strategy;
    }
    if is_given_by_feature(feature, context, moment) {
        return Origin::Own;
    }
    Origin::NoVariant
}

/// Whether a variant is chosen among those of the strategy at the index `first`. False if `first` is `None`.
fn is_given_by_first(
    feature: &Feature,
    context: &Context,
    moment: &Moment,
    first: Option<u32>,
) -> bool
    requires valid { IsValidFeature feature.now }
    ensures { result ≡ is_some (option_and_then (variant_of_strategy feature.now context.now moment.entry.now) first) }
{
    match first {
        None => false,
        Some(place) => is_given_at(feature, context, moment, place),
    }
}

/// Whether a variant is chosen among those of the strategy at the index `place`.
fn is_given_at(feature: &Feature, context: &Context, moment: &Moment, place: u32) -> bool
    requires valid { IsValidFeature feature.now }
    ensures { result ≡ is_some (variant_of_strategy feature.now context.now moment.entry.now place) }
{
    strategy_variant(feature, context, moment, place).is_some()
}

/// Whether a variant is chosen among the feature's own variants.
fn is_given_by_feature(feature: &Feature, context: &Context, moment: &Moment) -> bool
    requires valid { IsValidFeature feature.now }
    ensures { result ≡ is_some (own_variant_of feature.now context.now moment.entry.now) }
{
    own_variant(feature, context, moment).is_some()
}
