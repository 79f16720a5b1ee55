//! The features that evaluations are computed from.
ghost use Rattle.std.specs.Prelude.{◌≡◌, IfOk, IfSome, option_map};
ghost use Rattle.unl_documents.specs.States.{IsValidState};
ghost use Rattle.unl_documents.specs.Valid.{IsValidFeature};
ghost use Rattle.unl_documents.specs.declared.feature.Feature.{Feature as FeatureDocument};
ghost use Rattle.unl_documents.specs.declared.state.State.{State as Whole};
ghost use Rattle.unl_dependencies.specs.Evaluation.{feature_named as feature_with, is_active_at};

use crate::finding::feature_named;
use std::alloc::Global;
use unl_context::Context;
use unl_documents::{Feature, Memory, State};
use unl_strategies::{Moment, active};

/// The features of a state, for evaluation. [`State`] implements this trait for single evaluations. A compiled form,
/// built once for many evaluations, can implement it too. Contracts describe an implementation by the state that it
/// represents (`state`).
pub trait Features {
    /// How the implementation represents a feature.
    type Feature: Drop;

    /// The state that the implementation represents: its features and segments.
    ghost state: { Self → Whole };

    /// The document of a feature.
    ghost document: { Self.Feature → FeatureDocument };

    /// Returns the first feature with the given name, if there is one. Does not allocate.
    fn named(&self, name: &str) -> Option<&Self::Feature>
        ensures { option_map (λ f. document f.now) result ≡ feature_with name.now (state self.now).features };

    /// Returns the document of a feature. Does not allocate.
    fn document(feature: &Self::Feature) -> &Feature
        ensures { result.now ≡ document feature.now };

    /// Whether a feature has a strategy at the index `place`, from 0, and that strategy is active: it accepts the
    /// context. The only error is out of memory.
    fn is_active(
        &self,
        alloc: Global,
        feature: &Self::Feature,
        place: u32,
        context: &Context,
        moment: &Moment,
    ) -> Result<bool, Memory>
        ensures { IfOk result (λ b. b
            ≡ is_active_at (document feature.now) (state self.now).segments context.now moment.entry.now place) };
}

impl Features for State {
    type Feature = Feature;

    ghost state = { λ state. state };

    ghost document = { λ feature. feature };

    fn named(&self, name: &str) -> Option<&Feature> {
        feature_named(&self.features, name)
    }

    fn document(feature: &Feature) -> &Feature {
        feature
    }

    fn is_active(
        &self,
        alloc: Global,
        feature: &Feature,
        place: u32,
        context: &Context,
        moment: &Moment,
    ) -> Result<bool, Memory> {
        match feature.strategies.get(place as usize) {
            None => Ok(false),
            Some(strategy) => active(
                alloc,
                strategy,
                &feature.name,
                place,
                &self.segments,
                context,
                moment,
            ),
        }
    }
}

/// Returns the first feature with the given name, if there is one. The state must be valid; the feature is then
/// within its limits.
pub(crate) fn valid_named<'a, F: Features>(features: &'a F, name: &str) -> Option<&'a F::Feature>
    requires valid { IsValidState (F.state features.now) }
    ensures value { option_map (λ f. F.document f.now) result ≡ feature_with name.now (F.state features.now).features }
    ensures valid { IfSome result (λ f. IsValidFeature (F.document f.now)) }
{
    features.named(name)
}
