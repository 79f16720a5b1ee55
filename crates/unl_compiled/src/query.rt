//! A query for toggles: the arguments of the frontend endpoints, and the compiled state that the query is answered
//! from.
ghost use Rattle.std.specs.Prelude.{◌≡◌, ◌||◌, All, IfOk, IfSome, filter_map, option_map, slice_get};
ghost use Rattle.unl_compiled.specs.Toggles.{toggle_at, toggle_if_seen, toggles_for, visible};
ghost use Rattle.unl_dependencies.specs.Evaluation.{feature_evaluation};
ghost use Rattle.unl_documents.specs.Chunks.{joined};
ghost use Rattle.unl_documents.specs.Valid.{IsValidFeature};
ghost use Rattle.unl_tokens.specs.Names.{sees};

use crate::feature::CompiledFeature;
use crate::index::{ProjectPlaces, places_of_one};
use crate::parts::Parts;
use crate::seen::Seen;
use std::alloc::Global;
use std::marker::Model;
use unl_context::Context;
use unl_dependencies::{Evaluation, evaluate_feature};
use unl_documents::{Chunk, Memory};
use unl_strategies::Moment;
use unl_tokens::Projects;

/// A query for the toggles of a state's visible features. The state is valid, and `index` is the project index of its
/// features.
#[derive(Drop)]
pub(crate) struct ToggleQuery<'a> {
    /// The compiled state.
    pub parts: &'a Parts,
    /// For each project, the positions of its features in the state.
    pub index: &'a [ProjectPlaces],
    /// The projects whose features are visible.
    pub projects: &'a Projects,
    /// Whether the toggles that are off are included.
    pub all: bool,
    /// The context of the evaluation.
    pub context: &'a Context,
    /// The time of the evaluation, its source of random numbers and the host name.
    pub moment: &'a Moment<'a>,
}

impl<'a> Model for ToggleQuery<'a> {
    ghost use Rattle.unl_compiled.specs.Places.{IsIndex};
    ghost use Rattle.unl_compiled.specs.Toggles.{ToggleQuery as Plain};
    ghost use Rattle.unl_documents.specs.States.{IsValidState};

    ghost Value = { Plain };

    ghost view = { λ q. record {
      state = q.parts.now;
      projects = q.projects.now;
      all = q.all;
      context = q.context.now;
      moment = q.moment.now;
    } };

    ghost invariant = { λ q. IsValidState q.parts.now × IsIndex q.parts.now.features q.index.now };
}

impl<'a> ToggleQuery<'a> {
    /// The positions of the visible features, if the query has exactly one project, otherwise `None`.
    pub(crate) fn places(&self) -> Option<&[usize]>
        ensures { IfSome result (λ places. filter_map (toggle_at self.now) places.now ≡ toggles_for self.now) }
    {
        places_of_one(self.index, self.projects)
    }

    /// The chunks of all features, visible or not.
    pub(crate) fn chunks(&self) -> &[Chunk<CompiledFeature>]
        ensures toggles { filter_map (toggle_if_seen self.now) (joined result.now) ≡ toggles_for self.now }
        ensures valid { All IsValidFeature (joined result.now) }
    {
        self.parts.chunks()
    }

    /// The feature at a position in the list of all features, visible or not.
    pub(crate) fn feature(&self, place: usize) -> Option<&CompiledFeature>
        ensures feature { option_map (λ f. f.now) result ≡ slice_get self.now.state.features place }
        ensures valid { IfSome result (λ f. IsValidFeature f.now) }
    {
        self.parts.feature(place)
    }

    /// Whether a feature is visible.
    pub(crate) fn sees(&self, feature: &CompiledFeature) -> bool
        ensures { result ≡ sees self.now.projects feature.now.project }
    {
        self.projects.sees(feature.document().project.as_str())
    }

    /// Whether the query asks for all toggles, or the feature with this evaluation is on.
    pub(crate) fn asks_for(&self, evaluation: &Evaluation) -> bool
        ensures { result ≡ (self.now.all || evaluation.now.on) }
    {
        self.all || evaluation.on
    }

    /// Evaluates a feature over the visible part of the state: a parent that is not visible counts as absent. The
    /// feature itself need not be visible.
    pub(crate) fn evaluate(
        &self,
        alloc: Global,
        feature: &CompiledFeature,
    ) -> Result<Evaluation, Memory>
        requires { IsValidFeature feature.now }
        ensures { IfOk result (λ e. e
            ≡ feature_evaluation (visible self.now) feature.now self.now.context self.now.moment) }
    {
        let seen = Seen::of(self.parts, self.projects);
        evaluate_feature(alloc, &seen, feature, self.context, self.moment)
    }
}
