//! Collects the toggles of the features that a query asks for.
ghost use Rattle.std.specs.Prelude.{◌++◌, ◌∷◌, [], List, All, OnOk, filter_map, option_to_list};
ghost use Rattle.serde_json.specs.Data.{Data};
ghost use Rattle.unl_compiled.specs.Toggles.{toggle_at, toggle_data, toggle_for, toggle_if, toggle_if_seen, toggles_for};
ghost use Rattle.unl_documents.specs.Chunks.{joined};
ghost use Rattle.unl_documents.specs.Valid.{IsValidFeature};

use crate::feature::CompiledFeature;
use crate::query::ToggleQuery;
use std::alloc::Global;
use unl_dependencies::Evaluation;
use unl_documents::{Chunk, Feature, List, Memory, Shared};

/// Takes toggles, one after the other. A toggle is a feature and its evaluation, as a frontend client gets them. A sink
/// fails only if out of memory, and may then have taken part of a toggle.
pub(crate) trait ToggleSink {
    /// Relates a sink to its state after these toggles were appended.
    ghost appends: { List Data → Self → Self → Type 0 };

    /// Appends the toggle of an evaluated feature.
    fn append(
        &mut self,
        alloc: Global,
        feature: &Feature,
        evaluation: &Evaluation,
    ) -> Result<(), Memory>
        ensures { OnOk result (appends (toggle_data feature.now evaluation.now ∷ []) self.old self.new) };

    /// Appending no toggles leaves the sink unchanged.
    ghost none: { (sink : Self) → appends [] sink sink };

    /// Appending some toggles and then others appends all of them.
    ghost joins: { (first second : List Data) (start middle end : Self)
        → appends first start middle → appends second middle end → appends (first ++ second) start end };
}

/// Appends the toggles that a query asks for, in the order of their names. If the query has exactly one project, the
/// positions of this project's features are taken from the project index. Otherwise each feature is checked: it is
/// visible if its project is among the query's.
pub(crate) fn collect<S: ToggleSink>(
    sink: &mut S,
    alloc: Global,
    query: &ToggleQuery,
) -> Result<(), Memory>
    ensures { OnOk result (S.appends (toggles_for query.now) sink.old sink.new) }
{
    match query.places() {
        None => collect_seen(sink, alloc, query, query.chunks()),
        Some(places) => collect_at(sink, alloc, query, places),
    }
}

/// Appends those toggles of the features at these positions that the query asks for. The features need not be visible.
fn collect_at<S: ToggleSink>(
    sink: &mut S,
    alloc: Global,
    query: &ToggleQuery,
    places: &[usize],
) -> Result<(), Memory>
    ensures { OnOk result (S.appends (filter_map (toggle_at query.now) places.now) sink.old sink.new) }
{
    for place in places {
        collect_place(sink, alloc, query, *place)?;
    }
    Ok(())
}

/// Appends the toggle of the feature at a position, if there is one and the query asks for its toggle. The
/// feature need not be visible.
fn collect_place<S: ToggleSink>(
    sink: &mut S,
    alloc: Global,
    query: &ToggleQuery,
    place: usize,
) -> Result<(), Memory>
    ensures { OnOk result (S.appends (option_to_list (toggle_at query.now place)) sink.old sink.new) }
{
    match query.feature(place) {
        None => Ok(()),
        Some(feature) => collect_one(sink, alloc, query, feature),
    }
}

/// Appends those toggles of the visible features in these chunks that the query asks for.
fn collect_seen<S: ToggleSink>(
    sink: &mut S,
    alloc: Global,
    query: &ToggleQuery,
    chunks: &[Chunk<CompiledFeature>],
) -> Result<(), Memory>
    requires { All IsValidFeature (joined chunks.now) }
    ensures { OnOk result (S.appends (filter_map (toggle_if_seen query.now) (joined chunks.now)) sink.old sink.new) }
{
    for chunk in chunks {
        collect_chunk(sink, alloc, query, chunk.get())?;
    }
    Ok(())
}

/// Appends those toggles of the visible features in a chunk that the query asks for.
fn collect_chunk<S: ToggleSink>(
    sink: &mut S,
    alloc: Global,
    query: &ToggleQuery,
    chunk: &List<Shared<CompiledFeature>>,
) -> Result<(), Memory>
    requires { All IsValidFeature chunk.now }
    ensures { OnOk result (S.appends (filter_map (toggle_if_seen query.now) chunk.now) sink.old sink.new) }
{
    for feature in chunk.as_slice() {
        collect_if_seen(sink, alloc, query, feature.get())?;
    }
    Ok(())
}

/// Appends the toggle of a feature, if the feature is visible and the query asks for the toggle.
fn collect_if_seen<S: ToggleSink>(
    sink: &mut S,
    alloc: Global,
    query: &ToggleQuery,
    feature: &CompiledFeature,
) -> Result<(), Memory>
    requires { IsValidFeature feature.now }
    ensures { OnOk result (S.appends (option_to_list (toggle_if_seen query.now feature.now)) sink.old sink.new) }
{
    if query.sees(feature) {
        return collect_one(sink, alloc, query, feature);
    }
    Ok(())
}

/// Appends the toggle of a feature, if the query asks for it.
#[tactic(auto, unfolding(crate::specs::Toggles::toggle_of))]
fn collect_one<S: ToggleSink>(
    sink: &mut S,
    alloc: Global,
    query: &ToggleQuery,
    feature: &CompiledFeature,
) -> Result<(), Memory>
    requires { IsValidFeature feature.now }
    ensures { OnOk result (S.appends (option_to_list (toggle_for query.now feature.now)) sink.old sink.new) }
{
    let evaluation = query.evaluate(alloc, feature)?;
    collect_if_asked(sink, alloc, query, feature.document(), &evaluation)
}

/// Appends the toggle of an evaluated feature, if the query asks for it.
fn collect_if_asked<S: ToggleSink>(
    sink: &mut S,
    alloc: Global,
    query: &ToggleQuery,
    feature: &Feature,
    evaluation: &Evaluation,
) -> Result<(), Memory>
    ensures { OnOk result
        (S.appends (option_to_list (toggle_if query.now.all feature.now evaluation.now)) sink.old sink.new) }
{
    if query.asks_for(evaluation) {
        return sink.append(alloc, feature, evaluation);
    }
    Ok(())
}
