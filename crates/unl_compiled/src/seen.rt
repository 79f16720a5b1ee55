//! Lookups of features by name, among all features of a version or only those of some projects.
ghost use Rattle.std.specs.Prelude.{◌≡◌, ◌≤◌, IfOk, length, map, option_and_then, option_map, slice_get, take};
ghost use Rattle.std.specs.Cmp.Lexicographic.{slice_cmp};
ghost use Rattle.std.specs.List.{prefix_len};
ghost use Rattle.std.specs.Ordering.{nat_cmp, is_lt};
ghost use Rattle.unl_compiled.specs.Places.{if_name};
ghost use Rattle.unl_delta.specs.Keyed.{ends_before};
ghost use Rattle.unl_delta.specs.View.{view_of};
ghost use Rattle.unl_dependencies.specs.Evaluation.{feature_named as feature_with};
ghost use Rattle.unl_dependencies.specs.Laws.{if_seen as if_project_seen};
ghost use Rattle.unl_documents.specs.Parameters.{AreRising};
ghost use Rattle.unl_documents.specs.Chunks.{joined, NoneIsEmpty};
ghost use Rattle.unl_documents.specs.States.{IsValidState, name_key};
ghost use Rattle.unl_tokens.specs.Names.{sees};

use crate::feature::CompiledFeature;
use crate::parts::Parts;
use std::alloc::Global;
use std::marker::Model;
use unl_context::Context;
use unl_dependencies::Features;
use unl_documents::{Chunk, Feature, List, Memory, Shared, checked_sum, item_count};
use unl_strategies::Moment;
use unl_tokens::Projects;

/// The visible part of a version: the features whose project is in `projects`, and all segments. In contracts the value
/// is the state that they form.
#[derive(Drop)]
pub(crate) struct Seen<'a> {
    parts: &'a Parts,
    projects: &'a Projects,
}

impl<'a> Model for Seen<'a> {
    ghost use Rattle.std.specs.Prelude.{map};
    ghost use Rattle.unl_delta.specs.View.{view_of};
    ghost use Rattle.unl_documents.specs.Parameters.{AreRising};
    ghost use Rattle.unl_documents.specs.States.{name_key, id_key};
    ghost use Rattle.unl_documents.specs.declared.state.State.{State};
    ghost use Rattle.unl_tokens.specs.Names.{sees};

    ghost Value = { State };

    ghost view = { λ s. view_of (sees s.projects.now) s.parts.now };

    ghost invariant = { λ s. AreRising (map name_key s.parts.now.features) × AreRising (map id_key s.parts.now.segments) };
}

impl<'a> Seen<'a> {
    /// The visible part of a valid state. Nothing is copied.
    pub(crate) fn of(parts: &'a Parts, projects: &'a Projects) -> Seen<'a>
        requires { IsValidState parts.now }
        ensures view { result ≡ view_of (sees projects.now) parts.now }
        ensures valid { IsValidState result }
    {
        Seen { parts, projects }
    }
}

impl<'a> Features for Seen<'a> {
    type Feature = CompiledFeature;

    ghost state = { λ state. state };

    ghost document = { λ feature. feature };

    fn named(&self, name: &str) -> Option<&CompiledFeature> {
        seen_named(self.parts, self.projects, name)
    }

    fn document(feature: &CompiledFeature) -> &Feature
        ensures { result.now ≡ feature.now }
    {
        feature.document()
    }

    fn is_active(
        &self,
        alloc: Global,
        feature: &CompiledFeature,
        place: u32,
        context: &Context,
        moment: &Moment,
    ) -> Result<bool, Memory> {
        let parts = self.parts;
        let segments = parts.segments.as_slice();
        feature.is_active(alloc, place, segments, context, moment)
    }
}

/// Finds a feature by its name, if the feature's project is in `projects`. The features are in ascending order of their
/// names.
pub(crate) fn seen_named<'a>(
    parts: &'a Parts,
    projects: &Projects,
    name: &str,
) -> Option<&'a CompiledFeature>
    requires { AreRising (map name_key parts.now.features) }
    ensures { option_map (λ f. f.now) result
        ≡ feature_with name.now (view_of (sees projects.now) parts.now).features }
{
    let found = feature_named(parts, name);
    if_seen(projects, found)
}

/// The document of the found feature, if one was found.
pub(crate) fn document_of(found: Option<&CompiledFeature>) -> Option<&Feature>
    ensures { option_map (λ f. f.now) result ≡ option_map (λ f. f.now) found.entry }
{
    match found {
        None => None,
        Some(feature) => Some(feature.document()),
    }
}

/// The found feature, if its project is in `projects`.
fn if_seen<'a>(
    projects: &Projects,
    found: Option<&'a CompiledFeature>,
) -> Option<&'a CompiledFeature>
    ensures { option_map (λ f. f.now) result
        ≡ option_and_then (if_project_seen (sees projects.now)) (option_map (λ f. f.now) found.entry) }
{
    match found {
        None => None,
        Some(feature) => {
            if projects.sees(feature.document().project.as_str()) {
                Some(feature)
            } else {
                None
            }
        }
    }
}

/// Finds a feature by its name. The features are in ascending order of their names.
pub(crate) fn feature_named<'a>(parts: &'a Parts, name: &str) -> Option<&'a CompiledFeature>
    requires { AreRising (map name_key parts.now.features) }
    ensures { option_map (λ f. f.now) result ≡ feature_with name.now parts.now.features }
{
    feature_among(parts.chunks(), name)
}

/// The position of the feature with this name, counted from 0, or where the feature would be inserted. The features are
/// in ascending order of their names. An overflow of the position is reported as out of memory.
pub(crate) fn place_named(parts: &Parts, name: &str) -> Result<usize, Memory>
    requires { AreRising (map name_key parts.now.features) }
    ensures { IfOk result (λ place. place
        ≡ prefix_len (λ f. is_lt (slice_cmp nat_cmp (name_key f) name.now)) parts.now.features) }
{
    place_among(parts.chunks(), name)
}

/// As `place_named`, over the chunks of the features.
fn place_among(chunks: &[Chunk<CompiledFeature>], name: &str) -> Result<usize, Memory>
    requires rising { AreRising (map name_key (joined chunks.now)) }
    requires full { NoneIsEmpty chunks.now }
    ensures { IfOk result (λ place. place
        ≡ prefix_len (λ f. is_lt (slice_cmp nat_cmp (name_key f) name.now)) (joined chunks.now)) }
{
    let place = chunk_of(chunks, name);
    let before = item_count(first(chunks, place))?;
    match chunk_at(chunks, place) {
        None => Ok(before),
        Some(chunk) => checked_sum(before, place_of(chunk.as_slice(), name)),
    }
}

/// The first `place` chunks.
fn first(chunks: &[Chunk<CompiledFeature>], place: usize) -> &[Chunk<CompiledFeature>]
    requires { place ≤ length chunks.now }
    ensures { result.now ≡ take place chunks.now }
{
    &chunks[..place]
}

/// Finds a feature by its name in chunks whose features are in ascending order of their names. The feature can only be
/// in the first chunk whose last feature's name is not less than the name.
fn feature_among<'a>(
    chunks: &'a [Chunk<CompiledFeature>],
    name: &str,
) -> Option<&'a CompiledFeature>
    requires rising { AreRising (map name_key (joined chunks.now)) }
    requires full { NoneIsEmpty chunks.now }
    ensures { option_map (λ f. f.now) result ≡ feature_with name.now (joined chunks.now) }
{
    match chunk_at(chunks, chunk_of(chunks, name)) {
        None => None,
        Some(chunk) => feature_in(chunk, name),
    }
}

/// The chunk at an index.
fn chunk_at(
    chunks: &[Chunk<CompiledFeature>],
    place: usize,
) -> Option<&List<Shared<CompiledFeature>>>
    ensures { option_map (λ chunk. chunk.now) result ≡ slice_get chunks.now place }
{
    Some(chunks.get(place)?.get())
}

/// The index of the first chunk whose last feature's name is not less than the name, or the number of chunks if there
/// is none, by binary search. No other chunk can have a feature with the name.
fn chunk_of(chunks: &[Chunk<CompiledFeature>], name: &str) -> usize
    requires rising { AreRising (map name_key (joined chunks.now)) }
    requires full { NoneIsEmpty chunks.now }
    ensures { result ≡ prefix_len (ends_before name_key name.now) chunks.now }
{
    chunks.partition_point(|chunk| ends_before(chunk.get().as_slice(), name))
}

/// Whether the features end before a name: the name of the last feature is less than the name. False if there are no
/// features.
fn ends_before(features: &[Shared<CompiledFeature>], name: &str) -> bool
    ensures { result ≡ ends_before name_key name.now features.now }
{
    match features.last() {
        None => false,
        Some(last) => last.get().document().name.as_str().cmp(name).is_lt(),
    }
}

/// Finds a feature by its name in one chunk, whose names ascend.
fn feature_in<'a>(
    chunk: &'a List<Shared<CompiledFeature>>,
    name: &str,
) -> Option<&'a CompiledFeature>
    requires { AreRising (map name_key chunk.now) }
    ensures { option_map (λ f. f.now) result ≡ feature_with name.now chunk.now }
{
    let features = chunk.as_slice();
    feature_at(features, place_of(features, name), name)
}

/// The feature at an index, if the feature has the name.
fn feature_at<'a>(
    features: &'a [Shared<CompiledFeature>],
    place: usize,
    name: &str,
) -> Option<&'a CompiledFeature>
    ensures { option_map (λ f. f.now) result ≡ option_and_then (if_name name.now) (slice_get features.now place) }
{
    let feature = features.get(place)?.get();
    if feature.document().name.as_str() == name {
        return Some(feature);
    }
    None
}

/// The position of a name, or where the name would be inserted, by binary search. The names ascend.
fn place_of(features: &[Shared<CompiledFeature>], name: &str) -> usize
    requires { AreRising (map name_key features.now) }
    ensures { result ≡ prefix_len (λ f. is_lt (slice_cmp nat_cmp (name_key f) name.now)) features.now }
{
    features.partition_point(|feature| feature.get().document().name.as_str().cmp(name).is_lt())
}
