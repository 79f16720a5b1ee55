//! The project index after the events of a batch: for each project, the positions of its features in the list of all
//! features. The index before the batch is shared, adjusted or rebuilt.
ghost use Rattle.std.specs.Prelude.{◌≡◌, [], ◌∷◌, false, true, IfOk, map, option_map};
ghost use Rattle.std.specs.List.{list_all};
ghost use Rattle.std.specs.Option.{option_map_or};
ghost use Rattle.unl_compiled.specs.Next.{keeps_place, state_after};
ghost use Rattle.unl_compiled.specs.Places.{IsIndex};
ghost use Rattle.unl_delta.specs.Keyed.{put, without};
ghost use Rattle.unl_delta.specs.State as delta_state;
ghost use Rattle.unl_documents.specs.Parameters.{AreRising};
ghost use Rattle.unl_documents.specs.States.{name_key};

use crate::index::{ProjectPlaces, index_of};
use crate::index_change::{Change, changed, is_project};
use crate::parts::Parts;
use crate::seen::{document_of, feature_named, place_named};
use std::alloc::Global;
use unl_delta::Event;
use unl_documents::{Feature, List, Memory, Shared, Text};

/// The project index after a batch's events. `before` and `projects` are the parts (the compiled features and segments)
/// and the index of the version with the number `number`; `after` are the parts after the events. The index is shared
/// if each event leaves each feature at its position and in its project. Otherwise it is adjusted if there is only one
/// event, which is on a feature and has a number above `number`. In all other cases it is rebuilt.
pub(crate) fn places_after(
    alloc: Global,
    number: u64,
    events: &[Event],
    before: &Parts,
    projects: &Shared<List<ProjectPlaces>>,
    after: &Parts,
) -> Result<Shared<List<ProjectPlaces>>, Memory>
    requires order { delta_state.IsInOrder before.now }
    requires projects { IsIndex before.now.features projects.now }
    requires after { after.now ≡ state_after number events.now before.now }
    ensures { IfOk result (IsIndex after.now.features) }
{
    if keeps_places(before, events) {
        return projects.copy();
    }
    match events {
        [event] => places_after_one(alloc, number, event, before, projects.get(), after),
        _ => all_places(alloc, after),
    }
}

/// Builds the project index of the parts.
pub(crate) fn all_places(
    alloc: Global,
    parts: &Parts,
) -> Result<Shared<List<ProjectPlaces>>, Memory>
    ensures { IfOk result (IsIndex parts.now.features) }
{
    Shared::new(alloc, index_of(alloc, parts.chunks())?)
}

/// As `places_after`, for one event. If the event is on a feature and its number is above `number`, it changes at most
/// that feature and shifts later positions by at most one, so the index is adjusted. Otherwise the index is rebuilt.
fn places_after_one(
    alloc: Global,
    number: u64,
    event: &Event,
    before: &Parts,
    projects: &List<ProjectPlaces>,
    after: &Parts,
) -> Result<Shared<List<ProjectPlaces>>, Memory>
    requires order { delta_state.IsInOrder before.now }
    requires projects { IsIndex before.now.features projects.now }
    requires after { after.now ≡ state_after number (event.now ∷ []) before.now }
    ensures { IfOk result (IsIndex after.now.features) }
{
    if event.number() <= number {
        return all_places(alloc, after);
    }
    match event {
        Event::Hydration { .. } => all_places(alloc, after),
        Event::FeatureUpdated { feature, .. } => {
            places_with(alloc, feature.get(), before, projects)
        }
        Event::FeatureRemoved { name, .. } => places_without(alloc, name, before, projects),
        Event::SegmentUpdated { .. } => all_places(alloc, after),
        Event::SegmentRemoved { .. } => all_places(alloc, after),
    }
}

/// The project index after a feature is added, or replaces the feature with the same name.
fn places_with(
    alloc: Global,
    feature: &Feature,
    parts: &Parts,
    projects: &List<ProjectPlaces>,
) -> Result<Shared<List<ProjectPlaces>>, Memory>
    requires order { AreRising (map name_key parts.now.features) }
    requires projects { IsIndex parts.now.features projects.now }
    ensures { IfOk result (IsIndex (put name_key feature.now parts.now.features)) }
{
    let change = Change {
        place: place_named(parts, feature.name.as_str())?,
        removed: project_of(parts, &feature.name),
        inserted: Some(&feature.project),
    };
    Shared::new(alloc, changed(alloc, projects.as_slice(), &change)?)
}

/// The project index after the feature with this name, if there is one, is removed.
fn places_without(
    alloc: Global,
    name: &Text,
    parts: &Parts,
    projects: &List<ProjectPlaces>,
) -> Result<Shared<List<ProjectPlaces>>, Memory>
    requires order { AreRising (map name_key parts.now.features) }
    requires projects { IsIndex parts.now.features projects.now }
    ensures { IfOk result (IsIndex (without name_key name.now parts.now.features)) }
{
    let change = Change {
        place: place_named(parts, name.as_str())?,
        removed: project_of(parts, name),
        inserted: None,
    };
    Shared::new(alloc, changed(alloc, projects.as_slice(), &change)?)
}

/// Whether each of the events leaves each feature at its position and in its project, as `keeps_place` decides.
fn keeps_places(parts: &Parts, events: &[Event]) -> bool
    requires { AreRising (map name_key parts.now.features) }
    ensures { result ≡ list_all (keeps_place parts.now.features) events.now }
{
    for event in events {
        if !keeps_place(parts, event) {
            return false;
        }
    }
    true
}

/// Whether the event leaves each feature at its position and in its project: it updates a feature without a change of
/// the feature's project, removes a feature that isn't there, or concerns a segment. The event's number is not
/// considered.
fn keeps_place(parts: &Parts, event: &Event) -> bool
    requires { AreRising (map name_key parts.now.features) }
    ensures { result ≡ keeps_place parts.now.features event.now }
{
    match event {
        Event::Hydration { .. } => false,
        Event::FeatureUpdated { feature, .. } => {
            let feature = feature.get();
            is_project(project_of(parts, &feature.name), &feature.project)
        }
        Event::FeatureRemoved { name, .. } => is_missing(project_of(parts, name)),
        Event::SegmentUpdated { .. } => true,
        Event::SegmentRemoved { .. } => true,
    }
}

/// The project of the feature with this name, if there is one. The features are in ascending order of their names.
fn project_of<'a>(parts: &'a Parts, name: &Text) -> Option<&'a Text>
    requires { AreRising (map name_key parts.now.features) }
    ensures { option_map (λ t. t.now) result ≡ delta_state.project_of name.now parts.now.features }
{
    project_in(document_of(feature_named(parts, name.as_str())))
}

/// The project of the found feature, if one was found.
fn project_in(found: Option<&Feature>) -> Option<&Text>
    ensures { option_map (λ t. t.now) result ≡ option_map (λ f. f.project) (option_map (λ f. f.now) found.entry) }
{
    match found {
        None => None,
        Some(feature) => Some(&feature.project),
    }
}

/// Whether no project was found.
fn is_missing(found: Option<&Text>) -> bool
    ensures { result ≡ option_map_or (λ p. false) (option_map (λ t. t.now) found.entry) true }
{
    match found {
        None => true,
        Some(_) => false,
    }
}
