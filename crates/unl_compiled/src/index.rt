//! An index from each project to the positions of its features.
ghost use Rattle.std.specs.Prelude.{◌≡◌, ◌∷◌, [], ◌++◌, ◌+◌, ◌≤◌, ℕ, List, length, not, option_map, IfOk, OnOk, if◌then◌else◌};
ghost use Rattle.std.specs.List.{prefix_len};
ghost use Rattle.std.specs.Str.{bytes_eq};
ghost use Rattle.unl_compiled.specs.Places.{IsIndex, listed, one_project, places_from};
ghost use Rattle.unl_documents.specs.Chunks.{joined};

use crate::feature::CompiledFeature;
use std::alloc::Global;
use unl_documents::{Chunk, List, Memory, Shared, Text, TryClone};
use unl_tokens::Projects;

/// A project, and the positions of its features in the list of all features. Positions count from 0.
#[derive(Drop)]
pub(crate) struct ProjectPlaces {
    /// The name of the project.
    pub project: Shared<Text>,
    /// The positions of its features, ascending.
    pub places: List<usize>,
}

/// Builds the index of the features of these chunks. Only projects that have features are listed.
pub(crate) fn index_of(
    alloc: Global,
    chunks: &[Chunk<CompiledFeature>],
) -> Result<List<ProjectPlaces>, Memory>
    ensures { IfOk result (IsIndex (joined chunks.now)) }
{
    let mut index = List::new(alloc);
    let mut place = 0;
    for chunk in chunks {
        place = add_chunk(&mut index, alloc, chunk.get(), place)?;
    }
    Ok(index)
}

/// Adds the features of a chunk to the index. `first` is the position of the chunk's first feature. Returns the
/// position after that of the chunk's last feature.
fn add_chunk(
    index: &mut List<ProjectPlaces>,
    alloc: Global,
    chunk: &List<Shared<CompiledFeature>>,
    first: usize,
) -> Result<usize, Memory>
    ensures places { OnOk result ((p : List ℕ) → listed p index.new ≡ listed p index.old ++ places_from first p chunk.now) }
    ensures next { IfOk result (λ next. next ≡ first + length chunk.now) }
{
    let mut place = first;
    for feature in chunk.as_slice() {
        add(index, alloc, &feature.get().document().project, place)?;
        place = next_place(place)?;
    }
    Ok(place)
}

/// The next position. An overflow is reported as out of memory.
fn next_place(place: usize) -> Result<usize, Memory>
    ensures { IfOk result (λ next. next ≡ place + 1) }
{
    place.checked_add(1).ok_or(Memory)
}

/// Adds a position to those of a project. A project that isn't listed gets an entry.
fn add(
    index: &mut List<ProjectPlaces>,
    alloc: Global,
    project: &Text,
    place: usize,
) -> Result<(), Memory>
    ensures { OnOk result ((p : List ℕ) → listed p index.new
        ≡ listed p index.old ++ (if bytes_eq project.now p then place ∷ [] else [])) }
{
    let slot = slot_of(index.as_slice(), project.as_str());
    if slot == index.len() {
        return add_project(index, alloc, project, place);
    }
    index.get_mut(slot).places.push(place)
}

/// Appends an entry for a project, with one position.
pub(crate) fn add_project(
    index: &mut List<ProjectPlaces>,
    alloc: Global,
    project: &Text,
    place: usize,
) -> Result<(), Memory>
    ensures { OnOk result (index.new ≡ index.old ++ record { project = project.now; places = place ∷ [] } ∷ []) }
{
    let mut places = List::new(alloc);
    places.push(place)?;
    let project = Shared::new(alloc, project.copy(alloc)?)?;
    index.push(ProjectPlaces { project, places })
}

/// The position of a project's entry in the index, or the length of the index if the project isn't listed.
pub(crate) fn slot_of(index: &[ProjectPlaces], project: &str) -> usize
    ensures slot { result ≡ prefix_len (λ e. not (bytes_eq e.project project.now)) index.now }
    ensures inside { result ≤ length index.now }
{
    for slot in 0..index.len() {
        if index[slot].project.get().as_str() == project {
            return slot;
        }
    }
    index.len()
}

/// The positions of a project's features. Empty if the project isn't listed.
pub(crate) fn places_of<'a>(index: &'a [ProjectPlaces], project: &str) -> &'a [usize]
    ensures { result.now ≡ listed project.now index.now }
{
    for entry in index {
        if entry.project.get().as_str() == project {
            return entry.places.as_slice();
        }
    }
    &[]
}

/// If `projects` is exactly one named project, the positions of its features; otherwise `None`.
pub(crate) fn places_of_one<'a>(
    index: &'a [ProjectPlaces],
    projects: &Projects,
) -> Option<&'a [usize]>
    ensures { option_map (λ places. places.now) result
        ≡ option_map (λ project. listed project index.now) (one_project projects.now) }
{
    let Projects::Only(names) = projects else {
        return None;
    };
    match names.as_slice() {
        [name] => Some(places_of(index, name.as_str())),
        _ => None,
    }
}
