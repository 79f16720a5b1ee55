//! Updates the project index when one feature is added, removed or moved to another project.
ghost use Rattle.std.specs.Prelude.{◌≡◌, ◌++◌, ◌≤◌, false, ℕ, List, Some, drop, length, map, option_map, IfOk, OnOk};
ghost use Rattle.std.specs.Option.{option_map_or};
ghost use Rattle.std.specs.Str.{bytes_eq};
ghost use Rattle.unl_compiled.specs.Moving.{AllMoved, IsMoved, IsParted};
ghost use Rattle.unl_compiled.specs.Moving.{count_if, count_of, count_below, moved, place_if, shifted, unlisted};
ghost use Rattle.unl_compiled.specs.Places.{listed};

use crate::index::{ProjectPlaces, add_project, slot_of};
use std::alloc::Global;
use std::marker::Model;
use unl_documents::{List, Memory, Text};

/// A change at one position: a feature of project `removed` is removed, and then one of project `inserted` is inserted.
/// Either may be left out.
#[derive(Drop)]
pub(crate) struct Change<'a> {
    /// The position of the change in the list of all features.
    pub place: usize,
    /// The project of the removed feature, if one is removed.
    pub removed: Option<&'a Text>,
    /// The project of the inserted feature, if one is inserted.
    pub inserted: Option<&'a Text>,
}

impl<'a> Model for Change<'a> {
    ghost use Rattle.std.specs.Prelude.{option_map};
    ghost use Rattle.unl_compiled.specs.Moving.{Change as Plain};

    ghost Value = { Plain };

    ghost view = { λ c. record {
      place = c.place;
      removed = option_map (λ t. t.now) c.removed;
      inserted = option_map (λ t. t.now) c.inserted;
    } };
}

/// The project index after a change. The result is right for each project whose positions in `index` ascend.
pub(crate) fn changed(
    alloc: Global,
    index: &[ProjectPlaces],
    change: &Change,
) -> Result<List<ProjectPlaces>, Memory>
    ensures { IfOk result (λ new. (p : List ℕ) → IsParted change.now.place (listed p index.now)
        → listed p new ≡ moved change.now p (listed p index.now)) }
{
    let mut new = changed_each(alloc, index, change)?;
    push_unlisted(&mut new, alloc, index, change)?;
    Ok(new)
}

/// The entries of the projects that are listed before the change, with their positions after it.
fn changed_each(
    alloc: Global,
    index: &[ProjectPlaces],
    change: &Change,
) -> Result<List<ProjectPlaces>, Memory>
    ensures { IfOk result (AllMoved change.now index.now) }
{
    let mut new = List::new(alloc);
    for entry in index {
        new.push(changed_entry(alloc, entry, change)?)?;
    }
    Ok(new)
}

fn changed_entry(
    alloc: Global,
    entry: &ProjectPlaces,
    change: &Change,
) -> Result<ProjectPlaces, Memory>
    ensures { IfOk result (IsMoved change.now entry.now) }
{
    let project = entry.project.get();
    let places = changed_places(alloc, entry.places.as_slice(), project, change)?;
    Ok(ProjectPlaces {
        places,
        project: entry.project.copy()?,
    })
}

/// Appends an entry for the inserted feature's project to `new`, if the project isn't listed in `index`.
fn push_unlisted(
    new: &mut List<ProjectPlaces>,
    alloc: Global,
    index: &[ProjectPlaces],
    change: &Change,
) -> Result<(), Memory>
    ensures { OnOk result (new.new ≡ new.old ++ unlisted change.now.inserted change.now.place index.now) }
{
    match change.inserted {
        None => Ok(()),
        Some(project) => push_project(new, alloc, index, project, change.place),
    }
}

fn push_project(
    new: &mut List<ProjectPlaces>,
    alloc: Global,
    index: &[ProjectPlaces],
    project: &Text,
    place: usize,
) -> Result<(), Memory>
    ensures { OnOk result (new.new ≡ new.old ++ unlisted (Some project.now) place index.now) }
{
    if slot_of(index, project.as_str()) < index.len() {
        return Ok(());
    }
    add_project(new, alloc, project, place)
}

/// The positions of a project's features after a change. `places` are the positions before it, in ascending order.
fn changed_places(
    alloc: Global,
    places: &[usize],
    project: &Text,
    change: &Change,
) -> Result<List<usize>, Memory>
    ensures { IfOk result (λ list. IsParted change.now.place places.now → list ≡ moved change.now project.now places.now) }
{
    let (low, high) = places.split_at(count_below_of(places, change.place));
    let high = without_first(high, is_project(change.removed, project));
    let high = all_shifted(
        alloc,
        high,
        count_of(change.removed),
        count_of(change.inserted),
    )?;
    let mut list = Vec::with_capacity(alloc, places.len().saturating_add(1))?;
    list.extend_from_slice(low)?;
    push_if(
        &mut list,
        is_project(change.inserted, project),
        change.place,
    )?;
    list.extend_from_slice(high.as_slice())?;
    Ok(List::from_vec(list))
}

/// The number of positions that are less than `place`, by binary search. The positions ascend.
fn count_below_of(places: &[usize], place: usize) -> usize
    ensures cut { IsParted place places.now → result ≡ count_below place places.now }
    ensures inside { result ≤ length places.now }
{
    places.partition_point(|other| *other < place)
}

/// The positions without the first one if `goes`, otherwise all of them.
fn without_first(places: &[usize], goes: bool) -> &[usize]
    ensures { result.now ≡ drop (count_if goes) places.now }
{
    if !goes {
        return places;
    }
    match places {
        [] => places,
        [_, rest @ ..] => rest,
    }
}

/// Appends the position if `so` is true.
fn push_if(list: &mut Vec<usize>, so: bool, place: usize) -> Result<(), Memory>
    ensures { OnOk result (list.new.items ≡ list.old.items ++ place_if so place) }
{
    if so {
        list.push(place)?;
    }
    Ok(())
}

/// Shifts each of these positions: `less` features before the position are removed, and then `more` features are
/// inserted before it.
fn all_shifted(
    alloc: Global,
    places: &[usize],
    less: usize,
    more: usize,
) -> Result<Vec<usize>, Memory>
    ensures { IfOk result (λ list. list.items ≡ map (shifted less more) places.now) }
{
    let mut list = Vec::from_slice(alloc, places)?;
    shift_all(list.as_mut_slice(), less, more)?;
    Ok(list)
}

fn shift_all(places: &mut [usize], less: usize, more: usize) -> Result<(), Memory>
    ensures { OnOk result (places.new ≡ map (shifted less more) places.old) }
{
    for place in places.iter_mut() {
        *place = shifted(*place, less, more)?;
    }
    Ok(())
}

/// Shifts a position: `less` features before it are removed, and then `more` features are inserted before it. An
/// overflow of the position is reported as out of memory.
fn shifted(place: usize, less: usize, more: usize) -> Result<usize, Memory>
    ensures { IfOk result (λ n. n ≡ shifted less more place) }
{
    place.saturating_sub(less).checked_add(more).ok_or(Memory)
}

/// The number of features that a change removes or inserts: 1 if there is a project, otherwise 0.
fn count_of(project: Option<&Text>) -> usize
    ensures { result ≡ count_of (option_map (λ t. t.now) project.entry) }
{
    match project {
        None => 0,
        Some(_) => 1,
    }
}

/// Whether `found` is this project; false for `None`.
pub(crate) fn is_project(found: Option<&Text>, project: &Text) -> bool
    ensures { result ≡ option_map_or (λ p. bytes_eq p project.now) (option_map (λ t. t.now) found.entry) false }
{
    match found {
        None => false,
        Some(other) => other.as_str() == project.as_str(),
    }
}
