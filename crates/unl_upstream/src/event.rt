//! Turns a command into the event that follows the current version of an environment.
ghost use Rattle.std.specs.Prelude.{◌≡◌, IfOk, OnOk, find, option_map};
ghost use Rattle.unl_delta.specs.State.{project_of};
ghost use Rattle.unl_delta.specs.Valid.{IsValidVersion};
ghost use Rattle.unl_documents.specs.Limits.{IsName};
ghost use Rattle.unl_documents.specs.Results.{Gives};
ghost use Rattle.unl_documents.specs.Valid.{IsValidFeature, IsValidSegment};
ghost use Rattle.unl_upstream.specs.declared.refusal.CommandRefusal.TheVariants.{Memory as memory};
ghost use Rattle.unl_upstream.specs.Command.{IsValidCommand};
ghost use Rattle.unl_upstream.specs.Upstream.{IsNext, event_of, feature_put, feature_removed, has_feature, has_segment, is_feature_named};
ghost use Rattle.unl_upstream.specs.Upstream.{number_after, segment_put, segment_removed};
ghost use Rattle.unl_upstream.specs.Writing.{RemovesName};

use crate::command::Command;
use crate::refusal::CommandRefusal;
use std::alloc::Global;
use unl_delta::keyed::find_in_chunks;
use unl_delta::{EnvVersion, Event};
use unl_documents::{Feature, Segment, Shared, Text, TryClone};

/// The maximum number of features in an environment, chosen by this project.
const MOST_FEATURES: usize = 10_000;

/// The maximum number of segments in an environment, chosen by this project.
const MOST_SEGMENTS: usize = 1_000;

/// Returns the event of a command at a version. The event's number is one above the version's.
///
/// # Errors
/// The first variant of [`CommandRefusal`] after `NoSuchEnvironment` that applies, or `Memory`: out of memory.
pub(crate) fn event_of(
    alloc: Global,
    command: &Command,
    version: &EnvVersion,
) -> Result<Event, CommandRefusal>
    requires command { IsValidCommand command.now }
    requires version { IsValidVersion version.now }
    ensures gives { Gives memory result (event_of command.now version.now) }
    ensures next { IfOk result (IsNext version.now) }
    ensures named { OnOk result (RemovesName command.now) }
{
    match command {
        Command::PutFeature { feature, .. } => put_feature(alloc, feature, version),
        Command::RemoveFeature { name, .. } => remove_feature(alloc, name, version),
        Command::PutSegment { segment, .. } => put_segment(alloc, segment, version),
        Command::RemoveSegment { id, .. } => remove_segment(*id, version),
    }
}

/// Returns the event that adds a feature, or replaces the one with the same name. `TooMany` if the name is new and the
/// environment has 10,000 features, or if the version's number is the last one.
#[tactic(auto, unfolding(crate::specs::Upstream::feature_put))]
fn put_feature(
    alloc: Global,
    feature: &Feature,
    version: &EnvVersion,
) -> Result<Event, CommandRefusal>
    requires feature { IsValidFeature feature.now }
    requires version { IsValidVersion version.now }
    ensures gives { Gives memory result (feature_put feature.now version.now) }
    ensures next { IfOk result (IsNext version.now) }
{
    let count = version.state.features.len()?;
    if !has_feature(&feature.name, version) && count >= MOST_FEATURES {
        return Err(CommandRefusal::TooMany(count as u64));
    }
    let number = number_after(version.number)?;
    let feature = Shared::new(alloc, feature.copy(alloc)?)?;
    Ok(Event::FeatureUpdated { number, feature })
}

/// Returns the event that removes a feature. The event also names the feature's project. `NoSuchFeature` if no feature
/// has this name. `TooMany` if the version's number is the last one.
#[tactic(auto, using(crate::proofs::Next::named_within), unfolding(crate::specs::Upstream::feature_removed))]
fn remove_feature(alloc: Global, name: &Text, version: &EnvVersion) -> Result<Event, CommandRefusal>
    requires { IsValidVersion version.now }
    ensures gives { Gives memory result (feature_removed name.now version.now) }
    ensures next { IfOk result (IsNext version.now) }
    ensures named { OnOk result (IsName name.now) }
{
    let Some(project) = project_of(name, version) else {
        return Err(CommandRefusal::NoSuchFeature);
    };
    let number = number_after(version.number)?;
    Ok(Event::FeatureRemoved {
        number,
        name: name.copy(alloc)?,
        project: project.copy(alloc)?,
    })
}

/// Returns the event that adds a segment, or replaces the one with the same id. `TooMany` if the id is new and the
/// environment has 1,000 segments, or if the version's number is the last one.
#[tactic(auto, unfolding(crate::specs::Upstream::segment_put))]
fn put_segment(
    alloc: Global,
    segment: &Segment,
    version: &EnvVersion,
) -> Result<Event, CommandRefusal>
    requires { IsValidSegment segment.now }
    ensures gives { Gives memory result (segment_put segment.now version.now) }
    ensures next { IfOk result (IsNext version.now) }
{
    let segments = version.state.segments.as_slice();
    if !has_segment(segment.id, segments) && segments.len() >= MOST_SEGMENTS {
        return Err(CommandRefusal::TooMany(segments.len() as u64));
    }
    let number = number_after(version.number)?;
    let segment = Shared::new(alloc, segment.copy(alloc)?)?;
    Ok(Event::SegmentUpdated { number, segment })
}

/// Returns the event that removes a segment. `NoSuchSegment` if no segment has this id. `TooMany` if the version's
/// number is the last one.
#[tactic(auto, unfolding(crate::specs::Upstream::segment_removed))]
fn remove_segment(id: u64, version: &EnvVersion) -> Result<Event, CommandRefusal>
    ensures gives { result ≡ segment_removed id version.now }
    ensures next { IfOk result (IsNext version.now) }
{
    if !has_segment(id, version.state.segments.as_slice()) {
        return Err(CommandRefusal::NoSuchSegment);
    }
    let number = number_after(version.number)?;
    Ok(Event::SegmentRemoved { number, id })
}

/// Returns the number plus one, or `TooMany` if the number is the last one, 2^64 - 1.
fn number_after(number: u64) -> Result<u64, CommandRefusal>
    ensures { result ≡ number_after number }
{
    number.checked_add(1).ok_or(CommandRefusal::TooMany(number))
}

/// Returns the project of the feature with this name, if there is one.
fn project_of<'a>(name: &Text, version: &'a EnvVersion) -> Option<&'a Text>
    requires { IsValidVersion version.now }
    ensures { option_map (λ t. t.now) result ≡ project_of name.now version.now.state.features }
{
    match feature_named(name, version) {
        None => None,
        Some(feature) => Some(&feature.project),
    }
}

/// Returns the feature with this name, if there is one.
fn feature_named<'a>(name: &Text, version: &'a EnvVersion) -> Option<&'a Feature>
    requires { IsValidVersion version.now }
    ensures { option_map (λ f. f.now) result ≡ find (is_feature_named name.now) version.now.state.features }
{
    find_in_chunks(&version.state.features, name)
}

/// Returns whether a feature has this name.
fn has_feature(name: &Text, version: &EnvVersion) -> bool
    requires { IsValidVersion version.now }
    ensures { result ≡ has_feature name.now version.now.state.features }
{
    project_of(name, version).is_some()
}

/// Returns whether a segment has this id.
fn has_segment(id: u64, segments: &[Shared<Segment>]) -> bool
    ensures { result ≡ has_segment id segments.now }
{
    segments.iter().any(|segment| segment.get().id == id)
}
