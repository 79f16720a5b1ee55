//! Writing commands as JSON.
ghost use Rattle.std.specs.Prelude.{◌≡◌, IfOk, Ok, OnOk};
ghost use Rattle.serde_json.specs.View.{members_view, view};
ghost use Rattle.unl_documents.specs.Kinds.{document};
ghost use Rattle.unl_upstream.specs.declared.command.Command.TheVariants as command;
ghost use Rattle.unl_upstream.specs.Command.{IsValidCommand, command_in, command_of};
ghost use Rattle.unl_upstream.specs.Writing.{HasNames, command_data, command_text, with_head};

use crate::command::Command;
use serde_json::{Map, Value};
use std::alloc::Global;
use unl_documents::kind::{AnyText, AnyWhole};
use unl_documents::to_value::{put, put_value};
use unl_documents::{Feature, FeatureJson, Field, Memory, Segment, SegmentJson, Text};

/// Writes a command as a JSON object with the keys `command` and `environment`, and one of `feature`, `name`, `segment`
/// and `id`.
///
/// [`read_command`](crate::read_command) reads the same command back if the feature or segment in it is valid, and the
/// environment and the name of a removed feature are valid names. The JSON form is chosen by this project.
///
/// # Errors
/// `Memory`: out of memory.
#[tactic(auto, using(crate::proofs::Written::written_back))]
pub fn write_command(alloc: Global, command: &Command) -> Result<Value, Memory>
    ensures written { IfOk result (λ value. view value ≡ command_data command.now) }
    ensures reads_back { IsValidCommand command.now → HasNames command.now
        → IfOk result (λ value. document command_of (view value) ≡ Ok command.now) }
{
    command_value(alloc, command)
}

/// Returns the text that a keeper stores for a command: the JSON of [`write_command`].
pub(crate) fn command_text(alloc: Global, command: &Command) -> Result<Text, Memory>
    ensures text { IfOk result (λ text. text ≡ command_text command.now) }
    ensures reads_back { IsValidCommand command.now → HasNames command.now
        → OnOk result (command_in (command_text command.now) ≡ Ok command.now) }
{
    let value = write_command(alloc, command)?;
    let text = value.to_string(alloc)?;
    Ok(Text::from(text))
}

/// Builds the JSON object of a command.
fn command_value(alloc: Global, command: &Command) -> Result<Value, Memory>
    ensures { IfOk result (λ value. view value ≡ command_data command.now) }
{
    match command {
        Command::PutFeature {
            environment,
            feature,
        } => put_feature(alloc, environment, feature),
        Command::RemoveFeature { environment, name } => remove_feature(alloc, environment, name),
        Command::PutSegment {
            environment,
            segment,
        } => put_segment(alloc, environment, segment),
        Command::RemoveSegment { environment, id } => remove_segment(alloc, environment, *id),
    }
}

/// Adds the keys `command`, with the value `word`, and `environment` to the members of an object.
fn put_head(
    members: &mut Map<String, Value>,
    alloc: Global,
    word: &str,
    environment: &Text,
) -> Result<(), Memory>
    ensures { OnOk result (members_view members.new.entries
        ≡ with_head word.now environment.now (members_view members.old.entries)) }
{
    put::<AnyText>(members, alloc, Field::Environment, environment)?;
    put_value(
        members,
        alloc,
        Field::Command,
        Value::try_from_str(alloc, word)?,
    )
}

/// Builds a `put-feature` object.
#[tactic(auto, unfolding(crate::specs::Writing::command_data))]
fn put_feature(alloc: Global, environment: &Text, feature: &Feature) -> Result<Value, Memory>
    ensures { IfOk result (λ value. view value ≡ command_data (command.PutFeature environment.now feature.now)) }
{
    let mut members = Map::new(alloc);
    put::<FeatureJson>(&mut members, alloc, Field::Feature, feature)?;
    put_head(&mut members, alloc, "put-feature", environment)?;
    Ok(Value::Object(members))
}

/// Builds a `remove-feature` object.
#[tactic(auto, unfolding(crate::specs::Writing::command_data))]
fn remove_feature(alloc: Global, environment: &Text, name: &Text) -> Result<Value, Memory>
    ensures { IfOk result (λ value. view value ≡ command_data (command.RemoveFeature environment.now name.now)) }
{
    let mut members = Map::new(alloc);
    put::<AnyText>(&mut members, alloc, Field::Name, name)?;
    put_head(&mut members, alloc, "remove-feature", environment)?;
    Ok(Value::Object(members))
}

/// Builds a `put-segment` object.
#[tactic(auto, unfolding(crate::specs::Writing::command_data))]
fn put_segment(alloc: Global, environment: &Text, segment: &Segment) -> Result<Value, Memory>
    ensures { IfOk result (λ value. view value ≡ command_data (command.PutSegment environment.now segment.now)) }
{
    let mut members = Map::new(alloc);
    put::<SegmentJson>(&mut members, alloc, Field::Segment, segment)?;
    put_head(&mut members, alloc, "put-segment", environment)?;
    Ok(Value::Object(members))
}

/// Builds a `remove-segment` object.
#[tactic(auto, unfolding(crate::specs::Writing::command_data))]
fn remove_segment(alloc: Global, environment: &Text, id: u64) -> Result<Value, Memory>
    ensures { IfOk result (λ value. view value ≡ command_data (command.RemoveSegment environment.now id)) }
{
    let mut members = Map::new(alloc);
    put::<AnyWhole>(&mut members, alloc, Field::Id, &id)?;
    put_head(&mut members, alloc, "remove-segment", environment)?;
    Ok(Value::Object(members))
}
