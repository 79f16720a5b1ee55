//! Reading commands from JSON.
ghost use Rattle.std.specs.Prelude.{IfOk};
ghost use Rattle.serde_json.specs.View.{view};
ghost use Rattle.unl_documents.specs.Kinds.{document};
ghost use Rattle.unl_documents.specs.Reading.{Gives};
ghost use Rattle.unl_upstream.specs.Command.{IsValidCommand, command_by, command_in, command_of, put_feature_of, put_segment_of};
ghost use Rattle.unl_upstream.specs.Command.{remove_feature_of, remove_segment_of};

use crate::command::Command;
use serde_json::Value;
use std::alloc::Global;
use unl_documents::document::{Document, Object, read_document};
use unl_documents::keys::required;
use unl_documents::kind::{AnyText, AnyWhole, Name};
use unl_documents::parsing::read_json;
use unl_documents::{BadDocument, FeatureJson, Field, SegmentJson};

/// How a command is read from a JSON object.
struct CommandJson;

impl Document for CommandJson {
    ghost use Rattle.unl_upstream.specs.Command.{command_of, IsValidCommand};

    type Out = Command;

    ghost reads_object = { command_of };

    ghost is_valid = { IsValidCommand };

    #[tactic(auto, unfolding(crate::specs::Command::command_of))]
    fn read_object(alloc: Global, value: &Value) -> Result<Command, BadDocument> {
        let word = required::<AnyText>(alloc, Field::Command, value)?;
        command_by(alloc, word.as_str(), value)
    }
}

/// Reads a command whose `command` key has the value `word`. `WrongKind` if no command has this word.
#[tactic(auto, unfolding(crate::specs::Command::command_by))]
fn command_by(alloc: Global, word: &str, value: &Value) -> Result<Command, BadDocument>
    ensures gives { Gives result (command_by word.now (view value.now)) }
    ensures valid { IfOk result IsValidCommand }
{
    match word {
        "put-feature" => put_feature(alloc, value),
        "remove-feature" => remove_feature(alloc, value),
        "put-segment" => put_segment(alloc, value),
        "remove-segment" => remove_segment(alloc, value),
        _ => Err(BadDocument::WrongKind(Field::Command)),
    }
}

/// Reads `put-feature`: the environment and the feature.
#[tactic(auto, unfolding(crate::specs::Command::put_feature_of))]
fn put_feature(alloc: Global, value: &Value) -> Result<Command, BadDocument>
    ensures gives { Gives result (put_feature_of (view value.now)) }
    ensures valid { IfOk result IsValidCommand }
{
    let environment = required::<Name>(alloc, Field::Environment, value)?;
    let feature = required::<Object<FeatureJson>>(alloc, Field::Feature, value)?;
    Ok(Command::PutFeature {
        environment,
        feature,
    })
}

/// Reads `remove-feature`: the environment and the feature's name.
#[tactic(auto, unfolding(crate::specs::Command::remove_feature_of))]
fn remove_feature(alloc: Global, value: &Value) -> Result<Command, BadDocument>
    ensures gives { Gives result (remove_feature_of (view value.now)) }
    ensures valid { IfOk result IsValidCommand }
{
    let environment = required::<Name>(alloc, Field::Environment, value)?;
    let name = required::<Name>(alloc, Field::Name, value)?;
    Ok(Command::RemoveFeature { environment, name })
}

/// Reads `put-segment`: the environment and the segment.
#[tactic(auto, unfolding(crate::specs::Command::put_segment_of))]
fn put_segment(alloc: Global, value: &Value) -> Result<Command, BadDocument>
    ensures gives { Gives result (put_segment_of (view value.now)) }
    ensures valid { IfOk result IsValidCommand }
{
    let environment = required::<Name>(alloc, Field::Environment, value)?;
    let segment = required::<Object<SegmentJson>>(alloc, Field::Segment, value)?;
    Ok(Command::PutSegment {
        environment,
        segment,
    })
}

/// Reads `remove-segment`: the environment and the segment's id.
#[tactic(auto, unfolding(crate::specs::Command::remove_segment_of))]
fn remove_segment(alloc: Global, value: &Value) -> Result<Command, BadDocument>
    ensures gives { Gives result (remove_segment_of (view value.now)) }
    ensures valid { IfOk result IsValidCommand }
{
    let environment = required::<Name>(alloc, Field::Environment, value)?;
    let id = required::<AnyWhole>(alloc, Field::Id, value)?;
    Ok(Command::RemoveSegment { environment, id })
}

/// Reads a command from a JSON value.
///
/// # Errors
/// `NotJson`: the value is not an object. Otherwise the first fault of its keys, in this order: `command`, which must
/// be `put-feature`, `remove-feature`, `put-segment` or `remove-segment`; then `environment`; then the key that this
/// command needs, `feature`, `name`, `segment` or `id`. Or `Memory`: out of memory.
pub fn read_command(alloc: Global, value: &Value) -> Result<Command, BadDocument>
    ensures gives { Gives result (document command_of (view value.now)) }
    ensures valid { IfOk result IsValidCommand }
{
    read_document::<CommandJson>(alloc, value)
}

/// Reads a command from the JSON bytes of a request body, of a kept row or of a line, as [`read_command`] does.
/// `NotJson` if the bytes are not JSON.
#[tactic(auto, unfolding(crate::specs::Command::command_in))]
pub(crate) fn read_command_bytes(alloc: Global, bytes: &[u8]) -> Result<Command, BadDocument>
    ensures gives { Gives result (command_in bytes.now) }
    ensures valid { IfOk result IsValidCommand }
{
    let Some(value) = read_json(alloc, bytes)? else {
        return Err(BadDocument::NotJson);
    };
    read_command(alloc, &value)
}
