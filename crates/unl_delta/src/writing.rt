//! Writes batches as JSON values.
ghost use Rattle.std.specs.Prelude.{◌≡◌, Option, ℕ, false, Ok, OnOk, IfOk};
ghost use Rattle.std.specs.List.{AllByRecursion};
ghost use Rattle.std.specs.Option.{option_or};
ghost use Rattle.serde_json.specs.Data.{string};
ghost use Rattle.serde_json.specs.View.{view, members_view};
ghost use Rattle.serde_json.specs.Written.{has_float};
ghost use Rattle.unl_documents.specs.declared.field.Field.TheVariants as field;
ghost use Rattle.unl_documents.specs.Writing.{with, count};
ghost use Rattle.unl_delta.specs.declared.event.Event.TheVariants as event;
ghost use Rattle.unl_delta.specs.Reading.{batch_of};
ghost use Rattle.unl_delta.specs.Writing.{event_data, batch_data};
ghost use Rattle.unl_delta.specs.Valid.{IsReadable, IsValidBatch};

use crate::batch::Batch;
use crate::event::Event;
use serde_json::{Map, Value};
use std::alloc::Global;
use unl_documents::kind::{AnyText, AnyWhole};
use unl_documents::to_value::{
    ListJson, SharedJson, ToValue, put, put_some, put_unless_zero, put_value,
};
use unl_documents::{
    Feature, FeatureJson, FeaturesJson, Field, List, Memory, Segment, SegmentJson, SegmentsJson,
    Shared, State, Text,
};

/// Inserts the two keys that all events have: the type `word` and the number.
///
/// In the contract, these two insertions are the outermost, so callers insert the other keys of an event first.
fn put_head(
    members: &mut Map<String, Value>,
    alloc: Global,
    word: &str,
    number: u64,
) -> Result<(), Memory>
    ensures { OnOk result (members_view members.new.entries
        ≡ with field.Kind (string word.now) (with field.EventId (count number) (members_view members.old.entries))) }
{
    put::<AnyWhole>(members, alloc, Field::EventId, &number)?;
    put_value(
        members,
        alloc,
        Field::Kind,
        Value::try_from_str(alloc, word)?,
    )
}

#[tactic(auto, unfolding(crate::specs::Writing::event_data))]
fn write_hydration(alloc: Global, number: u64, state: &State) -> Result<Value, Memory>
    ensures { IfOk result (λ v. view v ≡ event_data (event.Hydration number state.now)) }
{
    let mut members = Map::new(alloc);
    put::<SegmentsJson>(&mut members, alloc, Field::Segments, &state.segments)?;
    put::<FeaturesJson>(&mut members, alloc, Field::Features, &state.features)?;
    put_head(&mut members, alloc, "hydration", number)?;
    Ok(Value::Object(members))
}

#[tactic(auto, unfolding(crate::specs::Writing::event_data))]
fn write_feature_updated(
    alloc: Global,
    number: u64,
    feature: &Shared<Feature>,
) -> Result<Value, Memory>
    ensures { IfOk result (λ v. view v ≡ event_data (event.FeatureUpdated number feature.now)) }
{
    let mut members = Map::new(alloc);
    put::<SharedJson<FeatureJson>>(&mut members, alloc, Field::Feature, feature)?;
    put_head(&mut members, alloc, "feature-updated", number)?;
    Ok(Value::Object(members))
}

#[tactic(auto, unfolding(crate::specs::Writing::event_data))]
fn write_feature_removed(
    alloc: Global,
    number: u64,
    name: &Text,
    project: &Text,
) -> Result<Value, Memory>
    ensures { IfOk result (λ v. view v ≡ event_data (event.FeatureRemoved number name.now project.now)) }
{
    let mut members = Map::new(alloc);
    put::<AnyText>(&mut members, alloc, Field::Project, project)?;
    put::<AnyText>(&mut members, alloc, Field::FeatureName, name)?;
    put_head(&mut members, alloc, "feature-removed", number)?;
    Ok(Value::Object(members))
}

#[tactic(auto, unfolding(crate::specs::Writing::event_data))]
fn write_segment_updated(
    alloc: Global,
    number: u64,
    segment: &Shared<Segment>,
) -> Result<Value, Memory>
    ensures { IfOk result (λ v. view v ≡ event_data (event.SegmentUpdated number segment.now)) }
{
    let mut members = Map::new(alloc);
    put::<SharedJson<SegmentJson>>(&mut members, alloc, Field::Segment, segment)?;
    put_head(&mut members, alloc, "segment-updated", number)?;
    Ok(Value::Object(members))
}

#[tactic(auto, unfolding(crate::specs::Writing::event_data))]
fn write_segment_removed(alloc: Global, number: u64, id: u64) -> Result<Value, Memory>
    ensures { IfOk result (λ v. view v ≡ event_data (event.SegmentRemoved number id)) }
{
    let mut members = Map::new(alloc);
    put::<AnyWhole>(&mut members, alloc, Field::SegmentId, &id)?;
    put_head(&mut members, alloc, "segment-removed", number)?;
    Ok(Value::Object(members))
}

/// How an event is written as a JSON object.
pub struct EventJson;

impl ToValue for EventJson {
    ghost use Rattle.unl_delta.specs.Writing.{event_data};

    type In = Event;

    ghost written = { event_data };

    fn write(alloc: Global, event: &Event) -> Result<Value, Memory> {
        match event {
            Event::Hydration { number, state } => write_hydration(alloc, *number, state),
            Event::FeatureUpdated { number, feature } => {
                write_feature_updated(alloc, *number, feature)
            }
            Event::FeatureRemoved {
                number,
                name,
                project,
            } => write_feature_removed(alloc, *number, name, project),
            Event::SegmentUpdated { number, segment } => {
                write_segment_updated(alloc, *number, segment)
            }
            Event::SegmentRemoved { number, id } => write_segment_removed(alloc, *number, *id),
        }
    }
}

/// How a batch is written as a JSON object.
pub struct BatchJson;

impl ToValue for BatchJson {
    ghost use Rattle.unl_delta.specs.Writing.{batch_data};

    type In = Batch;

    ghost written = { batch_data };

    #[tactic(auto, unfolding(crate::specs::Writing::batch_data, crate::specs::Writing::batch_with))]
    fn write(alloc: Global, batch: &Batch) -> Result<Value, Memory> {
        let mut members = Map::new(alloc);
        put::<ListJson<EventJson>>(&mut members, alloc, Field::Events, &batch.events)?;
        put_some::<AnyWhole>(&mut members, alloc, Field::After, &batch.after)?;
        put_unless_zero(&mut members, alloc, Field::Epoch, batch.epoch)?;
        Ok(Value::Object(members))
    }
}

/// Returns the JSON value of a batch: its events, its `epoch` unless the epoch is 0, and its `after` unless that is
/// `None`. The only error is out of memory.
///
/// If a valid batch is written and read back by [`read_batch`](crate::read_batch), the result is the same batch, except
/// that an `after` of `None` becomes the argument `held`. This does not hold for a batch with a hydration of more than
/// 10,000 features or 1,000 segments, which can be written, but is rejected when it is read.
pub fn write_batch(alloc: Global, batch: &Batch) -> Result<Value, Memory>
    ensures written { IfOk result (λ v. view v ≡ batch_data batch.now) }
    ensures reads_back { IsValidBatch batch.now → AllByRecursion IsReadable batch.now.events
        → IfOk result (λ v. (held : Option ℕ) → batch_of held (view v)
        ≡ Ok (record { epoch = batch.now.epoch; after = option_or batch.now.after held; events = batch.now.events })) }
    ensures no_float { IfOk result (λ v. has_float (view v) ≡ false) }
{
    BatchJson::write(alloc, batch)
}
