//! Reads batches from JSON, and converts feeds to batches. The JSON form of batches is chosen by this project.
ghost use Rattle.std.specs.Prelude.{◌≡◌, IfOk, IfSome};
ghost use Rattle.std.specs.List.{AllByRecursion};
ghost use Rattle.serde_json.specs.View.{view, items_view};
ghost use Rattle.unl_documents.specs.declared.field.Field.TheVariants as field;
ghost use Rattle.unl_documents.specs.Kinds.{any_whole, optional as optional_at, defaulted as defaulted_at};
ghost use Rattle.unl_documents.specs.Reading.{Gives as Reads};
ghost use Rattle.unl_documents.specs.Results.{Gives};
ghost use Rattle.unl_documents.specs.States.{IsValidState};
ghost use Rattle.unl_delta.specs.declared.fault.BadBatch.TheVariants.{Memory as memory};
ghost use Rattle.unl_delta.specs.Reading.{hydration_of, feature_updated_of, feature_removed_of, segment_updated_of, segment_removed_of};
ghost use Rattle.unl_delta.specs.Reading.{event_of_type, event_of as event_read, at_place, in_order as ordered};
ghost use Rattle.unl_delta.specs.Reading.{event_at as event_read_at, events_from, batch_of as batch_read, batch_of_bytes, batch_of_feed};
ghost use Rattle.unl_delta.specs.Reading.{or_not_json};
ghost use Rattle.unl_delta.specs.Valid.{IsValidEvent, IsValidBatch};

use crate::batch::Batch;
use crate::event::Event;
use crate::fault::BadBatch;
use serde_json::Value;
use std::alloc::Global;
use unl_documents::document::{Document, Object};
use unl_documents::keys::{defaulted, name_or, optional, required, value_at};
use unl_documents::kind::{AnyText, AnyWhole, Name};
use unl_documents::parsing::read_json;
use unl_documents::{
    BadDocument, FeatureJson, Feed, Field, List, Memory, SegmentJson, Shared, StateJson,
};

#[tactic(auto, unfolding(crate::specs::Reading::hydration_of))]
fn read_hydration(alloc: Global, value: &Value) -> Result<Event, BadDocument>
    ensures gives { Reads result (hydration_of (view value.now)) }
    ensures valid { IfOk result IsValidEvent }
{
    let number = required::<AnyWhole>(alloc, Field::EventId, value)?;
    let state = StateJson::read_object(alloc, value)?;
    Ok(Event::Hydration { number, state })
}

#[tactic(auto, unfolding(crate::specs::Reading::feature_updated_of))]
fn read_feature_updated(alloc: Global, value: &Value) -> Result<Event, BadDocument>
    ensures gives { Reads result (feature_updated_of (view value.now)) }
    ensures valid { IfOk result IsValidEvent }
{
    let number = required::<AnyWhole>(alloc, Field::EventId, value)?;
    let feature = required::<Object<FeatureJson>>(alloc, Field::Feature, value)?;
    let feature = Shared::new(alloc, feature)?;
    Ok(Event::FeatureUpdated { number, feature })
}

#[tactic(auto, unfolding(crate::specs::Reading::feature_removed_of))]
fn read_feature_removed(alloc: Global, value: &Value) -> Result<Event, BadDocument>
    ensures gives { Reads result (feature_removed_of (view value.now)) }
    ensures valid { IfOk result IsValidEvent }
{
    let number = required::<AnyWhole>(alloc, Field::EventId, value)?;
    let name = required::<Name>(alloc, Field::FeatureName, value)?;
    let project = name_or(alloc, "default", Field::Project, value)?;
    Ok(Event::FeatureRemoved {
        number,
        name,
        project,
    })
}

#[tactic(auto, unfolding(crate::specs::Reading::segment_updated_of))]
fn read_segment_updated(alloc: Global, value: &Value) -> Result<Event, BadDocument>
    ensures gives { Reads result (segment_updated_of (view value.now)) }
    ensures valid { IfOk result IsValidEvent }
{
    let number = required::<AnyWhole>(alloc, Field::EventId, value)?;
    let segment = required::<Object<SegmentJson>>(alloc, Field::Segment, value)?;
    let segment = Shared::new(alloc, segment)?;
    Ok(Event::SegmentUpdated { number, segment })
}

#[tactic(auto, unfolding(crate::specs::Reading::segment_removed_of))]
fn read_segment_removed(alloc: Global, value: &Value) -> Result<Event, BadDocument>
    ensures gives { Reads result (segment_removed_of (view value.now)) }
    ensures valid { IfOk result IsValidEvent }
{
    let number = required::<AnyWhole>(alloc, Field::EventId, value)?;
    let id = required::<AnyWhole>(alloc, Field::SegmentId, value)?;
    Ok(Event::SegmentRemoved { number, id })
}

/// Reads an event of the type `word`, such as `hydration`. The error is `WrongKind` if the type is unknown.
#[tactic(auto, unfolding(crate::specs::Reading::event_of_type))]
fn read_event_of_type(alloc: Global, word: &str, value: &Value) -> Result<Event, BadDocument>
    ensures gives { Reads result (event_of_type word.now (view value.now)) }
    ensures valid { IfOk result IsValidEvent }
{
    match word {
        "hydration" => read_hydration(alloc, value),
        "feature-updated" => read_feature_updated(alloc, value),
        "feature-removed" => read_feature_removed(alloc, value),
        "segment-updated" => read_segment_updated(alloc, value),
        "segment-removed" => read_segment_removed(alloc, value),
        _ => Err(BadDocument::WrongKind(Field::Kind)),
    }
}

/// Reads an event: first the key `type`, then the keys of that type.
#[tactic(auto, unfolding(crate::specs::Reading::event_of))]
fn read_event(alloc: Global, value: &Value) -> Result<Event, BadDocument>
    ensures gives { Reads result (event_read (view value.now)) }
    ensures valid { IfOk result IsValidEvent }
{
    let word = required::<AnyText>(alloc, Field::Kind, value)?;
    read_event_of_type(alloc, word.as_str(), value)
}

/// Reads the event at index `place`, without a check of its position and number. Any error other than out of memory
/// becomes `BadEvent(place)`.
fn lone_event(alloc: Global, place: usize, value: &Value) -> Result<Event, BadBatch>
    ensures gives { Gives memory result (at_place place (event_read (view value.now))) }
    ensures valid { IfOk result IsValidEvent }
{
    match read_event(alloc, value) {
        Ok(event) => Ok(event),
        Err(BadDocument::Memory) => Err(BadBatch::Memory),
        Err(_) => Err(BadBatch::BadEvent(place as u64)),
    }
}

/// Returns the event at index `place` if it is in order. The error is `HydrationNotFirst` if it is a hydration but not
/// the first event; otherwise `NotRising` if its number is less than `before`, the number of the event before it (0 if
/// there is none).
#[tactic(auto, unfolding(crate::specs::Reading::in_order))]
fn in_order(place: usize, before: u64, event: Event) -> Result<Event, BadBatch>
    ensures order { result ≡ ordered place before event }
    ensures valid { IsValidEvent event → IfOk result IsValidEvent }
{
    if place > 0 && !event.is_change() {
        return Err(BadBatch::HydrationNotFirst(place as u64));
    }
    if event.number() < before {
        return Err(BadBatch::NotRising(place as u64));
    }
    Ok(event)
}

/// Reads the event at index `place` and checks it by [`in_order`]. `before` is the number of the event before it, or 0
/// if there is none.
#[tactic(auto, unfolding(crate::specs::Reading::event_at))]
fn event_at(alloc: Global, place: usize, before: u64, value: &Value) -> Result<Event, BadBatch>
    ensures gives { Gives memory result (event_read_at place before (view value.now)) }
    ensures valid { IfOk result IsValidEvent }
{
    let event = lone_event(alloc, place, value)?;
    in_order(place, before, event)
}

/// Reads all events of a batch, up to the first fault.
fn events_of(alloc: Global, values: &[Value]) -> Result<List<Event>, BadBatch>
    ensures gives { Gives memory result (events_from 0 0 (items_view values.now)) }
    ensures valid { IfOk result (AllByRecursion IsValidEvent) }
{
    let mut events = List::new(alloc);
    let mut before = 0;
    for (place, value) in values.iter().enumerate() {
        match event_at(alloc, place, before, value) {
            Ok(event) => {
                before = event.number();
                events.push(event)?;
            }
            Err(fault) => return Err(fault),
        }
    }
    Ok(events)
}

/// Reads the epoch of a batch: 0 if the key is absent or null. Any fault other than out of memory becomes `NotJson`.
fn epoch_of(alloc: Global, value: &Value) -> Result<u64, BadBatch>
    ensures { Gives memory result
        (or_not_json (defaulted_at 0 any_whole field.Epoch (view value.now))) }
{
    match defaulted::<AnyWhole>(alloc, 0, Field::Epoch, value) {
        Ok(epoch) => Ok(epoch),
        Err(BadDocument::Memory) => Err(BadBatch::Memory),
        Err(_) => Err(BadBatch::NotJson),
    }
}

/// Reads the number `after` of a batch: `None` if the key is absent or null. Any fault other than out of memory
/// becomes `NotJson`.
fn after_of(alloc: Global, value: &Value) -> Result<Option<u64>, BadBatch>
    ensures gives { Gives memory result
        (or_not_json (optional_at any_whole field.After (view value.now))) }
{
    match optional::<AnyWhole>(alloc, Field::After, value) {
        Ok(after) => Ok(after),
        Err(BadDocument::Memory) => Err(BadBatch::Memory),
        Err(_) => Err(BadBatch::NotJson),
    }
}

/// As [`read_batch`], but the clause `valid` says only that each event is valid.
#[tactic(auto, unfolding(crate::specs::Reading::batch_of))]
fn batch_of(alloc: Global, value: &Value, held: Option<u64>) -> Result<Batch, BadBatch>
    ensures gives { Gives memory result (batch_read held (view value.now)) }
    ensures valid { IfOk result (λ batch. AllByRecursion IsValidEvent batch.events) }
{
    let Some(values) = value_at(Field::Events, value).and_then(Value::as_array) else {
        return Err(BadBatch::NotJson);
    };
    let epoch = epoch_of(alloc, value)?;
    let after = after_of(alloc, value)?;
    let events = events_of(alloc, values)?;
    Ok(Batch {
        epoch,
        after: after.or(held),
        events,
    })
}

/// Reads a batch from a JSON value. If the key `after` is absent or null, the batch gets `held` instead: the number
/// that the requester sent in its request. If the key `epoch` is absent or null, the epoch is 0.
///
/// # Errors
///
/// `NotJson` if `events` is missing or not a list, or if `epoch` or `after` is present but not a whole number from 0 to
/// 2^64 - 1. Otherwise the fault of the first event that has a fault: `BadEvent`, `HydrationNotFirst` or `NotRising`.
/// `Memory`: out of memory.
pub fn read_batch(alloc: Global, value: &Value, held: Option<u64>) -> Result<Batch, BadBatch>
    ensures gives { Gives memory result (batch_read held (view value.now)) }
    ensures valid { IfOk result IsValidBatch }
{
    batch_of(alloc, value, held)
}

/// Reads a batch from bytes of JSON (RFC 8259).
///
/// # Errors
///
/// `NotJson` if there are more than 16,777,216 bytes (this limit is chosen by this project) or if the bytes are not
/// JSON; otherwise as [`read_batch`].
#[tactic(auto, unfolding(crate::specs::Reading::batch_of_bytes))]
pub fn read_batch_bytes(alloc: Global, bytes: &[u8], held: Option<u64>) -> Result<Batch, BadBatch>
    ensures gives { Gives memory result (batch_of_bytes held bytes.now) }
    ensures valid { IfOk result IsValidBatch }
{
    if bytes.len() > 16_777_216 {
        return Err(BadBatch::NotJson);
    }
    let Some(value) = read_json(alloc, bytes)? else {
        return Err(BadBatch::NotJson);
    };
    read_batch(alloc, &value, held)
}

/// Converts a feed to a batch: one hydration with the feed's state, number and epoch. Returns `None` if and only if the
/// feed has no number. The only error is out of memory.
pub fn of_feed(alloc: Global, feed: Feed) -> Result<Option<Batch>, Memory>
    ensures batch { IfOk result (λ batch. batch ≡ batch_of_feed feed) }
    ensures valid { IsValidState feed.state → IfOk result (λ batch. IfSome batch IsValidBatch) }
{
    one_hydration(alloc, feed)
}

/// As [`of_feed`], without the clause `valid`.
fn one_hydration(alloc: Global, feed: Feed) -> Result<Option<Batch>, Memory>
    ensures { IfOk result (λ batch. batch ≡ batch_of_feed feed) }
{
    let Some(number) = feed.number else {
        return Ok(None);
    };
    let mut events = List::new(alloc);
    events.push(Event::Hydration {
        number,
        state: feed.state,
    })?;
    Ok(Some(Batch {
        epoch: feed.epoch,
        after: None,
        events,
    }))
}
