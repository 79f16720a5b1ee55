//! Tests of the toggles of a snapshot as a JSON value. The commands print toggles directly as text, so no command
//! covers this.
ghost use Rattle.std.specs.Prelude.{IfSome};
ghost use Rattle.unl_delta.specs.Valid.{IsValidBatch};

use std::alloc::Global;
use unl_compiled::Snapshot;
use unl_context::Context;
use unl_delta::{Batch, Place, Verdict, apply, read_batch_bytes, verdict};
use unl_strategies::Moment;
use unl_tokens::Projects;

/// A batch with one hydration: three features, one of which depends on another.
const STATE: &str = r#"{"events":[{"type":"hydration","eventId":1,"features":[
    {"name":"child","enabled":true,"dependencies":[{"feature":"named"}]},
    {"name":"named","enabled":true,"variants":[{"name":"v","weight":1,"payload":{"type":"string","value":"w"}}]},
    {"name":"off","enabled":false}]}]}"#;

/// Parses the batch.
fn batch(alloc: Global) -> Option<Batch>
    ensures { IfSome result IsValidBatch }
{
    read_batch_bytes(alloc, STATE.as_bytes(), None).ok()
}

/// Applies the batch to a place without a version, and compiles the version that results.
fn snapshot(alloc: Global) -> Option<Snapshot> {
    let place = Place {
        version: None,
        held: false,
    };
    let batch = batch(alloc)?;
    match verdict(&place, &batch) {
        Verdict::Apply => Snapshot::build(alloc, apply(alloc, &place, &batch).ok()?).ok(),
        Verdict::Repeat | Verdict::Old | Verdict::Gap | Verdict::Held => None,
    }
}

const MOMENT: Moment<'static> = Moment {
    now: 0,
    word: 0,
    host: "",
};

/// Returns the JSON text of all toggles, by way of their JSON value.
fn text_of_value(alloc: Global, snapshot: &Snapshot, context: &Context) -> Option<String> {
    let value = snapshot
        .toggles(alloc, &Projects::All, true, context, &MOMENT)
        .ok()?;
    value.to_string(alloc).ok()
}

/// Returns whether all toggles printed directly as text equal the text of their JSON value.
fn is_same(alloc: Global, snapshot: &Snapshot, context: &Context) -> Option<bool> {
    let text = snapshot
        .toggles_text(alloc, &Projects::All, true, context, &MOMENT)
        .ok()?;
    Some(text.as_slice() == text_of_value(alloc, snapshot, context)?.as_bytes())
}

/// Runs [`is_same`] on the snapshot of the batch, with a context without fields.
fn is_text_of_value(alloc: Global) -> Option<bool> {
    let context = Context::read_query(alloc, b"").ok()?;
    is_same(alloc, &snapshot(alloc)?, &context)
}

#[test]
fn toggles_are_a_value(rt: HostRuntime) {
    assert!(rt; is_text_of_value(rt.alloc()) == Some(true));
}
