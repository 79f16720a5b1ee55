//! `ToValue`: converting documents to JSON values. The only error of the functions here is out of memory.
ghost use Rattle.std.specs.Prelude.{◌≡◌, ◌++◌, IfOk, OnOk, map, option_map};
ghost use Rattle.serde_json.specs.Data.{Data};
ghost use Rattle.serde_json.specs.View.{view, members_view};
ghost use Rattle.serde_json.specs.Data.{boolean, string as text_data};
ghost use Rattle.unl_documents.specs.Chunks.{joined};
ghost use Rattle.unl_documents.specs.Writing.{with, with_some, count, list_data, unless_zero as those_but_zero};

use crate::chunked_list::{Chunk, ChunkedList};
use crate::field::Field;
use crate::kind::{AnyText, AnyWhole, Boolean};
use crate::list::List;
use crate::memory::Memory;
use crate::shared::Shared;
use crate::text::Text;
use serde_json::{Map, Value};
use std::alloc::Global;
use std::marker::PhantomData;

/// How the values of a type are written as JSON values.
///
/// A separate marker type implements this trait, such as `FeatureJson` for features. If `Feature` implemented it, the
/// proof of every crate that names `Feature` would load the specification of JSON values. Loading that takes longer
/// than many of the proofs.
pub trait ToValue {
    /// The type of the values that are written.
    type In: Drop;

    // The JSON value that represents a value.
    ghost written: { Self.In → Data };

    /// Returns the JSON value that represents `value`.
    fn write(alloc: Global, value: &Self::In) -> Result<Value, Memory>
        ensures { IfOk result (λ v. view v ≡ written value.now) };
}

impl ToValue for AnyText {
    type In = Text;

    ghost written = { text_data };

    fn write(alloc: Global, text: &Text) -> Result<Value, Memory> {
        Ok(Value::try_from_str(alloc, text.as_str())?)
    }
}

impl ToValue for Boolean {
    type In = bool;

    ghost written = { boolean };

    fn write(_alloc: Global, value: &bool) -> Result<Value, Memory> {
        Ok(Value::from(*value))
    }
}

impl ToValue for AnyWhole {
    type In = u64;

    ghost written = { count };

    fn write(_alloc: Global, number: &u64) -> Result<Value, Memory> {
        Ok(Value::from(*number))
    }
}

/// How a list is written as a JSON array, each item as `W` writes it.
pub struct ListJson<W>(PhantomData<W>);

impl<W: ToValue> ToValue for ListJson<W> {
    type In = List<W::In>;

    ghost written = { list_data W.written };

    fn write(alloc: Global, items: &List<W::In>) -> Result<Value, Memory> {
        let values = each_written::<W>(alloc, items.as_slice())?;
        Ok(Value::Array(values))
    }
}

/// How a chunked list is written as a JSON array, each item as `W` writes it.
pub struct ChunksJson<W>(PhantomData<W>);

impl<W: ToValue> ToValue for ChunksJson<W> {
    type In = ChunkedList<W::In>;

    ghost written = { list_data W.written };

    fn write(alloc: Global, items: &ChunkedList<W::In>) -> Result<Value, Memory> {
        let values = each_of_chunks::<W>(alloc, items.chunks())?;
        Ok(Value::Array(values))
    }
}

/// How a shared value is written: as `W` writes the value.
pub struct SharedJson<W>(PhantomData<W>);

impl<W: ToValue> ToValue for SharedJson<W> {
    type In = Shared<W::In>;

    ghost written = { W.written };

    fn write(alloc: Global, shared: &Shared<W::In>) -> Result<Value, Memory> {
        W::write(alloc, shared.get())
    }
}

fn each_written<W: ToValue>(alloc: Global, items: &[W::In]) -> Result<Vec<Value>, Memory>
    ensures { IfOk result (λ v. map view v.items ≡ map W.written items.now) }
{
    let mut values = Vec::new(alloc);
    push_each::<W>(alloc, &mut values, items)?;
    Ok(values)
}

fn each_of_chunks<W: ToValue>(alloc: Global, chunks: &[Chunk<W::In>]) -> Result<Vec<Value>, Memory>
    ensures { IfOk result (λ v. map view v.items ≡ map W.written (joined chunks.now)) }
{
    let mut values = Vec::new(alloc);
    for chunk in chunks {
        push_each::<SharedJson<W>>(alloc, &mut values, chunk.get().as_slice())?;
    }
    Ok(values)
}

/// Appends the JSON values of the items.
fn push_each<W: ToValue>(
    alloc: Global,
    values: &mut Vec<Value>,
    items: &[W::In],
) -> Result<(), Memory>
    ensures { OnOk result (map view values.new.items ≡ map view values.old.items ++ map W.written items.now) }
{
    for item in items {
        values.push(W::write(alloc, item)?)?;
    }
    Ok(())
}

/// Converts `value` to a JSON value, as `W` writes it, and inserts it at a key, in place of any earlier value there.
pub fn put<W: ToValue>(
    members: &mut Map<String, Value>,
    alloc: Global,
    field: Field,
    value: &W::In,
) -> Result<(), Memory>
    ensures { OnOk result (members_view members.new.entries
        ≡ with field (W.written value.now) (members_view members.old.entries)) }
{
    put_value(members, alloc, field, W::write(alloc, value)?)
}

/// Inserts a JSON value at a key, in place of any earlier value there.
pub fn put_value(
    members: &mut Map<String, Value>,
    alloc: Global,
    field: Field,
    value: Value,
) -> Result<(), Memory>
    ensures { OnOk result (members_view members.new.entries
        ≡ with field (view value) (members_view members.old.entries)) }
{
    serde_json::put(members, alloc, field.key(), value)?;
    Ok(())
}

/// Like [`put`], with the value in `found`. Leaves `members` unchanged if `found` is `None`.
pub fn put_some<W: ToValue>(
    members: &mut Map<String, Value>,
    alloc: Global,
    field: Field,
    found: &Option<W::In>,
) -> Result<(), Memory>
    ensures { OnOk result (members_view members.new.entries
        ≡ with_some field (option_map W.written found.now) (members_view members.old.entries)) }
{
    if let Some(found) = found {
        put::<W>(members, alloc, field, found)?;
    }
    Ok(())
}

/// Like [`put`], with `number`. Leaves `members` unchanged if `number` is 0.
pub fn put_unless_zero(
    members: &mut Map<String, Value>,
    alloc: Global,
    field: Field,
    number: u64,
) -> Result<(), Memory>
    ensures { OnOk result (members_view members.new.entries
        ≡ with_some field (option_map count (those_but_zero number)) (members_view members.old.entries)) }
{
    put_some::<AnyWhole>(members, alloc, field, &unless_zero(number))
}

/// Returns the number, or `None` if it is 0.
#[tactic(auto, unfolding(crate::specs::Writing::unless_zero))]
pub(crate) fn unless_zero(number: u64) -> Option<u64>
    ensures { result ≡ those_but_zero number }
{
    if number == 0 { None } else { Some(number) }
}
