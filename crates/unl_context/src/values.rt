//! JSON values (RFC 8259): parsing, the value at a key, and conversion to strings.
ghost use Rattle.std.specs.Prelude.{◌≡◌, IfOk, IfNone, option_map};
ghost use Rattle.serde_json.specs.Data.{number};
ghost use Rattle.serde_json.specs.View.{number_view, view};
ghost use Rattle.unl_context.specs.Reading.{Gives};
ghost use Rattle.unl_context.specs.Values.{json_of, at, text_in};

use crate::fault::{BadContext, Part};
use crate::limits::{short, short_text};
use crate::text::Text;
use itoa::Buffer;
use serde_json::{Number, Value};
use std::alloc::{AllocError, Global};

/// Parses JSON. Returns `None` if the bytes are not UTF-8 or not JSON.
pub(crate) fn read_json(alloc: Global, bytes: &[u8]) -> Result<Option<Value>, AllocError>
    ensures { IfOk result (λ found. option_map view found ≡ json_of bytes.now) }
{
    match Value::from_slice(alloc, bytes) {
        Ok(value) => Ok(Some(value)),
        Err(e) if e.is_memory() => Err(AllocError),
        Err(_) => Ok(None),
    }
}

/// Returns the value at a key of an object. `None` if the key is absent, its value is null or `value` is not an object.
#[tactic(auto, unfolding(crate::specs::Values::at))]
pub(crate) fn value_at<'a>(key: &str, value: &'a Value) -> Option<&'a Value>
    ensures { option_map (λ found. view found.now) result ≡ at key.now (view value.now) }
{
    match value.get(key) {
        None | Some(Value::Null) => None,
        Some(found) => Some(found),
    }
}

/// Like [`value_at`], but moves the value out of the object, so that it need not be copied, and leaves null at the key.
/// If `None` is returned, the object is unchanged.
#[tactic(auto, unfolding(crate::specs::Values::at))]
pub(crate) fn taken_at(key: &str, value: &mut Value) -> Option<Value>
    ensures gives { option_map view result ≡ at key.now (view value.old) }
    ensures left { IfNone result (value.new ≡ value.old) }
{
    match value.get(key) {
        None | Some(Value::Null) => None,
        Some(_) => Some(value.get_mut(key)?.take()),
    }
}

/// Like [`text_in`], but consumes the value: a string is moved, not copied.
#[tactic(auto, unfolding(crate::specs::Values::text_in))]
pub(crate) fn text_of(alloc: Global, part: Part, value: Value) -> Result<Text, BadContext>
    ensures { Gives result (text_in part (view value)) }
{
    match value {
        Value::String(text) => short(text),
        other => text_in(alloc, part, &other),
    }
}

/// Converts the value of a part of a context to a string: a string stays as it is, and an integer or boolean becomes
/// its JSON text. Returns `WrongKind` with the part for any other value, and `TooLarge` for a string of more than 4,096
/// bytes.
#[tactic(auto, unfolding(crate::specs::Values::text_in))]
pub(crate) fn text_in(alloc: Global, part: Part, value: &Value) -> Result<Text, BadContext>
    ensures { Gives result (text_in part (view value.now)) }
{
    match value {
        Value::String(text) => short_text(alloc, text.as_str()),
        Value::Bool(true) => short_text(alloc, "true"),
        Value::Bool(false) => short_text(alloc, "false"),
        Value::Number(number) => integer_in(alloc, part, number),
        Value::Null | Value::Array(_) | Value::Object(_) => Err(BadContext::WrongKind(part)),
    }
}

/// Converts the integer at a part of a context to its decimal text. Returns `WrongKind` for any other number. `-0` and
/// integers outside -2^63 to 2^64 - 1 are parsed as floats, so they are not integers here.
#[tactic(auto, unfolding(crate::specs::Values::text_in))]
fn integer_in(alloc: Global, part: Part, value: &Number) -> Result<Text, BadContext>
    ensures { Gives result (text_in part (number (number_view value.now))) }
{
    let mut buffer = Buffer::new();
    if let Some(whole) = value.as_u64() {
        return short_text(alloc, buffer.format(whole));
    }
    match value.as_i64() {
        Some(below_zero) => short_text(alloc, buffer.format(below_zero)),
        None => Err(BadContext::WrongKind(part)),
    }
}
