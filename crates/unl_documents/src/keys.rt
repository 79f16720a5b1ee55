//! Reading the value at a required or optional key of a JSON object.
ghost use Rattle.std.specs.Prelude.{◌≡◌, option_map, IfOk, IfSome};
ghost use Rattle.serde_json.specs.View.{view};
ghost use Rattle.unl_documents.specs.Reading.{Gives};
ghost use Rattle.unl_documents.specs.Limits.{IsName};
ghost use Rattle.unl_documents.specs.Kinds.{at, required as required_at, optional as optional_at, defaulted as defaulted_at, name};

use crate::fault::BadDocument;
use crate::field::Field;
use crate::kind::{Kind, Name};
use crate::text::Text;
use serde_json::Value;
use std::alloc::Global;

/// Returns the value at a key, or `None` if the key is absent or null, or if `value` isn't an object.
#[tactic(auto, unfolding(crate::specs::Kinds::at))]
pub fn value_at(field: Field, value: &Value) -> Option<&Value>
    ensures { option_map (λ found. view found.now) result ≡ at field (view value.now) }
{
    match value.get(field.key()) {
        None | Some(Value::Null) => None,
        Some(found) => Some(found),
    }
}

/// Reads the value at a required key.
///
/// # Errors
/// `Missing` if the key is absent or null; otherwise the errors of `K::read`.
#[tactic(auto, unfolding(crate::specs::Kinds::required))]
pub fn required<K: Kind>(alloc: Global, field: Field, value: &Value) -> Result<K::Out, BadDocument>
    ensures gives { Gives result (required_at K.reads field (view value.now)) }
    ensures valid { IfOk result K.is_valid }
{
    match value_at(field, value) {
        None => Err(BadDocument::Missing(field)),
        Some(found) => K::read(alloc, field, found),
    }
}

/// Reads the value at an optional key. Returns `None` if the key is absent or null.
///
/// # Errors
/// The errors of `K::read`.
#[tactic(auto, unfolding(crate::specs::Kinds::optional))]
pub fn optional<K: Kind>(
    alloc: Global,
    field: Field,
    value: &Value,
) -> Result<Option<K::Out>, BadDocument>
    ensures gives { Gives result (optional_at K.reads field (view value.now)) }
    ensures valid { IfOk result (λ found. IfSome found K.is_valid) }
{
    match value_at(field, value) {
        None => Ok(None),
        Some(found) => Ok(Some(K::read(alloc, field, found)?)),
    }
}

/// Reads the value at an optional key. Returns `default`, which must be valid for `K`, if the key is absent or null.
///
/// # Errors
/// The errors of `K::read`.
#[tactic(auto, unfolding(crate::specs::Kinds::defaulted))]
pub fn defaulted<K: Kind>(
    alloc: Global,
    default: K::Out,
    field: Field,
    value: &Value,
) -> Result<K::Out, BadDocument>
    requires { K.is_valid default }
    ensures gives { Gives result (defaulted_at default K.reads field (view value.now)) }
    ensures valid { IfOk result K.is_valid }
{
    match value_at(field, value) {
        None => Ok(default),
        Some(found) => K::read(alloc, field, found),
    }
}

/// Reads the name at an optional key. Returns a copy of `default`, which must be a name, if the key is absent or null.
///
/// # Errors
/// `WrongKind` if the value isn't a string, `Missing` if the string is empty, `TooLarge` if it has more than 255 bytes,
/// or `Memory`: out of memory.
#[tactic(auto, unfolding(crate::specs::Kinds::defaulted))]
pub fn name_or(
    alloc: Global,
    default: &str,
    field: Field,
    value: &Value,
) -> Result<Text, BadDocument>
    requires { IsName default.now }
    ensures gives { Gives result (defaulted_at default.now name field (view value.now)) }
    ensures valid { IfOk result IsName }
{
    match value_at(field, value) {
        None => Ok(Text::new(alloc, default)?),
        Some(found) => Name::read(alloc, field, found),
    }
}
