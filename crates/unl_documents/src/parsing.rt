//! Parsing JSON (RFC 8259).
ghost use Rattle.std.specs.Prelude.{◌≡◌, IfOk, option_map};
ghost use Rattle.serde_json.specs.View.{view};
ghost use Rattle.unl_documents.specs.Results.{json_of, object_in};

use crate::memory::Memory;
use serde_json::Value;
use std::alloc::Global;

/// Parses a JSON value. Returns `None` if the bytes aren't UTF-8 or aren't JSON. The only error is out of memory.
pub fn read_json(alloc: Global, bytes: &[u8]) -> Result<Option<Value>, Memory>
    ensures { IfOk result (λ found. option_map view found ≡ json_of bytes.now) }
{
    match Value::from_slice(alloc, bytes) {
        Ok(value) => Ok(Some(value)),
        Err(e) if e.is_memory() => Err(Memory),
        Err(_) => Ok(None),
    }
}

/// Parses a JSON object. Returns `None` if the bytes aren't a JSON object. The only error is out of memory.
#[tactic(auto, unfolding(crate::specs::Results::object_in))]
pub fn read_object(alloc: Global, bytes: &[u8]) -> Result<Option<Value>, Memory>
    ensures { IfOk result (λ found. option_map view found ≡ object_in bytes.now) }
{
    match read_json(alloc, bytes)? {
        Some(value) if value.is_object() => Ok(Some(value)),
        _ => Ok(None),
    }
}
