//! Writes JSON documents as text.
ghost use Rattle.std.specs.Prelude.{◌≡◌, IfOk, false, string_bytes};
ghost use Rattle.serde_json.specs.View.{view};
ghost use Rattle.serde_json.specs.Written.{compact_text, has_float};

use serde_json::Value;
use std::alloc::Global;
use unl_documents::Memory;

/// Returns the text of a document as compact JSON. The document must not contain floating-point numbers.
pub(crate) fn json_text(alloc: Global, document: &Value) -> Result<String, Memory>
    requires { has_float (view document.now) ≡ false }
    ensures { IfOk result (λ text. string_bytes text ≡ compact_text (view document.now)) }
{
    Ok(document.to_string(alloc)?)
}
