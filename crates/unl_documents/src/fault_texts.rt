//! `fault_text`: the text that reports a [`BadDocument`].
ghost use Rattle.std.specs.Prelude.{◌≡◌, ◌++◌, IfOk, string_bytes, codes, decimal};
ghost use Rattle.serde_json.specs.Data.{string};
ghost use Rattle.serde_json.specs.Written.{compact_text};
ghost use Rattle.unl_documents.specs.FaultText.{fault_text};
ghost use Rattle.unl_documents.specs.Key.{key_of};

use crate::fault::BadDocument;
use crate::field::Field;
use crate::memory::Memory;
use crate::text::Text;
use serde_json::Value;
use std::alloc::Global;

/// Returns the text of a fault, which is empty for `Memory`. For other faults, the text is the name of the variant, the
/// key if there is one, and then the number of `TooLarge`, or the name or id of `DuplicateName` as a JSON string. The
/// parts are separated by spaces. The format is chosen by this project. The only error is out of memory.
#[tactic(auto, unfolding(crate::specs::FaultText::fault_text))]
pub fn fault_text(alloc: Global, fault: &BadDocument) -> Result<String, Memory>
    ensures { IfOk result (λ s. string_bytes s ≡ fault_text fault.now) }
{
    match fault {
        BadDocument::NotJson => Ok(String::from_str(alloc, "NotJson")?),
        BadDocument::Missing(field) => at_key(alloc, "Missing ", *field),
        BadDocument::WrongKind(field) => at_key(alloc, "WrongKind ", *field),
        BadDocument::TooLarge(field, n) => too_large(alloc, *field, *n),
        BadDocument::DuplicateName(field, name) => duplicate(alloc, *field, name),
        BadDocument::NotWhole(field) => at_key(alloc, "NotWhole ", *field),
        BadDocument::Memory => Ok(String::new(alloc)),
    }
}

/// Returns `name`, which ends in a space, followed by the key.
fn at_key(alloc: Global, name: &str, field: Field) -> Result<String, Memory>
    ensures { IfOk result (λ s. string_bytes s ≡ name.now ++ key_of field) }
{
    Ok(format!(in alloc; "{}{}", name, field.key())?)
}

fn too_large(alloc: Global, field: Field, n: u64) -> Result<String, Memory>
    ensures { IfOk result (λ s. string_bytes s ≡ codes "TooLarge " ++ (key_of field ++ (codes " " ++ decimal n))) }
{
    Ok(format!(in alloc; "TooLarge {} {}", field.key(), n)?)
}

fn duplicate(alloc: Global, field: Field, name: &Text) -> Result<String, Memory>
    ensures { IfOk result (λ s. string_bytes s
        ≡ codes "DuplicateName " ++ (key_of field ++ (codes " " ++ compact_text (string name.now)))) }
{
    let name = json_text(alloc, name)?;
    Ok(format!(in alloc; "DuplicateName {} {}", field.key(), name)?)
}

/// Returns a text as a JSON string.
fn json_text(alloc: Global, text: &Text) -> Result<String, Memory>
    ensures { IfOk result (λ s. string_bytes s ≡ compact_text (string text.now)) }
{
    let text = String::from_str(alloc, text.as_str())?;
    Ok(Value::String(text).to_string(alloc)?)
}
