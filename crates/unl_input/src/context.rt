//! Reads the context at the key `context` of an input.
ghost use Rattle.std.specs.Prelude.{◌≡◌};
ghost use Rattle.serde_json.specs.View.{view};
ghost use Rattle.unl_context.specs.Json.{json_context};
ghost use Rattle.unl_documents.specs.Reading.{Gives};
ghost use Rattle.unl_input.specs.Contexts.{at_context, context_fault, context_in};

use serde_json::{Map, Value};
use std::alloc::Global;
use unl_context::{BadContext, Context};
use unl_documents::keys::value_at;
use unl_documents::{BadDocument, Field};

/// Reads the context at the key `context` of an object. If the key is absent or null, the context is empty.
///
/// # Errors
/// For a fault in any part of the context, `WrongKind` or `TooLarge` with the field `Context` (and 0 as the size in
/// `TooLarge`). `Memory` if memory ran out.
#[tactic(auto, unfolding(crate::specs::Contexts::context_in))]
pub fn context_in(alloc: Global, value: &Value) -> Result<Context, BadDocument>
    ensures { Gives result (context_in (view value.now)) }
{
    match value_at(Field::Context, value) {
        Some(found) => context_of(alloc, found),
        None => context_of(alloc, &Value::Object(Map::new(alloc))),
    }
}

/// Reads a context from a JSON value. A fault becomes the fault of a document at the key `context`.
fn context_of(alloc: Global, value: &Value) -> Result<Context, BadDocument>
    ensures { Gives result (at_context (json_context (view value.now))) }
{
    match Context::read_json(alloc, value) {
        Ok(context) => Ok(context),
        Err(fault) => Err(context_fault(fault)),
    }
}

/// Converts the fault of a context to the fault of a document at the key `context`. The result does not say which part
/// of the context is at fault. `TooLarge` carries 0 in place of a size.
fn context_fault(fault: BadContext) -> BadDocument
    ensures { result ≡ context_fault fault }
{
    match fault {
        BadContext::NotObject | BadContext::WrongKind(_) => BadDocument::WrongKind(Field::Context),
        BadContext::TooLarge => BadDocument::TooLarge(Field::Context, 0),
        BadContext::Memory => BadDocument::Memory,
    }
}
