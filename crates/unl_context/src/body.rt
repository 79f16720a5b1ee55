//! Reads a context from the body of an HTTP request.
ghost use Rattle.serde_json.specs.View.{view};
ghost use Rattle.unl_context.specs.Json.{body_context, body_of};
ghost use Rattle.unl_context.specs.Reading.{Gives};

use crate::context::Context;
use crate::fault::BadContext;
use crate::values::{read_json, taken_at};
use serde_json::Value;
use std::alloc::Global;

/// Reads a context from the bytes of a body, as [`Context::read_body`] says. Returns `NotObject` if the bytes are not
/// JSON.
#[tactic(auto, unfolding(crate::specs::Json::body_of))]
pub(crate) fn body_of(alloc: Global, bytes: &[u8]) -> Result<Context, BadContext>
    ensures gives { Gives result (body_of bytes.now) }
{
    match read_json(alloc, bytes)? {
        Some(mut value) => body_context(alloc, &mut value),
        None => Err(BadContext::NotObject),
    }
}

/// Reads a context from the JSON value of a body: from its member `context` if there is one and it is not null,
/// otherwise from the value itself. Moves the properties out of the value instead of copying them.
#[tactic(auto, unfolding(crate::specs::Json::body_context))]
fn body_context(alloc: Global, value: &mut Value) -> Result<Context, BadContext>
    ensures gives { Gives result (body_context (view value.old)) }
{
    match taken_at("context", value) {
        Some(mut context) => Context::of_value(alloc, &mut context),
        None => Context::of_value(alloc, value),
    }
}
