//! Parses the line of an ask: a request of a client, and the draw (a time and a random word) to answer it with.
ghost use Rattle.std.specs.Prelude.{◌≡◌};
ghost use Rattle.serde_json.specs.View.{view};
ghost use Rattle.unl_documents.specs.Reading.{Gives};
ghost use Rattle.unl_replay.specs.Forms.{ask_of, bytes_or_none, method_by};

use serde_json::Value;
use std::alloc::Global;
use unl_base::Draw;
use unl_documents::keys::{defaulted, optional, required};
use unl_documents::kind::{AnyText, AnyWhole, Kind, Whole};
use unl_documents::{BadDocument, Field, List, Text};
use unl_http_api::{Bytes, Method, Request};

/// The greatest time of a draw that is accepted, in milliseconds since 1970. This limit is chosen by this project.
const LAST_MOMENT: u64 = 100_000_000_000_000;

/// A request, and the draw to answer it with.
#[derive(Drop)]
pub struct LineAsk {
    /// The request.
    pub request: Request,
    /// The time and the random word to answer the request with.
    pub draw: Draw,
}

/// Reads a method from JSON: `GET` or `POST`.
struct MethodWord;

impl Kind for MethodWord {
    ghost use Rattle.unl_documents.specs.Limits.{Anything};
    ghost use Rattle.unl_replay.specs.Forms.{method};

    type Out = Method;

    ghost reads = { method };

    ghost is_valid = { Anything };

    #[tactic(auto, unfolding(crate::specs::Forms::method))]
    fn read(_alloc: Global, field: Field, value: &Value) -> Result<Method, BadDocument> {
        let Some(word) = value.as_str() else {
            return Err(BadDocument::WrongKind(field));
        };
        method_by(field, word)
    }
}

/// Returns the method named `GET` or `POST`, or `WrongKind` for any other name.
fn method_by(field: Field, word: &str) -> Result<Method, BadDocument>
    ensures { result ≡ method_by field word.now }
{
    match word {
        "GET" => Ok(Method::Get),
        "POST" => Ok(Method::Post),
        _ => Err(BadDocument::WrongKind(field)),
    }
}

/// Returns the bytes of a text.
fn bytes_of(text: Text) -> Bytes
    ensures { result ≡ text }
{
    List::from_vec(text.into_bytes())
}

/// Returns the bytes of a text, if there is one.
fn some_bytes(text: Option<Text>) -> Option<Bytes>
    ensures { result ≡ text }
{
    match text {
        Some(text) => Some(bytes_of(text)),
        None => None,
    }
}

/// Returns the bytes of a text, or no bytes if there is none.
fn bytes_or_none(alloc: Global, text: Option<Text>) -> Bytes
    ensures { result ≡ bytes_or_none text }
{
    match text {
        Some(text) => bytes_of(text),
        None => List::new(alloc),
    }
}

/// Parses the JSON object of an ask. Only the target is required. The defaults are the method `GET`, the time 0, the
/// random word 0, an empty body, and no token, no tag and no version of the client specification. The error is the
/// first fault, or out of memory.
#[tactic(auto, unfolding(crate::specs::Forms::ask_of))]
pub fn ask_of(alloc: Global, object: &Value) -> Result<LineAsk, BadDocument>
    ensures { Gives result (ask_of (view object.now)) }
{
    let target = required::<AnyText>(alloc, Field::Target, object)?;
    let token = optional::<AnyText>(alloc, Field::Token, object)?;
    let tag = optional::<AnyText>(alloc, Field::Tag, object)?;
    let spec = optional::<AnyText>(alloc, Field::Spec, object)?;
    let body = optional::<AnyText>(alloc, Field::Body, object)?;
    let method = defaulted::<MethodWord>(alloc, Method::Get, Field::Method, object)?;
    let now = defaulted::<Whole<LAST_MOMENT>>(alloc, 0, Field::Now, object)?;
    let word = defaulted::<AnyWhole>(alloc, 0, Field::Word, object)?;
    Ok(LineAsk {
        request: Request {
            method,
            target: bytes_of(target),
            token: some_bytes(token),
            tag: some_bytes(tag),
            spec: some_bytes(spec),
            close: false,
            body: bytes_or_none(alloc, body),
        },
        draw: Draw { now, word },
    })
}
