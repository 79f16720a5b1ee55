//! Parses a reply: its head, and the body among the bytes after it.
ghost use Rattle.std.specs.Prelude.{◌≡◌, ◌≤◌, ℕ, List, length, IfOk, IfSome, IfNone};
ghost use Rattle.httparse.specs.Grammar.{ResponseHead, ReadsResponse};
ghost use Rattle.httparse.specs.Spans.{IsResponseWithin, IsResponseOf};
ghost use Rattle.unl_documents.specs.Results.{Answers, Gives};
ghost use Rattle.unl_http_api.specs.declared.got.BadReply.{BadReply};
ghost use Rattle.unl_http_api.specs.Received.{body_size, size_among, reading_with, IsReply, HasOneReply};

use crate::fields::Fields;
use crate::got::{BadReply, Got};
use crate::head::{after, window};
use crate::parts::copied;
use httparse::Status;
use httparse::spans::{EMPTY_HEADER_SPAN, HeaderSpan, ResponseSpans, parse_response};
use std::alloc::Global;
use unl_documents::List;

/// The most fields that a reply's head may have. This limit is chosen by this project.
pub(crate) const MOST_FIELDS: usize = 64;

/// The most bytes that a reply's body may have: 16 MiB. This limit is chosen by this project.
const MOST_BODY: u64 = 16_777_216;

/// Parses the head at the start of the window (the first 8,192 bytes of a reply). Returns `None` if there is no
/// complete head, or if it has more fields than `spans` has items.
fn see_reply(window: &[u8], spans: &mut [HeaderSpan]) -> Option<ResponseSpans>
    ensures some { IfSome result (λ head. IsResponseWithin window.now spans.new head × IsResponseOf window.now spans.new head) }
    ensures none { IfNone result ((head : ResponseHead) (rest : List ℕ) → ReadsResponse window.now head rest
        → length head.fields ≤ length spans.old → ⊥) }
{
    match parse_response(window, spans) {
        Ok(Status::Complete(head)) => Some(head),
        _ => None,
    }
}

/// The length of the body in bytes, 0 for a 304. `following` is the number of bytes after the head.
///
/// # Errors
/// - `Head`: there is a `Transfer-Encoding`, more than one `Content-Length`, or one that isn't 1 to 19 digits.
/// - `TooLarge`: the body would have more than 16,777,216 bytes.
/// - `Short`: fewer bytes follow than `Content-Length` states.
fn body_size(status: u16, fields: &Fields, following: usize) -> Result<usize, BadReply>
    ensures size { result ≡ body_size status fields.now following }
    ensures fits { IfOk result (λ size. size ≤ following) }
{
    if fields.count(b"transfer-encoding") > 0 || fields.body_length().is_none() {
        return Err(BadReply::Head);
    }
    if status == 304 {
        return Ok(0);
    }
    size_among(fields.stated_length(), following)
}

/// The length of the body in bytes: the length that `Content-Length` states (`stated`), or all `following` bytes if
/// none is stated. The errors are the `TooLarge` and `Short` of `body_size`.
fn size_among(stated: Option<u64>, following: usize) -> Result<usize, BadReply>
    ensures size { result ≡ size_among stated following }
    ensures fits { IfOk result (λ size. size ≤ following) }
{
    match stated {
        Some(size) if size > MOST_BODY => Err(BadReply::TooLarge),
        Some(size) if size > following as u64 => Err(BadReply::Short),
        Some(size) => Ok(size as usize),
        None if following as u64 > MOST_BODY => Err(BadReply::TooLarge),
        None => Ok(following),
    }
}

/// The reply with this status and these fields, whose body is among the bytes after the head (`rest`).
///
/// # Errors
/// As for `body_size`, or `Memory`: out of memory.
fn reply_with(alloc: Global, status: u16, fields: &Fields, rest: &[u8]) -> Result<Got, BadReply>
    ensures { Gives BadReply.Memory result (reading_with status fields.now rest.now) }
{
    let size = body_size(status, fields, rest.len())?;
    Ok(Got {
        status,
        tag: copied(alloc, fields.first(b"etag"))?,
        body: List::from_slice(alloc, &rest[..size])?,
    })
}

/// Parses the reply at the start of `bytes`, which are all bytes that will be received. The positions of its header
/// fields are stored in `spans`.
///
/// # Errors
/// `Head`: the first 8,192 bytes contain no complete head, or it has more than 64 fields. Otherwise as for
/// `reply_with`.
pub(crate) fn read_reply(
    alloc: Global,
    bytes: &[u8],
    spans: &mut [HeaderSpan],
) -> Result<Got, BadReply>
    requires { length spans.old ≡ MOST_FIELDS }
    ensures { Answers BadReply.Memory (IsReply bytes.now) result }
{
    let prefix = window(bytes);
    match see_reply(prefix, spans) {
        Some(head) => {
            let fields = Fields::new(prefix, &spans[..head.headers]);
            reply_with(alloc, head.code, &fields, after(bytes, head.len))
        }
        None => Err(BadReply::Head),
    }
}

/// States in its contract that the bytes parse in exactly one way: as a reply, or as a fault. The function returns
/// nothing, and allocates nothing.
pub fn has_one_reply(bytes: &[u8])
    ensures { HasOneReply bytes.now }
{
    let mut spans = [EMPTY_HEADER_SPAN; MOST_FIELDS];
    match see_reply(window(bytes), &mut spans) {
        Some(_) => (),
        None => (),
    }
}
