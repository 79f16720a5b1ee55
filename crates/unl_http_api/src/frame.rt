//! Finds the length of the first request in a buffer, without building the request. The network thread uses it to find
//! out whether a whole request was received, so that the connection can be served.
ghost use Rattle.httparse.specs.Grammar.{HasNoRequest};
ghost use Rattle.std.specs.Prelude.{◌≢◌, ◌≤◌, IfOk, IfSome, None, length};
ghost use Rattle.unl_http_api.specs.Finds.{HasParts};
ghost use Rattle.unl_http_api.specs.Frames.{IsFrame};
ghost use Rattle.unl_http_api.specs.Requests.{IsHopeless, window};

use crate::find::{Measured, measure};
use crate::head::{FEW_SPANS, MOST_SPANS, Seen, WINDOW, see, window};
use crate::parts::Parts;
use httparse::spans::{EMPTY_HEADER_SPAN, HeaderSpan};
use std::alloc::Global;
use unl_documents::Memory;

/// The length of the first request in a buffer, or why there is no such request.
#[derive(Clone, Copy, Debug, PartialEq, Eq)]
pub enum Frame {
    /// A complete request of this many bytes.
    Whole(usize),
    /// The request is incomplete. Further bytes complete it or lead to a refusal.
    More,
    /// The bytes are refused, whatever follows them. The reply has this status.
    Bad(u16),
}

/// Measures the first request in a buffer. A [`Reader`](crate::Reader) that holds the same bytes agrees: its next item
/// is a request of exactly this length, or `Next::More`, or `Next::Bad` with the same status.
///
/// # Errors
/// `Memory`: out of memory. Only possible if the head has more than 65 fields.
pub fn request_frame(alloc: Global, bytes: &[u8]) -> Result<Frame, Memory>
    ensures { IfOk result (IsFrame bytes.now) }
{
    if bytes.is_empty() {
        return Ok(Frame::More);
    }
    let mut few = [EMPTY_HEADER_SPAN; FEW_SPANS];
    match frame_by(bytes, &mut few) {
        Some(frame) => Ok(frame),
        None => frame_among_many(alloc, bytes),
    }
}

/// As `request_frame`, with an allocated array of spans. A span is the position of one header field. The array has
/// enough of them for any head in the window (the first 8,192 bytes). The only error is out of memory.
fn frame_among_many(alloc: Global, bytes: &[u8]) -> Result<Frame, Memory>
    ensures { IfOk result (IsFrame bytes.now) }
{
    let mut many = vec![in alloc; EMPTY_HEADER_SPAN; MOST_SPANS]?;
    match frame_by(bytes, &mut many) {
        Some(frame) => Ok(frame),
        None => unreachable!(),
    }
}

/// As `request_frame`, but the positions of the header fields are stored in `spans`. `None` if the head has more fields
/// than there are spans.
fn frame_by(bytes: &[u8], spans: &mut [HeaderSpan]) -> Option<Frame>
    ensures frame { IfSome result (IsFrame bytes.now) }
    ensures room { MOST_SPANS ≤ length spans.old → result ≢ None }
{
    let prefix = window(bytes);
    let Some(seen) = see(prefix, spans) else {
        return None;
    };
    match seen {
        Seen::Head(head) => Some(framed(bytes, head.len, &Parts::new(prefix, &head, spans))),
        Seen::Unfinished => Some(not_yet(bytes)),
        Seen::Hopeless => Some(Frame::Bad(400)),
    }
}

/// The frame of bytes whose window (the first 8,192 bytes) has no complete head and isn't hopeless (further bytes can
/// complete a head, or the window ends inside a target): `More` while the window isn't full, otherwise `Bad(431)`.
fn not_yet(bytes: &[u8]) -> Frame
    requires none { HasNoRequest (window bytes.now) }
    requires hopeful { IsHopeless (window bytes.now) → ⊥ }
    ensures { IsFrame bytes.now result }
{
    if bytes.len() < WINDOW {
        Frame::More
    } else {
        Frame::Bad(431)
    }
}

/// The frame of bytes that begin with a complete head of `len` bytes.
fn framed(bytes: &[u8], len: usize, parts: &Parts) -> Frame
    requires { HasParts bytes.now len parts.now }
    ensures { IsFrame bytes.now result }
{
    match measure(bytes, len, parts) {
        Measured::Body(count) => Frame::Whole(len + count),
        Measured::Short => Frame::More,
        Measured::Broken(status) => Frame::Bad(status),
    }
}
