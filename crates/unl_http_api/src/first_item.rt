//! Proves that every byte string has exactly one session: one list of requests, and one reason why the connection ends.
ghost use Rattle.std.specs.Prelude.{◌≡◌, length};
ghost use Rattle.unl_http_api.specs.Session.{HasOneSession};
ghost use Rattle.unl_http_api.specs.Finds.{HasParts};
ghost use Rattle.unl_http_api.specs.FirstItems.{IsFirstItem};

use crate::find::{Measured, measure};
use crate::head::{MOST_SPANS, Seen, WINDOW, after, see, window};
use crate::parts::Parts;
use httparse::spans::{EMPTY_HEADER_SPAN, HeaderSpan};

/// The most requests that are answered on one connection. This limit is chosen by this project.
const MOST_REQUESTS: usize = 1000;

/// What a buffer begins with. As `Found` of `find`, but without the parts of the request, so that nothing is allocated.
#[derive(Clone, Copy)]
enum FirstItem {
    /// A request: its length in bytes, and whether it ends the connection.
    Request(usize, bool),
    /// The request is incomplete. Further bytes complete it or lead to a refusal.
    More,
    /// The bytes are refused, whatever follows them. The reply has this status.
    Bad(u16),
}

/// States in its contract that the bytes have exactly one session: one list of requests, and one reason why the
/// connection ends. The function returns nothing, and allocates nothing.
pub fn has_one_session(bytes: &[u8])
    ensures { HasOneSession bytes.now }
{
    let mut spans = [EMPTY_HEADER_SPAN; MOST_SPANS];
    let mut rest = bytes;
    for _turn in 0..MOST_REQUESTS {
        match first_item(rest, &mut spans) {
            FirstItem::Request(len, close) => {
                if close {
                    return;
                }
                rest = after(rest, len);
            }
            FirstItem::More => return,
            FirstItem::Bad(_) => return,
        }
    }
}

/// Classifies the start of a buffer: a request, incomplete, or refused.
fn first_item(held: &[u8], spans: &mut [HeaderSpan]) -> FirstItem
    requires { length spans.old ≡ MOST_SPANS }
    ensures { IsFirstItem held.now result }
{
    let prefix = window(held);
    let Some(seen) = see(prefix, spans) else {
        unreachable!();
    };
    match seen {
        Seen::Head(head) => item_after_head(held, head.len, &Parts::new(prefix, &head, spans)),
        Seen::Unfinished => if held.len() < WINDOW {
            FirstItem::More
        } else {
            FirstItem::Bad(431)
        },
        Seen::Hopeless => FirstItem::Bad(400),
    }
}

/// Classifies the start of a buffer that begins with a complete head of `len` bytes.
fn item_after_head(held: &[u8], len: usize, parts: &Parts) -> FirstItem
    requires { HasParts held.now len parts.now }
    ensures { IsFirstItem held.now result }
{
    match measure(held, len, parts) {
        Measured::Body(count) => FirstItem::Request(len + count, parts.closes()),
        Measured::Short => FirstItem::More,
        Measured::Broken(status) => FirstItem::Bad(status),
    }
}
