//! Serves the requests of one link.
ghost use Rattle.unl_server.specs.Handling.{HandlesRequest, RunsOutOfMemory, handler_state};
ghost use Rattle.unl_server.specs.Conversation.{Converses};
ghost use Rattle.unl_server.specs.Links.{link_view};

use crate::receive::PIECE;
use crate::request_handler::{MOST_REQUESTS, RequestHandler};
use crate::serving::serve_request;
use std::alloc::Global;
use unl_base::{Draws, Link};
use unl_http_api::{End, Reader};

/// Serves the requests of a link until the link ends, which is after [`MOST_REQUESTS`] requests at the latest. Each
/// request gets a draw of its own (a time and a random word). Returns how many requests were answered, and why the link
/// ended. A request counts as answered when its reply is computed, even if the reply can't be sent. A door may hand out
/// one connection as several links, one after another, and each of them is counted anew.
pub fn serve_requests<A: RequestHandler, L: Link, R: Draws>(
    alloc: Global,
    state: &mut A::State,
    link: &mut L,
    draws: &mut R,
) -> (usize, End)
    requires { A.fits 0 state.old }
    ensures converses { Converses (HandlesRequest A.gives) (RunsOutOfMemory A.out_of_memory)
        (link_view (L.left link.old) (L.sent link.old) (L.Source.faults link.old))
        (handler_state state.old 0 (R.coming draws.old)) result.1 (handler_state state.new result.0 (R.coming draws.new)) result.0
        (link_view (L.left link.new) (L.sent link.new) (L.Source.faults link.new)) }
    ensures fits { A.fits result.0 state.new }
    ensures keeps { A.keeps state.old state.new }
{
    let mut reader = Reader::new(alloc);
    // One buffer for all requests of the link: filling a new one for each would cost more than most requests do.
    let mut room = [0; PIECE];
    let mut count = 0;
    for turn in 0..MOST_REQUESTS {
        let last = turn + 1 == MOST_REQUESTS;
        if let Some(end) = serve_request::<A, L, R>(
            alloc,
            &mut reader,
            &mut room,
            state,
            &mut count,
            link,
            draws,
            last,
        ) {
            return (count, end);
        }
    }
    (count, End::Limit)
}
