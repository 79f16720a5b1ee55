//! The interface of a request handler, which computes the replies to the requests of a connection.
ghost use Rattle.std.specs.Prelude.{◌<◌, ◌+◌, ℕ, IfOk, OnErr, OnOk};
ghost use Rattle.http.specs.StatusCode.{IsStatusCode};
ghost use Rattle.unl_base.specs.declared.draws.Draw.{Draw};
ghost use Rattle.unl_http_api.specs.declared.reply.Reply.{Reply};
ghost use Rattle.unl_http_api.specs.declared.request.Request.{Request};

use std::alloc::Global;
use unl_base::Draw;
use unl_documents::Memory;
use unl_http_api::{Reply, Request};

/// The maximum number of requests that are answered on one link. The last of their replies closes the connection. The
/// number is chosen by this project.
pub const MOST_REQUESTS: usize = 1000;

/// Handles the requests of a link: computes the reply to each request, and records in a state what the request
/// changes (such as metrics).
pub trait RequestHandler {
    /// The state of the handler, with everything that it records and counts. Each request may change it.
    type State;

    /// The precondition of `answer`, on the number of requests answered before on the link, and on the state. It also
    /// holds after `answer`, with the new number and state.
    ghost fits: { ℕ → Self.State → Type 0 };

    /// A relation that holds between the states before and after any number of calls, such as that the state still
    /// holds the same references.
    ghost keeps: { Self.State → Self.State → Type 0 };

    /// The effect of a successful answer: the state before, the request, its draw (a time and a random word), the
    /// reply, and the state after.
    ghost gives: { Self.State → Request → Draw → Reply → Self.State → Type 0 };

    /// The effect of running out of memory at a request: the state before, the request, its draw, and the state after.
    ghost out_of_memory: { Self.State → Request → Draw → Self.State → Type 0 };

    /// Computes the reply to a request, with the time and the random word of `draw`. `count` requests were answered on
    /// its link before.
    ///
    /// # Errors
    /// `Memory`: out of memory. The request then counts as not answered.
    fn answer(
        alloc: Global,
        state: &mut Self::State,
        count: usize,
        request: &Request,
        draw: &Draw,
    ) -> Result<Reply, Memory>
        requires fits { fits count state.old }
        requires few { count < 1000 }
        ensures gives { IfOk result (λ reply. gives state.old request.now draw.entry.now reply state.new) }
        ensures status { IfOk result (λ reply. IsStatusCode reply.status) }
        ensures out_of_memory { OnErr result (out_of_memory state.old request.now draw.entry.now state.new) }
        ensures fits { OnOk result (fits (count + 1) state.new) }
        ensures still_fits { OnErr result (fits count state.new) }
        ensures keeps { keeps state.old state.new };

    // `keeps` is reflexive.
    ghost keeps_itself: { (state : Self.State) → keeps state state };

    // `keeps` is transitive.
    ghost keeps_on: { (first next last : Self.State) → keeps first next → keeps next last → keeps first last };
}
