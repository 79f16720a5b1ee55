//! Serves a connection with an upstream that has no keeper (no store of its commands).
ghost use Rattle.unl_server.specs.Conversation.{Converses};
ghost use Rattle.unl_server.specs.Links.{link_view};
ghost use Rattle.unl_upstream.specs.Serving.{ServingRunsOut, ObeysRequests, ServesRequest, serving_state};

use crate::upstream::Upstream;
use std::alloc::Global;
use unl_base::{Draw, Draws, Link};
use unl_documents::Memory;
use unl_http_api::{End, Reply, Request};
use unl_server::{RequestHandler, serve_requests};

/// The request handler of an upstream that has no keeper.
pub(crate) struct ByUpstream;

impl RequestHandler for ByUpstream {
    ghost use Rattle.unl_upstream.specs.Serving.{AnswersRequest, UpstreamUnchanged};

    type State = Upstream;

    ghost fits = { λ count up. Unit {0} };

    ghost keeps = { λ up up_after. Unit {0} };

    ghost gives = { AnswersRequest };

    ghost out_of_memory = { UpstreamUnchanged };

    fn answer(
        alloc: Global,
        state: &mut Upstream,
        _count: usize,
        request: &Request,
        draw: &Draw,
    ) -> Result<Reply, Memory> {
        let reply = state.answer(alloc, request, draw)?;
        Ok(reply)
    }

    ghost keeps_itself = { λ up. tt };

    ghost keeps_on = { λ first next last first_kept next_kept. tt };
}

impl Upstream {
    /// Serves a connection until it ends: answers each request, and applies the command of a request that gives one.
    /// A draw (a time and a random word) is taken for each request. Returns how many requests were answered, and how
    /// the connection ended.
    pub fn serve<L: Link, R: Draws>(
        &mut self,
        alloc: Global,
        link: &mut L,
        draws: &mut R,
    ) -> (usize, End)
        // The whole conversation: the requests that were read, the replies that were sent, how it ended, how many
        // requests were answered (each with the next draw), and the cause of each failure.
        ensures converses { Converses ServesRequest ServingRunsOut
            (link_view (L.left link.old) (L.sent link.old) (L.Source.faults link.old))
            (serving_state self.old 0 (R.coming draws.old)) result.1 (serving_state self.new result.0 (R.coming draws.new)) result.0
            (link_view (L.left link.new) (L.sent link.new) (L.Source.faults link.new)) }

        // In every case, nothing but the commands of the answered requests changed the upstream.
        ensures obeyed { ObeysRequests self.old result.0 self.new }
    {
        serve_requests::<ByUpstream, L, R>(alloc, self, link, draws)
    }
}
