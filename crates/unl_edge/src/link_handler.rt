//! The link handler of an edge: the state with which one worker serves links.
ghost use Rattle.std.specs.Prelude.{◌≡◌, [], IfOk};
ghost use Rattle.unl_edge_state.specs.Reading.{IsSteady};

use std::alloc::Global;
use std::sync::Wait;
use unl_base::{Draw, Draws, Link};
use unl_connection::{Served, serve_connection};
use unl_core::{Answer, Desk};
use unl_documents::Memory;
use unl_edge_state::EdgeReader;
use unl_http_api::Request;
use unl_metrics::MetricsBook;
use unl_refresh::MetricsSender;
use unl_server::Server;
use unl_workers::LinkHandler;

/// A desk that answers requests with a reader. Each answer is computed from a board that results from at least as many
/// installs as the reader has learned of. When a reader learns a list of installs from a report of the writer, the new
/// list replaces its old one, and boards that it knew before need not follow the new list. The reader of this desk has
/// learned lists only while it knew no board but the opening board (the board before all installs). So all boards that
/// it knows follow one list. The publication is orderly, so no install in that list gives a slot an older version.
#[derive(Drop)]
pub(crate) struct FreshDesk {
    /// The reader of the published boards.
    pub reader: EdgeReader,
    ghost steady: { ∥ IsSteady reader ∥₁ },
}

impl Desk for FreshDesk {
    ghost use Rattle.std.specs.Prelude.{Some};
    ghost use Rattle.unl_edge.specs.LinkHandling.{least_front};
    ghost use Rattle.unl_edge_state.specs.Reading.{ContinuesFrom, board_of, continuation_of, past_of, seen_by};
    ghost use Rattle.unl_edge_state.specs.Continued.{continued_itself, continued_on};

    ghost front = { λ desk. least_front desk.reader };

    ghost board_at = { λ desk. board_of (seen_by desk.reader) };

    ghost fronts = { λ desk. Some (seen_by desk.reader).fronts };

    ghost continues = { λ desk after. ContinuesFrom (past_of desk.reader) (continuation_of desk.reader) after.reader };

    fn answer(
        &mut self,
        alloc: Global,
        request: &Request,
        draw: &Draw,
    ) -> Result<(u64, Answer), Memory> {
        self.reader.answer(alloc, request, draw)
    }

    ghost continues_itself = { λ desk. continued_itself (past_of desk.reader) (continuation_of desk.reader) };

    ghost continues_on = { λ first next last. continued_on (past_of first.reader) (past_of next.reader) (past_of last.reader)
        (continuation_of first.reader) (continuation_of next.reader) (continuation_of last.reader) };
}

/// What one worker serves links with. It answers requests from the published boards. After each link it puts the
/// metrics that clients reported into a queue, unless 64 books wait there. The poller takes them from the queue and
/// sends them upstream.
#[derive(Drop)]
pub(crate) struct EdgeLinkHandler<'a, W> {
    /// Answers the requests.
    pub desk: FreshDesk,
    /// The metrics that are not handed over yet.
    pub book: MetricsBook,
    /// Hands the metrics over to the poller.
    pub sender: MetricsSender<'a>,
    /// One note for each answered request of the link being served or, between links, of the last one.
    notes: Served,
    rt: &'a W,
}

impl<'a, W> EdgeLinkHandler<'a, W> {
    /// Creates the handler of one worker, with no metrics yet. Fails only if out of memory.
    pub fn new(
        alloc: Global,
        rt: &'a W,
        sender: MetricsSender<'a>,
        reader: EdgeReader,
    ) -> Result<EdgeLinkHandler<'a, W>, Memory>
        requires { IsSteady reader }
        ensures { IfOk result (λ handler. (handler.desk.reader ≡ reader) × (handler.book ≡ []) × (handler.sender ≡ sender.entry)) }
    {
        let notes = Served::new(alloc)?;
        Ok(EdgeLinkHandler {
            desk: FreshDesk { reader },
            book: MetricsBook::new(alloc),
            sender,
            notes,
            rt,
        })
    }
}

impl<'a, W: Wait> Server for EdgeLinkHandler<'a, W> {
    ghost use Rattle.unl_edge.specs.LinkHandling.{ReadsOnAt, ServesAt};
    ghost use Rattle.std.proofs.Common.{rules};

    ghost fits = { λ server. Unit {0} };

    ghost keeps = { ReadsOnAt };

    ghost serves = { ServesAt };

    fn serve_link<L: Link, R: Draws>(&mut self, alloc: Global, link: &mut L, draws: &mut R) {
        self.notes.clear();
        serve_connection(
            alloc,
            &mut self.desk,
            &mut self.book,
            link,
            draws,
            &mut self.notes,
        );
        self.sender.hand_over(alloc, self.rt, &mut self.book);
    }

    ghost keeps_itself = { Prim.search rules };

    ghost keeps_on = { Prim.search rules };
}

impl<'a, W: Wait> LinkHandler for EdgeLinkHandler<'a, W> {
    ghost always = { λ server. tt };
}
