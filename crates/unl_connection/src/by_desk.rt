//! The request handler of a connection: a desk answers each request, from the board (the state of the environments and
//! tokens) that is published at that moment.

use crate::served::{Served, ServedOne};
use std::alloc::Global;
use std::marker::PhantomData;
use unl_base::Draw;
use unl_core::{Desk, record_report};
use unl_documents::Memory;
use unl_http_api::{Reply, Request};
use unl_metrics::MetricsBook;
use unl_server::RequestHandler;

/// The state of the handler: the desk that answers requests, the metrics book, and the notes of the answers.
#[derive(Drop)]
pub(crate) struct DeskHandler<'a, D> {
    /// Answers the requests.
    pub desk: &'a mut D,
    /// Adds up the metrics reports that answers have.
    pub book: &'a mut MetricsBook,
    /// Receives one note for each answer.
    pub served: &'a mut Served,
}

/// Lets a desk answer each request. If the answer has a metrics report, adds it to the metrics book, or replies with a
/// 503 if the book has no room for it. Notes the draw and the answer's front: the number of installs that led to the
/// board from which the request was answered.
pub(crate) struct ByDesk<'a, D>(PhantomData<&'a D>);

impl<'a, D: Desk> RequestHandler for ByDesk<'a, D> {
    ghost use Rattle.std.specs.Prelude.{◌≡◌, length};
    ghost use Rattle.std.proofs.Common.{rules};
    ghost use Rattle.unl_connection.specs.Notes.{AnswersNothing, AnswersFromBoard, known_by, desk_notes};

    type State = DeskHandler<'a, D>;

    ghost fits = { λ count state. length state.served.now ≡ count };

    ghost keeps = { λ state after. (after.desk.ghost_name ≡ state.desk.ghost_name)
        × (after.book.ghost_name ≡ state.book.ghost_name) × (after.served.ghost_name ≡ state.served.ghost_name)
        × D.continues state.desk.now after.desk.now };

    ghost gives = { λ state request draw reply after. AnswersFromBoard
        (desk_notes (known_by D.front D.board_at D.fronts state.desk.now) state.served.now state.book.now) request draw reply
        (desk_notes (known_by D.front D.board_at D.fronts after.desk.now) after.served.now after.book.now) };

    ghost out_of_memory = { λ state request draw after. AnswersNothing
        (desk_notes (known_by D.front D.board_at D.fronts state.desk.now) state.served.now state.book.now)
        (desk_notes (known_by D.front D.board_at D.fronts after.desk.now) after.served.now after.book.now) };

    fn answer(
        alloc: Global,
        state: &mut DeskHandler<'a, D>,
        _count: usize,
        request: &Request,
        draw: &Draw,
    ) -> Result<Reply, Memory> {
        let (front, answer) = state.desk.answer(alloc, request, draw)?;
        let reply = record_report(alloc, state.book, answer)?;
        state.served.note(ServedOne { front, draw: *draw });
        Ok(reply)
    }

    ghost keeps_itself = { Prim.search rules };

    ghost keeps_on = { Prim.search rules };
}
