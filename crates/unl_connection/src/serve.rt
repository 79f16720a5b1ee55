//! Serves one link from its first request to its end.
ghost use Rattle.std.specs.Prelude.{◌≡◌, [], length};
ghost use Rattle.unl_core.specs.Desk.{Keeps};
ghost use Rattle.unl_server.specs.Conversation.{Converses};
ghost use Rattle.unl_server.specs.Links.{link_view};
ghost use Rattle.unl_connection.specs.Notes.{DrawsAtLeast, LooksFor, Notes, NotesNothing, FrontsRise, noted};

use crate::by_desk::{ByDesk, DeskHandler};
use crate::served::Served;
use std::alloc::Global;
use unl_base::{Draws, Link};
use unl_core::Desk;
use unl_http_api::End;
use unl_metrics::MetricsBook;
use unl_server::serve_requests;

/// Serves a link until it ends. The desk answers each request from the board (the environments and tokens) that
/// is published at that moment, and the reply of the answer is sent. The front (the number of installs that led to the
/// board of the answer) and the draw (a time and a random word) are noted in `served`, which must be empty at the
/// start. If a request reports metrics, they are added to `book`. If the book has no room for them, the reply is a 503
/// and the book is unchanged. Returns why the link ended.
pub fn serve_connection<D: Desk, L: Link, R: Draws>(
    alloc: Global,
    desk: &mut D,
    book: &mut MetricsBook,
    link: &mut L,
    draws: &mut R,
    served: &mut Served,
) -> End
    requires { served.old ≡ [] }

    // Each answered request appends one note to `served`. The replies are sent in order: a prefix of them if a write
    // failed, and perhaps without the last if memory ran out. After the replies, a refusal is sent if the next bytes
    // are not a request, and a 500, as far as the link allows, if memory ran out. The reports of the noted requests
    // were added to the book in order, except those for which it had no room. Suppose that each environment has a line
    // (a list of histories, one per epoch), and that each version on the board of an answer represents the line of its
    // environment. Then what a token sees of that board is the visible part of one revision of the line of the token's
    // environment.
    ensures converses { Converses (Notes (D.board_at desk.new)) NotesNothing
        (link_view (L.left link.old) (L.sent link.old) (L.Source.faults link.old))
        (noted served.old book.old) result (noted served.new book.new) (length served.new)
        (link_view (L.left link.new) (L.sent link.new) (L.Source.faults link.new)) }

    // For each note, the desk looked once (took the published board) and found the board of the note's front. If memory
    // ran out, it may have looked once more. The fronts never fall. The draws of the notes were taken in order, and at
    // most one more after them. The desk still knows each board that it knew before.
    ensures fronts { FrontsRise (D.front desk.old) served.new (D.front desk.new) }
    ensures looks { LooksFor (D.fronts desk.old) served.new result (D.fronts desk.new) }
    ensures drawn { DrawsAtLeast (R.coming draws.old) served.new (R.coming draws.new) }
    ensures keeps { Keeps (D.board_at desk.old) (D.board_at desk.new) }

    // The desk's own relation `continues` holds from its first state to its last.
    ensures continues { D.continues desk.old desk.new }
{
    let mut handler = DeskHandler { desk, book, served };
    let conversed = serve_requests::<ByDesk<D>, L, R>(alloc, &mut handler, link, draws);
    conversed.1
}
