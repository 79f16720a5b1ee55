//! Proofs that the parts of a worker's state are `Send`. Each part has a proof of its own, since one proof search over
//! all parts times out.
ghost use denote.Ref.{NamedLft};
ghost use Rattle.std.specs.Thread.{IsSend};
ghost use Rattle.unl_edge.specs.contracts.link_handler.FreshDesk as DeskType;
ghost use Rattle.unl_metrics.specs.contracts.book.MetricsBook as BookType;
ghost use Rattle.unl_connection.specs.contracts.served.Served as NotesType;
ghost use Rattle.unl_refresh.specs.contracts.metrics_receiver.MetricsReceiver as ReceiverType;
ghost use Rattle.unl_refresh.specs.contracts.metrics_sender.MetricsSender as SenderType;

use crate::link_handler::FreshDesk;
use unl_connection::Served;
use unl_edge_state::readers_are_send;
use unl_metrics::MetricsBook;
use unl_refresh::metrics_ends_are_send;

/// Proves that `T` is `Send`, from its bound.
fn send_of<T: Send>()
    ensures { IsSend T.row }
{}

/// Proves that a desk is `Send`.
fn desks_cross()
    ensures { IsSend DeskType.the_row }
{
    readers_are_send();
    send_of::<FreshDesk>()
}

/// Proves that a metrics book is `Send`.
fn books_cross()
    ensures { IsSend BookType.the_row }
{
    send_of::<MetricsBook>()
}

/// Proves that the notes of a connection are `Send`.
fn notes_cross()
    ensures { IsSend NotesType.the_row }
{
    send_of::<Served>()
}

/// Proves that the parts of a worker's state are `Send`, and a receiver of metrics too. Callers that move any of these
/// to another thread call this function first. Does nothing at run time.
pub(crate) fn worker_parts_are_send()
    ensures desk { IsSend DeskType.the_row }
    ensures book { IsSend BookType.the_row }
    ensures notes { IsSend NotesType.the_row }
    ensures sender { (lifetime : NamedLft) → IsSend (SenderType.the_row lifetime) }
    ensures receiver { (lifetime : NamedLft) → IsSend (ReceiverType.the_row lifetime) }
{
    metrics_ends_are_send();
    desks_cross();
    books_cross();
    notes_cross()
}
