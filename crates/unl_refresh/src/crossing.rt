//! Proofs that the two ends of a metrics queue, its sender and its receiver, can be sent to another thread.
ghost use denote.Ref.{NamedLft};
ghost use Rattle.std.specs.Thread.{IsSend, IsSync};
ghost use Rattle.unl_refresh.specs.Crossing.{pass_type};
ghost use Rattle.unl_metrics.specs.contracts.book.MetricsBook as BookType;
ghost use Rattle.unl_refresh.specs.contracts.metrics_queue.MetricsQueue as QueueType;
ghost use Rattle.unl_refresh.specs.contracts.metrics_receiver.MetricsReceiver as ReceiverType;
ghost use Rattle.unl_refresh.specs.contracts.metrics_sender.MetricsSender as SenderType;

use crate::{MetricsPass, MetricsQueue};
use unl_metrics::MetricsBook;

/// States in its contract that `T` is `Sync`, as the bound says. Does nothing at run time.
fn sync_of<T: Sync>()
    ensures { IsSync T.row }
{}

/// States in its contract that `T` is `Send`, as the bound says. Does nothing at run time.
fn send_of<T: Send>()
    ensures { IsSend T.row }
{}

/// A metrics queue is `Sync`.
fn queues_are_sync()
    ensures { IsSync QueueType.the_row }
{
    sync_of::<MetricsQueue>()
}

/// A metrics book is `Send`.
fn books_are_send()
    ensures { IsSend BookType.the_row }
{
    send_of::<MetricsBook>()
}

/// A pass, the right of one thread to use a metrics queue, is `Send`.
fn passes_are_send()
    ensures { IsSend pass_type }
{
    books_are_send();
    send_of::<MetricsPass>()
}

/// The ends of a metrics queue can be sent to another thread. A caller calls this before it sends an end, so that its
/// proof has this fact. Does nothing at run time.
pub fn metrics_ends_are_send()
    ensures sender { (lifetime : NamedLft) → IsSend (SenderType.the_row lifetime) }
    ensures receiver { (lifetime : NamedLft) → IsSend (ReceiverType.the_row lifetime) }
{
    queues_are_sync();
    books_are_send();
    passes_are_send()
}
