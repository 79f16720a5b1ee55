//! The sending end of a metrics queue, by which a worker thread hands over its metrics books.
ghost use Rattle.std.specs.Prelude.{◌≡◌, []};
ghost use Rattle.unl_refresh.specs.MetricsQueues.{HandsOver, IsPassOfMetrics, known_by, new_sending};
ghost use Rattle.unl_refresh.specs.Handovers.{handover, new_handover};

use crate::{MetricsPass, MetricsQueue};
use std::alloc::Global;
use std::marker::Model;
use std::sync::Wait;
use unl_metrics::MetricsBook;

/// Hands metrics books over to a receiver in another thread. Its value in contracts has its queue, and the books that
/// it has handed over, in order.
#[derive(Drop)]
pub struct MetricsSender<'a> {
    queue: &'a MetricsQueue,
    pass: MetricsPass,
}

impl<'a> Model for MetricsSender<'a> {
    ghost use Rattle.std.specs.Prelude.{◌≡◌, []};
    ghost use Rattle.unl_refresh.specs.MetricsQueues.{IsPassOfMetrics, Sending, known_by};
    ghost use Rattle.unl_refresh.specs.Handovers.{handover};

    ghost Value = { Sending };

    ghost view = { λ sender. record { queue = sender.pass.table_id; handed = (known_by sender.pass).handed } };

    ghost invariant = { λ sender. IsPassOfMetrics sender.queue.now sender.pass
        × (known_by sender.pass ≡ handover 1 (known_by sender.pass).handed []) };
}

impl<'a> MetricsSender<'a> {
    /// Creates a sender that has handed nothing over.
    pub(crate) fn new(queue: &'a MetricsQueue, pass: MetricsPass) -> MetricsSender<'a>
        requires queue { IsPassOfMetrics queue.now pass }
        requires new { known_by pass ≡ new_handover }
        ensures { result ≡ new_sending pass.table_id }
    {
        MetricsSender { queue, pass }
    }

    /// Puts the book into the queue and leaves an empty book in its place. If the book is empty, or if 64 books already
    /// wait, it is not handed over and stays unchanged. (The contract says only that one of the two happens.)
    pub fn hand_over<W: Wait>(&mut self, alloc: Global, rt: &W, book: &mut MetricsBook)
        ensures same { self.new ≡ record self.old { handed = self.new.handed } }
        ensures hands_over { HandsOver self.old.handed book.old self.new.handed book.new }
    {
        if book.is_empty() {
            return;
        }
        let whole = std::mem::replace(book, MetricsBook::new(alloc));
        match self.queue.put(rt, &mut self.pass, whole) {
            Ok(()) => {}
            Err(back) => *book = back,
        }
    }

    /// Consumes the sender and returns its pass, the right to use the queue.
    pub(crate) fn into_pass(self) -> MetricsPass
        ensures same { result.table_id ≡ self.entry.queue }
        ensures unused { result.me.1 ≡ [] }
        ensures knows { known_by result ≡ handover 1 self.entry.handed [] }
    {
        self.pass
    }
}
