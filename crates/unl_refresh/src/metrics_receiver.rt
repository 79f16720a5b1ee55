//! The receiving end of a metrics queue, where the poller takes the books that worker threads put into the queue.
//!
//! The right to use a queue is divided into 2^64 parts. The receiver starts with all of them, and each sender gets one.
//! A pass holds parts of this right, and in contracts also the books that were put and taken with it.
ghost use Rattle.std.specs.Prelude.{◌≡◌, ◌<◌, ◌^◌, ◌+◌, ◌-◌, ◌++◌, List, None, MatchOption};
ghost use Rattle.unl_metrics.specs.Book.{Book, sum_of};
ghost use Rattle.unl_refresh.specs.MetricsQueues.{IsPassOfMetrics, Merges, known_by, new_receiving, new_sending, taking_in};
ghost use Rattle.unl_refresh.specs.Handovers.{SameBooks, first_handover};

use crate::metrics_queue::MOST_BOOKS;
use crate::{MetricsPass, MetricsQueue, MetricsSender};
use std::alloc::Global;
use std::marker::Model;
use std::sync::Wait;
use unl_metrics::MetricsBook;

/// Takes the metrics books that senders in other threads put into the queue.
///
/// Its value in contracts has its queue, the number of its parts (`parts`), the books handed over by those senders that
/// it took back (`handed`), and what it has taken in (`intake`): all books that it has taken, and the held book: the
/// last of them, if that is not merged yet.
#[derive(Drop)]
pub struct MetricsReceiver<'a> {
    queue: &'a MetricsQueue,
    pass: MetricsPass,
    /// The book that was taken last, if it is not merged yet.
    held: Option<MetricsBook>,
}

impl<'a> Model for MetricsReceiver<'a> {
    ghost use Rattle.std.specs.Prelude.{◌<◌};
    ghost use Rattle.unl_refresh.specs.MetricsQueues.{IsPassOfMetrics, Receiving, known_by};

    ghost Value = { Receiving };

    ghost view = { λ receiver. record {
      queue = receiver.pass.table_id;
      parts = (known_by receiver.pass).parts;
      handed = (known_by receiver.pass).handed;
      intake = record { taken = (known_by receiver.pass).taken; held = receiver.held };
    } };

    ghost invariant = { λ receiver. IsPassOfMetrics receiver.queue.now receiver.pass × (0 < (known_by receiver.pass).parts) };
}

impl<'a> MetricsReceiver<'a> {
    /// Creates the receiver of a new queue, from a pass that has all parts. There are no senders yet.
    pub fn new(queue: &'a MetricsQueue, pass: MetricsPass) -> MetricsReceiver<'a>
        requires queue { IsPassOfMetrics queue.now pass }
        requires new { known_by pass ≡ first_handover }
        ensures { result ≡ new_receiving pass.table_id }
    {
        MetricsReceiver {
            queue,
            pass,
            held: None,
        }
    }

    /// Returns a sender for another thread. One of this receiver's parts moves to the sender; the receiver must have
    /// more than one.
    pub fn new_sender(&mut self) -> MetricsSender<'a>
        requires { 1 < self.old.parts }
        ensures left { self.new ≡ record self.old { parts = self.old.parts - 1 } }
        ensures new { result ≡ new_sending self.old.queue }
    {
        let pass = self.queue.split_pass(&mut self.pass);
        MetricsSender::new(self.queue, pass)
    }

    /// Consumes a sender of the same queue. Its part returns to this receiver, and the books that it put into the queue
    /// are added to `handed`.
    pub fn take_back(&mut self, sender: MetricsSender<'_>)
        requires { sender.queue ≡ self.old.queue }
        ensures { self.new ≡ record self.old { parts = self.old.parts + 1; handed = self.old.handed ++ sender.entry.handed } }
    {
        let pass = sender.into_pass();
        self.queue.join_pass(&mut self.pass, pass);
    }

    /// Merges the held book, if any, and then the books that wait, at most 64, into `book`, one after another. A book
    /// that doesn't fit, or that memory runs out for, is held until the next call. No other book is taken before the
    /// held one is merged.
    pub fn merge_into<W: Wait>(&mut self, alloc: Global, rt: &W, book: &mut MetricsBook)
        ensures same { self.new ≡ record self.old { intake = self.new.intake } }
        ensures merges { Merges book.old self.old.intake book.new self.new.intake }
    {
        for _ in 0..MOST_BOOKS {
            if !self.merge_and_take(alloc, rt, book) {
                return;
            }
        }
        self.merge_held(alloc, book);
    }

    /// Merges the held book, if any, into `book`. If no book is held after that, takes the next one that waits, if any,
    /// and holds it. Returns whether it took one (no contract says so).
    fn merge_and_take<W: Wait>(&mut self, alloc: Global, rt: &W, book: &mut MetricsBook) -> bool
        ensures same { self.new ≡ record self.old { intake = self.new.intake } }
        ensures merges { Merges book.old self.old.intake book.new self.new.intake }
    {
        self.merge_held(alloc, book);
        self.held.is_none() && self.take_next(rt)
    }

    /// Merges the book that is held into `book`, if it fits and there is memory.
    fn merge_held(&mut self, alloc: Global, book: &mut MetricsBook)
        ensures same { self.new ≡ record self.old { intake = self.new.intake } }
        ensures merges { Merges book.old self.old.intake book.new self.new.intake }
    {
        if let Some(held) = self.held.take() {
            self.held = merge_or_return(alloc, book, held);
        }
    }

    /// Takes the oldest book that waits, and holds it. The receiver must not already hold one. Returns whether a book
    /// waited (no contract says so).
    fn take_next<W: Wait>(&mut self, rt: &W) -> bool
        requires { self.old.intake.held ≡ None }
        ensures { MatchOption self.new.intake.held
            (self.new ≡ self.old)
            (λ book. self.new ≡ record self.old { intake = taking_in self.old.intake book }) }
    {
        match self.queue.take(rt, &mut self.pass) {
            Some(book) => {
                self.held = Some(book);
                true
            }
            None => false,
        }
    }

    /// Consumes the receiver, and does nothing else at run time. The receiver must have all parts: all senders are
    /// back. Proves that the books handed over are those taken and those that wait, counted with multiplicity.
    pub fn all_counted(self)
        requires { self.parts ≡ 2 ^ 64 }
        ensures { (waiting : List Book) × SameBooks self.entry.handed (self.entry.intake.taken ++ waiting) }
    {
        let mut pass = self.pass;
        self.queue.all_counted(&mut pass)
    }
}

/// Merges `other` into `book`. Returns `other` if it doesn't fit or memory ran out.
fn merge_or_return(alloc: Global, book: &mut MetricsBook, other: MetricsBook) -> Option<MetricsBook>
    ensures { MatchOption result (book.new ≡ sum_of book.old other) (λ back. (back ≡ other) × (book.new ≡ book.old)) }
{
    let mut other = other;
    match book.merge(alloc, &mut other) {
        Ok(()) => None,
        Err(_) => Some(other),
    }
}
