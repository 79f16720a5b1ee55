//! The queue through which worker threads hand over metrics books to the poller.
ghost use Rattle.std.specs.Prelude.{◌≡◌, ◌<◌, ◌^◌, ◌++◌, List, IfOk, MatchOption, MatchResult};
ghost use Rattle.crossbeam_queue.specs.Passes.{IsSamePass};
ghost use Rattle.unl_metrics.specs.Book.{Book};
ghost use Rattle.unl_refresh.specs.MetricsQueues.{IsPassOfMetrics, known_by};
ghost use Rattle.unl_refresh.specs.Handovers.{SameBooks, both_handovers, first_handover, handing, less_a_part, new_handover, taking};

use crate::handover::{AllParts, ConservedBooks, Handover, Parts, PutsBook, TakesBook};
use crossbeam_queue::{Pass, RuledArrayQueue};
use std::alloc::Global;
use std::sync::Wait;
use unl_documents::Memory;
use unl_metrics::MetricsBook;

/// The most books that can wait in a queue. This number is chosen by this project.
pub(crate) const MOST_BOOKS: usize = 64;

/// The right of one thread to use a queue. It is zero-sized. In contracts it has the books that the thread put and
/// took.
///
/// The passes of a queue share 2^64 parts; one pass with all of them knows everything that was put and taken.
pub type MetricsPass = Pass<MetricsBook, Handover>;

/// A queue of metrics that wait for the poller. Threads share it by reference, each with a pass of its own.
#[derive(Drop)]
pub struct MetricsQueue {
    books: RuledArrayQueue<MetricsBook, Handover, ConservedBooks>,
}

impl MetricsQueue {
    /// Creates an empty queue with room for 64 books. Returns it with a pass that has all parts.
    ///
    /// # Errors
    /// `Memory` if out of memory.
    pub fn new(alloc: Global) -> Result<(MetricsQueue, MetricsPass), Memory>
        ensures { IfOk result (λ made. IsPassOfMetrics made.0 made.1 × (known_by made.1 ≡ first_handover)) }
    {
        let (books, pass) = RuledArrayQueue::ruled(alloc, MOST_BOOKS)?;
        Ok((MetricsQueue { books }, pass))
    }

    /// Splits one part off `pass` and returns it as a pass for another thread. `pass` must have more than one part. The
    /// new pass has put and taken nothing.
    pub(crate) fn split_pass(&self, pass: &mut MetricsPass) -> MetricsPass
        requires queue { IsPassOfMetrics self.now pass.old }
        requires parts { 1 < (known_by pass.old).parts }
        ensures queue { IsSamePass pass.old pass.new × IsPassOfMetrics self.now result }
        ensures left { known_by pass.new ≡ less_a_part (known_by pass.old) }
        ensures new { known_by result ≡ new_handover }
    {
        self.books.another::<Parts>(pass)
    }

    /// Consumes `other`, and adds its parts, and the books that were put and taken with it, to `pass`.
    pub(crate) fn join_pass(&self, pass: &mut MetricsPass, other: MetricsPass)
        requires queue { IsPassOfMetrics self.now pass.old × IsPassOfMetrics self.now other }
        requires parts { 0 < (known_by pass.old).parts }
        ensures queue { IsSamePass pass.old pass.new }
        ensures both { known_by pass.new ≡ both_handovers (known_by pass.old) (known_by other) }
    {
        self.books.absorb::<Parts>(pass, other)
    }

    /// Appends a book, or returns it if 64 books already wait. (The contract allows both cases at any time.)
    pub(crate) fn put<W: Wait>(
        &self,
        rt: &W,
        pass: &mut MetricsPass,
        book: MetricsBook,
    ) -> Result<(), MetricsBook>
        requires queue { IsPassOfMetrics self.now pass.old }
        requires parts { 0 < (known_by pass.old).parts }
        ensures queue { IsSamePass pass.old pass.new }
        ensures puts { MatchResult result
            (λ _. known_by pass.new ≡ handing (known_by pass.old) book)
            (λ back. (back ≡ book) × (known_by pass.new ≡ known_by pass.old)) }
    {
        match self.books.push_as::<PutsBook, W>(rt, pass, book) {
            Ok(()) => Ok(()),
            Err(back) => Err(back),
        }
    }

    /// Takes the oldest book. Returns `None` if no book waits.
    pub(crate) fn take<W: Wait>(&self, rt: &W, pass: &mut MetricsPass) -> Option<MetricsBook>
        requires queue { IsPassOfMetrics self.now pass.old }
        requires parts { 0 < (known_by pass.old).parts }
        ensures queue { IsSamePass pass.old pass.new }
        ensures takes { MatchOption result
            (known_by pass.new ≡ known_by pass.old)
            (λ book. known_by pass.new ≡ taking (known_by pass.old) book) }
    {
        match self.books.pop_as::<TakesBook, W>(rt, pass) {
            Some(book) => Some(book),
            None => None,
        }
    }

    /// Does nothing at run time. The pass must have all parts. Proves that the books put are those taken and those that
    /// wait, counted with multiplicity.
    pub(crate) fn all_counted(&self, pass: &mut MetricsPass)
        requires queue { IsPassOfMetrics self.now pass.old }
        requires whole { (known_by pass.old).parts ≡ 2 ^ 64 }
        ensures { (waiting : List Book) × SameBooks (known_by pass.old).handed ((known_by pass.old).taken ++ waiting) }
    {
        self.books.learn_as::<AllParts>(pass)
    }
}
