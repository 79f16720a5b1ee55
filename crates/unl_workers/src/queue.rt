//! A queue of links that wait for a worker, shared by threads.
ghost use Rattle.std.specs.Prelude.{◌≡◌, ◌<◌, ◌^◌, IfOk, MatchOption};
ghost use Rattle.crossbeam_queue.specs.Fifo.{Pushes};
ghost use Rattle.crossbeam_queue.specs.Passes.{view, IsSamePass, ruled_capacity};
ghost use Rattle.unl_workers.specs.Balance.{IsBalanced};
ghost use Rattle.unl_workers.specs.Passes.{IsPassOfQueue};
ghost use Rattle.unl_workers.specs.Tallies.{SameLinks, both_tallies, first_tally, less_a_part, new_tally, putting, taking};
ghost use Rattle.unl_workers.specs.declared.tally.QueueEntry.TheVariants.{Link, End};

use crate::state::{LinksMemory, MOST_LINKS};
use crate::tally::{
    AllTaken, BalancedLinks, NoLesson, Parts, PutsEndBack, PutsEntry, QueueEntry, QueueTally,
    TakesEntry,
};
use crossbeam_queue::protocol::Outcome;
use crossbeam_queue::{Pass, RuledArrayQueue};
use std::alloc::Global;
use std::sync::{Condvar, Mutex, Wait};

/// The right of one thread to use one queue, and no other. In contracts it has a tally of the links that the thread put
/// and took; at run time it is zero-sized.
///
/// The passes of a queue share 2^64 parts. The tally of a pass with all parts has all links that were put and taken.
pub type QueuePass<L> = Pass<QueueEntry<L>, QueueTally<L>>;

/// A queue of links that wait for a worker. Threads share it by reference, each with a pass of its own.
///
/// Each entry is put and taken while `closed` is locked. A thread that must wait does so at a condition variable:
/// `news` for an entry, `room` for free space.
#[derive(Drop)]
pub struct LinkQueue<L> {
    links: RuledArrayQueue<QueueEntry<L>, QueueTally<L>, BalancedLinks>,
    /// Whether the queue is closed.
    closed: Mutex<bool>,
    room: Condvar,
    news: Condvar,
}

impl<L> LinkQueue<L> {
    /// Whether the queue is closed, so that no more links come. Links may still be queued.
    pub fn closed<W: Wait>(&self, rt: &W) -> bool {
        *self.closed.lock(rt)
    }
}

impl<L: Drop> LinkQueue<L> {
    /// Creates an empty queue with room for 64 links and the end marker, the entry that closes the queue. Returns it
    /// with a pass that has all parts and may put links.
    ///
    /// # Errors
    /// `LinksMemory`: out of memory.
    pub fn new(alloc: Global) -> Result<(LinkQueue<L>, QueuePass<L>), LinksMemory>
        ensures { IfOk result (λ made. IsPassOfQueue made.0 made.1 × (view made.1 ≡ first_tally)) }
    {
        let (links, pass) = RuledArrayQueue::ruled(alloc, MOST_LINKS + 1)?;
        let queue = LinkQueue {
            links,
            closed: Mutex::new(false),
            room: Condvar::new(),
            news: Condvar::new(),
        };
        Ok((queue, pass))
    }

    /// Splits one part off this pass, which must have at least two, as a new pass for another thread. The new pass has
    /// put and taken nothing, and may not put links.
    pub fn split_pass(&self, pass: &mut QueuePass<L>) -> QueuePass<L>
        requires queue { IsPassOfQueue self.now pass.old }
        requires parts { 1 < (view pass.old).parts }
        ensures queue { IsSamePass pass.old pass.new × IsPassOfQueue self.now result }
        ensures left { view pass.new ≡ less_a_part (view pass.old) }
        ensures new { view result ≡ new_tally }
    {
        self.links.another::<Parts>(pass)
    }

    /// Adds the parts and the tally of another pass to this one.
    pub fn join_pass(&self, pass: &mut QueuePass<L>, other: QueuePass<L>)
        requires queue { IsPassOfQueue self.now pass.old × IsPassOfQueue self.now other }
        requires parts { 0 < (view pass.old).parts }
        ensures queue { IsSamePass pass.old pass.new }
        ensures both { view pass.new ≡ both_tallies (view pass.old) (view other) }
    {
        self.links.absorb::<Parts>(pass, other)
    }

    /// Does nothing at run time. The pass must have all parts. Proves: if the end marker was taken, the links that were
    /// put are the links that were taken, perhaps in another order.
    pub fn all_taken(&self, pass: &mut QueuePass<L>)
        requires queue { IsPassOfQueue self.now pass.old }
        requires whole { (view pass.old).parts ≡ 2 ^ 64 }
        ensures { 0 < (view pass.old).ends_seen → SameLinks (view pass.old).put (view pass.old).taken }
    {
        self.links.learn_as::<AllTaken>(pass)
    }

    /// Appends a link. The pass must be one that may put links. Blocks while 64 links are queued.
    pub fn put<W: Wait>(&self, rt: &W, pass: &mut QueuePass<L>, link: L)
        requires queue { IsPassOfQueue self.now pass.old }
        requires parts { 0 < (view pass.old).parts }
        requires may_put { (view pass.old).may_put ≡ 1 }
        ensures queue { IsSamePass pass.old pass.new }
        ensures puts { view pass.new ≡ putting (view pass.old) (Link link) }
    {
        self.push::<PutsEntry, W>(rt, pass, QueueEntry::Link(link), MOST_LINKS);
    }

    /// Closes the queue: no more links come from now on. The pass must be one that may put links, and may put none
    /// afterwards. The threads that wait for a link are woken one after another. Queued links are still taken.
    pub fn close<W: Wait>(&self, rt: &W, pass: &mut QueuePass<L>)
        requires queue { IsPassOfQueue self.now pass.old }
        requires parts { 0 < (view pass.old).parts }
        requires may_put { (view pass.old).may_put ≡ 1 }
        ensures queue { IsSamePass pass.old pass.new }
        ensures closes { view pass.new ≡ putting (view pass.old) End }
    {
        self.push::<PutsEntry, W>(rt, pass, QueueEntry::End, MOST_LINKS + 1);
        *self.closed.lock(rt) = true;
    }

    /// Takes the oldest link. Blocks while the queue is empty and not closed. Returns `None` once it is empty and
    /// closed.
    pub fn take<W: Wait>(&self, rt: &W, pass: &mut QueuePass<L>) -> Option<L>
        requires queue { IsPassOfQueue self.now pass.old }
        requires parts { 0 < (view pass.old).parts }
        ensures queue { IsSamePass pass.old pass.new }
        ensures takes { MatchOption result
            (view pass.new ≡ taking (view pass.old) End)
            (λ link. view pass.new ≡ taking (view pass.old) (Link link)) }
    {
        match self.pop(rt, pass) {
            QueueEntry::Link(link) => Some(link),
            QueueEntry::End => {
                self.push::<PutsEndBack, W>(rt, pass, QueueEntry::End, MOST_LINKS + 1);
                None
            }
        }
    }

    /// Appends an entry. Blocks while `most` or more entries are queued.
    fn push<M: Outcome<QueueEntry<L>, QueueTally<L>>, W: Wait>(
        &self,
        rt: &W,
        pass: &mut QueuePass<L>,
        entry: QueueEntry<L>,
        most: usize,
    )
        requires queue { IsPassOfQueue self.now pass.old }
        requires rule { Pushes IsBalanced (ruled_capacity self.now.links) pass.old.id (view pass.old) entry (M.then (view pass.old) entry) }
        ensures queue { IsSamePass pass.old pass.new }
        ensures rule { M.then (view pass.old) entry (view pass.new) }
    {
        let mut closed = self.closed.lock(rt);
        let mut entry = entry;
        for _ in rt.forever() {
            if self.links.len_as::<NoLesson, W>(rt, pass) < most {
                match self.links.try_push_as::<M>(pass, entry) {
                    Ok(()) => {
                        drop(closed);
                        self.news.notify_one();
                        return;
                    }
                    Err(back) => entry = back,
                }
            }
            closed = self.room.wait(rt, closed);
        }
        unreachable!()
    }

    /// Takes the oldest entry. Blocks while the queue holds none.
    fn pop<W: Wait>(&self, rt: &W, pass: &mut QueuePass<L>) -> QueueEntry<L>
        requires queue { IsPassOfQueue self.now pass.old }
        requires parts { 0 < (view pass.old).parts }
        ensures queue { IsSamePass pass.old pass.new }
        ensures takes { view pass.new ≡ taking (view pass.old) result }
    {
        let mut closed = self.closed.lock(rt);
        for _ in rt.forever() {
            match self.links.try_pop_as::<TakesEntry>(pass) {
                Some(entry) => {
                    drop(closed);
                    self.room.notify_one();
                    return entry;
                }
                None => closed = self.news.wait(rt, closed),
            }
        }
        unreachable!()
    }
}
