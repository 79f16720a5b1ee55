//! A queue of links that wait for a worker, for one thread and without a lock. It is the model of `LinkQueue` in tests.
ghost use Rattle.std.specs.Prelude.{◌≡◌, ◌++◌, ◌∷◌, [], true, false, length, IfOk, not};
ghost use Rattle.unl_workers.specs.Links.{Links, Pops, Pushes, is_full, is_waiting};

use std::alloc::{AllocError, Global};
use std::collections::VecDeque;
use std::marker::Model;
use thiserror::Error;

/// Out of memory for a queue of 64 links.
#[derive(Clone, Copy, Debug, Error, PartialEq, Eq)]
#[error("out of memory")]
pub struct LinksMemory;

impl From<AllocError> for LinksMemory {
    fn from(_: AllocError) -> Self {
        LinksMemory
    }
}

/// The result of taking the oldest link.
#[derive(Debug, Drop)]
pub enum Popped<L> {
    /// The oldest link.
    Taken(L),
    /// The queue is empty and closed.
    Closed,
    /// The queue is empty, and a link may still come.
    Empty,
}

/// The most links that may be queued.
pub const MOST_LINKS: usize = 64;

/// The queued links, oldest first, and whether the queue is closed.
#[derive(Drop)]
pub struct LinkState<L> {
    links: VecDeque<L>,
    closed: bool,
}

impl<L> Model for LinkState<L> {
    ghost use Rattle.std.specs.Prelude.{◌≤◌, length};
    ghost use Rattle.std.specs.VecDeque.{deque_capacity};
    ghost use Rattle.unl_workers.specs.Links.{Links};

    ghost Value = { Links L };

    ghost view = { λ state. record { links = state.links.items; closed = state.closed } };

    ghost invariant = { λ state. (length state.links.items ≤ 64) × (64 ≤ deque_capacity state.links) };
}

impl<L> LinkState<L> {
    /// Creates an empty queue with room for 64 links.
    ///
    /// # Errors
    /// `LinksMemory`: out of memory.
    pub fn new(alloc: Global) -> Result<LinkState<L>, LinksMemory>
        ensures { IfOk result (λ state. state ≡ record { links = []; closed = false }) }
    {
        Ok(LinkState {
            links: VecDeque::with_capacity(alloc, MOST_LINKS)?,
            closed: false,
        })
    }

    /// Appends a link. If 64 links are queued, returns the link instead; otherwise returns `None`. Allocates nothing.
    pub fn push(&mut self, link: L) -> Option<L>
        ensures { Pushes self.old link result self.new }
    {
        if self.is_full() {
            return Some(link);
        }
        self.append(link);
        None
    }

    /// Appends a link to a queue that is not full.
    fn append(&mut self, link: L)
        requires { is_full self.old ≡ false }
        ensures { self.new ≡ record self.old { links = self.old.links ++ link ∷ [] } }
    {
        self.links.push_back(link).unwrap();
    }

    /// Takes the oldest link. Allocates nothing.
    pub fn pop(&mut self) -> Popped<L>
        ensures { Pops self.old result self.new }
    {
        match self.links.pop_front() {
            Some(link) => Popped::Taken(link),
            None if self.closed => Popped::Closed,
            None => Popped::Empty,
        }
    }

    /// Closes the queue: no more links come from now on. Queued links are still taken.
    pub fn close(&mut self)
        ensures { self.new ≡ record self.old { closed = true } }
    {
        self.closed = true;
    }

    /// Whether 64 links are queued.
    pub fn is_full(&self) -> bool
        ensures { result ≡ is_full self.now }
    {
        self.links.len() == MOST_LINKS
    }

    /// Whether the queue is empty and not closed.
    pub fn is_waiting(&self) -> bool
        ensures { result ≡ is_waiting self.now }
    {
        self.links.is_empty() && !self.closed
    }

    /// Whether the queue is closed, so that no more links come. Links may still be queued.
    pub fn closed(&self) -> bool
        ensures { result ≡ self.now.closed }
    {
        self.closed
    }
}
