//! The entries of a queue of links, and the rules by which contracts record the links that each thread put and took. A
//! thread uses the queue through a pass, and the tally of the pass is that record.

use crossbeam_queue::protocol::{Join, Lesson, Outcome, Protocol, Split};
use std::collections::LinkedList;

/// An entry of a queue of links: a link, or the end marker that closes the queue.
#[derive(Drop)]
pub enum QueueEntry<L> {
    /// A link.
    Link(L),
    /// The end: no more links come.
    End,
}

/// What the holder of a pass has put into a queue and taken from it. It is used only in contracts; no value of it is
/// created.
pub struct QueueTally<L> {
    /// The number of parts that this pass has of the 2^64 parts that all passes of the queue share.
    pub parts: u64,
    /// The links that were put, in order.
    pub put: LinkedList<L>,
    /// The links that were taken, in order.
    pub taken: LinkedList<L>,
    /// 1 if the pass may put links and close the queue, 0 otherwise.
    pub may_put: u64,
    /// Above 0 if this pass, or a pass that was joined to it, has taken the end; 0 otherwise.
    pub ends_seen: u64,
}

/// The rule that a queue keeps: the links that were put are exactly those that were taken and those that are queued.
pub struct BalancedLinks;

impl<L> Protocol<QueueEntry<L>, QueueTally<L>> for BalancedLinks {
    ghost use Rattle.unl_workers.specs.Tallies.{first_tally};
    ghost use Rattle.unl_workers.specs.Balance.{IsBalanced};

    ghost holds = { IsBalanced };

    ghost first = { first_tally };
}

/// The effect on the tally when an entry is put. If the entry is the end, the pass may put nothing afterwards.
pub struct PutsEntry;

impl<L> Outcome<QueueEntry<L>, QueueTally<L>> for PutsEntry {
    ghost use Rattle.std.specs.Prelude.{◌≡◌};
    ghost use Rattle.unl_workers.specs.Tallies.{putting};

    ghost then = { λ v x w. w ≡ putting v x };
}

/// The effect on the tally when a thread that took the end puts it back for the next thread: none.
pub struct PutsEndBack;

impl<L> Outcome<QueueEntry<L>, QueueTally<L>> for PutsEndBack {
    ghost use Rattle.std.specs.Prelude.{◌≡◌};

    ghost then = { λ v x w. w ≡ v };
}

/// The effect on the tally when an entry is taken.
pub struct TakesEntry;

impl<L> Outcome<QueueEntry<L>, QueueTally<L>> for TakesEntry {
    ghost use Rattle.std.specs.Prelude.{◌≡◌};
    ghost use Rattle.unl_workers.specs.Tallies.{taking};

    ghost then = { λ v x w. w ≡ taking v x };
}

/// A use of the queue from which no fact about the tallies is concluded.
pub struct NoLesson;

impl<L> Lesson<QueueEntry<L>, QueueTally<L>> for NoLesson {
    ghost fact = { λ v items. Unit {0} };
}

/// The fact that is concluded from a pass with all parts: if the end was taken, the links that were put are those that
/// were taken.
pub struct AllTaken;

impl<L> Lesson<QueueEntry<L>, QueueTally<L>> for AllTaken {
    ghost use Rattle.std.specs.Prelude.{◌<◌};
    ghost use Rattle.unl_workers.specs.Tallies.{SameLinks};

    ghost fact = { λ v items. 0 < v.ends_seen → SameLinks v.put v.taken };
}

/// How a pass is split, so that one of its parts becomes a new pass, and how two passes are joined.
pub struct Parts;

impl<L> Split<QueueTally<L>> for Parts {
    ghost use Rattle.unl_workers.specs.Tallies.{less_a_part, new_tally};

    ghost left = { less_a_part };

    ghost right = { λ v. new_tally };
}

impl<L> Join<QueueTally<L>> for Parts {
    ghost use Rattle.unl_workers.specs.Tallies.{both_tallies, empty_tally};

    ghost both = { both_tallies };

    ghost spent = { empty_tally };
}
