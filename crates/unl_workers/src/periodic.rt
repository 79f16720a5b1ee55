//! A task that runs periodically, concurrently with the workers.
ghost use Rattle.std.specs.Prelude.{◌≡◌, ◌<◌, ◌-◌, IfSome, IsTrue, option_map};
ghost use Rattle.unl_workers.specs.Periodic.{MakesTurns};

use crate::LinkQueue;
use crate::forever::wait_forever;
use std::alloc::Global;
use std::sync::Wait;
use unl_base::{Job, Pace};

/// A task that is repeated: each turn does its work once. An implementation may own only values whose types are `Drop`.
/// It holds every other value by a `&mut` with a lifetime parameter of its own.
pub trait PeriodicTask {
    /// The effect of a turn: the task before and after it.
    ghost turned: { Self → Self → Type 0 };

    /// The relation between the task before and after any number of turns. An implementation must define it so that it
    /// implies at least that the task still holds the same references.
    ghost keeps: { Self → Self → Type 0 };

    /// Makes a turn. The task handles its own failures, including out of memory.
    fn turn(&mut self, alloc: Global)
        ensures turned { turned self.old self.new }
        ensures keeps { keeps self.old self.new };

    // `keeps` is reflexive.
    ghost keeps_itself: { (turn : Self) → keeps turn turn };

    // `keeps` is transitive.
    ghost keeps_on: { (first next last : Self) → keeps first next → keeps next last → keeps first last };
}

/// The job that makes the turns of a periodic task at a pace, until the pace ends or the queue is closed.
#[derive(Drop)]
pub(crate) struct PeriodicJob<'a, 'n, 'p, N, T, L, W> {
    pub turn: &'n mut N,
    pub pace: &'p mut T,
    pub queue: &'a LinkQueue<L>,
    pub rt: &'a W,
    pub alloc: Global,
    /// The number of turns made.
    pub turns: u64,
}

impl<'a, 'n, 'p, N, T, L, W> PeriodicJob<'a, 'n, 'p, N, T, L, W> {
    /// A job that has made no turn yet.
    pub fn new(
        alloc: Global,
        rt: &'a W,
        queue: &'a LinkQueue<L>,
        pace: &'p mut T,
        turn: &'n mut N,
    ) -> Self
        ensures same_turn { result.turn.ghost_name ≡ turn.entry.ghost_name }
        ensures turn { result.turn.now ≡ turn.old }
        ensures same { result.pace.ghost_name ≡ pace.entry.ghost_name }
        ensures pace { result.pace.now ≡ pace.old }
    {
        PeriodicJob {
            turn,
            pace,
            queue,
            rt,
            alloc,
            turns: 0,
        }
    }
}

impl<'a, 'n, 'p, N: PeriodicTask, T: Pace, L, W: Wait> Job for PeriodicJob<'a, 'n, 'p, N, T, L, W> {
    ghost worked = { λ before after. (after.pace.ghost_name ≡ before.pace.ghost_name)
        × (after.turn.ghost_name ≡ before.turn.ghost_name)
        × MakesTurns N.turned N.keeps after.turns before.turn.now after.turn.now (T.turns before.pace.now) (T.turns after.pace.now) };

    ghost cancelled = { λ before after. Unit {0} };

    fn work(&mut self) {
        self.turns = make_turns(self.alloc, self.rt, self.queue, self.pace, self.turn);
    }

    fn cancel(&mut self) {}
}

/// Makes turns until the pace ends or the queue is closed. Returns how many were made. After 2^64 - 1 turns it never
/// returns.
fn make_turns<N: PeriodicTask, T: Pace, L, W: Wait>(
    alloc: Global,
    rt: &W,
    queue: &LinkQueue<L>,
    pace: &mut T,
    turn: &mut N,
) -> u64
    ensures { MakesTurns N.turned N.keeps result turn.old turn.new (T.turns pace.old) (T.turns pace.new) }
{
    for made in 0..u64::MAX {
        if !has_next_turn(rt, queue, pace) {
            return made;
        }
        turn.turn(alloc);
    }
    wait_forever(rt)
}

/// Waits for the next turn of the pace. Returns whether there is one and the queue is not closed.
fn has_next_turn<T: Pace, L, W: Wait>(rt: &W, queue: &LinkQueue<L>, pace: &mut T) -> bool
    ensures asked { T.turns pace.new ≡ option_map (λ n. n - 1) (T.turns pace.old) }
    ensures had { IsTrue result → IfSome (T.turns pace.old) (λ n. 0 < n) }
{
    pace.more() && !queue.closed(rt)
}
