//! A pace whose waits double up to a maximum (exponential backoff), for a job whose first turns may fail because the
//! server that it polls has not started yet.
#![tactic(auto)]

ghost use Rattle.std.specs.Prelude.{◌≡◌};
ghost use Rattle.unl_base.specs.Paces.{turns_of};

use std::thread;
use std::time::{Clock, Duration};
use unl_base::Pace;

/// A pace that sleeps before each turn. The first sleep has a given length, and each further one is twice as long as
/// the one before, but none is longer than the interval. The turns never end. Without an interval there is no turn.
#[derive(Drop)]
pub struct StartPace<C: Clock + Drop> {
    clock: C,
    next: Duration,
    interval: Option<Duration>,
}

impl<C: Clock + Drop> StartPace<C> {
    /// Creates a pace that first sleeps for `first`, or for the interval if that is shorter. Without an interval it has
    /// no turn.
    pub fn new(clock: C, first: Duration, interval: Option<Duration>) -> Self
        ensures { ⟦<StartPace<C> as Pace>⟧.turns result ≡ turns_of interval }
    {
        StartPace {
            clock,
            next: first,
            interval,
        }
    }
}

impl<C: Clock + Drop> Pace for StartPace<C> {
    ghost turns = { λ pace. turns_of pace.interval };

    fn more(&mut self) -> bool {
        match self.interval {
            Some(interval) => {
                thread::sleep(&self.clock, self.next.min(interval));
                self.next = self.next.saturating_add(self.next);
                true
            }
            None => false,
        }
    }
}
