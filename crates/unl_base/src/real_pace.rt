//! A pace that sleeps between turns.
ghost use Rattle.std.specs.Prelude.{◌≡◌};
ghost use Rattle.unl_base.specs.Paces.{turns_of};

use crate::pace::Pace;
use std::thread;
use std::time::{Clock, Duration};

/// A pace timed by a clock. With an interval, its turns never end, and it sleeps for the interval before each turn.
/// Without an interval, it has no turns.
#[derive(Drop)]
pub struct RealPace<C: Clock + Drop> {
    clock: C,
    interval: Option<Duration>,
}

impl<C: Clock + Drop> RealPace<C> {
    /// A pace that sleeps for `interval` before each turn. It has no turns if `interval` is `None`.
    pub fn new(clock: C, interval: Option<Duration>) -> Self
        ensures { ⟦<RealPace<C> as Pace>⟧.turns result ≡ turns_of interval }
    {
        RealPace { clock, interval }
    }
}

impl<C: Clock + Drop> Pace for RealPace<C> {
    ghost turns = { λ pace. turns_of pace.interval };

    fn more(&mut self) -> bool {
        match self.interval {
            Some(interval) => {
                thread::sleep(&self.clock, interval);
                true
            }
            None => false,
        }
    }
}
