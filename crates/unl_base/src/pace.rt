//! The pace of a repeated job: how long the job waits before each turn, and when its turns end.
ghost use Rattle.std.specs.Prelude.{◌≡◌, ◌-◌, ℕ, Option, nat_lt, option_map, true, IfNone, IfSome};

use std::marker::Model;

/// Decides when a repeated job takes its next turn.
pub trait Pace {
    /// The number of turns that remain; `None` if it isn't observable.
    ghost turns: { Self → Option ℕ };

    /// Waits for the next turn and returns true. Returns false if and only if `turns` is observable and 0.
    fn more(&mut self) -> bool
        ensures takes { turns self.new ≡ option_map (λ n. n - 1) (turns self.old) }
        ensures observable { IfSome (turns self.old) (λ n. result ≡ nat_lt 0 n) }
        ensures goes_on { IfNone (turns self.old) (result ≡ true) };
}

/// A pace with a fixed number of turns, without a wait before any of them.
#[derive(Debug, Drop)]
pub struct CountPace {
    turns: u64,
}

impl Model for CountPace {
    ghost use Rattle.std.specs.Prelude.{ℕ};

    ghost Value = { ℕ };

    ghost view = { λ pace. pace.turns };
}

impl CountPace {
    /// A pace of `turns` turns.
    pub fn new(turns: u64) -> Self
        ensures { result ≡ turns }
    {
        CountPace { turns }
    }
}

impl Pace for CountPace {
    ghost use Rattle.std.specs.Prelude.{Some};

    ghost turns = { λ pace. Some pace };

    fn more(&mut self) -> bool {
        if self.turns == 0 {
            return false;
        }
        self.turns -= 1;
        true
    }
}
