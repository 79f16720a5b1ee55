//! Draws whose times come from a clock and whose words come from a random number generator.
ghost use Rattle.rand_core.specs.Stream.{next_u64};
ghost use Rattle.std.specs.Prelude.{◌≡◌, ◌≤◌, None};
ghost use Rattle.unl_base.specs.Draws.{IsInLimit};

use crate::draws::{Draw, Draws};
use rand_pcg::Lcg64Xsh32;
use rand_pcg::rand_core::Rng;
use std::io;
use std::time::{Clock, SystemTime};

/// The latest moment that a draw reports, in milliseconds since 1970.
const LAST_MOMENT: u64 = 100_000_000_000_000;

/// A supply of draws. Each has the time of a clock, capped at 100,000,000,000,000 milliseconds since 1970, and a word
/// of a small generator, which isn't cryptographically secure. If the clock fails, a draw repeats the last time that
/// was read, or has the time 0 if none was read.
#[derive(Drop)]
pub struct RealDraws<C: Clock + Copy + Drop> {
    clock: C,
    words: Lcg64Xsh32,
    moment: u64,
}

impl<C: Clock + Copy + Drop> RealDraws<C> {
    /// A supply of draws with the time of `clock`. The generator is seeded with the clock's current time in
    /// milliseconds since 1970, or with 0 if the clock fails.
    pub fn new(clock: C) -> Self {
        let mut draws = RealDraws {
            clock,
            words: Lcg64Xsh32::new(0, 0),
            moment: 0,
        };
        let seed = draws.moment();
        draws.words = Lcg64Xsh32::new(seed, 0);
        draws
    }

    /// Returns the clock's time, or the last time that was read if the clock fails, capped at `LAST_MOMENT`.
    fn moment(&mut self) -> u64
        ensures limit { result ≤ 100000000000000 }
        ensures words { self.new.words ≡ self.old.words }
    {
        if let Ok(moment) = moment_of(self.clock) {
            self.moment = moment;
        }
        self.moment.min(LAST_MOMENT)
    }
}

/// Reads the clock, in milliseconds since 1970. Returns 0 for a time before 1970, `LAST_MOMENT` for a time that doesn't
/// fit into a `u64`, and an error if the clock fails.
fn moment_of<C: Clock + Copy + Drop>(clock: C) -> io::Result<u64> {
    let since = SystemTime::now(&clock)?
        .duration_since(SystemTime::UNIX_EPOCH)
        .unwrap_or_default();
    Ok(u64::try_from(since.as_millis()).unwrap_or(LAST_MOMENT))
}

impl<C: Clock + Copy + Drop> Draws for RealDraws<C> {
    ghost coming = { λ _. None };

    /// Returns the clock's time and the generator's next word.
    fn draw(&mut self) -> Draw
        ensures limit { IsInLimit result }
        ensures word { (result.word, ⟦<Lcg64Xsh32 as Rng>⟧.stream self.new.words)
            ≡ next_u64 (⟦<Lcg64Xsh32 as Rng>⟧.stream self.old.words) }
    {
        Draw {
            now: self.moment(),
            word: self.words.next_u64(),
        }
    }

    /// The result uses the same clock, and a generator that is seeded with the next two words of this supply's
    /// generator.
    fn split(&mut self) -> Self {
        let state = self.words.next_u64();
        let stream = self.words.next_u64();
        RealDraws {
            clock: self.clock,
            words: Lcg64Xsh32::new(state, stream),
            moment: self.moment,
        }
    }
}
