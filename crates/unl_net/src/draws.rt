//! Supplies a draw for each request: the time of the system's clock, and a word of a random generator with a random
//! seed.
ghost use Rattle.rand_core.specs.Stream.{next_u64};
ghost use Rattle.std.specs.Prelude.{◌≡◌, None};
ghost use Rattle.unl_base.specs.Draws.{IsInLimit};

use rand_pcg::Lcg64Xsh32;
use rand_pcg::rand_core::Rng;
use std::io;
use std::random::RandomSource;
use std::time::Clock;
use unl_base::{Draw, Draws, RealDraws};

/// A supply of draws. A draw is a time, in milliseconds since 1970 (at most 100,000,000,000,000), and a random word of
/// 64 bits. The times come from a clock: if it fails, a draw repeats the last time that was read, or has the time 0 if
/// none was read. The words come from a PCG generator, which is unfit for secrets.
///
/// The generator's seed is random bytes of the system, so that programs that start in the same millisecond draw
/// different words. If the system's random source fails, the seed is the time.
#[derive(Drop)]
pub struct SystemDraws<C: Clock + Copy + Drop> {
    moments: RealDraws<C>,
    words: Lcg64Xsh32,
}

impl<C: Clock + RandomSource + Copy + Drop> SystemDraws<C> {
    /// Creates a supply that reads the time from this system's clock. The generator is seeded with random bytes of the
    /// system, or with the time if reading these bytes fails.
    pub fn new(system: C) -> Self {
        let mut moments = RealDraws::new(system);
        let words = match seeds_of(&system) {
            Ok((state, stream)) => Lcg64Xsh32::new(state, stream),
            Err(_) => Lcg64Xsh32::new(moments.draw().now, 0),
        };
        SystemDraws { moments, words }
    }
}

/// Reads two random numbers from the system: the generator's initial state and its stream.
///
/// # Errors
/// The system's random source failed.
fn seeds_of<R: RandomSource>(system: &R) -> io::Result<(u64, u64)> {
    let mut state = [0; 8];
    let mut stream = [0; 8];
    system.fill_bytes(&mut state)?;
    system.fill_bytes(&mut stream)?;
    Ok((u64::from_le_bytes(state), u64::from_le_bytes(stream)))
}

impl<C: Clock + Copy + Drop> Draws for SystemDraws<C> {
    ghost coming = { λ _. None };

    /// Returns the current time and the generator's next word.
    fn draw(&mut self) -> Draw
        ensures limit { IsInLimit result }
        ensures word { (result.word, ⟦<Lcg64Xsh32 as Rng>⟧.stream self.new.words)
            ≡ next_u64 (⟦<Lcg64Xsh32 as Rng>⟧.stream self.old.words) }
    {
        let moment = self.moments.draw();
        Draw {
            now: moment.now,
            word: self.words.next_u64(),
        }
    }

    /// Returns a separate supply with the same clock. This generator's next two words seed the generator of the new
    /// supply.
    fn split(&mut self) -> Self {
        let state = self.words.next_u64();
        let stream = self.words.next_u64();
        SystemDraws {
            moments: self.moments.split(),
            words: Lcg64Xsh32::new(state, stream),
        }
    }
}
