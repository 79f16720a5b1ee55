//! The time limit of an exchange with a server, from the connect to the last byte.
ghost use Rattle.std.specs.Prelude.{◌≡◌, ◌==◌, if◌then◌else◌};
ghost use Rattle.unl_net.specs.Exchanges.{rests, seconds_left};

use crate::moment::seconds_between;
use std::time::Instant;

/// How long an exchange may take, in seconds. The time in which the system looks up a name counts, but has no limit.
const MOST_SECONDS: u64 = 30;

/// For how many seconds a server that used up its time is not asked again.
const REST_SECONDS: u64 = 5;

/// When the latest exchange began, and when the server last used up the time of an exchange. If the clock can't be
/// read, no time counts as passed.
#[derive(Clone, Copy)]
pub(crate) struct Exchange {
    begun: Option<Instant>,
    over: Option<Instant>,
}

impl Exchange {
    /// No exchange has begun.
    pub fn new() -> Self {
        Exchange {
            begun: None,
            over: None,
        }
    }

    /// Begins an exchange.
    pub fn begin(&mut self, now: Option<Instant>)
        ensures { self.new ≡ record self.old { begun = now } }
    {
        self.begun = now;
    }

    /// The number of seconds left for the exchange.
    pub fn left(&self, now: Option<Instant>) -> u64
        ensures { result ≡ seconds_left self.now now }
    {
        MOST_SECONDS.saturating_sub(seconds_between(self.begun, now))
    }

    /// Handles a failed call of the exchange: if no second is left, notes that the server used up the time.
    pub fn note_fault(&mut self, now: Option<Instant>)
        ensures { self.new ≡ record self.old { over = if seconds_left self.old now == 0 then now else self.old.over } }
    {
        if self.left(now) == 0 {
            self.over = now;
        }
    }

    /// Whether the server must not be asked now: it used up the time of an exchange less than 5 seconds ago.
    pub fn rests(&self, now: Option<Instant>) -> bool
        ensures { result ≡ rests self.now now }
    {
        self.over.is_some() && seconds_between(self.over, now) < REST_SECONDS
    }
}
