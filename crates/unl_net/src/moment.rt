//! Moments, and the time between them. A moment is `None` if the clock can't be read: no time counts as passed then.
ghost use Rattle.std.specs.Prelude.{◌≡◌};
ghost use Rattle.unl_net.specs.Moments.{seconds_between};

use std::time::{Clock, Instant};

/// The present moment. `None`: the clock can't be read.
pub(crate) fn moment<C: Clock>(clock: &C) -> Option<Instant> {
    Instant::now(clock).ok()
}

/// The whole seconds between two moments: 0 if either is unknown, or if `now` is the earlier one.
pub(crate) fn seconds_between(begun: Option<Instant>, now: Option<Instant>) -> u64
    ensures { result ≡ seconds_between begun now }
{
    match (begun, now) {
        (Some(begun), Some(now)) => now.duration_since(begun).as_secs(),
        _ => 0,
    }
}
