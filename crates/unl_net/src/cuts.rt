//! Why connections end, and how many were cut off. These counts, and that of the replies with a status of 500 or more,
//! are logged once a minute at most.
ghost use Rattle.std.specs.Prelude.{◌≡◌};
ghost use Rattle.unl_net.specs.EndedConnections.{with_cut_if_any, with_cut, cut_of, late_cut};

use crate::moment::seconds_between;
use crate::phase::Phase;
use std::fmt::Display;
use std::time::Instant;
use std::{fmt, io};

/// The minimum number of seconds between two log lines of a kind.
const LOG_INTERVAL: u64 = 60;

/// Why a connection was cut off.
#[derive(Clone, Copy)]
pub(crate) enum Cut {
    /// A request was not whole in time.
    SlowRequest,
    /// The client took no byte of a reply in time.
    SlowReader,
    /// There was no room, no file descriptor or no memory for a further connection, so the door closed this one.
    Room,
    /// The waiting connections together had received too many bytes, and this one the most. Or there was no memory to
    /// let this one wait or to make it ready for a link.
    Memory,
}

/// Why a connection ends while the door holds it, that is, while no link serves it.
#[derive(Clone, Copy)]
pub(crate) enum EndReason {
    /// The client has shut down its side, and nothing is left to be sent.
    Done,
    /// A call of its stream failed, there was no memory for its received bytes, or the door's wait for events failed.
    Failed(io::Error),
    /// The connection has waited for as long as its phase allows. The field is the moment at which this was checked.
    Late(Option<Instant>),
    /// The connection is cut off for this cause.
    CutOff(Cut),
    /// The door ends all its connections, at least 30 seconds after accepting new ones failed for good. The fields are
    /// the moment of that failure, and the moment at which the 30 seconds were checked.
    DoorEnds(Option<Instant>, Option<Instant>),
}

/// The cause that is counted for a connection that waited too long in this phase. Returns `None` if the connection
/// doesn't count as cut off, as in the phase `Idle`.
fn late_cut(phase: Phase) -> Option<Cut>
    ensures { result ≡ late_cut phase }
{
    match phase {
        Phase::Receiving => Some(Cut::SlowRequest),
        Phase::Sending => Some(Cut::SlowReader),
        _ => None,
    }
}

/// The cause that is counted for a connection that ends for this reason in this phase, if it counts as cut off.
pub(crate) fn cut_of(reason: EndReason, phase: Phase) -> Option<Cut>
    ensures { result ≡ cut_of reason phase }
{
    match reason {
        EndReason::Done => None,
        EndReason::Failed(_) => None,
        EndReason::Late(_) => late_cut(phase),
        EndReason::CutOff(cut) => Some(cut),
        EndReason::DoorEnds(_, _) => None,
    }
}

/// How many connections were cut off, by cause.
#[derive(Clone, Copy)]
pub(crate) struct Cuts {
    slow_requests: u64,
    slow_readers: u64,
    room: u64,
    memory: u64,
}

impl Cuts {
    /// No connection was cut off yet.
    pub fn new() -> Self {
        Cuts {
            slow_requests: 0,
            slow_readers: 0,
            room: 0,
            memory: 0,
        }
    }

    /// Counts a connection if it was cut off.
    pub fn count(&mut self, cut: Option<Cut>)
        ensures { self.new ≡ with_cut_if_any cut self.old }
    {
        match cut {
            Some(cut) => self.count_one(cut),
            None => {}
        }
    }

    /// Counts one connection that was cut off.
    fn count_one(&mut self, cut: Cut)
        ensures { self.new ≡ with_cut cut self.old }
    {
        match cut {
            Cut::SlowRequest => self.slow_requests = self.slow_requests.saturating_add(1),
            Cut::SlowReader => self.slow_readers = self.slow_readers.saturating_add(1),
            Cut::Room => self.room = self.room.saturating_add(1),
            Cut::Memory => self.memory = self.memory.saturating_add(1),
        }
    }

    /// Counts connections that were closed because an allocation failed.
    pub fn count_memory(&mut self, count: u64) {
        self.memory = self.memory.saturating_add(count);
    }

    /// The sum of all counts.
    fn sum(&self) -> u64 {
        self.slow_requests
            .saturating_add(self.slow_readers)
            .saturating_add(self.room)
            .saturating_add(self.memory)
    }
}

impl Display for Cuts {
    fn fmt<W: fmt::Write>(&self, f: &mut fmt::Formatter<W>) -> fmt::Result {
        let sum = self.sum();
        let Cuts {
            slow_requests,
            slow_readers,
            room,
            memory,
        } = *self;
        write!(
            f,
            "connections cut off: {sum} ({slow_requests} slow requests, {slow_readers} slow readers, {room} for room, {memory} for memory)"
        )
    }
}

/// When a line of one kind was last logged. Such lines are logged once a minute at most, as long as the clock can be
/// read.
#[derive(Clone, Copy)]
pub(crate) struct EachMinute {
    last: Option<Instant>,
}

impl EachMinute {
    /// Nothing was logged yet.
    pub fn new() -> Self {
        EachMinute { last: None }
    }

    /// Whether a line may be logged now. If so, it counts as logged.
    fn is_due(&mut self, now: Option<Instant>) -> bool {
        let is_due = self.last.is_none() || seconds_between(self.last, now) >= LOG_INTERVAL;
        if is_due {
            self.last = now;
        }
        is_due
    }

    /// The counts since the last line, if a line is due and not all of them are 0. If so, `cuts` begins again at 0.
    pub fn due_cuts(&mut self, now: Option<Instant>, cuts: &mut Cuts) -> Option<Cuts> {
        if cuts.sum() == 0 || !self.is_due(now) {
            return None;
        }
        let due = *cuts;
        *cuts = Cuts::new();
        Some(due)
    }

    /// Whether a line with this count is due: never if the count is 0. If it is due, it counts as logged.
    pub fn is_count_due(&mut self, now: Option<Instant>, count: u64) -> bool {
        count > 0 && self.is_due(now)
    }
}
