//! The counts of a door, which accepts connections and hands them out as links, and when it logs them. The connections
//! that were cut off and the replies with a status of 500 or more are logged once a minute at most.
ghost use Rattle.std.specs.Prelude.{◌≡◌, ◌+◌, ◌-◌, ◌^◌, min};

use crate::cuts::{Cuts, EachMinute};
use crate::log::Log;
use std::time::Instant;

/// When a door last logged its counts, and what it has counted.
#[derive(Clone, Copy)]
pub(crate) struct Reports {
    cuts: EachMinute,
    errors: EachMinute,
    /// How many replies had a status of 500 or more since their number was last logged.
    server_errors: u64,
    /// How many links were handed out one after another since the door last handled events.
    pub in_a_row: u64,
    /// How many connections were accepted, or returned by links. It never falls, and stops at 2^64 - 1.
    arrived: u64,
}

impl Reports {
    /// Nothing was logged or counted yet.
    pub fn new() -> Self {
        Reports {
            cuts: EachMinute::new(),
            errors: EachMinute::new(),
            server_errors: 0,
            in_a_row: 0,
            arrived: 0,
        }
    }

    /// Counts connections that were accepted or returned by links.
    pub fn count_arrived(&mut self, count: u64)
        ensures { self.new.arrived ≡ min (self.old.arrived + count) (2 ^ 64 - 1) }
    {
        self.arrived = self.arrived.saturating_add(count);
    }

    /// Logs how many connections were cut off since the last such line, unless there were none or that line is less
    /// than a minute old. If it logs, `cuts` begins again at 0.
    pub fn log_cuts<E: Eprint>(
        &mut self,
        to: &E,
        now: Option<Instant>,
        cuts: &mut Cuts,
        log: &mut Log,
    )
        ensures { self.new.arrived ≡ self.old.arrived }
    {
        if let Some(due) = self.cuts.due_cuts(now, cuts) {
            log.line(to, due);
        }
    }

    /// Counts `count` more replies with a status of 500 or more. Logs how many there were since the last such line,
    /// unless there were none or that line is less than a minute old.
    pub fn log_server_errors<E: Eprint>(
        &mut self,
        to: &E,
        now: Option<Instant>,
        count: u64,
        log: &mut Log,
    )
        ensures { self.new.arrived ≡ self.old.arrived }
    {
        self.server_errors = self.server_errors.saturating_add(count);
        let errors = self.server_errors;
        if self.errors.is_count_due(now, errors) {
            self.server_errors = 0;
            let line = format_args!("answers with a status of 500 or more: {errors}");
            log.line(to, line);
        }
    }
}
