//! The log on the error stream: a line for each change of state. The lines of this crate contain no token and no
//! secret. A line that can't be written at once is dropped, so that nothing waits for the reader of the log.
ghost use Rattle.std.specs.Prelude.{◌≡◌, ◌==◌, not};

use libc::net::{POLLOUT, poll};
use libc::types::pollfd;
use std::fmt::Display;

/// The logged state that means that all is well.
pub(crate) const WELL: u16 = 0;

/// The descriptor of the error stream.
const ERRORS: i32 = 2;

/// The state of something as it was last logged. At first all is well, which is not logged.
#[derive(Clone, Copy)]
pub(crate) struct Logged {
    pub last: u16,
}

impl Logged {
    /// The state before anything was logged: all is well.
    pub fn new() -> Self
        ensures { result.last ≡ WELL }
    {
        Logged { last: WELL }
    }

    /// Notes the state `now`, and returns whether it is to be logged: it differs from the state noted before.
    pub fn is_news(&mut self, now: u16) -> bool
        ensures news { result ≡ not (now == self.old.last) }
        ensures noted { self.new.last ≡ now }
    {
        let is_news = now != self.last;
        self.last = now;
        is_news
    }
}

/// Whether the error stream takes a line without blocking. Also true if `poll` fails. A pipe is ready for writing while
/// at least one page of it is free, and a line is shorter than a page.
fn takes_line() -> bool {
    let mut asked = [pollfd {
        fd: ERRORS,
        events: POLLOUT,
        revents: 0,
    }];
    poll(&mut asked, 0) != 0
}

/// The log, which counts the lines that were dropped since this count was last logged.
#[derive(Clone, Copy)]
pub struct Log {
    dropped: u64,
}

impl Log {
    /// A log that has dropped no line.
    pub fn new() -> Self {
        Log { dropped: 0 }
    }

    /// Writes a line, or drops it if the error stream would block. If lines were dropped before, first writes how many.
    /// An error of the stream is ignored.
    pub fn line<E: Eprint, D: Display + Drop>(&mut self, to: &E, line: D) {
        if self.dropped > 0 && takes_line() {
            let dropped = self.dropped;
            self.dropped = 0;
            let _ = to.eprintln(format_args!("lines dropped: {dropped}"));
        }
        if takes_line() {
            let _ = to.eprintln(line);
        } else {
            self.dropped = self.dropped.saturating_add(1);
        }
    }
}
