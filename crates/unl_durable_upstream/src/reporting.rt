//! A keeper whose failures are reported on the error stream.
ghost use Rattle.std.specs.Prelude.{◌≡◌};

use std::alloc::Global;
use unl_documents::Text;
use unl_keeper::{KeepRefusal, Keeper};
use unl_net::Log;

/// Forwards each call to a keeper. Reports on the error stream when puts begin to fail with `Fault`, and when a put
/// succeeds again after that. A put that runs out of memory says nothing of the database, so nothing is reported for
/// it. A line that can't be written at once is dropped.
#[derive(Drop)]
pub struct ReportingKeeper<'a, K: Keeper + Drop, E: Eprint> {
    keeper: K,
    rt: &'a E,
    path: &'a str,
    log: Log,
    is_failing: bool,
}

impl<'a, K: Keeper + Drop, E: Eprint> ReportingKeeper<'a, K, E> {
    /// Creates a keeper that forwards to `keeper`, and reports on the error stream of `rt`. A report begins with
    /// `path`, that of the database file.
    pub fn new(rt: &'a E, path: &'a str, keeper: K) -> Self
        ensures { result.keeper ≡ keeper }
    {
        ReportingKeeper {
            keeper,
            rt,
            path,
            log: Log::new(),
            is_failing: false,
        }
    }

    /// Returns the keeper.
    pub fn into_keeper(self) -> K
        ensures { result ≡ self.entry.keeper }
    {
        let ReportingKeeper { keeper, .. } = self;
        keeper
    }

    /// Reports whether the database fails or works, if that differs from what was known before.
    fn note(&mut self, fails: bool)
        ensures { self.new.keeper ≡ self.old.keeper }
    {
        if fails == self.is_failing {
            return;
        }
        self.is_failing = fails;
        let path = self.path;
        if fails {
            let line = format_args!("{path}: the database fails: commands are answered with 503");
            self.log.line(self.rt, line);
        } else {
            self.log
                .line(self.rt, format_args!("{path}: the database works again"));
        }
    }
}

/// Returns whether a put shows that the database fails (`Some(true)`) or works (`Some(false)`). A put that ran out of
/// memory shows neither (`None`).
fn shows_failure(put: &Result<(), KeepRefusal>) -> Option<bool> {
    match put {
        Ok(()) => Some(false),
        Err(KeepRefusal::Fault) => Some(true),
        Err(KeepRefusal::Memory) => None,
    }
}

impl<'a, K: Keeper + Drop, E: Eprint> Keeper for ReportingKeeper<'a, K, E> {
    ghost state = { λ k. K.state k.keeper };

    fn open(&mut self, alloc: Global) -> Result<u64, KeepRefusal> {
        self.keeper.open(alloc)
    }

    fn count(&self) -> u64 {
        self.keeper.count()
    }

    fn put(&mut self, alloc: Global, text: &Text) -> Result<(), KeepRefusal> {
        let put = self.keeper.put(alloc, text);
        if let Some(fails) = shows_failure(&put) {
            self.note(fails);
        }
        put
    }

    fn read(&mut self, alloc: Global, place: u64) -> Result<Option<Text>, KeepRefusal> {
        self.keeper.read(alloc, place)
    }

    ghost at_least = { λ k. K.at_least k.keeper };

    ghost at_most = { λ k. K.at_most k.keeper };
}
