//! A keeper (an append-only store of texts, one text per row) in memory. For tests of faults, its creator can list
//! calls that fail.
ghost use Rattle.std.specs.Prelude.{◌<◌, true, ◌+◌, ◌≡◌, [], ◌∷◌, ◌++◌, ◌-◌, ◌≤◌, None, Some, false, length, slice_get, IfOk, IfErr};
ghost use Rattle.std.specs.Prelude.{OnOk, is_some, if◌then◌else◌};
ghost use Rattle.unl_keeper.specs.Faults.{KeeperHasCause, CountRose};
ghost use Rattle.unl_keeper.specs.Memory.{CallOutcome, after_call, left_keeping, memory_state, new_keeping, opened_keeping};
ghost use Rattle.unl_keeper.specs.Memory.{planned_failure, put_keeping, read_keeping, rows_of};
ghost use Rattle.unl_keeper.specs.State.{Opens, PutsRow, ReadsRow};
ghost use Rattle.std.proofs.Common.{rules, length-append};

use crate::keeper::Keeper;
use crate::refusal::KeepRefusal;
use std::alloc::Global;
use std::marker::Model;
use unl_documents::{List, Text};

/// A call that is to fail with `Fault`. Calls of `open`, `put` and `read` are numbered together, from 0. A call that
/// runs out of memory is not counted: the next call has the same number.
#[derive(Clone, Copy, Debug, PartialEq, Eq)]
pub struct KeepFail {
    /// The number of the call.
    pub call: u64,
    /// If the call is a `put`: whether it leaves its text in the row after the kept ones. Ignored for other calls.
    pub leaves: bool,
}

/// Counts the calls and the faults, and lists the calls that are to fail.
#[derive(Debug, Drop)]
struct Calls {
    failing: List<KeepFail>,
    calls: u64,
    faults: u64,
}

impl Model for Calls {
    ghost use Rattle.unl_keeper.specs.Memory.{Counting};

    ghost Value = { Counting };

    ghost view = { λ c. record { failing = c.failing; calls = c.calls; faults = c.faults } };
}

/// Returns `None` if call number `call` is not listed as failing. If it is, returns its `leaves`.
fn planned_failure(failing: &[KeepFail], call: u64) -> Option<bool>
    ensures { result ≡ planned_failure failing.now call }
{
    failing
        .iter()
        .find(|fail| fail.call == call)
        .map(|fail| fail.leaves)
}

impl Calls {
    /// Returns `None` if the next call is not listed as failing. If it is, returns its `leaves`.
    fn fails(&self) -> Option<bool>
        ensures { result ≡ planned_failure self.now.failing self.now.calls }
    {
        planned_failure(self.failing.as_slice(), self.calls)
    }

    /// Counts one call, and one fault if the call `fails`.
    fn count(&mut self, fails: bool)
        requires { fails ≡ is_some (planned_failure self.old.failing self.old.calls) }
        ensures counted { self.new ≡ after_call self.old }
        ensures rose { fails ≡ true → CountRose self.old.faults self.new.faults }
        ensures well { fails ≡ false → self.new.faults ≡ self.old.faults }
    {
        self.calls = self.calls.saturating_add(1);
        if fails {
            self.faults = self.faults.saturating_add(1);
        }
    }
}

/// A keeper whose rows are in memory.
#[derive(Debug, Drop)]
pub struct MemoryKeeper {
    opened: bool,
    kept: Vec<Text>,
    past: Option<Text>,
    calls: Calls,
}

impl Model for MemoryKeeper {
    ghost use Rattle.unl_keeper.specs.Memory.{MemoryKeeperState};

    ghost Value = { MemoryKeeperState };

    ghost view = { λ k. record { opened = k.opened; kept = k.kept.items; past = k.past; counting = k.calls } };
}

impl MemoryKeeper {
    /// Creates an empty keeper that is not open. The calls listed in `failing` fail. Allocates nothing.
    pub fn new(alloc: Global, failing: List<KeepFail>) -> MemoryKeeper
        ensures { result ≡ new_keeping failing }
    {
        MemoryKeeper {
            opened: false,
            kept: Vec::new(alloc),
            past: None,
            calls: Calls {
                failing,
                calls: 0,
                faults: 0,
            },
        }
    }

    /// Returns the kept rows and the fault count.
    pub(crate) fn into_kept(self) -> (Vec<Text>, u64)
        ensures kept { result.0.items ≡ self.kept }
        ensures faults { result.1 ≡ self.counting.faults }
    {
        let MemoryKeeper {
            opened: _,
            kept,
            past: _,
            calls,
        } = self;
        (kept, calls.faults)
    }

    /// If a failed put left a row, appends that row to the kept rows.
    fn keep_past(&mut self) -> Result<(), KeepRefusal>
        ensures ok { OnOk result (self.new ≡ record self.old { kept = rows_of self.old; past = None }) }
        ensures err { IfErr result (λ e. (e ≡ KeepRefusal.Memory) × (self.new ≡ self.old)) }
    {
        let Some(row) = self.past.take() else {
            return Ok(());
        };
        match self.kept.push(row) {
            Ok(()) => Ok(()),
            Err(back) => {
                self.past = Some(back.value);
                Err(KeepRefusal::Memory)
            }
        }
    }

    /// Appends a row to the kept rows, and drops the row that a failed put left.
    fn add(&mut self, row: Text) -> Result<(), KeepRefusal>
        ensures ok { OnOk result (self.new ≡ record self.old { kept = self.old.kept ++ row ∷ []; past = None }) }
        ensures err { IfErr result (λ e. (e ≡ KeepRefusal.Memory) × (self.new ≡ self.old)) }
    {
        if self.kept.push(row).is_err() {
            return Err(KeepRefusal::Memory);
        }
        self.past = None;
        Ok(())
    }

    /// If `leaves`, stores `row` in `past`, which has the row that a failed put left after the kept rows. Otherwise
    /// does nothing.
    fn leave(&mut self, leaves: bool, row: Text)
        ensures { self.new ≡ record self.old { past = if leaves then Some row else self.old.past } }
    {
        if leaves {
            self.past = Some(row);
        }
    }
}

/// Returns row `place`, numbered from 1, or `None` if there are fewer rows.
fn row_at(alloc: Global, rows: &[Text], place: u64) -> Result<Option<Text>, KeepRefusal>
    requires { 1 ≤ place }
    ensures row { IfOk result (λ found. found ≡ slice_get rows.now (place - 1)) }
    ensures err { IfErr result (λ e. e ≡ KeepRefusal.Memory) }
{
    let Some(row) = rows.get((place - 1) as usize) else {
        return Ok(None);
    };
    Ok(Some(Text::new(alloc, row.as_str())?))
}

impl Keeper for MemoryKeeper {
    ghost state = { memory_state };

    /// Fails with `Fault` exactly if this call is listed as failing. Otherwise it can fail with `Memory`.
    fn open(&mut self, _alloc: Global) -> Result<u64, KeepRefusal>
        ensures opens { Opens (memory_state self.old) result (memory_state self.new) }
        ensures cause { KeeperHasCause self.old.counting.faults self.new.counting.faults result }
        ensures exact { CallOutcome (opened_keeping self.old) (read_keeping self.old) self.old self.new result }
    {
        if self.calls.fails().is_some() {
            self.calls.count(true);
            return Err(KeepRefusal::Fault);
        }
        self.keep_past()?;
        self.calls.count(false);
        self.opened = true;
        Ok(self.kept.len() as u64)
    }

    fn count(&self) -> u64 {
        self.kept.len() as u64
    }

    /// Fails with `Memory` if there is no memory for a copy of the text, even if this call is listed as failing. If the
    /// text is copied, fails with `Fault` exactly if the call is listed. Otherwise it can still fail with `Memory`.
    fn put(&mut self, alloc: Global, text: &Text) -> Result<(), KeepRefusal>
        requires { self.old.opened ≡ true }
        ensures puts { PutsRow text.now (memory_state self.old) result (memory_state self.new) }
        ensures exact { CallOutcome (put_keeping text.now self.old) (left_keeping text.now self.old) self.old self.new result }
    {
        let row = Text::new(alloc, text.as_str())?;
        match self.calls.fails() {
            None => {
                self.add(row)?;
                self.calls.count(false);
                Ok(())
            }
            Some(leaves) => {
                self.leave(leaves, row);
                self.calls.count(true);
                Err(KeepRefusal::Fault)
            }
        }
    }

    /// Fails with `Fault` exactly if this call is listed as failing. Otherwise it can fail with `Memory`.
    fn read(&mut self, alloc: Global, place: u64) -> Result<Option<Text>, KeepRefusal>
        requires opened { self.old.opened ≡ true }
        requires place { (1 ≤ place) × (place ≤ length self.old.kept) }
        ensures reads { ReadsRow place (memory_state self.old) result (memory_state self.new) }
        ensures cause { KeeperHasCause self.old.counting.faults self.new.counting.faults result }
        ensures exact { CallOutcome (read_keeping self.old) (read_keeping self.old) self.old self.new result }
    {
        if self.calls.fails().is_some() {
            self.calls.count(true);
            return Err(KeepRefusal::Fault);
        }
        let row = row_at(alloc, self.kept.as_slice(), place)?;
        self.calls.count(false);
        Ok(row)
    }

    ghost at_least = { Prim.search (rules, length-append) };

    ghost at_most = { Prim.search (rules, length-append) };
}
