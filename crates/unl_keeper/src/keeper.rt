//! The trait of an append-only store of texts, one text per row.
ghost use Rattle.std.specs.Prelude.{◌≡◌, ◌<◌, ◌≤◌, true};
ghost use Rattle.unl_keeper.specs.Faults.{KeeperHasCause};
ghost use Rattle.unl_keeper.specs.State.{HasAtMostOneMore, HasKept, KeeperState, Opens, PutsRow, ReadsRow};

use crate::refusal::KeepRefusal;
use std::alloc::Global;
use unl_documents::Text;

/// Stores texts in rows numbered from 1. A kept row is one whose put succeeded, or that existed when the keeper was
/// opened.
pub trait Keeper {
    /// The state that contracts use: whether the keeper is open, its fault count (which saturates at 2^64 - 1), the
    /// number of kept rows, and all rows, if observable. The rows are the kept ones, then what a failed put left.
    ghost state: { Self → KeeperState };

    /// Opens the keeper and returns the number of kept rows. From then on every existing row is kept, including a row
    /// that a failed put left.
    ///
    /// # Errors
    ///
    /// `Fault`: the keeper failed and incremented its fault count. The rows and the number of kept rows are unchanged.
    ///
    /// `Memory`: out of memory. Nothing changed.
    fn open(&mut self, alloc: Global) -> Result<u64, KeepRefusal>
        ensures opens { Opens (state self.old) result (state self.new) }
        ensures cause { KeeperHasCause (state self.old).faults (state self.new).faults result };

    /// Returns the number of kept rows.
    fn count(&self) -> u64
        ensures { result ≡ (state self.now).count };

    /// Writes a text to the row after the kept ones, replacing what a failed put left there. The keeper must be open
    /// and keep fewer than 10,000,000 rows.
    ///
    /// # Errors
    ///
    /// `Fault`: the keeper failed and incremented its fault count. The kept rows are unchanged. What follows them is
    /// unchanged too, or is the text.
    ///
    /// `Memory`: out of memory. Nothing changed.
    fn put(&mut self, alloc: Global, text: &Text) -> Result<(), KeepRefusal>
        requires opened { (state self.old).opened ≡ true }
        requires room { (state self.old).count < 10000000 }
        ensures { PutsRow text.now (state self.old) result (state self.new) };

    /// Returns the text of row `place`, which must be kept. Returns `None` only if the rows are not observable. The
    /// keeper must be open.
    ///
    /// # Errors
    ///
    /// `Fault`: the keeper failed and incremented its fault count.
    ///
    /// `Memory`: out of memory.
    fn read(&mut self, alloc: Global, place: u64) -> Result<Option<Text>, KeepRefusal>
        requires opened { (state self.old).opened ≡ true }
        requires place { (1 ≤ place) × (place ≤ (state self.old).count) }
        ensures reads { ReadsRow place (state self.old) result (state self.new) }
        ensures cause { KeeperHasCause (state self.old).faults (state self.new).faults result };

    /// There are at least as many rows as are kept.
    ghost at_least: { (keeper : Self) → HasKept (state keeper) };

    /// Once the keeper is open, at most one row follows the kept ones.
    ghost at_most: { (keeper : Self) → (state keeper).opened ≡ true → HasAtMostOneMore (state keeper) };
}
