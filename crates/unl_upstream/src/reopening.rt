//! Reopens an upstream after a restart: applies the commands in its keeper's rows, in order.
ghost use Rattle.std.specs.Prelude.{◌≡◌, ◌≤◌, ◌<◌, ◌+◌, ◌^◌, true, false, Some, None, IfOk, IfErr, OnOk, OnErr};
ghost use Rattle.unl_upstream.specs.Kept.{kept_state};
ghost use Rattle.unl_upstream.specs.Reopening.{WhyRowFails, IsOpening, IsSameKeeper, Reopens, TakesRow, row_after};

use crate::reading::read_command_bytes;
use crate::refusal::CommandRefusal;
use crate::upstream::Upstream;
use std::alloc::Global;
use thiserror::Error;
use unl_documents::{BadDocument, Memory, Text};
use unl_keeper::{KeepRefusal, Keeper};

/// Why an upstream was not reopened.
#[derive(Debug, Drop, Error)]
pub enum ReopenFault {
    /// A row cannot be applied: its text is no command, or the upstream refuses the command. Carries the number of the
    /// row, counted from 1, and its text.
    #[error("row {0} is no command that is accepted")]
    BadRow(u64, Text),
    /// The keeper returned no text for the row with this number, counted from 1. This can only happen if the rows are
    /// not observable.
    #[error("row {0} is not there")]
    NoRow(u64),
    /// The keeper failed, and incremented its fault count.
    #[error("the keeper failed")]
    Fault,
    /// Out of memory.
    #[error("out of memory")]
    Memory,
}

impl From<KeepRefusal> for ReopenFault {
    ghost use Rattle.unl_upstream.specs.Reopening.{reopen_fault_of};

    ghost from_gives = { λ refusal e. e ≡ reopen_fault_of refusal };

    fn from(refusal: KeepRefusal) -> ReopenFault {
        match refusal {
            KeepRefusal::Fault => ReopenFault::Fault,
            KeepRefusal::Memory => ReopenFault::Memory,
        }
    }
}

/// Opens a keeper, and applies the commands of its rows in order to an upstream that has not applied any command yet.
/// Returns the number of rows.
///
/// # Errors
/// `BadRow`: the text of a row is no command, or its command is refused. `NoRow`: the keeper returned no text for a
/// row. `Fault`: the keeper failed and incremented its fault count. `Memory`: out of memory. If the error occurs at a
/// row, the upstream has applied the rows before that row.
pub fn reopen<K: Keeper>(
    alloc: Global,
    up: &mut Upstream,
    keeper: &mut K,
) -> Result<u64, ReopenFault>
    requires { IsOpening up.old }
    ensures opened { OnOk result ((K.state keeper.new).opened ≡ true) }
    ensures still { OnOk result ((K.state keeper.new).faults ≡ (K.state keeper.old).faults) }
    ensures keeper { IsSameKeeper (K.state keeper.old) (K.state keeper.new) }
    ensures reopens { Reopens (kept_state up.old (K.state keeper.old)) result (kept_state up.new (K.state keeper.new)) }
{
    let count = match keeper.open(alloc) {
        Ok(count) => count,
        Err(refusal) => return Err(ReopenFault::from(refusal)),
    };
    'rows: for place in 0..count {
        match apply_next_row(alloc, up, keeper, place) {
            Ok(()) => {}
            Err(fault) => return Err(fault),
        }
    }
    Ok(count)
}

/// Applies the row after the first `before` rows.
///
/// # Errors
/// As for [`reopen`]. On an error the upstream is unchanged.
fn apply_next_row<K: Keeper>(
    alloc: Global,
    up: &mut Upstream,
    keeper: &mut K,
    before: u64,
) -> Result<(), ReopenFault>
    requires opened { (K.state keeper.old).opened ≡ true }
    requires there { before < (K.state keeper.old).count }
    requires fits { before + 1 < 2 ^ 64 }
    ensures stays { (K.state keeper.new).opened ≡ true }
    ensures same { ((K.state keeper.new).count ≡ (K.state keeper.old).count) × ((K.state keeper.new).rows ≡ (K.state keeper.old).rows) }
    ensures later { (K.state keeper.old).faults ≤ (K.state keeper.new).faults }
    ensures still { OnOk result ((K.state keeper.new).faults ≡ (K.state keeper.old).faults) }
    ensures applied { OnOk result (TakesRow before (K.state keeper.old).rows up.old up.new) }
    ensures refused { IfErr result (λ e. (up.new ≡ up.old) × WhyRowFails before (K.state keeper.old) (K.state keeper.new) up.old e) }
{
    match keeper.read(alloc, before + 1)? {
        None => Err(ReopenFault::NoRow(before + 1)),
        Some(row) => match apply_row(alloc, up, &row) {
            Ok(true) => Ok(()),
            Ok(false) => Err(ReopenFault::BadRow(before + 1, row)),
            Err(Memory) => Err(ReopenFault::Memory),
        },
    }
}

/// Applies the command of a row. Returns whether this succeeded: false if the row is no command or its command is
/// refused. On false or an error the upstream is unchanged.
#[tactic(auto, unfolding(crate::specs::Reopening::row_after))]
fn apply_row(alloc: Global, up: &mut Upstream, row: &Text) -> Result<bool, Memory>
    ensures applied { IfOk result (λ is. is ≡ true → row_after row.now up.old ≡ Some up.new) }
    ensures refused { IfOk result (λ is. is ≡ false → (row_after row.now up.old ≡ None) × (up.new ≡ up.old)) }
    ensures same { OnErr result (up.new ≡ up.old) }
{
    match read_command_bytes(alloc, row.as_str().as_bytes()) {
        Ok(command) => match up.apply(alloc, &command) {
            Ok(_) => Ok(true),
            Err(refusal) => match refusal {
                CommandRefusal::Memory => Err(Memory),
                _ => Ok(false),
            },
        },
        Err(fault) => match fault {
            BadDocument::Memory => Err(Memory),
            _ => Ok(false),
        },
    }
}
