//! Prints the lines about a run of an upstream: which row of its keeper is refused, and how many links were served.
ghost use Rattle.std.specs.Prelude.{◌≡◌, IfOk, IsErrOf, string_bytes};
ghost use Rattle.unl_base.specs.Faults.{Rose};
ghost use Rattle.unl_input.specs.Refusal.{WritesLine};
ghost use Rattle.unl_upstream.specs.Ends.{connections_line, row_line};

use std::alloc::{AllocError, Global};
use unl_base::{Sink, write_all};
use unl_input::WriteLineFault;

/// Prints the line `refused: row <place>`: the row `place` of a keeper, counted from 1, is missing or isn't an accepted
/// command.
///
/// # Errors
/// `WriteFault` if the output failed: a prefix of the line was sent. `Memory` if out of memory: nothing was sent.
pub(crate) fn say_row<O: Sink>(
    alloc: Global,
    output: &mut O,
    place: u64,
) -> Result<(), WriteLineFault>
    ensures said { WritesLine result (row_line place) (O.sent output.old) (O.sent output.new) }
    ensures write { IsErrOf result WriteLineFault.WriteFault → Rose (O.faults output.old) (O.faults output.new) }
{
    let Ok(line) = row_line(alloc, place) else {
        return Err(WriteLineFault::Memory);
    };
    match write_all(output, line.as_bytes()) {
        Ok(()) => Ok(()),
        Err(_) => Err(WriteLineFault::WriteFault),
    }
}

/// Returns the line that is printed for a refused or missing row.
fn row_line(alloc: Global, place: u64) -> Result<String, AllocError>
    ensures { IfOk result (λ line. string_bytes line ≡ row_line place) }
{
    format!(in alloc; "refused: row {place}\n")
}

/// Prints the line `connections <served>`: how many links were served.
///
/// # Errors
/// `WriteFault` if the output failed: a prefix of the line was sent. `Memory` if out of memory: nothing was sent.
pub fn print_connections<O: Sink>(
    alloc: Global,
    output: &mut O,
    served: u64,
) -> Result<(), WriteLineFault>
    ensures said { WritesLine result (connections_line served) (O.sent output.old) (O.sent output.new) }
    ensures write { IsErrOf result WriteLineFault.WriteFault → Rose (O.faults output.old) (O.faults output.new) }
{
    let Ok(line) = connections_line(alloc, served) else {
        return Err(WriteLineFault::Memory);
    };
    match write_all(output, line.as_bytes()) {
        Ok(()) => Ok(()),
        Err(_) => Err(WriteLineFault::WriteFault),
    }
}

/// Returns the line with the count of served links, which is printed once the door is closed.
fn connections_line(alloc: Global, served: u64) -> Result<String, AllocError>
    ensures { IfOk result (λ line. string_bytes line ≡ connections_line served) }
{
    format!(in alloc; "connections {served}\n")
}
