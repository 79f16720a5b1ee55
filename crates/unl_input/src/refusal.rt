//! Why an input is refused, and the line that reports it.
ghost use Rattle.std.specs.Prelude.{◌≡◌, ◌≤◌, ◌++◌, codes, IfOk, IsErrOf, string_bytes};
ghost use Rattle.unl_base.specs.Faults.{Rose};
ghost use Rattle.unl_input.specs.Refusal.{WritesLine, refusal_line};

use std::alloc::{AllocError, Global};
use thiserror::Error;
use unl_base::{Sink, write_all};
use unl_documents::{BadDocument, Memory, fault_text};

/// Why an input is refused.
#[derive(Debug, Drop, PartialEq, Error)]
pub enum InputRefusal {
    /// The first fault of the input. It is never `Memory`.
    #[error("the input is not accepted")]
    BadInput(BadDocument),
    /// The input has more than 16,777,216 bytes.
    #[error("the input is too large")]
    TooLarge,
}

/// Why a line could not be written.
#[derive(Clone, Copy, Debug, PartialEq, Eq, Error)]
pub enum WriteLineFault {
    /// The sink failed. A prefix of the line was sent.
    #[error("the output failed")]
    WriteFault,
    /// Out of memory. Nothing was sent.
    #[error("out of memory")]
    Memory,
}

/// Writes the line `refused: <cause>`, which reports why an input is refused. The cause is `TooLarge`, or the text of
/// the input's first fault.
///
/// # Errors
/// `WriteFault` if the sink failed; a prefix of the line was sent. `Memory` if memory ran out; nothing was sent.
pub fn write_refusal<K: Sink>(
    alloc: Global,
    sink: &mut K,
    refusal: &InputRefusal,
) -> Result<(), WriteLineFault>
    ensures said { WritesLine result (refusal_line refusal.now) (K.sent sink.old) (K.sent sink.new) }
    ensures write { IsErrOf result WriteLineFault.WriteFault → Rose (K.faults sink.old) (K.faults sink.new) }
    ensures later { K.faults sink.old ≤ K.faults sink.new }
{
    let Ok(line) = line_of(alloc, refusal) else {
        return Err(WriteLineFault::Memory);
    };
    match write_all(sink, line.as_bytes()) {
        Ok(()) => Ok(()),
        Err(_) => Err(WriteLineFault::WriteFault),
    }
}

/// Returns the line that reports why an input is refused.
fn line_of(alloc: Global, refusal: &InputRefusal) -> Result<String, Memory>
    ensures { IfOk result (λ line. string_bytes line ≡ refusal_line refusal.now) }
{
    match refusal {
        InputRefusal::BadInput(fault) => {
            let cause = fault_text(alloc, fault)?;
            Ok(refused(alloc, cause.as_str())?)
        }
        InputRefusal::TooLarge => Ok(refused(alloc, "TooLarge")?),
    }
}

fn refused(alloc: Global, cause: &str) -> Result<String, AllocError>
    ensures { IfOk result (λ line. string_bytes line ≡ codes "refused: " ++ (cause.now ++ codes "\n")) }
{
    format!(in alloc; "refused: {cause}\n")
}
