//! The interface between the loop over the lines of an input and the processing of one line.
ghost use Rattle.std.specs.Prelude.{◌≡◌, ◌+◌, ◌≤◌, ℕ, List, Result, OnOk};
ghost use Rattle.unl_input.specs.Taken.{Taken, most_lines};
ghost use Rattle.unl_input.specs.Taking.{TakesLine};

use std::alloc::{AllocError, Global};
use thiserror::Error;
use unl_documents::{Memory, Text};

/// Why a line was not processed.
#[derive(Debug, Drop, Error)]
pub enum LineRefusal {
    /// The line is refused, for the cause with this text.
    #[error("the line is refused")]
    Cause(Text),
    /// Out of memory.
    #[error("out of memory")]
    Memory,
}

impl From<Memory> for LineRefusal {
    ghost use Rattle.std.specs.Prelude.{◌≡◌};
    ghost use Rattle.unl_input.specs.declared.line.LineRefusal.TheVariants.{Memory as memory};

    ghost from_gives = { λ _ e. e ≡ memory };

    fn from(_: Memory) -> Self {
        LineRefusal::Memory
    }
}

impl From<AllocError> for LineRefusal {
    ghost use Rattle.std.specs.Prelude.{◌≡◌};
    ghost use Rattle.unl_input.specs.declared.line.LineRefusal.TheVariants.{Memory as memory};

    ghost from_gives = { λ _ e. e ≡ memory };

    fn from(_: AllocError) -> Self {
        LineRefusal::Memory
    }
}

/// Processes the lines of an input, one after another.
pub trait LineProcessor {
    /// The state that the lines change.
    type Desk;

    // The result of a line, given its number, the state before it and its bytes: the text that the line prints and the
    // state after it, or the cause for which the line is refused.
    ghost line_result: { ℕ → Self.Desk → List ℕ → Result (Taken Self.Desk) (List ℕ) };

    // A condition on the state before the line with this number, for example that no counter is at its maximum.
    ghost fits: { ℕ → Self.Desk → Type 0 };

    /// Processes the line with this number, counted from 1 and at most 1,000,000. `line` is without its line feed.
    /// Returns the text that the line prints.
    ///
    /// # Errors
    /// `Cause` if the line is refused, and `Memory` if memory runs out.
    fn take(
        alloc: Global,
        desk: &mut Self::Desk,
        number: u64,
        line: &[u8],
    ) -> Result<Vec<u8>, LineRefusal>
        requires room { fits number desk.old }
        requires few { number ≤ most_lines }
        ensures processed { TakesLine result desk.new (line_result number desk.old line.now) }
        ensures room { OnOk result (fits (number + 1) desk.new) };
}
