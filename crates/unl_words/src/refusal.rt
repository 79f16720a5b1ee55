//! The error of parsing a command line.
ghost use Rattle.std.specs.Prelude.{◌≡◌};
ghost use Rattle.clap.specs.Words.{kind_of};
ghost use Rattle.unl_words.specs.Refusals.{refusal_of, refusal_by};
ghost use Rattle.unl_words.specs.declared.refusal.WordsRefusal.TheVariants.{Memory};

use clap::Error;
use clap::error::ErrorKind;
use std::alloc::AllocError;
use thiserror::Error;
use unl_context::BadContext;
use unl_documents as documents;

/// Why the arguments of a command line are refused.
#[derive(Clone, Copy, Debug, PartialEq, Eq, Error)]
pub enum WordsRefusal {
    /// There are no arguments, the first names no command, clap rejects the arguments after it, or a value is outside
    /// its range.
    #[error("the arguments are not accepted")]
    Bad,
    /// Out of memory.
    #[error("out of memory")]
    Memory,
}

impl From<AllocError> for WordsRefusal {
    ghost from_gives = { λ _ refusal. refusal ≡ Memory };

    fn from(_: AllocError) -> WordsRefusal {
        WordsRefusal::Memory
    }
}

impl From<documents::Memory> for WordsRefusal {
    ghost from_gives = { λ _ refusal. refusal ≡ Memory };

    fn from(_: documents::Memory) -> WordsRefusal {
        WordsRefusal::Memory
    }
}

impl From<BadContext> for WordsRefusal {
    ghost from_gives = { λ fault refusal. refusal ≡ refusal_by fault };

    fn from(fault: BadContext) -> WordsRefusal {
        match fault {
            BadContext::Memory => WordsRefusal::Memory,
            _ => WordsRefusal::Bad,
        }
    }
}

impl From<Error> for WordsRefusal {
    ghost from_gives = { λ error refusal. refusal ≡ refusal_of (kind_of error) };

    fn from(error: Error) -> WordsRefusal {
        if error.kind() == ErrorKind::OutOfMemory {
            WordsRefusal::Memory
        } else {
            WordsRefusal::Bad
        }
    }
}
