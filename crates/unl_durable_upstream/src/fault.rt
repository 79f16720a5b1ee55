//! The errors that end the program, and their exit codes.
ghost use Rattle.std.specs.Prelude.{◌≡◌};
ghost use Rattle.unl_durable_upstream.specs.Faults.{IsOfDatabase, fault_of};
ghost use Rattle.unl_durable_upstream.specs.Serving.{code_of};
ghost use Rattle.unl_durable_upstream.specs.declared.fault.ProgramFault.TheVariants.{Memory as out_of_memory};

use sqlite::ErrorCode;
use std::alloc::AllocError;
use thiserror::Error;

/// Why the program failed.
#[derive(Debug, Drop, Error)]
pub enum ProgramFault {
    /// The arguments can't be read or aren't UTF-8, there is no path, or the arguments after the path are not valid
    /// options of `upstream`.
    #[error("unl_durable_upstream: bad words")]
    BadArguments,
    /// The database could not be opened or closed.
    #[error("unl_durable_upstream: {0}")]
    File(sqlite::Error),
    /// The row with this number, counted from 1, is missing, holds no command, or holds a command that is refused.
    #[error("refused: row {0}")]
    Row(u64),
    /// The keeper failed while the upstream was reopened, and incremented its fault count.
    #[error("unl_durable_upstream: the keeper failed")]
    Keeper,
    /// The door could not listen on the port or hand out a link, and incremented its fault count.
    #[error("unl_durable_upstream: the door failed")]
    Door,
    /// Out of memory.
    #[error("unl_durable_upstream: out of memory")]
    Memory,
}

impl ProgramFault {
    /// Returns the exit code of the program for this error: 2, 3, 6, 7 or 8. No standard prescribes these numbers.
    pub fn code(&self) -> u8
        ensures { result ≡ code_of self.now }
    {
        match self {
            ProgramFault::BadArguments => 2,
            ProgramFault::Row(_) => 3,
            ProgramFault::Memory => 6,
            ProgramFault::Door => 7,
            ProgramFault::File(_) => 8,
            ProgramFault::Keeper => 8,
        }
    }
}

impl From<sqlite::Error> for ProgramFault {
    ghost from_gives = { λ error fault. (fault ≡ fault_of error) × IsOfDatabase fault };

    fn from(error: sqlite::Error) -> ProgramFault {
        match error {
            sqlite::Error::SqliteFailure(ErrorCode::OutOfMemory) => ProgramFault::Memory,
            other => ProgramFault::File(other),
        }
    }
}

impl From<AllocError> for ProgramFault {
    ghost from_gives = { λ _ fault. fault ≡ out_of_memory };

    fn from(_: AllocError) -> ProgramFault {
        ProgramFault::Memory
    }
}
