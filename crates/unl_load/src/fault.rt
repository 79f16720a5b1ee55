//! The errors of the command `load`.
ghost use Rattle.std.specs.Prelude.{◌≡◌};
ghost use Rattle.unl_load.specs.declared.fault.LoadFault.TheVariants.{Memory as out_of_memory, WriteFault as write_fault};

use std::alloc::AllocError;
use thiserror::Error;
use unl_base::Failed;
use unl_documents as documents;

/// Why the command `load` ended before its line of counts was written in full.
#[derive(Clone, Copy, Debug, PartialEq, Eq, Error)]
pub enum LoadFault {
    /// The sink failed. A prefix of the line was written.
    #[error("the output failed")]
    WriteFault,
    /// Memory ran out. Nothing was written.
    #[error("out of memory")]
    Memory,
}

impl From<Failed> for LoadFault {
    ghost from_gives = { λ _ fault. fault ≡ write_fault };

    fn from(_: Failed) -> LoadFault {
        LoadFault::WriteFault
    }
}

impl From<documents::Memory> for LoadFault {
    ghost from_gives = { λ _ fault. fault ≡ out_of_memory };

    fn from(_: documents::Memory) -> LoadFault {
        LoadFault::Memory
    }
}

impl From<AllocError> for LoadFault {
    ghost from_gives = { λ _ fault. fault ≡ out_of_memory };

    fn from(_: AllocError) -> LoadFault {
        LoadFault::Memory
    }
}
