//! The errors of evaluating a feature with a replica, and of a run of `follow`, which polls a server and prints a line
//! after each request.
ghost use Rattle.std.specs.Prelude.{◌≡◌};
ghost use Rattle.unl_follow.specs.declared.fault.FollowFault.TheVariants.{Memory as out_of_memory, WriteFault as write_fault};
ghost use Rattle.unl_follow.specs.declared.fault.ReplicaRefusal.TheVariants.{Memory as no_memory};

use std::alloc::AllocError;
use thiserror::Error;
use unl_base::Failed;
use unl_documents as documents;

/// Why a replica can't evaluate a feature.
#[derive(Clone, Copy, Debug, PartialEq, Eq, Error)]
pub enum ReplicaRefusal {
    /// The replica has not received a version of the environment yet.
    #[error("no version yet")]
    NotReady,
    /// Memory ran out.
    #[error("out of memory")]
    Memory,
}

impl From<documents::Memory> for ReplicaRefusal {
    ghost from_gives = { λ _ refusal. refusal ≡ no_memory };

    fn from(_: documents::Memory) -> ReplicaRefusal {
        ReplicaRefusal::Memory
    }
}

/// Why a run of `follow` ended before all lines of its turns were written.
#[derive(Clone, Copy, Debug, PartialEq, Eq, Error)]
pub enum FollowFault {
    /// The sink failed, and its fault count rose.
    #[error("the output failed")]
    WriteFault,
    /// Memory ran out.
    #[error("out of memory")]
    Memory,
}

impl From<Failed> for FollowFault {
    ghost from_gives = { λ _ fault. fault ≡ write_fault };

    fn from(_: Failed) -> FollowFault {
        FollowFault::WriteFault
    }
}

impl From<documents::Memory> for FollowFault {
    ghost from_gives = { λ _ fault. fault ≡ out_of_memory };

    fn from(_: documents::Memory) -> FollowFault {
        FollowFault::Memory
    }
}

impl From<AllocError> for FollowFault {
    ghost from_gives = { λ _ fault. fault ≡ out_of_memory };

    fn from(_: AllocError) -> FollowFault {
        FollowFault::Memory
    }
}
