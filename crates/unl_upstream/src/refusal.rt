//! The errors of commands: why a command is refused, or why it is not kept (stored with a keeper, then published).
ghost use Rattle.std.specs.Prelude.{◌≡◌};
ghost use Rattle.unl_upstream.specs.declared.refusal.CommandRefusal.TheVariants.{Memory as memory};
ghost use Rattle.unl_upstream.specs.declared.refusal.KeepCommandRefusal.TheVariants.{Memory as out_of_memory};
ghost use Rattle.unl_upstream.specs.Upstream.{refused_as};

use std::alloc::AllocError;
use thiserror::Error;
use unl_documents::Memory;

/// Why a command is refused: the first of these variants that applies, in this order, or `Memory`.
#[derive(Clone, Copy, Debug, Error)]
pub enum CommandRefusal {
    /// The upstream has no environment of this name.
    #[error("there is no such environment")]
    NoSuchEnvironment,
    /// The feature to remove does not exist.
    #[error("there is no such feature")]
    NoSuchFeature,
    /// The segment to remove does not exist.
    #[error("there is no such segment")]
    NoSuchSegment,
    /// The name or id is new and the environment is full, at 10,000 features or 1,000 segments: carries that count. Or
    /// the environment's version number is the last one, 2^64 - 1: carries that number. This project chose the limits.
    #[error("there are {0} already")]
    TooMany(u64),
    /// Out of memory.
    #[error("out of memory")]
    Memory,
}

impl From<Memory> for CommandRefusal {
    ghost from_gives = { λ _ e. e ≡ memory };

    fn from(_e: Memory) -> CommandRefusal {
        CommandRefusal::Memory
    }
}

impl From<AllocError> for CommandRefusal {
    ghost from_gives = { λ _ e. e ≡ memory };

    fn from(_e: AllocError) -> CommandRefusal {
        CommandRefusal::Memory
    }
}

/// Why a command is not kept: the first refusal that applies, in the order of `NoSuchEnvironment` to `KeeperFull`, or a
/// failure of the keeper, or `Memory`.
#[derive(Clone, Copy, Debug, Error)]
pub enum KeepCommandRefusal {
    /// The upstream has no environment of this name.
    #[error("there is no such environment")]
    NoSuchEnvironment,
    /// The feature to remove does not exist.
    #[error("there is no such feature")]
    NoSuchFeature,
    /// The segment to remove does not exist.
    #[error("there is no such segment")]
    NoSuchSegment,
    /// The name or id is new and the environment is full: carries the count of its features or segments. Or the
    /// environment's version number is the last one, 2^64 - 1: carries that number.
    #[error("there are {0} already")]
    TooMany(u64),
    /// The keeper keeps 10,000,000 commands (a limit chosen by this project) or more: carries their count.
    #[error("{0} commands are kept already")]
    KeeperFull(u64),
    /// The keeper failed, and incremented its fault count.
    #[error("the keeper failed")]
    KeeperFault,
    /// Out of memory.
    #[error("out of memory")]
    Memory,
}

impl From<CommandRefusal> for KeepCommandRefusal {
    ghost from_gives = { λ refusal e. e ≡ refused_as refusal };

    fn from(refusal: CommandRefusal) -> KeepCommandRefusal {
        match refusal {
            CommandRefusal::NoSuchEnvironment => KeepCommandRefusal::NoSuchEnvironment,
            CommandRefusal::NoSuchFeature => KeepCommandRefusal::NoSuchFeature,
            CommandRefusal::NoSuchSegment => KeepCommandRefusal::NoSuchSegment,
            CommandRefusal::TooMany(count) => KeepCommandRefusal::TooMany(count),
            CommandRefusal::Memory => KeepCommandRefusal::Memory,
        }
    }
}

impl From<Memory> for KeepCommandRefusal {
    ghost from_gives = { λ _ e. e ≡ out_of_memory };

    fn from(_e: Memory) -> KeepCommandRefusal {
        KeepCommandRefusal::Memory
    }
}
