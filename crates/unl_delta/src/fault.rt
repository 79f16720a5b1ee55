//! `BadBatch`: the error of reading a batch from JSON.
ghost use Rattle.std.specs.Prelude.{◌≡◌};
ghost use Rattle.unl_delta.specs.declared.fault.BadBatch.TheVariants.{Memory as memory};

use thiserror::Error;
use unl_documents::Memory;

/// Why a batch couldn't be read: the first fault found, or out of memory.
#[derive(Clone, Copy, Debug, PartialEq, Eq, Error)]
pub enum BadBatch {
    /// The bytes are not JSON or are more than 16,777,216; or `events` is missing or not a list; or `epoch` or `after`
    /// is present but not a whole number from 0 to 2^64 - 1. A key whose value is null counts as missing.
    #[error("the batch is not JSON, is too long, or has no valid epoch, number or list of events")]
    NotJson,
    /// An event can't be read. The field of this variant is the index of the event in the list, counted from 0.
    #[error("event {0} is not accepted")]
    BadEvent(u64),
    /// A hydration comes after another event. The field is the index of the hydration.
    #[error("event {0} is a hydration, but not the first event")]
    HydrationNotFirst(u64),
    /// An event's number is less than that of the event before it. Equal numbers are allowed. The field is the index of
    /// the event.
    #[error("the number of event {0} is below the one before")]
    NotRising(u64),
    /// Out of memory.
    #[error("out of memory")]
    Memory,
}

impl From<Memory> for BadBatch {
    ghost from_gives = { λ _ e. e ≡ memory };

    fn from(_e: Memory) -> BadBatch {
        BadBatch::Memory
    }
}
