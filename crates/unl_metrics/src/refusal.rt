//! Why a metrics book refuses counts.
ghost use Rattle.std.specs.Prelude.{◌≡◌};
ghost use Rattle.unl_metrics.specs.declared.refusal.AddRefusal.TheVariants.{Memory as memory};

use std::alloc::{AllocError, AllocFailed};
use thiserror::Error;
use unl_documents::Memory;

/// Why nothing was added to a book.
#[derive(Clone, Copy, Debug, PartialEq, Eq, Error)]
pub enum AddRefusal {
    /// With the new counts, the book would have more than 10,000 keys, or more than 100 variants at one key. A key is
    /// an environment, an app, a feature and an hour.
    #[error("the book is full")]
    Full,
    /// Out of memory.
    #[error("out of memory")]
    Memory,
}

impl From<Memory> for AddRefusal {
    ghost from_gives = { λ _ e. e ≡ memory };

    fn from(_e: Memory) -> AddRefusal {
        AddRefusal::Memory
    }
}
