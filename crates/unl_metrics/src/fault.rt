//! Why a report can't be read.
ghost use Rattle.std.specs.Prelude.{◌≡◌};
ghost use Rattle.unl_metrics.specs.Reports.{report_fault};
ghost use Rattle.unl_metrics.specs.declared.fault.BadReport.TheVariants.{Memory as memory};

use thiserror::Error;
use unl_documents::{BadDocument, Field, Memory};

/// Why bytes are not a report: the first fault, or out of memory.
#[derive(Clone, Copy, Debug, PartialEq, Eq, Error)]
pub enum BadReport {
    /// Not JSON, or not an object.
    #[error("the report is not JSON")]
    NotJson,
    /// A required key is absent or null, or a name is empty. The name is the value at the key or, at `toggles` or
    /// `variants`, the key of a member of the object there.
    #[error("a required key is missing")]
    Missing(Field),
    /// The value at the key is of the wrong kind. Includes a count that is not a whole number from 0 to 2^64 - 1, and a
    /// text that is not an instant from 1970 to 9999-12-30T22:00:00.999999999Z, the latest that `jiff` reads.
    #[error("a value is of the wrong kind")]
    WrongKind(Field),
    /// A length or a number of items at the key is above its limit: 255 bytes of a name, 100 variants, 10,000 toggles
    /// or metrics. Carries that length or number.
    #[error("a length or a number is too large: {1}")]
    TooLarge(Field, u64),
    /// Out of memory.
    #[error("out of memory")]
    Memory,
}

impl From<Memory> for BadReport {
    ghost from_gives = { λ _ e. e ≡ memory };

    fn from(_e: Memory) -> BadReport {
        BadReport::Memory
    }
}

impl From<BadDocument> for BadReport {
    ghost from_gives = { λ document e. e ≡ report_fault document };

    fn from(document: BadDocument) -> BadReport {
        match document {
            BadDocument::NotJson => BadReport::NotJson,
            BadDocument::Missing(key) => BadReport::Missing(key),
            BadDocument::WrongKind(key) => BadReport::WrongKind(key),
            BadDocument::TooLarge(key, count) => BadReport::TooLarge(key, count),
            BadDocument::DuplicateName(key, _) => BadReport::WrongKind(key),
            BadDocument::NotWhole(key) => BadReport::WrongKind(key),
            BadDocument::Memory => BadReport::Memory,
        }
    }
}
