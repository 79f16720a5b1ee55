//! The reasons for which a line of a replay is refused (apart from the limits on the length and the number of lines),
//! and their text.
ghost use Rattle.std.specs.Prelude.{◌≡◌, IfOk, string_bytes};
ghost use Rattle.unl_replay.specs.Refusals.{batch_text, book_text, numbered, refusal_text};

use std::alloc::{AllocError, Global};
use thiserror::Error;
use unl_delta::BadBatch;
use unl_documents::{BadDocument, Memory, fault_text};
use unl_tokens::BadBook;

/// Why a line is refused. `Memory` is an error of the replay and not of the line.
#[derive(Debug, Drop, Error)]
pub enum Refusal {
    /// The first fault of a document in the line, or of the line itself.
    #[error("a document is not accepted")]
    Document(BadDocument),
    /// The tokens can't be read.
    #[error("the tokens are not accepted")]
    Book(BadBook),
    /// The batch can't be read.
    #[error("the batch is not accepted")]
    Batch(BadBatch),
    /// The feed has no number.
    #[error("the feed has no number")]
    NoNumber,
    /// The environment is new, and there are eight already.
    #[error("there are too many environments")]
    TooManyEnvironments,
    /// Out of memory. This ends the replay but does not refuse the line.
    #[error("out of memory")]
    Memory,
}

impl From<Memory> for Refusal {
    ghost use Rattle.std.specs.Prelude.{◌≡◌};
    ghost use Rattle.unl_replay.specs.declared.refusal.Refusal.TheVariants.{Memory as memory};

    ghost from_gives = { λ _ e. e ≡ memory };

    fn from(_: Memory) -> Self {
        Refusal::Memory
    }
}

impl From<AllocError> for Refusal {
    ghost use Rattle.std.specs.Prelude.{◌≡◌};
    ghost use Rattle.unl_replay.specs.declared.refusal.Refusal.TheVariants.{Memory as memory};

    ghost from_gives = { λ _ e. e ≡ memory };

    fn from(_: AllocError) -> Self {
        Refusal::Memory
    }
}

impl From<BadDocument> for Refusal {
    ghost use Rattle.std.specs.Prelude.{◌≡◌};
    ghost use Rattle.unl_replay.specs.Refusals.{refusal_for};

    ghost from_gives = { λ fault refusal. refusal ≡ refusal_for fault };

    fn from(fault: BadDocument) -> Self {
        match fault {
            BadDocument::Memory => Refusal::Memory,
            fault => Refusal::Document(fault),
        }
    }
}

impl From<BadBook> for Refusal {
    ghost use Rattle.std.specs.Prelude.{◌≡◌};
    ghost use Rattle.unl_replay.specs.Refusals.{refusal_for_book};

    ghost from_gives = { λ fault refusal. refusal ≡ refusal_for_book fault };

    fn from(fault: BadBook) -> Self {
        match fault {
            BadBook::Memory => Refusal::Memory,
            fault => Refusal::Book(fault),
        }
    }
}

impl From<BadBatch> for Refusal {
    ghost use Rattle.std.specs.Prelude.{◌≡◌};
    ghost use Rattle.unl_replay.specs.Refusals.{refusal_for_batch};

    ghost from_gives = { λ fault refusal. refusal ≡ refusal_for_batch fault };

    fn from(fault: BadBatch) -> Self {
        match fault {
            BadBatch::Memory => Refusal::Memory,
            fault => Refusal::Batch(fault),
        }
    }
}

impl Refusal {
    /// Returns the text that is printed for the refusal. It is empty for `Memory`. The only error is out of memory.
    pub fn text(&self, alloc: Global) -> Result<String, Memory>
        ensures { IfOk result (λ s. string_bytes s ≡ refusal_text self.now) }
    {
        match self {
            Refusal::Document(fault) => fault_text(alloc, fault),
            Refusal::Book(fault) => book_text(alloc, fault),
            Refusal::Batch(fault) => batch_text(alloc, fault),
            Refusal::NoNumber => Ok(String::from_str(alloc, "NoNumber")?),
            Refusal::TooManyEnvironments => Ok(String::from_str(alloc, "TooManyEnvironments")?),
            Refusal::Memory => Ok(String::new(alloc)),
        }
    }
}

/// Returns the text of a fault of a token book: `BadBook`, the number of the fault's kind, and, unless the fault is
/// `NotJson`, the position of the bad entry or the count of tokens. The text is empty for `Memory`. The only error is
/// out of memory.
fn book_text(alloc: Global, fault: &BadBook) -> Result<String, Memory>
    ensures { IfOk result (λ s. string_bytes s ≡ book_text fault.now) }
{
    match fault {
        BadBook::NotJson => Ok(String::from_str(alloc, "BadBook 1")?),
        BadBook::BadEntry(place) => Ok(numbered(alloc, "BadBook 2", *place)?),
        BadBook::TooMany(count) => Ok(numbered(alloc, "BadBook 3", *count)?),
        BadBook::Memory => Ok(String::new(alloc)),
    }
}

/// Returns the text of a fault of a batch: `BadBatch`, the number of the fault's kind, and, unless the fault is
/// `NotJson`, the position of the bad event. The text is empty for `Memory`. The only error is out of memory.
fn batch_text(alloc: Global, fault: &BadBatch) -> Result<String, Memory>
    ensures { IfOk result (λ s. string_bytes s ≡ batch_text fault.now) }
{
    match fault {
        BadBatch::NotJson => Ok(String::from_str(alloc, "BadBatch 1")?),
        BadBatch::BadEvent(place) => Ok(numbered(alloc, "BadBatch 2", *place)?),
        BadBatch::HydrationNotFirst(place) => Ok(numbered(alloc, "BadBatch 3", *place)?),
        BadBatch::NotRising(place) => Ok(numbered(alloc, "BadBatch 4", *place)?),
        BadBatch::Memory => Ok(String::new(alloc)),
    }
}

/// Returns the word and the number, separated by a space.
fn numbered(alloc: Global, word: &str, number: u64) -> Result<String, AllocError>
    ensures { IfOk result (λ s. string_bytes s ≡ numbered word.now number) }
{
    format!(in alloc; "{word} {number}")
}
