//! The outcomes and faults of refreshing a slot (the part of the board for one environment) or the token book, and of
//! sending metrics.
ghost use Rattle.std.specs.Prelude.{◌≡◌};
ghost use Rattle.unl_refresh.specs.declared.outcome.RefreshFault.TheVariants.{PeerFault as peer_fault, Memory as out_of_memory};

use thiserror::Error;
use unl_base::Failed;
use unl_delta::BadBatch;
use unl_documents::{BadDocument, Memory as NoMemory};
use unl_http_api::BadReply;
use unl_tokens::BadBook;

/// The outcome of refreshing a slot or the token book.
#[derive(Debug, Drop, PartialEq)]
pub enum Outcome {
    /// The batch or the token book in the reply was published. Carries the new front: the number of publications so
    /// far, including this one.
    Published(u64),
    /// The server has nothing new for the slot: status 304.
    Unchanged,
    /// The batch is empty, or the slot isn't held and already has all events of the batch; or the board already has the
    /// same token book.
    Repeat,
    /// The batch is older than the slot's version: its epoch is lower; or it has the same epoch and begins with a
    /// hydration (an event with the whole state), and the number of its last event is lower.
    Old,
    /// The batch begins with a change and doesn't continue the slot's version, so events may be missing. The slot is
    /// now held: it ignores changes until a hydration applies.
    Gap,
    /// The batch begins with a change, but the slot has been held since an earlier gap: it ignores changes until a
    /// hydration applies.
    Held,
    /// The server answered with a status other than 200 (and, for a batch or feed, other than 304).
    Refused(u16),
    /// The reply can't be parsed. Carries the reason.
    BadAnswer(Bad),
}

/// Why a reply can't be parsed. The inner fault is never `Memory`: if memory runs out, the call returns an error.
#[derive(Debug, Drop, PartialEq, Error)]
pub enum Bad {
    /// The bytes are not a valid HTTP reply.
    #[error("the bytes are not a reply")]
    Reply(BadReply),
    /// The body is not a feed.
    #[error("the body is not a feed")]
    Feed(BadDocument),
    /// The body is a feed without a revision number.
    #[error("the feed has no number")]
    NoNumber,
    /// The body is not a batch.
    #[error("the body is not a batch")]
    Batch(BadBatch),
    /// The body is not a token book.
    #[error("the body is not a book of tokens")]
    Book(BadBook),
}

/// The outcome of sending metrics.
#[derive(Clone, Copy, Debug, PartialEq, Eq)]
pub enum MetricsOutcome {
    /// There was nothing to send, and the peer wasn't contacted.
    Nothing,
    /// The server accepted a report of this many keys, and these are now dropped from the metrics book. A key is a
    /// feature in an application during an hour, in an environment.
    Sent(usize),
    /// The server answered with a status other than 200 and 202. Nothing is dropped.
    Refused(u16),
    /// The bytes are not a valid HTTP reply. Nothing is dropped. The inner fault is never `Memory`.
    BadAnswer(BadReply),
}

/// Why a refresh failed, or why metrics could not be sent.
#[derive(Clone, Copy, Debug, PartialEq, Eq, Error)]
pub enum RefreshFault {
    /// Connecting to the peer (the server), writing to it or reading from it failed. In contracts, the peer's fault
    /// count rose.
    #[error("the peer failed")]
    PeerFault,
    /// Memory ran out.
    #[error("out of memory")]
    Memory,
}

impl From<Failed> for RefreshFault {
    ghost from_gives = { λ _ e. e ≡ peer_fault };

    fn from(_e: Failed) -> RefreshFault {
        RefreshFault::PeerFault
    }
}

impl From<NoMemory> for RefreshFault {
    ghost from_gives = { λ _ e. e ≡ out_of_memory };

    fn from(_e: NoMemory) -> RefreshFault {
        RefreshFault::Memory
    }
}
