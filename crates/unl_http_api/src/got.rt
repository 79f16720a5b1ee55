//! Replies that the client side of this crate receives from a server.
ghost use Rattle.std.specs.Prelude.{◌≡◌};
ghost use Rattle.unl_http_api.specs.declared.got.BadReply.TheVariants.{Memory as memory};

use crate::request::Bytes;
use thiserror::Error;
use unl_documents::Memory as NoMemory;

/// A parsed reply.
#[derive(Debug, Drop)]
pub struct Got {
    /// The three-digit status code of the status line.
    pub status: u16,
    /// The value of the first `ETag` field, verbatim. `None` if there is no such field.
    pub tag: Option<Bytes>,
    /// The body: as many bytes as `Content-Length` states or, without that field, all bytes after the head. At most
    /// 16,777,216 bytes. Empty for a 304.
    pub body: Bytes,
}

/// Why bytes were not parsed as a reply. The head is checked first, then the length of the body against its limit, then
/// whether the body is complete. The body of a 304 isn't checked. The limits are chosen by this project.
#[derive(Clone, Copy, Debug, PartialEq, Eq, Error)]
pub enum BadReply {
    /// No head of at most 64 fields ends within the first 8,192 bytes; or the head has a `Transfer-Encoding` field,
    /// more than one `Content-Length`, or a `Content-Length` that isn't 1 to 19 digits.
    #[error("the head is no head of a reply")]
    Head,
    /// Fewer bytes follow the head than `Content-Length` states.
    #[error("the reply ends before its body does")]
    Short,
    /// `Content-Length` states more than 16,777,216 bytes; or it is absent, and more bytes than that follow the head.
    #[error("the reply is too large")]
    TooLarge,
    /// Out of memory.
    #[error("out of memory")]
    Memory,
}

impl From<NoMemory> for BadReply {
    ghost from_gives = { λ _ e. e ≡ memory };

    fn from(_e: NoMemory) -> BadReply {
        BadReply::Memory
    }
}
