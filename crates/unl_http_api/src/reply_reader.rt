//! Reads a reply that arrives in pieces.
ghost use Rattle.std.specs.Prelude.{◌≡◌, ◌++◌, [], length, Result, IfOk, OnOk, OnErr, IsTrue};
ghost use Rattle.unl_documents.specs.Results.{Answers, Gives};
ghost use Rattle.unl_http_api.specs.declared.got.Got.{Got};
ghost use Rattle.unl_http_api.specs.declared.got.BadReply.{BadReply};
ghost use Rattle.unl_http_api.specs.Received.{IsReply};
ghost use Rattle.unl_http_api.specs.RequestText.{fits_if_any};

use crate::got::{BadReply, Got};
use crate::reply_head::{MOST_FIELDS, read_reply};
use httparse::spans::EMPTY_HEADER_SPAN;
use std::alloc::Global;
use std::marker::Model;
use unl_documents::Memory;

/// The bytes of a reply received so far.
#[derive(Drop)]
pub struct ReplyReader {
    bytes: Vec<u8>,
}

impl Model for ReplyReader {
    ghost use Rattle.std.specs.Prelude.{List, ℕ};

    ghost Value = { List ℕ };

    ghost view = { λ reader. reader.bytes.items };
}

impl ReplyReader {
    /// Creates an empty reader. Allocates nothing.
    pub fn new(alloc: Global) -> Self
        ensures { result ≡ [] }
    {
        ReplyReader {
            bytes: Vec::new(alloc),
        }
    }

    /// The number of bytes held. From 16,785,409 on, further bytes don't change how the reply is read. Allocates
    /// nothing.
    pub fn held(&self) -> usize
        ensures { result ≡ length self.now }
    {
        self.bytes.len()
    }

    /// Appends the next piece of the reply. If memory runs out, the held bytes are unchanged.
    ///
    /// # Errors
    /// `Memory`: out of memory.
    pub fn feed(&mut self, piece: &[u8]) -> Result<(), Memory>
        ensures ok { OnOk result (self.new ≡ self.old ++ piece.now) }
        ensures err { OnErr result (self.new ≡ self.old) }
    {
        self.bytes.extend_from_slice(piece)?;
        Ok(())
    }

    /// Parses the held bytes as a reply after which nothing more comes.
    ///
    /// # Errors
    /// The fault of the bytes, see [`BadReply`], or `BadReply::Memory`: out of memory.
    pub fn finish(self, alloc: Global) -> Result<Got, BadReply>
        ensures read { Answers BadReply.Memory (IsReply self) result }

        // The result depends on the bytes alone, not on the pieces in which they arrived.
        ensures only { (reading : Result Got BadReply) → IsReply self reading → Gives BadReply.Memory result reading }

        // The tag fits in a header line, as `write_request` requires of the tag that the next request carries.
        ensures tag { IfOk result (λ got. IsTrue (fits_if_any got.tag)) }
    {
        let mut spans = [EMPTY_HEADER_SPAN; MOST_FIELDS];
        read_reply(alloc, &self.bytes, &mut spans)
    }
}
