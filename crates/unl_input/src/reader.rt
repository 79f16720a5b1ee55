//! Reads lines and single bytes from a source through a buffer.
ghost use Rattle.std.specs.Prelude.{◌≡◌, ◌<◌, ◌≤◌, [], ◌∷◌, ℕ, length, take, drop, IfOk, IfErr, OnErr, IsErrOf, MatchOption};
ghost use Rattle.std.specs.List.{position_or_len};
ghost use Rattle.unl_base.specs.Faults.{HasCause, Rose};
ghost use Rattle.unl_base.specs.Streams.{Takes, HasEnded};
ghost use Rattle.unl_input.specs.Lines.{is_end};
ghost use Rattle.unl_input.specs.Reading.{Gets, IsAtEnd, Fills, ConsumesPiece, TakesNext, StopsAtFault, longest_line};

use memchr::memchr;
use std::alloc::{AllocError, AllocFailed, Global};
use std::marker::Model;
use thiserror::Error;
use unl_base::{Failed, Source};

/// The size of the read buffer in bytes.
const ROOM: usize = 65_536;

/// The most bytes that a line may have, without its line feed.
const LONGEST_LINE: usize = 16_777_216;

/// The next item of the input.
#[derive(Debug, Drop)]
pub enum NextLine {
    /// A line, without its line feed.
    Line(Vec<u8>),
    /// The last line. It is not empty and has no line feed.
    Last(Vec<u8>),
    /// No bytes are left: the buffer is empty, and the source has ended.
    End,
}

/// Why no line could be read.
#[derive(Clone, Copy, Debug, PartialEq, Eq, Error)]
pub enum ReadFault {
    /// The source failed.
    #[error("the input failed")]
    Failed,
    /// The line has more than 16,777,216 bytes, not counting its line feed.
    #[error("the line is too long")]
    TooLong,
    /// Out of memory.
    #[error("out of memory")]
    Memory,
}

impl From<AllocError> for ReadFault {
    ghost use Rattle.std.specs.Prelude.{◌≡◌};
    ghost use Rattle.unl_input.specs.declared.reader.ReadFault.TheVariants.{Memory};

    ghost from_gives = { λ _ e. e ≡ Memory };

    fn from(_: AllocError) -> Self {
        ReadFault::Memory
    }
}

impl<T: Drop> From<AllocFailed<T>> for ReadFault {
    ghost use Rattle.std.specs.Prelude.{◌≡◌};
    ghost use Rattle.unl_input.specs.declared.reader.ReadFault.TheVariants.{Memory};

    ghost from_gives = { λ _ e. e ≡ Memory };

    fn from(_: AllocFailed<T>) -> Self {
        ReadFault::Memory
    }
}

impl From<Failed> for ReadFault {
    ghost use Rattle.std.specs.Prelude.{◌≡◌};
    ghost use Rattle.unl_input.specs.declared.reader.ReadFault.TheVariants.{Failed};

    ghost from_gives = { λ _ e. e ≡ Failed };

    fn from(_: Failed) -> Self {
        ReadFault::Failed
    }
}

/// Returns the number of bytes before the first line feed, or of all bytes if there is none.
fn unbroken_len(bytes: &[u8]) -> usize
    ensures { result ≡ position_or_len is_end bytes.now }
{
    match memchr(b'\n', bytes) {
        Some(len) => len,
        None => bytes.len(),
    }
}

/// A read buffer. In contracts it is the list of the bytes that it holds: those that were read but not yet consumed.
#[derive(Drop)]
pub struct LineReader {
    room: Vec<u8>,
    from: usize,
    to: usize,
}

impl Model for LineReader {
    ghost use Rattle.std.specs.Prelude.{List, ℕ, ◌-◌, ◌<◌, ◌≤◌, length, take, drop};

    ghost Value = { List ℕ };

    ghost view = { λ r. drop r.from (take r.to r.room.items) };

    ghost invariant = { λ r. (r.from ≤ r.to) × (r.to ≤ length r.room.items) × (0 < length r.room.items) };
}

impl LineReader {
    /// Creates an empty reader.
    ///
    /// # Errors
    /// Out of memory.
    pub fn new(alloc: Global) -> Result<LineReader, AllocError>
        ensures { IfOk result (λ r. r ≡ []) }
    {
        Ok(LineReader {
            room: vec![in alloc; 0u8; ROOM]?,
            from: 0,
            to: 0,
        })
    }

    /// Removes the first byte from the buffer and returns it.
    fn take_held(&mut self) -> u8
        requires { 0 < length self.old }
        ensures { self.old ≡ result ∷ self.new }
    {
        let byte = self.room[self.from];
        self.from += 1;
        byte
    }

    /// Reads into the empty buffer and returns the number of bytes that were read. 0 means that the source has ended.
    fn read_ahead<S: Source>(&mut self, source: &mut S) -> Result<usize, Failed>
        requires { self.old ≡ [] }
        ensures read { IfOk result (λ n. Takes (S.left source.old) self.new (S.left source.new)) }
        ensures count { IfOk result (λ n. n ≡ length self.new) }
        ensures end { IfOk result (λ n. n ≡ 0 → HasEnded (S.left source.old)) }
        ensures kept { OnErr result (S.left source.new ≡ S.left source.old) }
        ensures empty { OnErr result (self.new ≡ []) }
        ensures cause { HasCause (S.faults source.old) (S.faults source.new) result }
    {
        self.from = 0;
        self.to = 0;
        self.to = source.read(&mut self.room)?;
        Ok(self.to)
    }

    /// Reads into the buffer if it is empty, and returns whether it then holds bytes.
    fn fill<S: Source>(&mut self, source: &mut S) -> Result<bool, Failed>
        ensures fills { IfOk result (λ some. Fills some self.old (S.left source.old) self.new (S.left source.new)) }
        ensures broken { OnErr result (Gets self.old (S.left source.old) [] self.new (S.left source.new) × (self.new ≡ [])) }
        ensures cause { HasCause (S.faults source.old) (S.faults source.new) result }
    {
        if self.from < self.to {
            return Ok(true);
        }
        if self.read_ahead(source)? == 0 {
            return Ok(false);
        }
        Ok(true)
    }

    /// Returns the first bytes of the buffer, at most `most`.
    fn prefix(&self, most: usize) -> &[u8]
        ensures { result.now ≡ take most self.now }
    {
        let held = &self.room[self.from..self.to];
        &held[..held.len().min(most)]
    }

    /// Removes the first `count` bytes from the buffer.
    fn skip(&mut self, count: usize)
        requires { count ≤ length self.old }
        ensures { self.new ≡ drop count self.old }
    {
        self.from += count;
    }

    /// Moves the next bytes of a line from the buffer to the end of `line`, which has the line's earlier bytes. Returns
    /// true if the line feed was reached: it is removed from the buffer too, and `line` is the whole line. Returns
    /// false otherwise: then the buffer is empty, or `line` has one byte more than a line may have, which shows that
    /// the line is too long. If memory runs out, the buffer is unchanged.
    fn take_piece(&mut self, line: &mut Vec<u8>) -> Result<bool, AllocError>
        requires held { 0 < length self.old }
        requires short { length line.old.items ≤ longest_line }
        ensures piece { IfOk result (λ ended. ConsumesPiece ended line.old.items self.old line.new.items self.new) }
        ensures unchanged { OnErr result (self.new ≡ self.old) }
    {
        let prefix = self.prefix(LONGEST_LINE + 1 - line.len());
        let len = unbroken_len(prefix);
        line.extend_from_slice(&prefix[..len])?;
        if len < prefix.len() {
            self.skip(len + 1);
            return Ok(true);
        }
        self.skip(len);
        Ok(false)
    }

    /// Returns the next byte, or `None` if no bytes are left in the buffer and the source.
    ///
    /// # Errors
    /// `Failed`: the source failed.
    pub fn next_byte<S: Source>(&mut self, source: &mut S) -> Result<Option<u8>, Failed>
        ensures byte { IfOk result (λ o. MatchOption o
            (Gets self.old (S.left source.old) [] self.new (S.left source.new) × IsAtEnd self.new (S.left source.new))
            (λ b. Gets self.old (S.left source.old) (b ∷ []) self.new (S.left source.new))) }
        ensures broken { OnErr result (Gets self.old (S.left source.old) [] self.new (S.left source.new) × (self.new ≡ [])) }
        ensures cause { HasCause (S.faults source.old) (S.faults source.new) result }
    {
        if self.fill(source)? {
            return Ok(Some(self.take_held()));
        }
        Ok(None)
    }

    /// Reads the next line. Returns `Last` for a last line without a line feed, and `End` if no bytes are left.
    ///
    /// # Errors
    /// - `Failed`: the source failed.
    /// - `TooLong`: the line has more than 16,777,216 bytes, not counting its line feed.
    /// - `Memory`: out of memory.
    pub fn next_line<S: Source>(
        &mut self,
        alloc: Global,
        source: &mut S,
    ) -> Result<NextLine, ReadFault>
        ensures next { IfOk result (λ next. TakesNext next self.old (S.left source.old) self.new (S.left source.new)) }
        ensures fault { IfErr result (λ fault. StopsAtFault fault self.old (S.left source.old) self.new (S.left source.new)) }
        ensures failed { IsErrOf result ReadFault.Failed → Rose (S.faults source.old) (S.faults source.new) }
        ensures later { S.faults source.old ≤ S.faults source.new }
    {
        let mut line = Vec::new(alloc);
        // A line of exactly the largest size is accepted if its line feed or the end of the input comes next.
        'pieces: while line.len() <= LONGEST_LINE {
            if !self.fill(source)? {
                if line.is_empty() {
                    return Ok(NextLine::End);
                }
                return Ok(NextLine::Last(line));
            }
            if self.take_piece(&mut line)? {
                return Ok(NextLine::Line(line));
            }
        }
        Err(ReadFault::TooLong)
    }
}
