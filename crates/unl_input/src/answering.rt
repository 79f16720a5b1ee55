//! Processes a whole input: reads it, computes an answer and writes the answer's text.
ghost use Rattle.std.specs.Prelude.{◌≡◌, ◌≢◌, ◌≤◌, ℕ, List, Err, IsErrOf, Result};
ghost use Rattle.unl_base.specs.Faults.{Rose};
ghost use Rattle.unl_documents.specs.Reading.{Gives};
ghost use Rattle.unl_documents.specs.declared.fault.BadDocument.{BadDocument};
ghost use Rattle.unl_input.specs.Answer.{AnsweringEnds};

use crate::reading::{InputFault, read_input};
use crate::refusal::InputRefusal;
use std::alloc::Global;
use thiserror::Error;
use unl_base::{Sink, Source, write_all};
use unl_documents::BadDocument;

/// A computation on the bytes of a whole input.
pub trait InputAnswer {
    /// The result of the computation.
    type Answer: Drop;

    // The result for the given bytes, or their first fault.
    ghost reads: { Self → List ℕ → Result Self.Answer BadDocument };

    // The text of a result.
    ghost says: { Self.Answer → List ℕ };

    /// Computes the result for the bytes of an input.
    ///
    /// # Errors
    /// The first fault of the bytes, or `Memory` if memory ran out.
    fn answer(&self, alloc: Global, bytes: &[u8]) -> Result<Self::Answer, BadDocument>
        ensures { Gives result (reads self.now bytes.now) };

    /// Returns the text of a result.
    fn text(answer: &Self::Answer) -> &[u8]
        ensures { result.now ≡ says answer.now };
}

/// Why a whole input was not answered.
#[derive(Debug, Drop, PartialEq, Error)]
pub enum AnswerFault {
    /// The input is refused, for this reason.
    #[error("the input is refused")]
    Refused(InputRefusal),
    /// The source failed.
    #[error("the input failed")]
    ReadFault,
    /// The sink failed.
    #[error("the output failed")]
    WriteFault,
    /// Out of memory.
    #[error("out of memory")]
    Memory,
}

/// Reads an input to its end, computes its answer, writes the answer's text and returns the answer. Nothing is written
/// before the whole input is read and accepted.
///
/// # Errors
/// - `Refused` with `TooLarge` if the input has more than 16,777,216 bytes. Nothing is written.
/// - `Refused` with `BadInput`, which carries the first fault of the input, if the input is not too large but has a
///   fault. Nothing is written.
/// - `ReadFault` if the source failed. Nothing is written.
/// - `WriteFault` if the sink failed. A prefix of the text was written.
/// - `Memory` if memory ran out. Nothing is written.
pub fn answer_input<A: InputAnswer, S: Source, K: Sink>(
    alloc: Global,
    asked: &A,
    source: &mut S,
    sink: &mut K,
) -> Result<A::Answer, AnswerFault>
    ensures answers { AnsweringEnds (A.reads asked.now) A.says result
        (S.left source.old) (S.left source.new) (K.sent sink.old) (K.sent sink.new) }
    // Running out of memory is never reported as a fault of the input.
    ensures named { result ≢ Err (AnswerFault.Refused (InputRefusal.BadInput BadDocument.Memory)) }
    // `ReadFault` is returned only if the source failed, and `WriteFault` only if the sink failed.
    ensures read { IsErrOf result AnswerFault.ReadFault → Rose (S.faults source.old) (S.faults source.new) }
    ensures write { IsErrOf result AnswerFault.WriteFault → Rose (K.faults sink.old) (K.faults sink.new) }
    ensures source_later { S.faults source.old ≤ S.faults source.new }
    ensures sink_later { K.faults sink.old ≤ K.faults sink.new }
    // If the result is not `ReadFault`, the fault count of the source is unchanged.
    ensures untouched { result ≢ Err AnswerFault.ReadFault → S.faults source.new ≡ S.faults source.old }
{
    let bytes = match read_input(alloc, source) {
        Ok(bytes) => bytes,
        Err(InputFault::TooLarge) => return Err(AnswerFault::Refused(InputRefusal::TooLarge)),
        Err(InputFault::ReadFault) => return Err(AnswerFault::ReadFault),
        Err(InputFault::Memory) => return Err(AnswerFault::Memory),
    };
    let answer = match asked.answer(alloc, bytes.as_slice()) {
        Ok(answer) => answer,
        Err(BadDocument::Memory) => return Err(AnswerFault::Memory),
        Err(fault) => return Err(AnswerFault::Refused(InputRefusal::BadInput(fault))),
    };
    match write_all(sink, A::text(&answer)) {
        Ok(()) => Ok(answer),
        Err(_) => Err(AnswerFault::WriteFault),
    }
}
