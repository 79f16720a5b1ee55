//! Reads a question (why is a feature on or off?) from an input and writes the explanation that answers the question.
ghost use Rattle.std.specs.Prelude.{◌≡◌, ◌≢◌, ◌≤◌, Err, IfOk, IsErrOf};
ghost use Rattle.unl_base.specs.Faults.{Rose};
ghost use Rattle.unl_explain.specs.Line.{explanation_line as line_of};
ghost use Rattle.unl_explain.specs.Question.{IsValidQuestion};
ghost use Rattle.unl_explain.specs.Running.{Explains, answer_to, as_it_is, explained, fault_of};

use crate::explaining::explain;
use crate::line::explanation_line;
use crate::question::{Question, question_in};
use std::alloc::Global;
use thiserror::Error;
use unl_base::{Sink, Source};
use unl_documents::{BadDocument, List, Memory};
use unl_input::{
    AnswerFault, InputAnswer, InputRefusal, WriteLineFault, answer_input, write_refusal,
};
use unl_strategies::Moment;

/// Why an input was not explained.
#[derive(Debug, Drop, PartialEq, Error)]
pub enum ExplainFault {
    /// The first fault of the input. It is never `Memory`.
    #[error("the input is not accepted")]
    BadInput(BadDocument),
    /// The input has more than 16,777,216 bytes.
    #[error("the input is too large")]
    TooLarge,
    /// The source failed.
    #[error("the input failed")]
    ReadFault,
    /// The sink failed.
    #[error("the output failed")]
    WriteFault,
    /// Out of memory.
    #[error("out of memory")]
    Memory,
}

/// Reads a question (why is a feature on or off?) from the source and writes the explanation to the sink.
///
/// Reads the source to its end, unless the input is too large. The input is one JSON object with a state, the name of a
/// feature, and the context, the time (in milliseconds since 1970) and the random word for the evaluation. Writes one
/// line of JSON that explains why the feature is on or off, or `null` if the state lacks the feature. The feature is
/// evaluated with an empty host name. If the input is refused, the line `refused: <cause>` is written instead.
///
/// # Errors
/// - `TooLarge` if the input has more than 16,777,216 bytes. The line `refused: <cause>` was written.
/// - `BadInput`, with the first fault of the input, if the input is not too large but has a fault. The line
///   `refused: <cause>` was written.
/// - `ReadFault` if the source failed. Nothing was written.
/// - `WriteFault` if the sink failed. A prefix of the explanation or of the line `refused: <cause>` was written.
/// - `Memory` if memory ran out. Nothing was written.
pub fn explain_run<S: Source, K: Sink>(
    alloc: Global,
    source: &mut S,
    sink: &mut K,
) -> Result<(), ExplainFault>
    ensures explains { Explains result (S.left source.old) (S.left source.new) (K.sent sink.old) (K.sent sink.new) }
    // `BadInput` never contains `Memory`: out of memory is not a fault of the input.
    ensures named { result ≢ Err (ExplainFault.BadInput BadDocument.Memory) }
    // `ReadFault` is returned only if the source failed, and `WriteFault` only if the sink failed.
    ensures read { IsErrOf result ExplainFault.ReadFault → Rose (S.faults source.old) (S.faults source.new) }
    ensures write { IsErrOf result ExplainFault.WriteFault → Rose (K.faults sink.old) (K.faults sink.new) }
    ensures source_later { S.faults source.old ≤ S.faults source.new }
    ensures sink_later { K.faults sink.old ≤ K.faults sink.new }
    // If the result is `Memory`, the fault count of the source is unchanged.
    ensures untouched { IsErrOf result ExplainFault.Memory → S.faults source.new ≡ S.faults source.old }
{
    match answer_input::<Explaining, S, K>(alloc, &Explaining, source, sink) {
        Ok(_line) => Ok(()),
        Err(AnswerFault::Refused(refusal)) => match write_refusal(alloc, sink, &refusal) {
            Ok(()) => Err(fault_of(refusal)),
            Err(WriteLineFault::WriteFault) => Err(ExplainFault::WriteFault),
            Err(WriteLineFault::Memory) => Err(ExplainFault::Memory),
        },
        Err(AnswerFault::ReadFault) => Err(ExplainFault::ReadFault),
        Err(AnswerFault::WriteFault) => Err(ExplainFault::WriteFault),
        Err(AnswerFault::Memory) => Err(ExplainFault::Memory),
    }
}

/// Converts a refusal to the error of [`explain_run`] with the same cause.
fn fault_of(refusal: InputRefusal) -> ExplainFault
    ensures { result ≡ fault_of refusal }
{
    match refusal {
        InputRefusal::BadInput(fault) => ExplainFault::BadInput(fault),
        InputRefusal::TooLarge => ExplainFault::TooLarge,
    }
}

/// The computation that turns an input into the line with its explanation.
struct Explaining;

impl InputAnswer for Explaining {
    type Answer = List<u8>;

    ghost reads = { λ _. explained };

    ghost says = { as_it_is };

    #[tactic(auto, unfolding(crate::specs::Running::explained))]
    fn answer(&self, alloc: Global, bytes: &[u8]) -> Result<List<u8>, BadDocument> {
        let question = question_in(alloc, bytes)?;
        Ok(answer_line(alloc, &question)?)
    }

    fn text(answer: &List<u8>) -> &[u8] {
        answer.as_slice()
    }
}

/// Returns the line with the explanation for a question, or the line `null` if the state lacks the feature.
fn answer_line(alloc: Global, question: &Question) -> Result<List<u8>, Memory>
    requires { IsValidQuestion question.now }
    ensures { IfOk result (λ line. line ≡ line_of (answer_to question.entry.now)) }
{
    let moment = Moment {
        now: question.now,
        word: question.word,
        host: "",
    };
    let feature = question.feature.as_str();
    let reason = explain(alloc, &question.state, feature, &question.context, &moment)?;
    explanation_line(alloc, &reason)
}
