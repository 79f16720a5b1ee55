//! Processes all lines of an input.
ghost use Rattle.std.specs.Prelude.{◌≡◌, ◌≢◌, ◌+◌, ◌≤◌, ℕ, IfOk, IfSome, OnOk, IsErrOf, string_bytes};
ghost use Rattle.unl_base.specs.Faults.{Rose};
ghost use Rattle.unl_input.specs.Taken.{most_lines, lines_outcome, refused_text};
ghost use Rattle.unl_input.specs.Turns.{FitsAfter, Prints, PrintsCause, HasTurnEffect};
ghost use Rattle.unl_input.specs.Whole.{AnswersAllLines, TakesLines};

use crate::line::{LineProcessor, LineRefusal};
use crate::reader::{LineReader, NextLine, ReadFault};
use std::alloc::{AllocError, Global};
use thiserror::Error;
use unl_base::{Sink, Source, write_all};
use unl_documents::Memory;

/// The most lines that an input may have.
const MOST_LINES: u64 = 1_000_000;

/// The number of the first line past the limit.
const PAST_LINES: u64 = MOST_LINES + 1;

/// Why not all lines were processed.
#[derive(Clone, Copy, Debug, PartialEq, Eq, Error)]
pub enum LinesFault {
    /// A line was refused, and the report of the refusal was printed.
    #[error("a line was refused")]
    Bad,
    /// The source failed.
    #[error("the input failed")]
    ReadFault,
    /// The sink failed.
    #[error("the output failed")]
    WriteFault,
    /// Out of memory.
    #[error("out of memory")]
    Memory,
}

/// The outcome of reading and processing one line.
#[derive(Clone, Copy, Debug, PartialEq, Eq)]
pub enum Progress {
    /// A line was processed, and more may follow.
    Answered,
    /// The input has ended, and all of it was processed.
    Over,
}

impl From<AllocError> for LinesFault {
    ghost use Rattle.std.specs.Prelude.{◌≡◌};
    ghost use Rattle.unl_input.specs.declared.taking.LinesFault.TheVariants.{Memory as memory};

    ghost from_gives = { λ _ e. e ≡ memory };

    fn from(_: AllocError) -> Self {
        LinesFault::Memory
    }
}

impl From<Memory> for LinesFault {
    ghost use Rattle.std.specs.Prelude.{◌≡◌};
    ghost use Rattle.unl_input.specs.declared.taking.LinesFault.TheVariants.{Memory as memory};

    ghost from_gives = { λ _ e. e ≡ memory };

    fn from(_: Memory) -> Self {
        LinesFault::Memory
    }
}

/// Returns the line that reports why a line is refused.
fn refused_line(alloc: Global, number: u64, cause: &str) -> Result<String, AllocError>
    ensures { IfOk result (λ s. string_bytes s ≡ refused_text number cause.now) }
{
    format!(in alloc; "refused: line {number}: {cause}\n")
}

/// Prints why a line is refused. Returns `Bad`, or why the report could not be printed.
fn refuse<K: Sink>(alloc: Global, sink: &mut K, number: u64, cause: &str) -> LinesFault
    ensures prints { PrintsCause result number cause.now (K.sent sink.old) (K.sent sink.new) }
    ensures other { result ≢ LinesFault.ReadFault }
    ensures cause { result ≡ LinesFault.WriteFault → Rose (K.faults sink.old) (K.faults sink.new) }
    ensures later { K.faults sink.old ≤ K.faults sink.new }
{
    let Ok(line) = refused_line(alloc, number, cause) else {
        return LinesFault::Memory;
    };
    match write_all(sink, line.as_bytes()) {
        Ok(()) => LinesFault::Bad,
        Err(_) => LinesFault::WriteFault,
    }
}

/// Processes a line, and prints its output or why it is refused.
fn print_answer<A: LineProcessor, K: Sink>(
    alloc: Global,
    desk: &mut A::Desk,
    sink: &mut K,
    number: u64,
    line: &[u8],
) -> Result<(), LinesFault>
    requires room { A.fits number desk.old }
    requires few { number ≤ most_lines }
    ensures prints { Prints result number (A.line_result number desk.old line.now) desk.new (K.sent sink.old) (K.sent sink.new) }
    ensures room { OnOk result (A.fits (number + 1) desk.new) }
    ensures cause { IsErrOf result LinesFault.WriteFault → Rose (K.faults sink.old) (K.faults sink.new) }
    ensures later { K.faults sink.old ≤ K.faults sink.new }
{
    match A::take(alloc, desk, number, line) {
        Ok(text) => match write_all(sink, &text) {
            Ok(()) => Ok(()),
            Err(_) => Err(LinesFault::WriteFault),
        },
        Err(LineRefusal::Cause(cause)) => Err(refuse(alloc, sink, number, cause.as_str())),
        Err(LineRefusal::Memory) => Err(LinesFault::Memory),
    }
}

/// Reads and processes the next line.
fn turn<A: LineProcessor, S: Source, K: Sink>(
    alloc: Global,
    desk: &mut A::Desk,
    reader: &mut LineReader,
    source: &mut S,
    sink: &mut K,
    number: u64,
) -> Result<Progress, LinesFault>
    requires room { A.fits number desk.old }
    requires few { number ≤ most_lines }
    ensures turns { HasTurnEffect A.line_result result number
        (record { desk = desk.old; held = reader.old; left = S.left source.old; sent = K.sent sink.old })
        (record { desk = desk.new; held = reader.new; left = S.left source.new; sent = K.sent sink.new }) }
    ensures room { IfOk result (λ progress. FitsAfter A.fits number progress desk.new) }
    ensures read { IsErrOf result LinesFault.ReadFault → Rose (S.faults source.old) (S.faults source.new) }
    ensures write { IsErrOf result LinesFault.WriteFault → Rose (K.faults sink.old) (K.faults sink.new) }
    ensures source_later { S.faults source.old ≤ S.faults source.new }
    ensures sink_later { K.faults sink.old ≤ K.faults sink.new }
{
    match reader.next_line(alloc, source) {
        Ok(NextLine::Line(line)) => match print_answer::<A, K>(alloc, desk, sink, number, &line) {
            Ok(()) => Ok(Progress::Answered),
            Err(fault) => Err(fault),
        },
        Ok(NextLine::Last(line)) => match print_answer::<A, K>(alloc, desk, sink, number, &line) {
            Ok(()) => Ok(Progress::Over),
            Err(fault) => Err(fault),
        },
        Ok(NextLine::End) => Ok(Progress::Over),
        Err(ReadFault::TooLong) => Err(refuse(alloc, sink, number, "LineTooLong")),
        Err(ReadFault::Memory) => Err(LinesFault::Memory),
        Err(ReadFault::Failed) => Err(LinesFault::ReadFault),
    }
}

/// Processes the lines of an input, one after another, to its end. Lines are numbered from 1.
///
/// `A.fits number desk` is the condition of the line processor on the state before the line with this number, for
/// example that no counter is at its maximum.
///
/// A line has at most 16,777,216 bytes without its line feed, and there are at most 1,000,000 lines. A longer line is
/// refused with the cause `LineTooLong`, and line 1,000,001 with the cause `TooManyLines`.
///
/// # Errors
/// `Bad` if a line is refused; the line `refused: line <number>: <cause>` is then printed. `ReadFault` if the source
/// failed, `WriteFault` if the sink failed, and `Memory` if memory runs out.
pub fn process_lines<A: LineProcessor, S: Source, K: Sink>(
    alloc: Global,
    desk: &mut A::Desk,
    source: &mut S,
    sink: &mut K,
) -> Result<(), LinesFault>
    requires { A.fits 1 desk.old }
    // What was read and sent. On success: the whole input was read, and the output of all lines was sent. On `Bad`: the
    // output of the lines before the refused one, and the report of the refusal. On `ReadFault`: the output of the
    // lines that were read in full. On `WriteFault`: a prefix of the whole output. On `Memory`: the output of the first
    // lines, up to some line.
    ensures lines { TakesLines A.line_result desk.old result (S.left source.old) (S.left source.new) (K.sent sink.old) (K.sent sink.new) }

    // On success the input has ended, and `desk` is the state after all of its lines.
    ensures all { OnOk result (AnswersAllLines A.line_result desk.old desk.new
        (S.left source.old) (S.left source.new) (K.sent sink.old) (K.sent sink.new)) }
    ensures leaves { OnOk result (IfSome (S.left source.old) (λ bytes. (lines_outcome A.line_result desk.old bytes).desk ≡ desk.new)) }

    // On success the state after all lines satisfies `fits` for some line number of at most 1,000,001.
    ensures room { OnOk result ((number : ℕ) × (number ≤ most_lines + 1) × A.fits number desk.new) }

    // `ReadFault` occurs only if the source failed, and `WriteFault` only if the sink failed.
    ensures read { IsErrOf result LinesFault.ReadFault → Rose (S.faults source.old) (S.faults source.new) }
    ensures write { IsErrOf result LinesFault.WriteFault → Rose (K.faults sink.old) (K.faults sink.new) }
    ensures source_later { S.faults source.old ≤ S.faults source.new }
    ensures sink_later { K.faults sink.old ≤ K.faults sink.new }
{
    let mut reader = LineReader::new(alloc)?;
    for number in 1..PAST_LINES {
        match turn::<A, S, K>(alloc, desk, &mut reader, source, sink, number) {
            Ok(Progress::Answered) => {}
            Ok(Progress::Over) => return Ok(()),
            Err(fault) => return Err(fault),
        }
    }
    match reader.next_byte(source) {
        Ok(None) => Ok(()),
        Ok(Some(_)) => Err(refuse(alloc, sink, PAST_LINES, "TooManyLines")),
        Err(_) => Err(LinesFault::ReadFault),
    }
}
