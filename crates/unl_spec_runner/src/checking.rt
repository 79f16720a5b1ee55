//! Checks an input: reads its test files, runs their tests and writes the report.
ghost use Rattle.std.specs.Prelude.{◌≡◌, ◌≢◌, ◌≤◌, Err, IsErrOf};
ghost use Rattle.unl_base.specs.Faults.{Rose};
ghost use Rattle.unl_spec_runner.specs.Check.{Checks, report_reading, fault_of, text_of};

use crate::document::files_in;
use crate::fault::{CheckFault, Summary};
use crate::report::Report;
use crate::running::report_files;
use std::alloc::Global;
use unl_base::{Draw, Sink, Source};
use unl_documents::BadDocument;
use unl_input::{AnswerFault, InputAnswer, InputRefusal, answer_input};

/// Reads test files to the end of the source, runs their tests at the time and with the random word of `draw`, and
/// writes the report: a line for each test, then a line with the counts of passed and failed tests. Nothing is written
/// before the whole input is read and accepted.
///
/// # Errors
/// - `TooLarge` if the input has more than 16,777,216 bytes. Nothing is written.
/// - `BadFile`, with the first fault of the input, if the input is not too large but is neither a test file nor an
///   array of test files. Nothing is written.
/// - `ReadFault` if the source failed. Nothing is written.
/// - `WriteFault` if the sink failed. A prefix of the report was written.
/// - `Memory` if memory ran out. Nothing is written.
pub fn check<S: Source, K: Sink>(
    alloc: Global,
    source: &mut S,
    sink: &mut K,
    draw: &Draw,
) -> Result<Summary, CheckFault>
    // On success, the whole input was read, its report was sent, and the summary has the report's counts. If the input
    // is refused, a read fails or memory runs out, nothing was sent. If a write fails, a prefix of the report was sent.
    ensures checks { Checks result draw.entry.now (S.left source.old) (S.left source.new) (K.sent sink.old) (K.sent sink.new) }
    // `BadFile` never contains `Memory`: out of memory is not a fault of the input.
    ensures named { result ≢ Err (CheckFault.BadFile BadDocument.Memory) }
    // `ReadFault` is returned only if the source failed, and `WriteFault` only if the sink failed.
    ensures read { IsErrOf result CheckFault.ReadFault → Rose (S.faults source.old) (S.faults source.new) }
    ensures write { IsErrOf result CheckFault.WriteFault → Rose (K.faults sink.old) (K.faults sink.new) }
    ensures source_later { S.faults source.old ≤ S.faults source.new }
    ensures sink_later { K.faults sink.old ≤ K.faults sink.new }
    // If the result is `Memory`, the fault count of the source is unchanged.
    ensures untouched { IsErrOf result CheckFault.Memory → S.faults source.new ≡ S.faults source.old }
{
    match answer_input::<Checking, S, K>(alloc, &Checking { draw: *draw }, source, sink) {
        Ok(report) => Ok(report.summary()),
        Err(AnswerFault::Refused(refusal)) => Err(fault_of(refusal)),
        Err(AnswerFault::ReadFault) => Err(CheckFault::ReadFault),
        Err(AnswerFault::WriteFault) => Err(CheckFault::WriteFault),
        Err(AnswerFault::Memory) => Err(CheckFault::Memory),
    }
}

/// Converts a refusal of the input to the error of [`check`].
fn fault_of(refusal: InputRefusal) -> CheckFault
    ensures { result ≡ fault_of refusal }
{
    match refusal {
        InputRefusal::BadInput(fault) => CheckFault::BadFile(fault),
        InputRefusal::TooLarge => CheckFault::TooLarge,
    }
}

/// The computation that turns an input into the report of its test files, whose features are evaluated with `draw`.
#[derive(Drop)]
struct Checking {
    draw: Draw,
}

impl InputAnswer for Checking {
    type Answer = Report;

    ghost reads = { λ checking. report_reading checking.draw };

    ghost says = { text_of };

    #[tactic(auto, unfolding(crate::specs::Check::report_reading))]
    fn answer(&self, alloc: Global, bytes: &[u8]) -> Result<Report, BadDocument> {
        let files = files_in(alloc, bytes)?;
        Ok(report_files(alloc, files.as_slice(), &self.draw)?)
    }

    fn text(report: &Report) -> &[u8] {
        report.text()
    }
}
