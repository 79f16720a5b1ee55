//! Replays a whole input: processes its lines one after another, to the first that is refused, and prints one line for
//! each.
ghost use Rattle.std.specs.Prelude.{◌≡◌, ◌<◌, ◌≤◌, IfOk, IsErrOf};
ghost use Rattle.unl_base.specs.Faults.{Rose};
ghost use Rattle.unl_input.specs.Whole.{TakesLines};
ghost use Rattle.unl_replay.specs.Refusals.{Causes};
ghost use Rattle.unl_replay.specs.Replay.{line_answer, empty_replay};
ghost use Rattle.unl_replay.specs.Replayed.{Replays};

use crate::refusal::Refusal;
use crate::replay_state::{ReplayState, answer_line};
use std::alloc::Global;
use unl_base::{Sink, Source};
use unl_core::{Board, OneDesk};
use unl_documents::{List, Memory, Text};
use unl_input::{LineProcessor, LineRefusal, LinesFault, process_lines};
use unl_metrics::MetricsBook;

/// Processes each line with the state that the earlier lines left.
struct Answers;

impl LineProcessor for Answers {
    type Desk = ReplayState;

    ghost line_result = { line_answer };

    // `k` is the number of the next line. The front counts the published changes, and each line before line `k`
    // published at most one.
    ghost fits = { λ k replay_state. replay_state.desk.front < k };

    #[tactic(auto, using(crate::proofs::RefusalLemmas::refused_line))]
    fn take(
        alloc: Global,
        desk: &mut ReplayState,
        number: u64,
        line: &[u8],
    ) -> Result<Vec<u8>, LineRefusal> {
        match answer_line(alloc, desk, number, line) {
            Ok(text) => Ok(text),
            Err(refusal) => Err(cause_of(alloc, &refusal)),
        }
    }
}

/// Returns the text of a refusal as the cause that is printed, or `Memory` if memory ran out.
fn cause_of(alloc: Global, refusal: &Refusal) -> LineRefusal
    ensures { Causes result refusal.now }
{
    match refusal {
        Refusal::Memory => LineRefusal::Memory,
        refusal => match refusal.text(alloc) {
            Ok(text) => LineRefusal::Cause(Text::from(text)),
            Err(_) => LineRefusal::Memory,
        },
    }
}

/// Processes the lines of an input, one after another, to its end or to the first line that is refused, and prints one
/// line for each. An input has at most 1,000,000 lines, each of at most 16,777,216 bytes without its line feed; a line
/// that exceeds either limit is refused.
///
/// # Errors
/// `Bad` if a line is refused (the cause is printed), `ReadFault` if the source fails, `WriteFault` if the sink fails,
/// `Memory` if out of memory.
pub fn replay<S: Source, K: Sink>(
    alloc: Global,
    source: &mut S,
    sink: &mut K,
) -> Result<(), LinesFault>
    // Clause `replays` states what is read and sent, for each result. It also states the following about the input
    // lines that were answered:
    // - From one input line to the next, the version of an environment is never replaced by an older one, even if
    //   batches are lost, duplicated or out of order. The version's epoch never falls, and the version's number never
    //   falls within an epoch.
    // - Assume that all batches and feeds of each environment were sent from one line of histories (one history of
    //   events for each epoch). Then each request is answered from one revision of its token's environment, restricted
    //   to the projects that both the recipient of the batches and the request's token see.
    ensures replays { Replays result (S.left source.old) (S.left source.new) (K.sent sink.old) (K.sent sink.new) }

    // `ReadFault` is returned only if the source failed, and `WriteFault` only if the sink failed.
    ensures read { IsErrOf result LinesFault.ReadFault → Rose (S.faults source.old) (S.faults source.new) }
    ensures write { IsErrOf result LinesFault.WriteFault → Rose (K.faults sink.old) (K.faults sink.new) }
    ensures source_later { S.faults source.old ≤ S.faults source.new }
    ensures sink_later { K.faults sink.old ≤ K.faults sink.new }
{
    answer_lines(alloc, source, sink)
}

/// Processes the lines of an input, starting without environments and tokens and with an empty metrics book.
fn answer_lines<S: Source, K: Sink>(
    alloc: Global,
    source: &mut S,
    sink: &mut K,
) -> Result<(), LinesFault>
    ensures lines { TakesLines line_answer empty_replay result (S.left source.old) (S.left source.new) (K.sent sink.old) (K.sent sink.new) }
    ensures read { IsErrOf result LinesFault.ReadFault → Rose (S.faults source.old) (S.faults source.new) }
    ensures write { IsErrOf result LinesFault.WriteFault → Rose (K.faults sink.old) (K.faults sink.new) }
    ensures source_later { S.faults source.old ≤ S.faults source.new }
    ensures sink_later { K.faults sink.old ≤ K.faults sink.new }
{
    let mut state = new_state(alloc)?;
    process_lines::<Answers, S, K>(alloc, &mut state, source, sink)
}

/// Creates the state before the first line: no environments, no tokens, no metrics.
fn new_state(alloc: Global) -> Result<ReplayState, Memory>
    ensures is { IfOk result (λ state. state ≡ empty_replay) }
    ensures front { IfOk result (λ state. state.desk.front ≡ 0) }
{
    let board = Board::new(alloc, 0, "", &List::new(alloc))?;
    let desk = OneDesk::new(alloc, board)?;
    Ok(ReplayState {
        desk,
        book: MetricsBook::new(alloc),
    })
}
