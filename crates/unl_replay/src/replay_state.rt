//! Processes one line of a replay, with the state that the earlier lines left: the desk and the metrics book. The
//! parameter `number` is the number of the line.
ghost use Rattle.std.specs.Prelude.{◌≡◌, ◌+◌, ◌-◌, ◌^◌, ◌<◌, ◌≤◌, Ok, IfOk, IfSome, string_bytes};
ghost use Rattle.serde_json.specs.View.{view};
ghost use Rattle.unl_metrics.specs.Reports.{IsReport};
ghost use Rattle.unl_replay.specs.Replay.{answer_object, answer_op, answer_read, ask_line, ask_of_line, ask_start, metrics_line};
ghost use Rattle.unl_replay.specs.Replay.{metrics_of_line, put_ask, put_metrics, print_and_record, tag_or_dash};
ghost use Rattle.unl_replay.specs.Effect.{HasEffect};

use crate::ask::{LineAsk, ask_of};
use crate::refusal::Refusal;
use crate::step::{batch_of_line, feed_of_line, tokens_of_line};
use serde_json::Value;
use std::alloc::{AllocError, Global};
use unl_core::{Answer, Desk, OneDesk, record_report};
use unl_documents::keys::required;
use unl_documents::kind::{AnyText, Name};
use unl_documents::parsing::read_object;
use unl_documents::{BadDocument, Field, Text};
use unl_http_api::Reply;
use unl_metrics::MetricsBook;

/// The state that the lines change.
#[derive(Drop)]
pub struct ReplayState {
    /// The desk: the board of tokens and environments that asks are answered from.
    pub desk: OneDesk,
    /// The metrics book, in which the reports of asks are recorded.
    pub book: MetricsBook,
}

/// Returns the line of an ask up to its body. `front` is the number of changes published so far.
fn ask_start(
    alloc: Global,
    number: u64,
    front: u64,
    status: u16,
    tag: &str,
) -> Result<String, AllocError>
    ensures { IfOk result (λ s. string_bytes s ≡ ask_start number front status tag.now) }
{
    format!(in alloc; "{number}: front {front} status {status} tag {tag} body ")
}

/// Returns the tag, or a dash if there is none.
fn tag_or_dash(tag: &Option<Text>) -> &str
    ensures { result.now ≡ tag_or_dash tag.now }
{
    match tag {
        None => "-",
        Some(tag) => tag.as_str(),
    }
}

/// Returns the line of an ask. `front` is the number of changes published so far. The body is printed unchanged.
fn ask_line(alloc: Global, number: u64, front: u64, reply: &Reply) -> Result<Vec<u8>, AllocError>
    ensures { IfOk result (λ v. v.items ≡ ask_line number front reply.now) }
{
    let tag = tag_or_dash(&reply.tag);
    let mut line = ask_start(alloc, number, front, reply.status, tag)?.into_bytes();
    line.extend_from_slice(reply.body.as_slice())?;
    line.extend_from_slice(b"\n")?;
    Ok(line)
}

/// Processes a line with an ask: a request, and the draw with which it is answered.
#[tactic(auto, using(crate::proofs::RefusalLemmas::refused))]
fn ask_of_line(
    alloc: Global,
    replay_state: &mut ReplayState,
    number: u64,
    line: &Value,
) -> Result<Vec<u8>, Refusal>
    ensures effect { HasEffect result replay_state.new (ask_of_line number replay_state.old (view line.now)) }
    ensures same { replay_state.new.desk ≡ replay_state.old.desk }
{
    let ask = ask_of(alloc, line)?;
    put_ask(alloc, replay_state, number, &ask)
}

/// Answers an ask and returns its line. Adds the report of the answer to the metrics book. If the book has no room for
/// the report, the reply in the line is a 503.
fn put_ask(
    alloc: Global,
    replay_state: &mut ReplayState,
    number: u64,
    ask: &LineAsk,
) -> Result<Vec<u8>, Refusal>
    ensures effect { HasEffect result replay_state.new (Ok (put_ask number replay_state.old ask.now)) }
    ensures same { replay_state.new.desk ≡ replay_state.old.desk }
{
    let (front, answer) = replay_state.desk.answer(alloc, &ask.request, &ask.draw)?;
    print_and_record(alloc, &mut replay_state.book, number, front, answer)
}

/// Returns the line of an answer and adds the answer's report to the metrics book. If the book has no room for the
/// report, the reply in the line is a 503. `front` is the number of changes published so far.
fn print_and_record(
    alloc: Global,
    book: &mut MetricsBook,
    number: u64,
    front: u64,
    answer: Answer,
) -> Result<Vec<u8>, Refusal>
    requires { IfSome answer.report IsReport }
    ensures { HasEffect result book.new (Ok (print_and_record number front book.old answer)) }
{
    let reply = record_report(alloc, book, answer)?;
    Ok(ask_line(alloc, number, front, &reply)?)
}

/// Processes a line that asks for the metrics of an environment. A line without a valid environment is refused.
#[tactic(auto, using(crate::proofs::RefusalLemmas::refused))]
fn metrics_of_line(
    alloc: Global,
    replay_state: &mut ReplayState,
    number: u64,
    line: &Value,
) -> Result<Vec<u8>, Refusal>
    ensures effect { HasEffect result replay_state.new (metrics_of_line number replay_state.old (view line.now)) }
    ensures same { replay_state.new.desk ≡ replay_state.old.desk }
{
    let environment = required::<Name>(alloc, Field::Environment, line)?;
    put_metrics(alloc, &mut replay_state.book, number, environment.as_str())
}

/// Returns the line with the bulk report of an environment (its counts as JSON, those that fit into 1,048,576 bytes),
/// and removes the reported counts from the metrics book. Returns a line with a dash if the environment has no counts.
fn put_metrics(
    alloc: Global,
    book: &mut MetricsBook,
    number: u64,
    environment: &str,
) -> Result<Vec<u8>, Refusal>
    ensures { HasEffect result book.new (Ok (put_metrics number environment.now book.old)) }
{
    match book.bulk(alloc, environment)? {
        None => Ok(metrics_line(alloc, number, "-")?.into_bytes()),
        Some((report, count)) => {
            let body = report.to_string(alloc)?;
            let line = metrics_line(alloc, number, body.as_str())?;
            book.acknowledged(environment, count);
            Ok(line.into_bytes())
        }
    }
}

/// Returns the line with the metrics of an environment. `body` is the text of its bulk report, or a dash.
fn metrics_line(alloc: Global, number: u64, body: &str) -> Result<String, AllocError>
    ensures { IfOk result (λ s. string_bytes s ≡ metrics_line number body.now) }
{
    format!(in alloc; "{number}: metrics {body}\n")
}

/// Processes a line, given the value of its key `op`. An op other than the five below is refused with `WrongKind`.
fn answer_op(
    alloc: Global,
    replay_state: &mut ReplayState,
    number: u64,
    line: Value,
    op: &str,
) -> Result<Vec<u8>, Refusal>
    requires { replay_state.old.desk.front < 2 ^ 64 - 1 }
    ensures effect { HasEffect result replay_state.new (answer_op number replay_state.old (view line) op.now) }
    ensures front { replay_state.new.desk.front ≤ replay_state.old.desk.front + 1 }
{
    match op {
        "tokens" => tokens_of_line(alloc, &mut replay_state.desk, number, &line),
        "batch" => batch_of_line(alloc, &mut replay_state.desk, number, line),
        "feed" => feed_of_line(alloc, &mut replay_state.desk, number, line),
        "ask" => ask_of_line(alloc, replay_state, number, &line),
        "metrics" => metrics_of_line(alloc, replay_state, number, &line),
        _ => Err(Refusal::Document(BadDocument::WrongKind(Field::Op))),
    }
}

/// Processes a line that holds a JSON object. An object without a text at its key `op` is refused.
#[tactic(auto, using(crate::proofs::RefusalLemmas::refused))]
fn answer_object(
    alloc: Global,
    replay_state: &mut ReplayState,
    number: u64,
    line: Value,
) -> Result<Vec<u8>, Refusal>
    requires { replay_state.old.desk.front < 2 ^ 64 - 1 }
    ensures effect { HasEffect result replay_state.new (answer_object number replay_state.old (view line)) }
    ensures front { replay_state.new.desk.front ≤ replay_state.old.desk.front + 1 }
{
    let op = required::<AnyText>(alloc, Field::Op, &line)?;
    answer_op(alloc, replay_state, number, line, op.as_str())
}

/// Processes the line with this number, counted from 1, and returns the text that it prints. The error is why the line
/// is refused, or out of memory.
#[tactic(auto, unfolding(crate::specs::Replay::answer_read))]
pub fn answer_line(
    alloc: Global,
    replay_state: &mut ReplayState,
    number: u64,
    bytes: &[u8],
) -> Result<Vec<u8>, Refusal>
    requires { replay_state.old.desk.front < 2 ^ 64 - 1 }
    ensures effect { HasEffect result replay_state.new (answer_read number replay_state.old bytes.now) }
    ensures front { replay_state.new.desk.front ≤ replay_state.old.desk.front + 1 }
{
    match read_object(alloc, bytes)? {
        Some(line) => answer_object(alloc, replay_state, number, line),
        None => Err(Refusal::Document(BadDocument::NotJson)),
    }
}
