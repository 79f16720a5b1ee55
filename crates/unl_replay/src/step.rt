//! Processes lines with tokens, batches and feeds. A feed is a whole state with its epoch and number, and is applied as
//! a batch of one hydration. These lines change the desk, which has the current board: the tokens, and the version of
//! each environment in its slot. In the functions that return a printed line, `number` is the number of the input line.
ghost use Rattle.std.specs.Prelude.{◌≡◌, ◌+◌, ◌-◌, ◌^◌, ◌<◌, ◌≤◌, Ok, IfOk, string_bytes, length, decimal};
ghost use Rattle.serde_json.specs.View.{view};
ghost use Rattle.unl_core.specs.DeskStates.{installed_by};
ghost use Rattle.unl_core.specs.Tag.{with_epoch};
ghost use Rattle.unl_delta.specs.Batch.{verdict_of};
ghost use Rattle.unl_delta.specs.Installing.{place_of};
ghost use Rattle.unl_delta.specs.Valid.{IsValidBatch};
ghost use Rattle.unl_documents.specs.Results.{Gives};
ghost use Rattle.unl_replay.specs.Replay.{batch_of_line, effect_of_verdict, environment_in, feed_of_line, number_in, put_batch};
ghost use Rattle.unl_replay.specs.Replay.{revision_at, revision_text, put_tokens, same_line, tokens_line, tokens_of_line, verdict_line};
ghost use Rattle.unl_replay.specs.Replay.{with_verdict_line, word_of};
ghost use Rattle.unl_replay.specs.declared.refusal.Refusal.TheVariants.{Memory};
ghost use Rattle.unl_replay.specs.Effect.{HasEffect};

use crate::batch::{batch_in, feed_in};
use crate::refusal::Refusal;
use serde_json::Value;
use std::alloc::{AllocError, Global};
use unl_core::OneDesk;
use unl_delta::{Batch, Installer, Verdict, take_batch};
use unl_documents::keys::required;
use unl_documents::kind::Name;
use unl_documents::{Field, Text};
use unl_tokens::Book;

/// Returns the number of an environment's current version, if it has one.
fn number_in(desk: &OneDesk, environment: &str) -> Option<u64>
    ensures { result ≡ number_in environment.now desk.now.board }
{
    match desk.board().snapshot(environment) {
        None => None,
        Some(snapshot) => Some(snapshot.version().number),
    }
}

/// Returns the revision of a slot's version as text: its number, preceded by the epoch and a dot unless the epoch is 0.
/// Returns a dash if the slot has no version.
fn revision_text(alloc: Global, desk: &OneDesk, slot: usize) -> Result<String, AllocError>
    requires { slot < length desk.now.places }
    ensures { IfOk result (λ s. string_bytes s ≡ revision_text (revision_at slot desk.now)) }
{
    match &desk.place(slot).version {
        None => String::from_str(alloc, "-"),
        Some(version) => text_of(alloc, version.get().epoch, version.get().number),
    }
}

/// Returns the number, preceded by the epoch and a dot unless the epoch is 0.
fn text_of(alloc: Global, epoch: u64, number: u64) -> Result<String, AllocError>
    ensures { IfOk result (λ s. string_bytes s ≡ with_epoch epoch (decimal number)) }
{
    if epoch == 0 {
        return format!(in alloc; "{number}");
    }
    format!(in alloc; "{epoch}.{number}")
}

/// Returns the line for a book of tokens that equals the current one.
fn same_line(alloc: Global, number: u64) -> Result<String, AllocError>
    ensures { IfOk result (λ s. string_bytes s ≡ same_line number) }
{
    format!(in alloc; "{number}: same\n")
}

/// Returns the line for a book of tokens that is published. `generation` is the number of books and `front` the number
/// of changes that were published so far, including this book.
fn tokens_line(
    alloc: Global,
    number: u64,
    generation: u64,
    front: u64,
) -> Result<String, AllocError>
    ensures { IfOk result (λ s. string_bytes s ≡ tokens_line number generation front) }
{
    format!(in alloc; "{number}: tokens generation {generation} front {front}\n")
}

/// Returns the line for the verdict on a batch. `word` is the name of the verdict, `version` the text of the
/// environment's revision, and `front` the number of changes published so far.
fn verdict_line(
    alloc: Global,
    number: u64,
    word: &str,
    version: &str,
    front: u64,
) -> Result<String, AllocError>
    ensures { IfOk result (λ s. string_bytes s ≡ verdict_line number word.now version.now front) }
{
    format!(in alloc; "{number}: {word} number {version} front {front}\n")
}

/// Publishes a book of tokens unless it equals the current one, and returns the line that says whether it was
/// published. The only error is out of memory.
#[tactic(auto, using(crate::proofs::Books::kept, crate::proofs::Books::taken))]
fn put_tokens(
    alloc: Global,
    desk: &mut OneDesk,
    number: u64,
    tokens: Book,
) -> Result<Vec<u8>, Refusal>
    requires { desk.old.front < 2 ^ 64 - 1 }
    ensures effect { HasEffect result desk.new (Ok (put_tokens number tokens desk.old)) }
    ensures front { desk.new.front ≤ desk.old.front + 1 }
{
    match desk.install_book(alloc, tokens)? {
        None => Ok(same_line(alloc, number)?.into_bytes()),
        Some(front) => {
            Ok(tokens_line(alloc, number, desk.board().generation, front)?.into_bytes())
        }
    }
}

/// Returns the line that reports the verdict on a batch for a slot. `word` is the name of the verdict, and `desk` is
/// the desk after the batch.
fn with_verdict_line(
    alloc: Global,
    desk: &OneDesk,
    number: u64,
    word: &str,
    slot: usize,
) -> Result<Vec<u8>, Refusal>
    requires { slot < length desk.now.places }
    ensures { HasEffect result desk.now (Ok (with_verdict_line number word.now slot desk.now)) }
{
    let version = revision_text(alloc, desk, slot)?;
    Ok(verdict_line(alloc, number, word, version.as_str(), desk.front())?.into_bytes())
}

/// Judges a batch for a slot, and returns the line that reports the verdict. At the verdict Apply the batch is applied
/// and published, at Gap the slot is held, and at every other verdict the desk is unchanged.
#[tactic(auto, using(crate::proofs::VerdictLines::line_of_verdict))]
fn apply_to_slot(
    alloc: Global,
    desk: &mut OneDesk,
    number: u64,
    slot: usize,
    batch: &Batch,
) -> Result<Vec<u8>, Refusal>
    requires room { desk.old.front < 2 ^ 64 - 1 }
    requires slot { slot < length desk.old.places }
    requires batch { IsValidBatch batch.now }
    ensures effect { HasEffect result desk.new
        (Ok (effect_of_verdict number slot batch.now desk.old (verdict_of (place_of (installed_by desk.old) slot) batch.now))) }
    ensures front { desk.new.front ≤ desk.old.front + 1 }
{
    let verdict = take_batch(alloc, desk, slot, batch)?;
    with_verdict_line(alloc, desk, number, word_of(verdict), slot)
}

/// Returns the name of a verdict as it is printed.
fn word_of(verdict: Verdict) -> &'static str
    ensures { result.now ≡ word_of verdict }
{
    match verdict {
        Verdict::Apply => "apply",
        Verdict::Repeat => "repeat",
        Verdict::Old => "old",
        Verdict::Gap => "gap",
        Verdict::Held => "held",
    }
}

/// Judges a batch for the slot of an environment, as `apply_to_slot` does. A new environment gets a slot even if the
/// batch does not apply. Returns `TooManyEnvironments` if the environment is new and the board has no room for it.
fn put_batch(
    alloc: Global,
    desk: &mut OneDesk,
    number: u64,
    environment: &str,
    batch: &Batch,
) -> Result<Vec<u8>, Refusal>
    requires room { desk.old.front < 2 ^ 64 - 1 }
    requires batch { IsValidBatch batch.now }
    ensures effect { HasEffect result desk.new (put_batch number environment.now desk.old batch.now) }
    ensures front { desk.new.front ≤ desk.old.front + 1 }
{
    match desk.name_slot(alloc, environment)? {
        None => Err(Refusal::TooManyEnvironments),
        Some(slot) => apply_to_slot(alloc, desk, number, slot, batch),
    }
}

/// Processes a line with a book of tokens, which is published unless it equals the current one. Returns a refusal if
/// the book can't be parsed.
#[tactic(auto, using(crate::proofs::RefusalLemmas::refused_book))]
pub(crate) fn tokens_of_line(
    alloc: Global,
    desk: &mut OneDesk,
    number: u64,
    line: &Value,
) -> Result<Vec<u8>, Refusal>
    requires { desk.old.front < 2 ^ 64 - 1 }
    ensures effect { HasEffect result desk.new (tokens_of_line number desk.old (view line.now)) }
    ensures front { desk.new.front ≤ desk.old.front + 1 }
{
    let tokens = Book::read_value(alloc, line)?;
    put_tokens(alloc, desk, number, tokens)
}

/// Parses the environment of a line. Returns `Document` if the line has no valid environment, and `TooManyEnvironments`
/// if the environment is new and the board has no room for it.
#[tactic(auto, using(crate::proofs::RefusalLemmas::refused))]
fn environment_in(alloc: Global, desk: &OneDesk, line: &Value) -> Result<Text, Refusal>
    ensures { Gives Memory result (environment_in desk.now (view line.now)) }
{
    let environment = required::<Name>(alloc, Field::Environment, line)?;
    if desk.has_room(environment.as_str()) {
        Ok(environment)
    } else {
        Err(Refusal::TooManyEnvironments)
    }
}

/// Processes a line with a batch. The parsed line is dropped before the batch is applied. Returns a refusal if the
/// environment or the batch can't be parsed, or if there is no room for a new environment.
pub(crate) fn batch_of_line(
    alloc: Global,
    desk: &mut OneDesk,
    number: u64,
    line: Value,
) -> Result<Vec<u8>, Refusal>
    requires { desk.old.front < 2 ^ 64 - 1 }
    ensures effect { HasEffect result desk.new (batch_of_line number desk.old (view line)) }
    ensures front { desk.new.front ≤ desk.old.front + 1 }
{
    let environment = environment_in(alloc, desk, &line)?;
    let held = number_in(desk, environment.as_str());
    let batch = batch_in(alloc, held, &line)?;
    drop(line);
    put_batch(alloc, desk, number, environment.as_str(), &batch)
}

/// Processes a line with a feed. The parsed line is dropped before the feed is applied. Returns a refusal if the
/// environment or the feed can't be parsed, if the feed has no number, or if there is no room for a new environment.
pub(crate) fn feed_of_line(
    alloc: Global,
    desk: &mut OneDesk,
    number: u64,
    line: Value,
) -> Result<Vec<u8>, Refusal>
    requires { desk.old.front < 2 ^ 64 - 1 }
    ensures effect { HasEffect result desk.new (feed_of_line number desk.old (view line)) }
    ensures front { desk.new.front ≤ desk.old.front + 1 }
{
    let environment = environment_in(alloc, desk, &line)?;
    let batch = feed_in(alloc, &line)?;
    drop(line);
    put_batch(alloc, desk, number, environment.as_str(), &batch)
}
