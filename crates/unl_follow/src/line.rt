//! The line that a turn of `follow` (one request to the server) prints.
ghost use Rattle.std.specs.Prelude.{◌≡◌, ◌++◌, IfOk, codes, decimal, option_map, string_bytes};
ghost use Rattle.unl_follow.specs.Line.{line_of, number_text, on_text, revision_text, word_of};
ghost use Rattle.unl_follow.specs.Replica.{found_in};

use crate::fault::ReplicaRefusal;
use crate::replica::Replica;
use crate::subject::Subject;
use std::alloc::{AllocError, Global};
use unl_delta::EnvVersion;
use unl_documents::Memory;
use unl_refresh::Outcome;
use unl_strategies::Moment;

/// Returns the line of a turn: its number, its outcome, the number of the replica's version, and whether the feature is
/// on.
pub(crate) fn line(
    alloc: Global,
    number: u32,
    outcome: &Option<Outcome>,
    replica: &Replica,
    subject: &Subject<'_>,
    moment: &Moment,
) -> Result<String, Memory>
    ensures { IfOk result (λ line. string_bytes line ≡ line_of number (word_of outcome.now)
        (number_text replica.now.place.version)
        (on_text (found_in replica.now.place.version subject.now.feature subject.now.context moment.entry.now))) }
{
    let word = word(alloc, outcome)?;
    let represents = number_text(alloc, replica.version())?;
    let on = on_word(alloc, replica, subject, moment)?;
    let line = line_of(alloc, number, &word, &represents, on)?;
    Ok(line)
}

/// Returns the line with these parts.
#[tactic(auto, unfolding(crate::specs::Line::line_of))]
fn line_of(
    alloc: Global,
    number: u32,
    word: &String,
    represents: &String,
    on: &str,
) -> Result<String, AllocError>
    ensures { IfOk result (λ line. string_bytes line
        ≡ line_of number (string_bytes word.now) (string_bytes represents.now) on.now) }
{
    format!(in alloc; "turn {number} {word} number {represents} on {on}\n")
}

/// Returns the word for the outcome of a turn. `None` means that the peer failed.
fn word(alloc: Global, outcome: &Option<Outcome>) -> Result<String, AllocError>
    ensures { IfOk result (λ word. string_bytes word ≡ word_of outcome.now) }
{
    match outcome {
        None => String::from_str(alloc, "fault"),
        Some(Outcome::Published(_)) => String::from_str(alloc, "published"),
        Some(Outcome::Unchanged) => String::from_str(alloc, "unchanged"),
        Some(Outcome::Repeat) => String::from_str(alloc, "repeat"),
        Some(Outcome::Old) => String::from_str(alloc, "old"),
        Some(Outcome::Gap) => String::from_str(alloc, "gap"),
        Some(Outcome::Held) => String::from_str(alloc, "held"),
        Some(Outcome::Refused(status)) => refused(alloc, *status),
        Some(Outcome::BadAnswer(_)) => String::from_str(alloc, "bad"),
    }
}

/// Returns the word for a request that the server refused with this HTTP status.
fn refused(alloc: Global, status: u16) -> Result<String, AllocError>
    ensures { IfOk result (λ word. string_bytes word ≡ codes "refused " ++ decimal status) }
{
    format!(in alloc; "refused {status}")
}

/// Returns the printed number of a version, or a dash if there is none.
fn number_text(alloc: Global, version: Option<&EnvVersion>) -> Result<String, AllocError>
    ensures { IfOk result (λ text. string_bytes text ≡ number_text (option_map (λ v. v.now) version.entry)) }
{
    match version {
        None => String::from_str(alloc, "-"),
        Some(version) => revision_text(alloc, version.epoch, version.number),
    }
}

/// Returns the number, preceded by the epoch and a dot unless the epoch is 0.
fn revision_text(alloc: Global, epoch: u64, number: u64) -> Result<String, AllocError>
    ensures { IfOk result (λ text. string_bytes text ≡ revision_text epoch number) }
{
    if epoch == 0 {
        return format!(in alloc; "{number}");
    }
    format!(in alloc; "{epoch}.{number}")
}

/// Returns the word for whether the feature is on, or a dash if there is no version or no such feature.
fn on_word(
    alloc: Global,
    replica: &Replica,
    subject: &Subject<'_>,
    moment: &Moment,
) -> Result<&'static str, Memory>
    ensures { IfOk result (λ word. word.now
        ≡ on_text (found_in replica.now.place.version subject.now.feature subject.now.context moment.entry.now)) }
{
    match replica.evaluate(alloc, subject.feature, subject.context, moment) {
        Ok(Some(evaluation)) if evaluation.on => Ok("true"),
        Ok(Some(_)) => Ok("false"),
        Ok(None) | Err(ReplicaRefusal::NotReady) => Ok("-"),
        Err(ReplicaRefusal::Memory) => Err(Memory),
    }
}
