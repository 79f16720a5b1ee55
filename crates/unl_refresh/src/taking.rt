//! Applies a server's reply to a slot (the part of the board for one environment).
ghost use Rattle.std.specs.Prelude.{◌≡◌, ◌≢◌, ◌<◌, ◌-◌, ◌^◌, Some, None, IfOk, IfErr, OnErr, IsTrue, length};
ghost use Rattle.unl_delta.specs.Batch.{verdict_of};
ghost use Rattle.unl_delta.specs.Installing.{place_of};
ghost use Rattle.unl_delta.specs.Valid.{IsValidBatch};
ghost use Rattle.unl_http_api.specs.RequestText.{fits_if_any};
ghost use Rattle.unl_refresh.specs.Named.{IsNamedOutcome};
ghost use Rattle.unl_refresh.specs.Refresh.{after_reading, after_reply, after_verdict, number_held, outcome_of, tag_after};

use crate::batches::read_batch;
use crate::outcome::{Bad, Outcome};
use std::alloc::Global;
use unl_delta::{Batch, Installer, Verdict, take_batch};
use unl_documents::Memory;
use unl_http_api::{BadReply, Bytes, Got};

/// The outcome of a reply, and the tag for the next request.
#[derive(Drop)]
pub(crate) struct AppliedReply {
    /// What the reply resulted in.
    pub(crate) outcome: Outcome,
    /// The tag for the next request. `None`: the server sends everything.
    pub(crate) tag: Option<Bytes>,
}

/// Applies the result of parsing a reply to a slot. If `delta`, events were requested, otherwise a feed. `tag` is the
/// tag that the request had.
pub(crate) fn take_reading<I: Installer>(
    alloc: Global,
    to: &mut I,
    slot: usize,
    delta: bool,
    tag: Option<Bytes>,
    reading: Result<Got, BadReply>,
) -> Result<AppliedReply, Memory>
    requires slot { slot < length (I.installed to.old).places }
    requires front { (I.installed to.old).front < 2 ^ 64 - 1 }
    requires tag { IsTrue (fits_if_any tag) }
    requires next_tag { IfOk reading (λ got. IsTrue (fits_if_any got.tag)) }
    requires named { IfErr reading (λ e. e ≢ BadReply.Memory) }
    ensures after { IfOk result (λ taken. record { outcome = taken.outcome; installed = I.installed to.new; tag = taken.tag }
        ≡ after_reading slot delta tag (I.installed to.old) reading) }
    ensures named { IfOk result (λ taken. IsNamedOutcome taken.outcome) }
    ensures fits { IfOk result (λ taken. IsTrue (fits_if_any taken.tag)) }
    ensures memory { OnErr result (I.installed to.new ≡ I.installed to.old) }
{
    match reading {
        Ok(got) => take_reply(alloc, to, slot, delta, tag, got),
        Err(bad) => Ok(unread(Bad::Reply(bad))),
    }
}

/// Returns the result of a reply that can't be parsed: nothing is applied, and the next request has no tag.
fn unread(bad: Bad) -> AppliedReply
    ensures { result ≡ record { outcome = Outcome.BadAnswer bad; tag = None } }
{
    AppliedReply {
        outcome: Outcome::BadAnswer(bad),
        tag: None,
    }
}

/// Applies a parsed reply, by its status and body.
fn take_reply<I: Installer>(
    alloc: Global,
    to: &mut I,
    slot: usize,
    delta: bool,
    tag: Option<Bytes>,
    got: Got,
) -> Result<AppliedReply, Memory>
    requires slot { slot < length (I.installed to.old).places }
    requires front { (I.installed to.old).front < 2 ^ 64 - 1 }
    requires tag { IsTrue (fits_if_any tag) }
    requires next_tag { IsTrue (fits_if_any got.tag) }
    ensures after { IfOk result (λ taken. record { outcome = taken.outcome; installed = I.installed to.new; tag = taken.tag }
        ≡ after_reply slot delta tag (I.installed to.old) got) }
    ensures named { IfOk result (λ taken. IsNamedOutcome taken.outcome) }
    ensures fits { IfOk result (λ taken. IsTrue (fits_if_any taken.tag)) }
    ensures memory { OnErr result (I.installed to.new ≡ I.installed to.old) }
{
    if got.status == 304 {
        return Ok(AppliedReply {
            outcome: Outcome::Unchanged,
            tag,
        });
    }
    if got.status != 200 {
        return Ok(AppliedReply {
            outcome: Outcome::Refused(got.status),
            tag,
        });
    }
    let held = number_held(to, slot);
    match read_batch(alloc, delta, held, got.body.as_slice()) {
        Ok(Ok(batch)) => follow_batch(alloc, to, slot, &batch, got.tag),
        Ok(Err(bad)) => Ok(unread(bad)),
        Err(Memory) => Err(Memory),
    }
}

/// Returns the number of a slot's version, or `None` if the slot has no version.
fn number_held<I: Installer>(to: &I, slot: usize) -> Option<u64>
    requires { slot < length (I.installed to.now).places }
    ensures { result ≡ number_held (place_of (I.installed to.now) slot) }
{
    match &to.place(slot).version {
        Some(version) => Some(version.get().number),
        None => None,
    }
}

/// Judges a batch for a slot, and does what the verdict says. `tag` is the tag of the reply that the batch came in.
fn follow_batch<I: Installer>(
    alloc: Global,
    to: &mut I,
    slot: usize,
    batch: &Batch,
    tag: Option<Bytes>,
) -> Result<AppliedReply, Memory>
    requires slot { slot < length (I.installed to.old).places }
    requires front { (I.installed to.old).front < 2 ^ 64 - 1 }
    requires batch { IsValidBatch batch.now }
    requires tag { IsTrue (fits_if_any tag) }
    ensures after { IfOk result (λ taken. record { outcome = taken.outcome; installed = I.installed to.new; tag = taken.tag }
        ≡ after_verdict slot batch.now tag (I.installed to.old) (verdict_of (place_of (I.installed to.old) slot) batch.now)) }
    ensures named { IfOk result (λ taken. IsNamedOutcome taken.outcome) }
    ensures fits { IfOk result (λ taken. IsTrue (fits_if_any taken.tag)) }
    ensures memory { OnErr result (I.installed to.new ≡ I.installed to.old) }
{
    let verdict = take_batch(alloc, to, slot, batch)?;
    Ok(AppliedReply {
        outcome: outcome_of(verdict, to.front()),
        tag: tag_after(verdict, tag),
    })
}

/// Returns the outcome of a verdict. `front` is the number of publications after the verdict was carried out.
fn outcome_of(verdict: Verdict, front: u64) -> Outcome
    ensures outcome { result ≡ outcome_of verdict front }
    ensures named { IsNamedOutcome result }
{
    match verdict {
        Verdict::Apply => Outcome::Published(front),
        Verdict::Repeat => Outcome::Repeat,
        Verdict::Old => Outcome::Old,
        Verdict::Gap => Outcome::Gap,
        Verdict::Held => Outcome::Held,
    }
}

/// Returns the tag for the next request: the reply's `tag` if the slot now has the whole batch, otherwise none, so that
/// the server sends everything.
fn tag_after(verdict: Verdict, tag: Option<Bytes>) -> Option<Bytes>
    requires { IsTrue (fits_if_any tag) }
    ensures after { result ≡ tag_after verdict tag }
    ensures fits { IsTrue (fits_if_any result) }
{
    match verdict {
        Verdict::Apply | Verdict::Repeat => tag,
        Verdict::Old | Verdict::Gap | Verdict::Held => None,
    }
}
