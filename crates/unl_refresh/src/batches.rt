//! Reads the body of a server's reply as a batch, that is, as events that change the flags of an environment.
ghost use Rattle.std.specs.Prelude.{◌≡◌, IfOk, IfErr};
ghost use Rattle.unl_delta.specs.Reading.{batch_of_bytes};
ghost use Rattle.unl_delta.specs.Valid.{IsValidBatch};
ghost use Rattle.unl_documents.specs.States.{feed_in};
ghost use Rattle.unl_refresh.specs.Refresh.{batch_in, delta_in, feed_read};
ghost use Rattle.unl_refresh.specs.Named.{IsNamed};

use crate::outcome::Bad;
use std::alloc::Global;
use unl_delta::{BadBatch, Batch, of_feed, read_batch_bytes};
use unl_documents::{BadDocument, Memory, read_feed};

/// Reads a body as a batch. If `delta`, events were requested, and the body is a batch of events; otherwise it is a
/// feed, which becomes one hydration (an event that replaces the whole state). `held` is the number of the slot's
/// version, if the slot has one. A batch of events that lacks `after`, the number that it continues, is read as if
/// `after` were `held`. The inner error says why the body can't be read.
///
/// # Errors
/// `Memory`: out of memory.
pub(crate) fn read_batch(
    alloc: Global,
    delta: bool,
    held: Option<u64>,
    body: &[u8],
) -> Result<Result<Batch, Bad>, Memory>
    ensures read { IfOk result (λ read. read ≡ batch_in delta held body.now) }
    ensures valid { IfOk result (λ read. IfOk read IsValidBatch) }
    ensures named { IfOk result (λ read. IfErr read IsNamed) }
{
    if delta {
        read_delta(alloc, held, body)
    } else {
        read_hydration(alloc, body)
    }
}

/// Reads a body as a batch of events, as [`read_batch`] does with `delta`.
fn read_delta(alloc: Global, held: Option<u64>, body: &[u8]) -> Result<Result<Batch, Bad>, Memory>
    ensures read { IfOk result (λ read. read ≡ delta_in (batch_of_bytes held body.now)) }
    ensures valid { IfOk result (λ read. IfOk read IsValidBatch) }
    ensures named { IfOk result (λ read. IfErr read IsNamed) }
{
    match read_batch_bytes(alloc, body, held) {
        Ok(batch) => Ok(Ok(batch)),
        Err(BadBatch::Memory) => Err(Memory),
        Err(fault) => Ok(Err(Bad::Batch(fault))),
    }
}

/// Reads a body as a feed and returns it as one hydration.
fn read_hydration(alloc: Global, body: &[u8]) -> Result<Result<Batch, Bad>, Memory>
    ensures read { IfOk result (λ read. read ≡ feed_read (feed_in body.now)) }
    ensures valid { IfOk result (λ read. IfOk read IsValidBatch) }
    ensures named { IfOk result (λ read. IfErr read IsNamed) }
{
    match read_feed(alloc, body) {
        Ok(feed) => match of_feed(alloc, feed) {
            Ok(Some(batch)) => Ok(Ok(batch)),
            Ok(None) => Ok(Err(Bad::NoNumber)),
            Err(Memory) => Err(Memory),
        },
        Err(BadDocument::Memory) => Err(Memory),
        Err(fault) => Ok(Err(Bad::Feed(fault))),
    }
}
