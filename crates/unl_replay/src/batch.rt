//! Parses the batch of a line, or its feed, which is converted to a batch.
ghost use Rattle.std.specs.Prelude.{IfOk};
ghost use Rattle.serde_json.specs.View.{view};
ghost use Rattle.unl_delta.specs.Valid.{IsValidBatch};
ghost use Rattle.unl_documents.specs.Results.{Gives};
ghost use Rattle.unl_documents.specs.States.{IsValidState};
ghost use Rattle.unl_replay.specs.Forms.{as_batch, batch_in, feed_in};
ghost use Rattle.unl_replay.specs.declared.refusal.Refusal.TheVariants.{Memory};

use crate::refusal::Refusal;
use serde_json::Value;
use std::alloc::Global;
use unl_delta::{Batch, of_feed, read_batch};
use unl_documents::document::Object;
use unl_documents::keys::{required, value_at};
use unl_documents::{BadDocument, Feed, FeedJson, Field};

/// Parses the batch of a line. `held` is the number of the environment's current version, if it has one. A batch
/// without `after` (the number that it continues from) is read as if its `after` were `held`.
///
/// # Errors
/// `Document` if the line has no batch, `Batch` if the batch can't be read, `Memory` if out of memory.
#[tactic(auto, using(crate::proofs::RefusalLemmas::refused_batch), unfolding(unl_documents::specs::Kinds::required))]
pub fn batch_in(alloc: Global, held: Option<u64>, line: &Value) -> Result<Batch, Refusal>
    ensures gives { Gives Memory result (batch_in held (view line.now)) }
    ensures valid { IfOk result IsValidBatch }
{
    let Some(value) = value_at(Field::Batch, line) else {
        return Err(Refusal::Document(BadDocument::Missing(Field::Batch)));
    };
    Ok(read_batch(alloc, value, held)?)
}

/// Parses the feed of a line, which is the whole state of an environment, and converts it to a batch.
///
/// # Errors
/// `Document` if the feed is missing or can't be read, `NoNumber` if it has no number, `Memory` if out of memory.
#[tactic(auto, using(crate::proofs::RefusalLemmas::refused))]
pub fn feed_in(alloc: Global, line: &Value) -> Result<Batch, Refusal>
    ensures gives { Gives Memory result (feed_in (view line.now)) }
    ensures valid { IfOk result IsValidBatch }
{
    let feed = required::<Object<FeedJson>>(alloc, Field::Feed, line)?;
    as_batch(alloc, feed)
}

/// Converts a feed to a batch with one hydration, which replaces the state of the environment. The error is `NoNumber`
/// if the feed has no number, or `Memory` if out of memory.
fn as_batch(alloc: Global, feed: Feed) -> Result<Batch, Refusal>
    requires { IsValidState feed.state }
    ensures gives { Gives Memory result (as_batch feed) }
    ensures valid { IfOk result IsValidBatch }
{
    match of_feed(alloc, feed)? {
        Some(batch) => Ok(batch),
        None => Err(Refusal::NoNumber),
    }
}
