//! Writes the entity tags (`ETag`) of replies, and reads the number in the tag of a request (`If-None-Match`). The only
//! error of the functions here is out of memory.
ghost use Rattle.std.specs.Prelude.{◌≡◌, [], length, IfOk, string_bytes};
ghost use Rattle.unl_core.specs.Tag.{if_spelled, inlined_tag, number_of_tag, number_part, since_of, tag_prefix, tag_text};
ghost use Rattle.unl_core.specs.Tag.{whole_in, with_epoch};

use crate::board::Board;
use serde_json::Value;
use std::alloc::{AllocError, Global};
use unl_documents::parsing::read_json;
use unl_documents::{Memory, Text};
use unl_http_api::Bytes;

/// The tag of the content at the revision `number` within `epoch`, for the token at index `place` of the board's token
/// book. The content of a feed whose segments are inlined has another tag (`inlined_tag_of`).
pub(crate) fn tag_of(
    alloc: Global,
    board: &Board,
    place: u32,
    epoch: u64,
    number: u64,
) -> Result<Text, Memory>
    ensures { IfOk result (λ tag. tag ≡ tag_text board.now place (record { epoch = epoch; number = number })) }
{
    let prefix = tag_prefix(alloc, board, place, epoch)?;
    Ok(Text::from(format!(in alloc; "{prefix}{number}\"")?))
}

/// As `tag_of`, for a feed whose segments are inlined: the tag has an `i` after its number.
pub(crate) fn inlined_tag_of(
    alloc: Global,
    board: &Board,
    place: u32,
    epoch: u64,
    number: u64,
) -> Result<Text, Memory>
    ensures { IfOk result (λ tag. tag ≡ inlined_tag board.now place (record { epoch = epoch; number = number })) }
{
    let prefix = tag_prefix(alloc, board, place, epoch)?;
    Ok(Text::from(format!(in alloc; "{prefix}{number}i\"")?))
}

/// The part of a tag before its number, for the token at `place` and an epoch.
#[tactic(auto, unfolding(crate::specs::Tag::tag_prefix))]
fn tag_prefix(alloc: Global, board: &Board, place: u32, epoch: u64) -> Result<String, AllocError>
    ensures { IfOk result (λ s. string_bytes s ≡ tag_prefix board.now place epoch) }
{
    let boot = board.boot;
    let generation = board.generation;
    let epoch = epoch_mark(alloc, epoch)?;
    format!(in alloc; "\"{boot:016x}-{generation}-{place}-{epoch}")
}

/// The epoch followed by a dot, or an empty text if the epoch is 0.
fn epoch_mark(alloc: Global, epoch: u64) -> Result<String, AllocError>
    ensures { IfOk result (λ s. string_bytes s ≡ with_epoch epoch []) }
{
    if epoch == 0 {
        return Ok(String::new(alloc));
    }
    format!(in alloc; "{epoch}.")
}

/// The number in a request's tag. `None` if the request has no tag, or if the tag isn't exactly what `tag_of` returns
/// for any number, with this token and this epoch.
pub(crate) fn since_of(
    alloc: Global,
    board: &Board,
    place: u32,
    epoch: u64,
    tag: &Option<Bytes>,
) -> Result<Option<u64>, Memory>
    ensures { IfOk result (λ since. since ≡ since_of board.now place epoch tag.now) }
{
    match tag {
        None => Ok(None),
        Some(tag) => number_of_tag(alloc, board, place, epoch, tag.as_slice()),
    }
}

/// As `since_of`, for a request that has this tag.
#[tactic(auto, unfolding(crate::specs::Tag::number_of_tag))]
fn number_of_tag(
    alloc: Global,
    board: &Board,
    place: u32,
    epoch: u64,
    tag: &[u8],
) -> Result<Option<u64>, Memory>
    ensures { IfOk result (λ since. since ≡ number_of_tag board.now place epoch tag.now) }
{
    let prefix_length = tag_prefix_length(alloc, board, place, epoch)?;
    match whole_in(alloc, number_part(prefix_length, tag))? {
        None => Ok(None),
        Some(number) => if_spelled(alloc, board, place, epoch, tag, number),
    }
}

/// The number, if the tag is exactly the tag of that number for this token and epoch, otherwise `None`.
fn if_spelled(
    alloc: Global,
    board: &Board,
    place: u32,
    epoch: u64,
    tag: &[u8],
    number: u64,
) -> Result<Option<u64>, Memory>
    ensures { IfOk result (λ since. since ≡ if_spelled board.now place epoch tag.now number) }
{
    let spelled = tag_of(alloc, board, place, epoch, number)?;
    if tag == spelled.as_str().as_bytes() {
        Ok(Some(number))
    } else {
        Ok(None)
    }
}

/// The length of the part of a tag before its number, in bytes.
fn tag_prefix_length(alloc: Global, board: &Board, place: u32, epoch: u64) -> Result<usize, Memory>
    ensures { IfOk result (λ count. count ≡ length (tag_prefix board.now place epoch)) }
{
    let prefix = tag_prefix(alloc, board, place, epoch)?;
    Ok(prefix.len())
}

/// The bytes of a tag after its first `prefix_length` bytes and before its last byte, where the closing quote belongs.
/// Empty if the tag has at most `prefix_length` bytes.
fn number_part(prefix_length: usize, tag: &[u8]) -> &[u8]
    ensures { result.now ≡ number_part prefix_length tag.now }
{
    if tag.len() <= prefix_length {
        return &tag[tag.len()..];
    }
    &tag[prefix_length..tag.len() - 1]
}

/// Parses a whole number below 2^64 in JSON. `None` if the bytes are anything else.
fn whole_in(alloc: Global, bytes: &[u8]) -> Result<Option<u64>, Memory>
    ensures { IfOk result (λ number. number ≡ whole_in bytes.now) }
{
    match read_json(alloc, bytes)? {
        None => Ok(None),
        Some(value) => Ok(Value::as_u64(&value)),
    }
}
