//! `WriteJson`: writing documents as JSON text, token by token.
//!
//! The functions that take a writer append to its output. The only error of all functions here is out of memory, after
//! which a part of the tokens may have been written.
ghost use Rattle.std.specs.Prelude.{◌≡◌, ◌∷◌, [], Some, All, IfOk, OnOk, map, option_map};
ghost use Rattle.json.specs.Token.{key};
ghost use Rattle.serde_json.specs.Data.{Data, boolean, string as text_data};
ghost use Rattle.serde_json.specs.Written.{compact_text};
ghost use Rattle.unl_documents.specs.Key.{key_of};
ghost use Rattle.unl_documents.specs.Limits.{Anything};
ghost use Rattle.unl_documents.specs.Chunks.{joined};
ghost use Rattle.unl_documents.specs.Tokens.{Wrote, all_tokens, tokens_at, tokens_at_some, tokens_of};
ghost use Rattle.unl_documents.specs.Writing.{count, list_data, unless_zero as those_but_zero};

use crate::chunked_list::{Chunk, ChunkedList};
use crate::field::Field;
use crate::list::List;
use crate::memory::Memory;
use crate::shared::Shared;
use crate::text::Text;
use crate::to_value::unless_zero;
use json::Writer;
use std::alloc::Global;

/// The initial capacity of an output buffer, in bytes.
pub(crate) const ROOM: usize = 128;

/// A type that can be written as JSON text.
pub trait WriteJson: Drop {
    // The JSON value whose text is written.
    ghost written: { Self → Data };

    // The condition for writing `self`: for example, the parameters of a strategy must be sorted by key, because the
    // keys of an object are sorted in its JSON text.
    ghost is_printable: { Self → Type 0 };

    /// Writes the JSON text of `self`.
    fn print(&self, out: &mut Writer) -> Result<(), Memory>
        requires { is_printable self.now }
        ensures { OnOk result (Wrote (tokens_of (written self.now)) out.old out.new) };
}

impl WriteJson for Text {
    ghost written = { text_data };

    ghost is_printable = { Anything };

    fn print(&self, out: &mut Writer) -> Result<(), Memory> {
        out.string(self.as_str())?;
        Ok(())
    }
}

impl WriteJson for bool {
    ghost written = { boolean };

    ghost is_printable = { Anything };

    fn print(&self, out: &mut Writer) -> Result<(), Memory> {
        out.boolean(*self)?;
        Ok(())
    }
}

impl WriteJson for u32 {
    ghost written = { count };

    ghost is_printable = { Anything };

    fn print(&self, out: &mut Writer) -> Result<(), Memory> {
        out.u64(u64::from(*self))?;
        Ok(())
    }
}

impl WriteJson for u64 {
    ghost written = { count };

    ghost is_printable = { Anything };

    fn print(&self, out: &mut Writer) -> Result<(), Memory> {
        out.u64(*self)?;
        Ok(())
    }
}

impl<P: WriteJson> WriteJson for Shared<P> {
    ghost written = { P.written };

    ghost is_printable = { P.is_printable };

    fn print(&self, out: &mut Writer) -> Result<(), Memory> {
        self.get().print(out)
    }
}

impl<P: WriteJson> WriteJson for List<P> {
    ghost written = { list_data P.written };

    ghost is_printable = { All P.is_printable };

    fn print(&self, out: &mut Writer) -> Result<(), Memory> {
        out.begin_array()?;
        print_each(out, self.as_slice())?;
        out.end_array()?;
        Ok(())
    }
}

impl<P: WriteJson> WriteJson for ChunkedList<P> {
    ghost written = { list_data P.written };

    ghost is_printable = { All P.is_printable };

    fn print(&self, out: &mut Writer) -> Result<(), Memory> {
        out.begin_array()?;
        print_chunks(out, self.chunks())?;
        out.end_array()?;
        Ok(())
    }
}

/// Writes the items of the chunks in order, without brackets.
fn print_chunks<P: WriteJson>(out: &mut Writer, chunks: &[Chunk<P>]) -> Result<(), Memory>
    requires { All P.is_printable (joined chunks.now) }
    ensures { OnOk result (Wrote (all_tokens (map P.written (joined chunks.now))) out.old out.new) }
{
    for chunk in chunks {
        print_each(out, chunk.get().as_slice())?;
    }
    Ok(())
}

/// Writes the items in order, without brackets.
pub fn print_each<P: WriteJson>(out: &mut Writer, items: &[P]) -> Result<(), Memory>
    requires { All P.is_printable items.now }
    ensures { OnOk result (Wrote (all_tokens (map P.written items.now)) out.old out.new) }
{
    for item in items {
        item.print(out)?;
    }
    Ok(())
}

/// Writes a key. Its value must be written next.
#[inline]
pub fn print_key(out: &mut Writer, field: Field) -> Result<(), Memory>
    ensures { OnOk result (Wrote (key (key_of field) ∷ []) out.old out.new) }
{
    out.key(field.key())?;
    Ok(())
}

/// Writes a key and its value.
#[inline]
pub fn print_at<P: WriteJson>(out: &mut Writer, field: Field, value: &P) -> Result<(), Memory>
    requires { P.is_printable value.now }
    ensures { OnOk result (Wrote (tokens_at field (P.written value.now)) out.old out.new) }
{
    print_key(out, field)?;
    value.print(out)
}

/// Writes a key and its value, or nothing if there is no value.
pub fn print_some<P: WriteJson>(
    out: &mut Writer,
    field: Field,
    found: &Option<P>,
) -> Result<(), Memory>
    requires { (value : P) → found.now ≡ Some value → P.is_printable value }
    ensures { OnOk result (Wrote (tokens_at_some field (option_map P.written found.now)) out.old out.new) }
{
    match found {
        None => Ok(()),
        Some(value) => print_at(out, field, value),
    }
}

/// Writes a key and a number, or nothing if the number is 0.
pub fn print_unless_zero(out: &mut Writer, field: Field, number: u64) -> Result<(), Memory>
    ensures { OnOk result (Wrote (tokens_at_some field (option_map count (those_but_zero number))) out.old out.new) }
{
    print_some(out, field, &unless_zero(number))
}

/// Returns the JSON text of `value`, without whitespace between tokens.
pub fn text_of<P: WriteJson>(alloc: Global, value: &P) -> Result<List<u8>, Memory>
    requires { P.is_printable value.now }
    ensures { IfOk result (λ text. text ≡ compact_text (P.written value.now)) }
{
    let mut out = Writer::new(Vec::with_capacity(alloc, ROOM)?);
    value.print(&mut out)?;
    Ok(List::from_vec(out.into_inner()))
}
