//! Creates the writer of a board and its readers.
ghost use Rattle.std.specs.Prelude.{◌≡◌, ℕ, ◌<◌, ◌≤◌, All, IfOk, false, length, map};
ghost use Rattle.std.specs.Prelude.{is_some, true};
ghost use Rattle.unl_core.specs.Board.{AreSlots};
ghost use Rattle.unl_core.specs.DeskStates.{place_at};
ghost use Rattle.unl_edge_state.specs.Editions.{opening_at, opening_of, orderly_opening};
ghost use Rattle.unl_edge_state.specs.Reading.{HasBegun, IsNewReader};
ghost use Rattle.unl_publication.specs.Rule.{knows_opening, shared_knowledge};
ghost use Rattle.unl_publication.specs.Seen.{is_closed, written};

use crate::edition::Edition;
use crate::reader::EdgeReader;
use crate::writer::EdgeWriter;
use std::alloc::{AllocError, Global};
use std::sync::Wait;
use unl_core::{Board, Install, Slot, places_at};
use unl_documents::{List, Memory, Text, TryClone};
use unl_publication::{Ruled, Writer, new_reader};

/// Creates a writer with the opening board `board`, and `readers` readers (1 to 16) that know only this board. The
/// board must have at most eight slots, of different environments. The writer takes any install, and waits for readers
/// with `rt`. There is also room for `readers` lists that the writer has reported and no reader has learned yet.
///
/// # Errors
///
/// `Memory` if the call runs out of memory or a reader can't be made.
pub fn begin<'a, W: Wait>(
    rt: &'a W,
    alloc: Global,
    board: Board,
    readers: u32,
) -> Result<(EdgeWriter<'a, W>, Vec<EdgeReader>), Memory>
    requires readers { (0 < readers) × (readers ≤ 16) }
    requires slots { AreSlots board.slots }
    ensures writer { IfOk result (λ r. (table : ℕ) × (r.0 ≡ record {
      known = knows_opening table (opening_at board);
      places = map place_at board.slots;
      closed = false;
    })) }
    ensures count { IfOk result (λ r. length r.1.items ≡ readers) }
    ensures readers { IfOk result (λ r. All (HasBegun r.0.known) r.1.items) }
{
    begin_with(rt, alloc, board, readers, false)
}

/// As `begin`, but the publication is orderly: each version that is installed must result from the slot's version on
/// the published board, if there is one, by one batch that applies.
///
/// # Errors
///
/// `Memory` if the call runs out of memory or a reader can't be made.
pub fn begin_orderly<'a, W: Wait>(
    rt: &'a W,
    alloc: Global,
    board: Board,
    readers: u32,
) -> Result<(EdgeWriter<'a, W>, Vec<EdgeReader>), Memory>
    requires readers { (0 < readers) × (readers ≤ 16) }
    requires slots { AreSlots board.slots }
    ensures writer { IfOk result (λ r. (table : ℕ) × (r.0 ≡ record {
      known = knows_opening table (orderly_opening board);
      places = map place_at board.slots;
      closed = false;
    })) }
    ensures count { IfOk result (λ r. length r.1.items ≡ readers) }
    ensures readers { IfOk result (λ r. All (HasBegun r.0.known) r.1.items) }
    ensures new { IfOk result (λ r. All IsNewReader r.1.items) }
{
    match begin_with(rt, alloc, board, readers, true) {
        Ok((writer, readers)) => Ok((writer, readers)),
        Err(Memory) => Err(Memory),
    }
}

/// As `begin` or, if `orderly`, as `begin_orderly`.
fn begin_with<'a, W: Wait>(
    rt: &'a W,
    alloc: Global,
    board: Board,
    readers: u32,
    orderly: bool,
) -> Result<(EdgeWriter<'a, W>, Vec<EdgeReader>), Memory>
    requires readers { (0 < readers) × (readers ≤ 16) }
    requires slots { AreSlots board.slots }
    ensures writer { IfOk result (λ r. (table : ℕ) × (r.0 ≡ record {
      known = knows_opening table (opening_of orderly board);
      places = map place_at board.slots;
      closed = false;
    })) }
    ensures count { IfOk result (λ r. length r.1.items ≡ readers) }
    ensures readers { IfOk result (λ r. All (HasBegun r.0.known) r.1.items) }
{
    let places = places_at(alloc, board.slots.as_slice())?;
    let second = copy_of(alloc, &board)?;
    let count = readers as usize;
    let mut writer = Writer::new(
        rt,
        alloc,
        Edition::new(board, orderly),
        Edition::new(second, orderly),
        count + count,
    )?;
    match readers_at(alloc, &mut writer, count) {
        Ok(readers) => Ok((EdgeWriter::over(rt, writer, places), readers)),
        Err(memory) => {
            writer.end(rt);
            Err(memory)
        }
    }
}

/// Creates `count` readers that know what the writer knows.
fn readers_at(
    alloc: Global,
    writer: &mut Writer<Edition, Install, Ruled<Install>>,
    count: usize,
) -> Result<Vec<EdgeReader>, Memory>
    requires { is_some (written writer.old).opening ≡ true }
    ensures same { written writer.new ≡ written writer.old }
    ensures closed { is_closed writer.new ≡ is_closed writer.old }
    ensures count { IfOk result (λ readers. length readers.items ≡ count) }
    ensures readers { IfOk result (λ readers. All (HasBegun (shared_knowledge (written writer.old))) readers.items) }
{
    let mut readers = Vec::new(alloc);
    'made: while readers.len() < count {
        readers.push(reader_at(writer)?)?;
    }
    Ok(readers)
}

/// Adds a reader that knows what the writer knows.
fn reader_at(writer: &mut Writer<Edition, Install, Ruled<Install>>) -> Result<EdgeReader, Memory>
    requires { is_some (written writer.old).opening ≡ true }
    ensures same { written writer.new ≡ written writer.old }
    ensures closed { is_closed writer.new ≡ is_closed writer.old }
    ensures reader { IfOk result (HasBegun (shared_knowledge (written writer.old))) }
{
    let seat = new_reader(writer)?;
    Ok(EdgeReader::new(seat))
}

/// Copies a board. The copy shares the board's token book and snapshots.
fn copy_of(alloc: Global, board: &Board) -> Result<Board, Memory>
    ensures { IfOk result (λ copy. copy ≡ board.now) }
{
    Ok(Board {
        boot: board.boot,
        host: Text::new(alloc, board.host.as_str())?,
        generation: board.generation,
        book: board.book.copy()?,
        slots: List::from_vec(copies_of(alloc, board.slots.as_slice())?),
    })
}

/// Copies slots. Each copy shares its slot's snapshot.
fn copies_of(alloc: Global, slots: &[Slot]) -> Result<Vec<Slot>, Memory>
    ensures { IfOk result (λ copies. copies.items ≡ slots.now) }
{
    let mut copies = Vec::new(alloc);
    for slot in slots {
        copies.push(copy_of_slot(alloc, slot)?)?;
    }
    Ok(copies)
}

/// Copies a slot. The copy shares the slot's snapshot.
fn copy_of_slot(alloc: Global, slot: &Slot) -> Result<Slot, Memory>
    ensures { IfOk result (λ copy. copy ≡ slot.now) }
{
    Ok(Slot {
        environment: Text::new(alloc, slot.environment.as_str())?,
        snapshot: slot.snapshot.copy(alloc)?,
    })
}
