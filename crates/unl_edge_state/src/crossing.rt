//! Proofs that the reader and the writer of the edge's published boards can be sent to another thread. A single proof
//! search over all the types inside a board times out, so the proof has steps. The first is for editions (an edition is
//! a board, the number of installs that led to it, and whether its publication is orderly) and for installs. The next
//! is for the readers and writers of editions in `left_right`, the crate that shares a value between a writer and
//! several readers. Then follow the writer of `unl_publication`, and the reader and the writer of the edge.
ghost use denote.Ref.{NamedLft};
ghost use Rattle.std.specs.Thread.{IsSend, IsSync};
ghost use Rattle.unl_core.specs.contracts.board.Install as InstallType;
ghost use Rattle.unl_delta.specs.contracts.version.Place as PlaceType;
ghost use Rattle.unl_edge_state.specs.Crossing.{publishing_type, seat_type, sides_type, writer_type};
ghost use Rattle.unl_edge_state.specs.contracts.edition.Edition as EditionType;
ghost use Rattle.unl_edge_state.specs.contracts.reader.EdgeReader as ReaderType;

use crate::edition::Edition;
use crate::reader::EdgeReader;
use left_right::reader::Reader as Seat;
use left_right::writer::Writer as Sides;
use std::sync::Wait;
use unl_core::Install;
use unl_delta::Place;
use unl_publication::{Knowledge, Ruled, Writer as Publishing};

/// Turns the bound `T: Sync` into a fact that proofs can use.
fn sync_of<T: Sync>()
    ensures { IsSync T.row }
{}

/// Turns the bound `T: Send` into a fact that proofs can use.
fn send_of<T: Send>()
    ensures { IsSend T.row }
{}

/// Editions are `Sync`.
fn edition_sync()
    ensures { IsSync EditionType.the_row }
{
    sync_of::<Edition>()
}

/// Editions are `Send`.
fn edition_send()
    ensures { IsSend EditionType.the_row }
{
    send_of::<Edition>()
}

/// Installs are `Send`.
fn install_send()
    ensures { IsSend InstallType.the_row }
{
    send_of::<Install>()
}

/// Installs are `Sync`.
fn install_sync()
    ensures { IsSync InstallType.the_row }
{
    sync_of::<Install>()
}

/// A `left_right` reader of editions is `Send`.
fn seats_cross()
    ensures { IsSend seat_type }
{
    edition_sync();
    edition_send();
    install_send();
    install_sync();
    send_of::<Seat<Edition, Knowledge<Edition, Install>, Ruled<Install>>>()
}

/// A reader can be sent to another thread. A caller that sends a reader calls this function first, to have that fact
/// in its proof. Does nothing at run time.
pub fn readers_are_send()
    ensures { IsSend ReaderType.the_row }
{
    seats_cross();
    send_of::<EdgeReader>()
}

/// A `left_right` writer of editions is `Send`.
fn sides_cross()
    ensures { IsSend sides_type }
{
    edition_sync();
    edition_send();
    install_send();
    install_sync();
    send_of::<Sides<Edition, Install, Knowledge<Edition, Install>, Ruled<Install>>>()
}

/// The `unl_publication` writer of editions is `Send`.
fn publishing_crosses()
    ensures { IsSend publishing_type }
{
    sides_cross();
    send_of::<Publishing<Edition, Install, Ruled<Install>>>()
}

/// The place of a slot (the slot's version, and whether the slot is held) is `Send`.
fn place_send()
    ensures { IsSend PlaceType.the_row }
{
    send_of::<Place>()
}

/// A writer can be sent to another thread, if its runtime `W`, with which it waits, is `Sync`. A caller that sends a
/// writer calls this function first, to have that fact in its proof. Does nothing at run time.
pub fn writers_are_send<W: Wait + Sync>()
    ensures { (lifetime : NamedLft) → IsSend (writer_type lifetime W.row) }
{
    publishing_crosses();
    place_send()
}
