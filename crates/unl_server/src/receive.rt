//! Receives requests from a link: reads bytes until a request is complete or refused, the input ends, or a read or an
//! allocation fails.
ghost use Rattle.std.specs.Prelude.{◌≡◌, ◌<◌, ◌≤◌, ◌==◌, if◌then◌else◌, length};
ghost use Rattle.unl_base.specs.Faults.{Rose};
ghost use Rattle.unl_http_api.specs.Requests.{IsUnfinished};
ghost use Rattle.unl_server.specs.Receive.{Receives, ReceivesTurn};

use std::alloc::Global;
use unl_base::{Failed, Link};
use unl_documents::Memory;
use unl_http_api::{Next, Reader, Request};

/// The most bytes per read.
pub(crate) const PIECE: usize = 16_384;

/// The outcome of receiving a request.
#[derive(Drop)]
pub(crate) enum Received {
    /// A complete request.
    Request(Request),
    /// The received bytes are refused, with this status for the reply.
    Bad(u16),
    /// The input ended, and nothing of a further request had arrived.
    Closed,
    /// The input ended inside a request.
    CutOff,
    /// A read failed.
    ReadFault,
    /// Out of memory.
    Memory,
}

/// Receives the next request, or returns why there is none. `room` is the read buffer; its contents don't matter.
pub(crate) fn receive<L: Link>(
    alloc: Global,
    reader: &mut Reader,
    link: &mut L,
    room: &mut [u8; PIECE],
) -> Received
    ensures found { Receives reader.old (L.left link.old) result reader.new (L.left link.new) }
    ensures sent { L.sent link.new ≡ L.sent link.old }
    ensures later { L.Source.faults link.old ≤ L.Source.faults link.new }
    ensures cause { result ≡ Received.ReadFault → Rose (L.Source.faults link.old) (L.Source.faults link.new) }
{
    loop {
        if let Some(received) = turn(alloc, reader, link, room) {
            return received;
        }
    }
}

/// Takes the next request from the reader. If it is incomplete, reads more bytes once, and returns `None` if the reader
/// got some. `room`, the read buffer, must not be empty.
fn turn<L: Link>(
    alloc: Global,
    reader: &mut Reader,
    link: &mut L,
    room: &mut [u8],
) -> Option<Received>
    requires { 0 < length room.old }
    ensures turn { ReceivesTurn reader.old (L.left link.old) result reader.new (L.left link.new) }
    ensures sent { L.sent link.new ≡ L.sent link.old }
    ensures later { L.Source.faults link.old ≤ L.Source.faults link.new }
    ensures cause { result ≡ Some Received.ReadFault → Rose (L.Source.faults link.old) (L.Source.faults link.new) }
{
    match reader.next(alloc) {
        Ok(Next::Request(request)) => Some(Received::Request(request)),
        Ok(Next::Bad(status)) => Some(Received::Bad(status)),
        Ok(Next::More) => read_piece(reader, link, room),
        Err(Memory) => Some(Received::Memory),
    }
}

/// Reads more bytes of an incomplete request into the reader. Returns `None` if the reader got some, otherwise why not.
fn read_piece<L: Link>(reader: &mut Reader, link: &mut L, room: &mut [u8]) -> Option<Received>
    requires room { 0 < length room.old }
    requires unfinished { IsUnfinished reader.old }
    requires few { length reader.old < 1056768 }
    ensures turn { ReceivesTurn reader.old (L.left link.old) result reader.new (L.left link.new) }
    ensures sent { L.sent link.new ≡ L.sent link.old }
    ensures later { L.Source.faults link.old ≤ L.Source.faults link.new }
    ensures cause { result ≡ Some Received.ReadFault → Rose (L.Source.faults link.old) (L.Source.faults link.new) }
{
    match link.read(room) {
        Ok(0) => Some(ended(reader)),
        Ok(count) => match reader.feed(&room[..count]) {
            Ok(()) => None,
            Err(Memory) => Some(Received::Memory),
        },
        Err(Failed) => Some(Received::ReadFault),
    }
}

/// How the input ended: `Closed` if no received byte is left in the reader, otherwise `CutOff`.
fn ended(reader: &Reader) -> Received
    ensures { result ≡ (if length reader.now == 0 then Received.Closed else Received.CutOff) }
{
    if reader.held() == 0 {
        Received::Closed
    } else {
        Received::CutOff
    }
}
