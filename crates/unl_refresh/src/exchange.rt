//! One exchange with a peer: a connect, a request, and the reply to it.
ghost use Rattle.std.specs.Prelude.{◌≡◌, ◌≢◌, ◌<◌, [], IfOk, IfErr, OnOk, IsTrue, length, option_map};
ghost use Rattle.unl_base.specs.Doors.{next_of};
ghost use Rattle.unl_base.specs.Peers.{history_of};
ghost use Rattle.unl_http_api.specs.Received.{IsReply};
ghost use Rattle.unl_http_api.specs.RequestText.{fits_if_any};
ghost use Rattle.unl_refresh.specs.Exchange.{Asks, AsksAtMostOnce, HasPeerCause, HoldsEnough, IsParsedFrom, ReadsPiece};

use crate::outcome::RefreshFault;
use std::alloc::Global;
use unl_base::{Failed, Peer, write_all};
use unl_documents::Memory;
use unl_http_api::{BadReply, Got, ReplyReader};

/// The most bytes that one read takes. This number is chosen by this project.
const PIECE: usize = 16_384;

/// The number of received bytes after which no further byte changes how the reply is parsed: one more than a head of
/// 8192 bytes and a body of 16 MiB, the limits of `unl_http_api`.
const ENOUGH: usize = 16_785_409;

/// Connects to a peer, sends a request and reads the reply, to the end of the stream or until at least [`ENOUGH`] bytes
/// are read. The inner result is the parsed reply, or why the bytes are not a valid one.
///
/// # Errors
/// `PeerFault` if the peer can't be connected to, written to or read; `Memory` if out of memory.
pub(crate) fn exchange<P: Peer>(
    alloc: Global,
    peer: &mut P,
    request: &[u8],
) -> Result<Result<Got, BadReply>, RefreshFault>
    ensures read { IfOk result (IsParsedFrom (option_map next_of (P.state peer.old).replies)) }
    ensures tag { IfOk result (λ reading. IfOk reading (λ got. IsTrue (fits_if_any got.tag))) }
    ensures named { IfOk result (λ reading. IfErr reading (λ e. e ≢ BadReply.Memory)) }
    ensures asks { OnOk result (Asks request.now
        (P.state peer.old).replies (history_of (P.state peer.old)) (P.state peer.new).replies (history_of (P.state peer.new))) }
    ensures once { AsksAtMostOnce request.now
        (P.state peer.old).replies (history_of (P.state peer.old)) (P.state peer.new).replies (history_of (P.state peer.new)) }
    ensures causes { HasPeerCause result (P.Source.faults peer.old) (P.Source.faults peer.new) }
{
    peer.connect()?;
    write_all(peer, request)?;
    read_reply(alloc, peer)
}

/// Reads a reply as [`exchange`] does, from a peer to which the request was sent.
fn read_reply<P: Peer>(alloc: Global, peer: &mut P) -> Result<Result<Got, BadReply>, RefreshFault>
    ensures read { IfOk result (IsParsedFrom (P.Source.left peer.old)) }
    ensures tag { IfOk result (λ reading. IfOk reading (λ got. IsTrue (fits_if_any got.tag))) }
    ensures named { IfOk result (λ reading. IfErr reading (λ e. e ≢ BadReply.Memory)) }
    ensures other_parts { P.Source.other_parts peer.new ≡ P.Source.other_parts peer.old }
    ensures causes { HasPeerCause result (P.Source.faults peer.old) (P.Source.faults peer.new) }
{
    let mut reader = ReplyReader::new(alloc);
    receive(peer, &mut reader)?;
    match finished(alloc, reader) {
        Ok(reading) => Ok(reading),
        Err(Memory) => Err(RefreshFault::Memory),
    }
}

/// Parses the bytes received. Out of memory is the outer error, any other fault the inner one.
fn finished(alloc: Global, reader: ReplyReader) -> Result<Result<Got, BadReply>, Memory>
    ensures read { IfOk result (IsReply reader) }
    ensures tag { IfOk result (λ reading. IfOk reading (λ got. IsTrue (fits_if_any got.tag))) }
    ensures named { IfOk result (λ reading. IfErr reading (λ e. e ≢ BadReply.Memory)) }
{
    match reader.finish(alloc) {
        Ok(got) => Ok(Ok(got)),
        Err(BadReply::Head) => Ok(Err(BadReply::Head)),
        Err(BadReply::Short) => Ok(Err(BadReply::Short)),
        Err(BadReply::TooLarge) => Ok(Err(BadReply::TooLarge)),
        Err(BadReply::Memory) => Err(Memory),
    }
}

/// Reads in pieces into `reader`, to the end of the stream or until `reader` holds at least [`ENOUGH`] bytes.
fn receive<P: Peer>(peer: &mut P, reader: &mut ReplyReader) -> Result<(), RefreshFault>
    requires { reader.old ≡ [] }
    ensures held { OnOk result (HoldsEnough (P.Source.left peer.old) reader.new) }
    ensures other_parts { P.Source.other_parts peer.new ≡ P.Source.other_parts peer.old }
    ensures causes { HasPeerCause result (P.Source.faults peer.old) (P.Source.faults peer.new) }
{
    let mut room = [0; PIECE];
    while reader.held() < ENOUGH {
        match read_piece(peer, reader, &mut room) {
            Ok(true) => (),
            Ok(false) => return Ok(()),
            Err(fault) => return Err(fault),
        }
    }
    Ok(())
}

/// Reads one piece into `room` and appends it to the bytes that `reader` holds. Returns false at the end of the stream,
/// otherwise true.
fn read_piece<P: Peer>(
    peer: &mut P,
    reader: &mut ReplyReader,
    room: &mut [u8],
) -> Result<bool, RefreshFault>
    requires { 0 < length room.old }
    ensures piece { IfOk result (λ some. ReadsPiece some reader.old (P.Source.left peer.old) reader.new (P.Source.left peer.new)) }
    ensures other_parts { P.Source.other_parts peer.new ≡ P.Source.other_parts peer.old }
    ensures causes { HasPeerCause result (P.Source.faults peer.old) (P.Source.faults peer.new) }
{
    match peer.read(room) {
        Ok(0) => Ok(false),
        Ok(count) => match reader.feed(&room[..count]) {
            Ok(()) => Ok(true),
            Err(Memory) => Err(RefreshFault::Memory),
        },
        Err(Failed) => Err(RefreshFault::PeerFault),
    }
}
