//! A connection while a link serves it. A door accepts connections, holds those that wait for their clients, and hands
//! out the others as links, each of which a worker serves.
ghost use Rattle.std.specs.Prelude.{◌≡◌, ◌≤◌, ◌++◌, drop, false, length, take, true, IfOk, MatchResult, OnErr};
ghost use Rattle.std.specs.Io.KnownBytes.{Appends, Keeps, WriteAppends};
ghost use Rattle.unl_net.specs.Buffers.{ConsumesReturned, coming, outgoing, unsent};
ghost use Rattle.unl_net.specs.Phases.{fate_of};

use crate::connection::{Connection, PIECE};
use crate::shared::SharedWithLinks;
use std::alloc::Global;
use std::io;
use std::io::{ErrorKind, Read, Write};
use std::net::OpenStream;
use std::sync::{Arc, Wait};
use std::time::Clock;

/// The maximum number of waits of 10 milliseconds in a write, or in a read at the stage `Open`: 30 seconds in all.
const MOST_WAITS: u64 = 3_000;

/// While other links wait for a worker, a read at the stage `Open` ends without a byte only after more than this number
/// of waits of 10 milliseconds.
const FEW_WAITS: u64 = 10;

/// The maximum number of waits of 10 milliseconds for a further request if the thread that accepts also serves the
/// link: the door accepts nothing meanwhile.
const MOST_WAITS_ALONE: u64 = 64;

/// The maximum number of pieces (of 4,096 bytes at most) that are read of an unfinished request.
const MOST_REQUEST_PIECES: u64 = 300;

/// The stage of a link. A request is opened once it is whole: only then may the link read it.
#[derive(Clone, Copy, PartialEq)]
enum LinkStage {
    /// Each opened request has a reply, or at least its first piece.
    Answered,
    /// A request was opened for the link to read, and nothing of its reply was written yet.
    Asked,
    /// All bytes are read as they come, and no further link serves the connection.
    Open,
    /// The link has ended between two requests, and its connection goes back to the door.
    Parked,
    /// A read or a write failed.
    Failed,
}

/// A connection while a link serves it. The link reads whole requests only, except at the stage `Open`. It ends once it
/// has replied to the opened requests, and no further request is received in time or bytes of a reply are kept unsent.
pub(crate) struct ServedConnection<S: Read + Write + OpenStream + Drop, C: Clock + Wait + Drop> {
    connection: Connection<S>,
    shared: Arc<SharedWithLinks<S>>,
    alloc: Global,
    clock: C,
    stage: LinkStage,
    /// How many times the link may still wait for a further request, if the thread that accepts also serves it.
    waits_left: u64,
}

impl<S: Read + Write + OpenStream + Drop, C: Clock + Wait + Drop> ServedConnection<S, C> {
    /// Begins to serve a connection. `alone`: the door has no other connection. Only then may the link wait for a
    /// further request if the thread that accepts also serves it.
    pub fn new(
        alloc: Global,
        clock: C,
        shared: Arc<SharedWithLinks<S>>,
        connection: Connection<S>,
        alone: bool,
    ) -> Self
        ensures { result.connection ≡ connection }
    {
        let stage = stage_of(&connection);
        ServedConnection {
            connection,
            shared,
            alloc,
            clock,
            stage,
            waits_left: if alone { MOST_WAITS_ALONE } else { 0 },
        }
    }

    /// Reads once. Returns 0 once the link has ended.
    ///
    /// # Errors
    /// The error of the stream; `TimedOut` if no byte came in time; out of memory.
    pub fn read(&mut self, room: &mut [u8]) -> io::Result<usize>
        ensures fits { IfOk result (λ n. n ≤ length room.new) }
        ensures consumes { ConsumesReturned (coming self.old.connection.received (S.remaining self.old.connection.stream))
            (coming self.new.connection.received (S.remaining self.new.connection.stream)) result room.new }
    {
        let read = self.read_some(room);
        if read.is_err() {
            self.stage = LinkStage::Failed;
        }
        read
    }

    /// Writes once. Returns how many bytes of the piece were sent or kept to be sent later.
    ///
    /// # Errors
    /// The error of the stream. `TimedOut` if the stream took no byte of the piece in time, or if it took none at once,
    /// the piece can't be kept, and other links wait for a worker (unless the door has accepted all its connections).
    pub fn write(&mut self, piece: &[u8]) -> io::Result<usize>
        ensures fits { IfOk result (λ n. n ≤ length piece.now) }
        ensures appends { WriteAppends (outgoing (S.contents self.old.connection.stream) self.old.connection.to_send)
            (outgoing (S.contents self.new.connection.stream) self.new.connection.to_send) result piece.now }
    {
        let written = self.write_some(piece);
        if written.is_err() {
            self.stage = LinkStage::Failed;
        }
        written
    }

    /// Whether some link waits for a worker: there are more links than workers. Always true if there are no workers.
    fn is_crowded(&self) -> bool {
        let links = Arc::strong_count(&self.shared).saturating_sub(1);
        links > self.shared.workers as usize
    }

    /// Whether the link may wait for a further request.
    fn may_wait(&self) -> bool {
        if self.shared.workers == 0 {
            self.waits_left > 0
        } else {
            !self.is_crowded()
        }
    }

    /// Reads once, as the stage of the link allows.
    #[tactic(auto, using(crate::proofs::Moving::link_takes, crate::proofs::Moving::then_consumed, crate::proofs::Trying::none_consumed))]
    fn read_some(&mut self, room: &mut [u8]) -> io::Result<usize>
        ensures fits { IfOk result (λ n. n ≤ length room.new) }
        ensures consumes { ConsumesReturned (coming self.old.connection.received (S.remaining self.old.connection.stream))
            (coming self.new.connection.received (S.remaining self.new.connection.stream)) result room.new }
    {
        if !self.may_read()? {
            return Ok(0);
        }
        if self.stage == LinkStage::Open {
            return self.read_open(room);
        }
        Ok(self.connection.received.read_opened(room))
    }

    /// Whether the link may read. At the stage `Answered`, opens the next request or, if the door has accepted all its
    /// connections, changes the stage to `Open`. At the stage `Asked`, changes it to `Open` once the opened request is
    /// read.
    ///
    /// # Errors
    /// The error of the stream, or out of memory.
    #[tactic(auto, using(crate::proofs::Trying::stays))]
    fn may_read(&mut self) -> io::Result<bool>
        ensures { Keeps (coming self.old.connection.received (S.remaining self.old.connection.stream))
            (coming self.new.connection.received (S.remaining self.new.connection.stream)) }
    {
        match self.stage {
            LinkStage::Parked | LinkStage::Failed => return Ok(false),
            LinkStage::Open => return Ok(true),
            LinkStage::Answered => {
                if self.shared.has_accepted_all() {
                    self.stage = LinkStage::Open;
                    return Ok(true);
                }
                return self.next_request();
            }
            LinkStage::Asked => {
                // A caller that reads on expects a longer request than the door opened: it gets all bytes as they come.
                if self.connection.received.opened_len() == 0 {
                    self.stage = LinkStage::Open;
                }
                return Ok(true);
            }
        }
    }

    /// Opens the next request once it is whole, or all received bytes if they are refused, so that the link may read
    /// them. Returns false if neither came in time and within `MOST_REQUEST_PIECES` pieces, if bytes of a reply are
    /// still to be sent, or if the client has shut down its side.
    ///
    /// # Errors
    /// The error of the stream, or out of memory.
    #[tactic(auto, using(crate::proofs::Trying::stays, crate::proofs::Trying::stays_on))]
    fn next_request(&mut self) -> io::Result<bool>
        ensures { Keeps (coming self.old.connection.received (S.remaining self.old.connection.stream))
            (coming self.new.connection.received (S.remaining self.new.connection.stream)) }
    {
        if !self.connection.to_send.is_empty() {
            self.stage = LinkStage::Parked;
            return Ok(false);
        }
        'pieces: for _piece in 0..MOST_REQUEST_PIECES {
            if self.connection.open(self.alloc) {
                self.stage = stage_of(&self.connection);
                return Ok(true);
            }
            if self.connection.ended {
                return Ok(false);
            }
            if !self.receive_more()? {
                break;
            }
        }
        self.stage = LinkStage::Parked;
        Ok(false)
    }

    /// Reads from the stream once, and appends the bytes to the received ones. Waits for bytes only if the link may
    /// wait. Returns false if no byte came in time.
    ///
    /// # Errors
    /// The error of the stream, or out of memory.
    #[tactic(auto, using(crate::proofs::Trying::stays))]
    fn receive_more(&mut self) -> io::Result<bool>
        ensures { Keeps (coming self.old.connection.received (S.remaining self.old.connection.stream))
            (coming self.new.connection.received (S.remaining self.new.connection.stream)) }
    {
        self.set_pace()?;
        let mut room = [0; PIECE];
        self.connection.receive(&mut room)
    }

    /// Sets the stream to blocking (with a short timeout) if the link may wait, which counts as one wait, and otherwise
    /// to non-blocking.
    fn set_pace(&mut self) -> io::Result<()>
        ensures received { self.new.connection.received ≡ self.old.connection.received }
        ensures stream { self.new.connection.stream ≡ self.old.connection.stream }
    {
        if self.may_wait() {
            self.waits_left = self.waits_left.saturating_sub(1);
            self.connection.set_blocking()
        } else {
            self.connection.set_nonblocking()
        }
    }

    /// Reads once: the received bytes, or if there are none, from the stream.
    ///
    /// # Errors
    /// The error of the stream, or `TimedOut` if no byte came in time.
    #[tactic(auto, using(crate::proofs::Moving::link_takes, crate::proofs::Moving::none_read, crate::proofs::Moving::read_behind))]
    fn read_open(&mut self, room: &mut [u8]) -> io::Result<usize>
        ensures fits { IfOk result (λ n. n ≤ length room.new) }
        ensures consumes { ConsumesReturned (coming self.old.connection.received (S.remaining self.old.connection.stream))
            (coming self.new.connection.received (S.remaining self.new.connection.stream)) result room.new }
    {
        if !self.connection.received.is_empty() {
            self.connection.received.open_all();
            return Ok(self.connection.received.read_opened(room));
        }
        self.read_stream(room)
    }

    /// Waits until bytes come from the stream, and reads once. Returns 0 if the client has shut down its side, or if
    /// nothing came for a while and other links wait for a worker.
    ///
    /// # Errors
    /// The error of the stream, or `TimedOut` if no byte came in time.
    #[tactic(auto, using(crate::proofs::Moving::read_rules))]
    fn read_stream(&mut self, room: &mut [u8]) -> io::Result<usize>
        ensures fits { IfOk result (λ n. n ≤ length room.new) }
        ensures consumes { ConsumesReturned (S.remaining self.old.connection.stream) (S.remaining self.new.connection.stream)
            result room.new }
        ensures received { self.new.connection.received ≡ self.old.connection.received }
    {
        if self.connection.ended {
            return Ok(0);
        }
        self.connection.set_blocking()?;
        'waits: for waits in 0..MOST_WAITS {
            if let Some(count) = self.connection.read(room)? {
                return Ok(count);
            }
            if self.has_waited_long_enough(waits) {
                return Ok(0);
            }
        }
        Err(io::Error::from(ErrorKind::TimedOut))
    }

    /// Whether the link has waited long enough for bytes that do not come: it has waited a while, and other links wait
    /// for a worker. Once the door has accepted all its connections, a link is never cut short like this.
    fn has_waited_long_enough(&self, waits: u64) -> bool {
        waits >= FEW_WAITS && !self.shared.has_accepted_all() && self.is_crowded()
    }

    /// Sends a piece. What the stream doesn't take at once is kept if it can be, and sent later. Returns how many bytes
    /// were sent or kept.
    #[tactic(auto, using(crate::proofs::Moving::rest_after))]
    fn write_some(&mut self, piece: &[u8]) -> io::Result<usize>
        ensures fits { IfOk result (λ n. n ≤ length piece.now) }
        ensures appends { WriteAppends (outgoing (S.contents self.old.connection.stream) self.old.connection.to_send)
            (outgoing (S.contents self.new.connection.stream) self.new.connection.to_send) result piece.now }
    {
        self.note_answer(piece);
        let sent = self.write_first(piece)?;
        if sent == piece.len() {
            return Ok(sent);
        }
        self.hold(piece, sent)
    }

    /// Notes that a piece of a reply is sent. If it is the first piece of a reply with a status of 500 or more, the
    /// reply is counted.
    fn note_answer(&mut self, piece: &[u8])
        ensures { self.new.connection ≡ self.old.connection }
    {
        if self.stage == LinkStage::Asked {
            self.stage = LinkStage::Answered;
            if is_server_error(piece) {
                self.shared.count_server_error();
            }
        }
    }

    /// Writes a piece to the stream once, or no byte of it if other bytes are to be sent first.
    #[tactic(auto, using(crate::proofs::Moving::none_written, crate::proofs::Moving::write_first))]
    fn write_first(&mut self, piece: &[u8]) -> io::Result<usize>
        ensures fits { IfOk result (λ n. n ≤ length piece.now) }
        ensures appends { WriteAppends (outgoing (S.contents self.old.connection.stream) self.old.connection.to_send)
            (outgoing (S.contents self.new.connection.stream) self.new.connection.to_send) result piece.now }
    {
        if self.connection.to_send.is_empty() {
            self.connection.write(piece)
        } else {
            Ok(0)
        }
    }

    /// Keeps the rest of a piece, whose first `sent` bytes are sent, to be sent later. If the rest can't be kept and
    /// `sent` is 0, waits for the stream to take some bytes of the piece. Returns how many bytes of the piece were sent
    /// or kept.
    ///
    /// # Errors
    /// As `write_waiting`.
    #[tactic(auto, using(crate::proofs::Moving::none_written, crate::proofs::Moving::held_behind))]
    fn hold(&mut self, piece: &[u8], sent: usize) -> io::Result<usize>
        requires { sent ≤ length piece.now }
        ensures fits { IfOk result (λ n. n ≤ length piece.now) }
        ensures more { IfOk result (λ n. sent ≤ n) }
        ensures failed { OnErr result (sent ≡ 0) }
        ensures appends { MatchResult result
            (λ n. Appends (outgoing (S.contents self.old.connection.stream) self.old.connection.to_send)
            (outgoing (S.contents self.new.connection.stream) self.new.connection.to_send) (drop sent (take n piece.now)))
            (λ _. Keeps (outgoing (S.contents self.old.connection.stream) self.old.connection.to_send)
            (outgoing (S.contents self.new.connection.stream) self.new.connection.to_send)) }
    {
        let rest = &piece[sent..];
        if self.holds(rest) {
            return Ok(piece.len());
        }
        if sent > 0 {
            return Ok(sent);
        }
        self.write_waiting(piece)
    }

    /// Keeps bytes to be sent later. Returns false, and keeps none, if the door has accepted all its connections, if
    /// `may_hold` forbids it, or if an allocation fails.
    fn holds(&mut self, rest: &[u8]) -> bool
        ensures stream { self.new.connection.stream ≡ self.old.connection.stream }
        ensures held { result ≡ true → unsent self.new.connection.to_send ≡ unsent self.old.connection.to_send ++ rest.now }
        ensures not_held { result ≡ false → unsent self.new.connection.to_send ≡ unsent self.old.connection.to_send }
    {
        if self.shared.has_accepted_all() || !self.shared.may_hold(rest.len()) {
            return false;
        }
        if self.connection.to_send.add(rest).is_ok() {
            return true;
        }
        self.shared.note_sent(rest.len());
        false
    }

    /// Sends the bytes that are kept, then at least one byte of the piece. Returns how many of the piece were sent.
    ///
    /// # Errors
    /// The error of the stream; `TimedOut` if the stream took no byte of the piece in time, or if other links wait for
    /// a worker (unless the door has accepted all its connections).
    #[tactic(auto, using(crate::proofs::Moving::write_rules))]
    fn write_waiting(&mut self, piece: &[u8]) -> io::Result<usize>
        ensures fits { IfOk result (λ n. n ≤ length piece.now) }
        ensures appends { WriteAppends (outgoing (S.contents self.old.connection.stream) self.old.connection.to_send)
            (outgoing (S.contents self.new.connection.stream) self.new.connection.to_send) result piece.now }
    {
        self.connection.set_blocking()?;
        'waits: for _wait in 0..MOST_WAITS {
            if !self.shared.has_accepted_all() && self.is_crowded() {
                break;
            }
            let count = self.write_behind(piece)?;
            if count > 0 {
                return Ok(count);
            }
        }
        Err(io::Error::from(ErrorKind::TimedOut))
    }

    /// Makes one write: of the bytes that are kept, or of the piece if none are kept. Returns how many bytes of the
    /// piece were taken.
    #[tactic(auto, using(crate::proofs::Moving::kept_appends, crate::proofs::Moving::write_first))]
    fn write_behind(&mut self, piece: &[u8]) -> io::Result<usize>
        ensures fits { IfOk result (λ n. n ≤ length piece.now) }
        ensures appends { WriteAppends (outgoing (S.contents self.old.connection.stream) self.old.connection.to_send)
            (outgoing (S.contents self.new.connection.stream) self.new.connection.to_send) result piece.now }
    {
        if self.connection.to_send.is_empty() {
            return self.connection.write(piece);
        }
        let sent = self.connection.flush()?;
        self.shared.note_sent(sent);
        Ok(0)
    }
}

/// The stage of a link that begins with this connection, or has just opened a request of it.
fn stage_of<S: Read + Write + OpenStream + Drop>(connection: &Connection<S>) -> LinkStage {
    if connection.refused {
        LinkStage::Open
    } else if connection.received.opened_len() > 0 {
        LinkStage::Asked
    } else {
        LinkStage::Answered
    }
}

/// Whether a reply with these first bytes has a status of 500 or more.
fn is_server_error(answer: &[u8]) -> bool {
    answer.starts_with(b"HTTP/1.1 5")
}

/// What happens to a connection when its link ends.
#[derive(Clone, Copy, PartialEq)]
enum Fate {
    /// The connection goes back to the door, which waits for its next request.
    KeptOpen,
    /// The connection goes back to the door, which closes it once all bytes are sent and the client has shut down its
    /// side.
    ClosedLater,
    /// The connection is closed at once.
    ClosedNow,
}

/// What happens to a connection when its link ends at this stage. `owes`: bytes are still to be sent; `unread`: the
/// client may have sent bytes that no link has read.
fn fate_of(stage: LinkStage, owes: bool, unread: bool) -> Fate
    ensures { result ≡ fate_of stage owes unread }
{
    match stage {
        LinkStage::Parked => Fate::KeptOpen,
        LinkStage::Failed => Fate::ClosedNow,
        _ => {
            if owes || unread {
                Fate::ClosedLater
            } else {
                Fate::ClosedNow
            }
        }
    }
}

impl<S: Read + Write + OpenStream + Drop, C: Clock + Wait + Drop> Drop for ServedConnection<S, C> {
    fn drop(self) {
        let ServedConnection {
            connection,
            shared,
            alloc,
            clock,
            stage,
            waits_left: _,
        } = self;
        let mut connection = connection;
        // The system resets a connection that is closed with unread bytes, so the door reads these first.
        let unread = !connection.ended
            && !shared.has_accepted_all()
            && (stage == LinkStage::Open || !connection.received.is_empty());
        let fate = fate_of(stage, !connection.to_send.is_empty(), unread);
        if fate == Fate::ClosedNow {
            shared.note_sent(connection.to_send.len());
            connection.to_send.clear(alloc);
        } else {
            connection.closing = fate == Fate::ClosedLater;
            shared.return_connection(&clock, connection);
        }
    }
}
