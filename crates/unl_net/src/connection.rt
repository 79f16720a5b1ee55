//! A connection that a door has accepted. While it waits for its client or to be handed out as a link, the door's
//! reactor holds it. While its requests are served, a link holds it, which reads the requests and sends the replies.
ghost use Rattle.std.specs.Prelude.{◌≡◌, ◌==◌, ◌≤◌, ◌||◌, [], false, length, nat_le, IfOk, IfSome};
ghost use Rattle.std.specs.Io.KnownBytes.{Keeps, WriteAppends};
ghost use Rattle.unl_net.specs.Buffers.{HasPrefix, ConsumesReturnedIfAny, coming, facts_of, outgoing, unread, unsent};
ghost use Rattle.unl_net.specs.Moments.{seconds_between};
ghost use Rattle.unl_net.specs.Phases.{limit_of, phase_of};

use crate::buffers::{ReceiveBuffer, SendBuffer};
use crate::moment::{moment, seconds_between};
use crate::phase::{Facts, Phase, phase_of};
use crate::retrying::{read_once, write_once};
use std::alloc::Global;
use std::io;
use std::io::{ErrorKind, Read, Write};
use std::net::{OpenStream, Shutdown};
use std::time::{Clock, Duration, Instant};
use unl_http_api::Frame;

/// The timeout of a blocking call of a stream, in milliseconds: long enough for a request that is already on its way.
const CALL_TIMEOUT: u64 = 10;

/// The size of one read, in bytes.
pub(crate) const PIECE: usize = 4_096;

/// A bound on each loop of reads: more pieces of `PIECE` bytes than the longest request has.
const MOST_PIECES: usize = 300;

/// A connection, with the received bytes that no link has read yet, and the bytes that are still to be sent.
#[derive(Drop)]
pub(crate) struct Connection<S: Read + Write + OpenStream + Drop> {
    pub stream: S,
    pub received: ReceiveBuffer,
    pub to_send: SendBuffer,
    /// Whether the received bytes are refused: no valid request begins with them.
    pub refused: bool,
    /// Whether the client has shut down its side: no more bytes come.
    pub ended: bool,
    /// Whether the connection will be closed once all bytes are sent.
    pub closing: bool,
    /// When the connection's current phase began or when bytes were last sent, whichever is later. A request that
    /// becomes whole doesn't renew it. `None` if the clock can't be read.
    pub since: Option<Instant>,
    /// Whether this side was shut down: nothing more is sent.
    is_shut: bool,
    /// Whether the stream's calls block.
    is_blocking: bool,
    /// Whether the timeouts of the stream's calls are set.
    has_timeouts: bool,
}

impl<S: Read + Write + OpenStream + Drop> Connection<S> {
    /// The connection of a stream that was just accepted.
    ///
    /// # Errors
    /// The stream can't be set to non-blocking.
    pub fn new(alloc: Global, stream: S) -> io::Result<Self> {
        stream.set_nonblocking(true)?;
        // A reply is written as a whole, so no byte should wait for further ones (Nagle's algorithm).
        let _ = stream.set_nodelay(true);
        Ok(Connection {
            stream,
            received: ReceiveBuffer::new(alloc),
            to_send: SendBuffer::new(alloc),
            refused: false,
            ended: false,
            closing: false,
            since: None,
            is_shut: false,
            is_blocking: false,
            has_timeouts: false,
        })
    }

    /// Sets the stream to blocking, with a timeout of `CALL_TIMEOUT`.
    ///
    /// # Errors
    /// The error of the stream.
    pub fn set_blocking(&mut self) -> io::Result<()>
        ensures { self.new ≡ record self.old { is_blocking = self.new.is_blocking; has_timeouts = self.new.has_timeouts } }
    {
        if !self.has_timeouts {
            let timeout = Some(Duration::from_millis(CALL_TIMEOUT));
            self.stream.set_read_timeout(timeout)?;
            self.stream.set_write_timeout(timeout)?;
            self.has_timeouts = true;
        }
        if !self.is_blocking {
            self.stream.set_nonblocking(false)?;
            self.is_blocking = true;
        }
        Ok(())
    }

    /// Sets the stream to non-blocking.
    ///
    /// # Errors
    /// The error of the stream.
    pub fn set_nonblocking(&mut self) -> io::Result<()>
        ensures { self.new ≡ record self.old { is_blocking = self.new.is_blocking } }
    {
        if self.is_blocking {
            self.stream.set_nonblocking(true)?;
            self.is_blocking = false;
        }
        Ok(())
    }

    /// Parses the start of the unread bytes, and opens the first request if it is whole: a link may then read its
    /// bytes. Opens all unread bytes if they are refused. Returns whether the request is whole or refused.
    pub fn open(&mut self, alloc: Global) -> bool
        ensures same { unread self.new.received ≡ unread self.old.received }
        ensures others { (self.new.stream ≡ self.old.stream) × (self.new.to_send ≡ self.old.to_send) }
        ensures marks { (self.new.closing ≡ self.old.closing) × (self.new.ended ≡ self.old.ended) }
    {
        let frame = self.received.open(alloc);
        self.refused = matches!(frame, Frame::Bad(_));
        frame != Frame::More
    }

    /// Marks the connection to be closed after its replies, unless bytes of a further request were received.
    pub fn close_after_answers(&mut self)
        ensures { self.new ≡ record self.old { closing = self.old.closing || (length (unread self.old.received) == 0) } }
    {
        self.closing = self.closing || self.received.is_empty();
    }

    /// The facts that decide the phase of the connection.
    fn facts(&self) -> Facts
        ensures { result ≡ facts_of self.now.received self.now.to_send self.now.closing self.now.ended }
    {
        Facts {
            asked: self.received.opened_len() > 0,
            began: !self.received.is_empty(),
            owes: !self.to_send.is_empty(),
            closing: self.closing,
            ended: self.ended,
        }
    }

    /// The phase of the connection: what it waits for.
    pub fn phase(&self) -> Phase
        ensures { result ≡ phase_of (facts_of self.now.received self.now.to_send self.now.closing self.now.ended) }
    {
        phase_of(self.facts())
    }

    /// Whether the connection has waited too long: the time from `since` to `now` is at least the time limit of its
    /// phase.
    pub fn is_late(&self, now: Option<Instant>) -> bool
        ensures { result ≡ nat_le
            (limit_of (phase_of (facts_of self.now.received self.now.to_send self.now.closing self.now.ended)))
            (seconds_between self.now.since now) }
    {
        self.phase().limit() <= seconds_between(self.since, now)
    }

    /// Reads from the stream once, and returns how many bytes came: 0 at its end, `None` if none came in time.
    ///
    /// # Errors
    /// The error of the stream.
    pub fn read(&mut self, room: &mut [u8]) -> io::Result<Option<usize>>
        ensures fits { IfOk result (λ count. IfSome count (λ n. n ≤ length room.new)) }
        ensures consumes { ConsumesReturnedIfAny (S.remaining self.old.stream) (S.remaining self.new.stream) result room.new }
        ensures others { (self.new.received ≡ self.old.received) × (self.new.to_send ≡ self.old.to_send) }
        ensures marks { (self.new.closing ≡ self.old.closing) × (self.new.ended ≡ self.old.ended) }
    {
        match read_once(&mut self.stream, room) {
            Ok(count) => Ok(Some(count)),
            Err(fault) if is_wait(&fault) => Ok(None),
            Err(fault) => Err(fault),
        }
    }

    /// Reads from the stream once: appends the bytes to the received ones, or notes that the client has shut down its
    /// side. Returns false if neither came in time.
    ///
    /// # Errors
    /// The error of the stream, or out of memory.
    #[tactic(auto, using(crate::proofs::Moving::receive_rules))]
    pub fn receive(&mut self, room: &mut [u8; PIECE]) -> io::Result<bool>
        ensures begins { HasPrefix (unread self.old.received) (unread self.new.received) }
        ensures kept { Keeps (coming self.old.received (S.remaining self.old.stream))
            (coming self.new.received (S.remaining self.new.stream)) }
        ensures others { (self.new.to_send ≡ self.old.to_send) × (self.new.closing ≡ self.old.closing) }
    {
        self.received.reserve(PIECE)?;
        match self.read(room)? {
            Some(count) => {
                self.received.add(&room[..count]);
                if count == 0 {
                    self.ended = true;
                }
                Ok(true)
            }
            None => Ok(false),
        }
    }

    /// Writes to the stream once, and returns how many bytes it took: 0 if it took none in time.
    ///
    /// # Errors
    /// The error of the stream.
    pub fn write(&mut self, piece: &[u8]) -> io::Result<usize>
        ensures fits { IfOk result (λ n. n ≤ length piece.now) }
        ensures appends { WriteAppends (S.contents self.old.stream) (S.contents self.new.stream) result piece.now }
        ensures others { (self.new.received ≡ self.old.received) × (self.new.to_send ≡ self.old.to_send) }
    {
        match write_once(&mut self.stream, piece) {
            Ok(count) => Ok(count),
            Err(fault) if is_wait(&fault) => Ok(0),
            Err(fault) => Err(fault),
        }
    }

    /// Makes one write of the bytes to be sent, and returns how many the stream took: 0 if it took none in time.
    ///
    /// # Errors
    /// The error of the stream.
    #[tactic(auto, using(crate::proofs::Moving::sent_keeps))]
    pub fn flush(&mut self) -> io::Result<usize>
        ensures kept { Keeps (outgoing (S.contents self.old.stream) self.old.to_send)
            (outgoing (S.contents self.new.stream) self.new.to_send) }
        ensures others { (self.new.received ≡ self.old.received) × (self.new.closing ≡ self.old.closing)
            × (self.new.ended ≡ self.old.ended) }
    {
        match write_once(&mut self.stream, self.to_send.unsent()) {
            Ok(count) => {
                self.to_send.note_sent(count);
                Ok(count)
            }
            Err(fault) if is_wait(&fault) => Ok(0),
            Err(fault) => Err(fault),
        }
    }

    /// Advances a connection that no link serves: sends the bytes to be sent and, if none are left, reads what came. No
    /// received byte is lost unless the connection is to be closed. Returns its new phase.
    ///
    /// # Errors
    /// The error of the stream, or out of memory.
    #[tactic(auto, using(crate::proofs::Moving::begins_same))]
    pub fn advance<C: Clock>(
        &mut self,
        alloc: Global,
        clock: &C,
        room: &mut [u8; PIECE],
    ) -> io::Result<Phase>
        ensures phase { IfOk result (λ phase. phase
            ≡ phase_of (facts_of self.new.received self.new.to_send self.new.closing self.new.ended)) }
        ensures closing { self.new.closing ≡ self.old.closing }
        ensures begins { self.old.closing ≡ false → HasPrefix (unread self.old.received) (unread self.new.received) }
        ensures received { self.old.closing ≡ false → unsent self.old.to_send ≡ []
            → Keeps (coming self.old.received (S.remaining self.old.stream)) (coming self.new.received (S.remaining self.new.stream)) }
    {
        self.send(alloc, clock)?;
        if !self.to_send.is_empty() {
            return Ok(Phase::Sending);
        }
        self.advance_reading(alloc, clock, room)
    }

    /// Reads what came, after all bytes were sent.
    ///
    /// # Errors
    /// The error of the stream, or out of memory.
    fn advance_reading<C: Clock>(
        &mut self,
        alloc: Global,
        clock: &C,
        room: &mut [u8; PIECE],
    ) -> io::Result<Phase>
        ensures phase { IfOk result (λ phase. phase
            ≡ phase_of (facts_of self.new.received self.new.to_send self.new.closing self.new.ended)) }
        ensures closing { self.new.closing ≡ self.old.closing }
        ensures begins { self.old.closing ≡ false → HasPrefix (unread self.old.received) (unread self.new.received) }
        ensures received { self.old.closing ≡ false
            → Keeps (coming self.old.received (S.remaining self.old.stream)) (coming self.new.received (S.remaining self.new.stream)) }
    {
        if self.closing {
            return self.drain(alloc, clock, room);
        }
        self.advance_receiving(alloc, clock, room)
    }

    /// Opens the received bytes if a request is whole or they are refused, otherwise reads what came.
    ///
    /// # Errors
    /// The error of the stream, or out of memory.
    #[tactic(auto, using(crate::proofs::Moving::begins_same, crate::proofs::Moving::begins_then))]
    fn advance_receiving<C: Clock>(
        &mut self,
        alloc: Global,
        clock: &C,
        room: &mut [u8; PIECE],
    ) -> io::Result<Phase>
        ensures phase { IfOk result (λ phase. phase
            ≡ phase_of (facts_of self.new.received self.new.to_send self.new.closing self.new.ended)) }
        ensures closing { self.new.closing ≡ self.old.closing }
        ensures begins { HasPrefix (unread self.old.received) (unread self.new.received) }
        ensures received { Keeps (coming self.old.received (S.remaining self.old.stream))
            (coming self.new.received (S.remaining self.new.stream)) }
    {
        if self.open(alloc) {
            return Ok(self.phase());
        }
        self.receive_request(alloc, clock, room)
    }

    /// Makes one write of the bytes to be sent, if there are any. If the stream takes some, the connection's waiting
    /// time begins again.
    ///
    /// # Errors
    /// The error of the stream.
    #[tactic(auto, using(crate::proofs::Trying::stays))]
    fn send<C: Clock>(&mut self, alloc: Global, clock: &C) -> io::Result<()>
        ensures sent { Keeps (outgoing (S.contents self.old.stream) self.old.to_send)
            (outgoing (S.contents self.new.stream) self.new.to_send) }
        ensures received { self.new.received ≡ self.old.received }
        ensures nothing { unsent self.old.to_send ≡ [] → self.new ≡ self.old }
        ensures marks { (self.new.closing ≡ self.old.closing) × (self.new.ended ≡ self.old.ended) }
    {
        if self.to_send.is_empty() {
            return Ok(());
        }
        if self.flush()? > 0 {
            self.since = moment(clock);
        }
        if self.to_send.is_empty() {
            self.to_send.clear(alloc);
        }
        Ok(())
    }

    /// Reads what came, until a request is whole, the bytes are refused, or nothing is left. If these are the first
    /// bytes of a request, the connection's waiting time begins again.
    ///
    /// # Errors
    /// The error of the stream, or out of memory.
    #[tactic(auto, using(crate::proofs::Trying::stays, crate::proofs::Trying::stays_on, crate::proofs::Moving::begins_kept))]
    fn receive_request<C: Clock>(
        &mut self,
        alloc: Global,
        clock: &C,
        room: &mut [u8; PIECE],
    ) -> io::Result<Phase>
        ensures phase { IfOk result (λ phase. phase
            ≡ phase_of (facts_of self.new.received self.new.to_send self.new.closing self.new.ended)) }
        ensures closing { self.new.closing ≡ self.old.closing }
        ensures begins { HasPrefix (unread self.old.received) (unread self.new.received) }
        ensures kept { Keeps (coming self.old.received (S.remaining self.old.stream))
            (coming self.new.received (S.remaining self.new.stream)) }
    {
        let was_empty = self.received.is_empty();
        self.receive_pieces(alloc, room)?;
        if was_empty && !self.received.is_empty() {
            self.since = moment(clock);
        }
        self.received.shrink(alloc);
        Ok(self.phase())
    }

    /// Reads piece after piece, `MOST_PIECES` at most, until a request is whole, the bytes are refused, or nothing is
    /// left.
    ///
    /// # Errors
    /// The error of the stream, or out of memory.
    #[tactic(auto, using(crate::proofs::Moving::pieces_rules))]
    fn receive_pieces(&mut self, alloc: Global, room: &mut [u8; PIECE]) -> io::Result<()>
        ensures closing { self.new.closing ≡ self.old.closing }
        ensures begins { HasPrefix (unread self.old.received) (unread self.new.received) }
        ensures kept { Keeps (coming self.old.received (S.remaining self.old.stream))
            (coming self.new.received (S.remaining self.new.stream)) }
    {
        'pieces: for _piece in 0..MOST_PIECES {
            if !self.receive_piece(alloc, room)? {
                break;
            }
        }
        Ok(())
    }

    /// Reads a piece, then opens the received bytes if a request is whole or they are refused. Returns whether to read
    /// on.
    ///
    /// # Errors
    /// The error of the stream, or out of memory.
    #[tactic(auto, using(crate::proofs::Trying::stays, crate::proofs::Moving::begins_same, crate::proofs::Moving::begins_kept))]
    fn receive_piece(&mut self, alloc: Global, room: &mut [u8; PIECE]) -> io::Result<bool>
        ensures closing { self.new.closing ≡ self.old.closing }
        ensures begins { HasPrefix (unread self.old.received) (unread self.new.received) }
        ensures kept { Keeps (coming self.old.received (S.remaining self.old.stream))
            (coming self.new.received (S.remaining self.new.stream)) }
    {
        // Nothing comes after the end of the stream. (After a piece that leaves the request unfinished, the caller
        // reads on: if the stream has already ended, no later event reports that.)
        if self.ended {
            return Ok(false);
        }
        if !self.receive(room)? {
            return Ok(false);
        }
        Ok(!self.open(alloc))
    }

    /// Shuts down this side, discards the bytes that came, and notes whether the client has shut down its side too.
    /// Returns the new phase.
    ///
    /// # Errors
    /// The error of the stream.
    fn drain<C: Clock>(
        &mut self,
        alloc: Global,
        clock: &C,
        room: &mut [u8; PIECE],
    ) -> io::Result<Phase>
        ensures phase { IfOk result (λ phase. phase
            ≡ phase_of (facts_of self.new.received self.new.to_send self.new.closing self.new.ended)) }
        ensures closing { self.new.closing ≡ self.old.closing }
    {
        if !self.is_shut {
            let _ = self.stream.shutdown(Shutdown::Write);
            self.is_shut = true;
            self.since = moment(clock);
            self.received.clear(alloc);
        }
        'pieces: for _piece in 0..MOST_PIECES {
            match self.read(room)? {
                Some(0) => {
                    self.ended = true;
                    break;
                }
                Some(_) => {}
                None => break,
            }
        }
        Ok(self.phase())
    }
}

/// Whether a call of a stream failed because it would block or timed out.
fn is_wait(fault: &io::Error) -> bool {
    let kind = fault.kind();
    kind == ErrorKind::WouldBlock || kind == ErrorKind::TimedOut
}
