//! Tests of what a peer logs and how long it waits for a server, over a network that follows a script; and a test that
//! programs draw different random words.
use std::cell::Cell;
use std::fmt::{Display, InlineText};
use std::io::{self, ErrorKind, Read, Write};
use std::net::{Net, OpenListener, OpenStream, SocketAddr};
use std::os::fd::{AsRawFd, RawFd};
use std::time::{Clock, Duration};
use unl_base::{Draws, Failed, Peer, Sink, Source};
use unl_net::{RealPeer, SystemDraws};

/// The result of one read of a scripted stream.
#[derive(Clone, Copy)]
enum Step {
    /// The read returns these bytes.
    Bytes(&'static str),
    /// A signal interrupts the read.
    Signal,
    /// The read fails: the other side has reset the connection.
    Reset,
}

/// A stream whose reads have the results `steps`, one after another, and then return the end of the stream. Each write
/// takes all bytes.
#[derive(Drop)]
struct ScriptedStream {
    steps: &'static [Step],
}

impl Read for ScriptedStream {
    fn read(&mut self, room: &mut [u8]) -> io::Result<usize> {
        let Some((step, others)) = self.steps.split_first() else {
            return Ok(0);
        };
        self.steps = others;
        match step {
            Step::Bytes(text) => text.as_bytes().read(room),
            Step::Signal => Err(io::Error::from(ErrorKind::Interrupted)),
            Step::Reset => Err(io::Error::from(ErrorKind::ConnectionReset)),
        }
    }
}

impl Write for ScriptedStream {
    fn write(&mut self, piece: &[u8]) -> io::Result<usize> {
        Ok(piece.len())
    }

    fn flush(&mut self) -> io::Result<()> {
        Ok(())
    }
}

impl AsRawFd for ScriptedStream {
    fn as_raw_fd(&self) -> RawFd {
        0
    }
}

impl OpenStream for ScriptedStream {
    fn set_read_timeout(&self, _limit: Option<Duration>) -> io::Result<()> {
        Ok(())
    }

    fn set_write_timeout(&self, _limit: Option<Duration>) -> io::Result<()> {
        Ok(())
    }
}

/// A listener to which no client connects.
#[derive(Drop)]
struct NoListener;

impl AsRawFd for NoListener {
    fn as_raw_fd(&self) -> RawFd {
        0
    }
}

impl OpenListener for NoListener {
    type Stream = ScriptedStream;

    fn accept(&self) -> io::Result<(ScriptedStream, SocketAddr)> {
        Err(io::Error::from(ErrorKind::Unsupported))
    }
}

/// A network that follows a script, with its own clock and log. Connect number n, from 0, succeeds with a stream whose
/// reads have the results `replies[n]`; connects after the last of `replies` are refused. While `hangs` is set, a
/// connect takes all of its time limit and fails.
#[derive(Drop)]
struct ScriptedNet {
    seconds: Cell<u64>,
    logged: Cell<InlineText<800>>,
    hangs: Cell<bool>,
    connects: Cell<usize>,
    replies: &'static [&'static [Step]],
}

/// Creates a network whose connects succeed once for each of `replies`.
fn net_of(replies: &'static [&'static [Step]]) -> ScriptedNet {
    ScriptedNet {
        seconds: Cell::new(0),
        logged: Cell::new(InlineText::new()),
        hangs: Cell::new(false),
        connects: Cell::new(0),
        replies,
    }
}

impl Net for ScriptedNet {
    type Stream = ScriptedStream;

    type Listener = NoListener;

    fn bind(&self, _address: SocketAddr) -> io::Result<NoListener> {
        Err(io::Error::from(ErrorKind::Unsupported))
    }

    fn connect(&self, _address: SocketAddr) -> io::Result<ScriptedStream> {
        Err(io::Error::from(ErrorKind::Unsupported))
    }

    fn connect_timeout(&self, _address: SocketAddr, limit: Duration) -> io::Result<ScriptedStream> {
        let connects = self.connects.get();
        self.connects.set(connects.saturating_add(1));
        if self.hangs.get() {
            let seconds = self.seconds.get().saturating_add(limit.as_secs());
            self.seconds.set(seconds);
            return Err(io::Error::from(ErrorKind::TimedOut));
        }
        match self.replies.get(connects) {
            Some(steps) => Ok(ScriptedStream { steps }),
            None => Err(io::Error::from_raw_os_error(111)),
        }
    }
}

impl Clock for ScriptedNet {
    fn monotonic(&self) -> io::Result<Duration> {
        Ok(Duration::from_secs(self.seconds.get()))
    }

    fn since_1970(&self) -> io::Result<Duration> {
        self.monotonic()
    }
}

impl Eprint for ScriptedNet {
    fn eprint<D: Display + Drop>(&self, value: D) -> io::Result<()> {
        self.logged.set(self.logged.get().and(value, 800));
        Ok(())
    }

    fn eprintln<D: Display + Drop>(&self, value: D) -> io::Result<()> {
        self.eprint(value)?;
        self.eprint("\n")
    }
}

/// Writes a request to a peer, and reads twice. Returns the results of the write and of the first read. If the request
/// is empty, does nothing and returns two zeros.
fn exchange<P: Peer>(
    peer: &mut P,
    request: &[u8],
) -> (Result<usize, Failed>, Result<usize, Failed>) {
    if request.is_empty() {
        return (Ok(0), Ok(0));
    }
    let written = peer.write(request);
    let mut room = [0u8; 64];
    let read = peer.read(&mut room);
    let _ = peer.read(&mut room);
    (written, read)
}

/// A request for a delta of the flags, with a token.
const DELTA: &[u8] =
    b"GET /api/client/delta?a=b HTTP/1.0\r\nHost: h\r\nAuthorization: *:dev.secret\r\n\r\n";

/// The request `DELTA` with another token.
const OTHER_DELTA: &[u8] =
    b"GET /api/client/delta?a=b HTTP/1.0\r\nHost: h\r\nAuthorization: *:prod.secret\r\n\r\n";

/// A request for the token book: it asks the server which tokens are valid.
const BOOK: &[u8] = b"POST /edge/validate HTTP/1.0\r\nHost: h\r\n\r\n{}";

/// A reply in two pieces. The status is in the first one; the second one only looks like a status line.
const FORBIDDEN: &[Step] = &[
    Step::Bytes("HTTP/1.1 403 Forbidden\r\n"),
    Step::Bytes("HTTP/1.1 500 "),
];

/// A reply with status 200, before which a signal interrupts the read.
const SUCCESS: &[Step] = &[Step::Signal, Step::Bytes("HTTP/1.1 200 OK\r\n")];

const NOT_MODIFIED: &[Step] = &[Step::Bytes("HTTP/1.1 304 Not Modified\r\n")];

/// The requests that the test sends, each on a connection of its own.
const REQUESTS: [&[u8]; 10] = [
    BOOK,
    DELTA,
    OTHER_DELTA,
    DELTA,
    OTHER_DELTA,
    DELTA,
    DELTA,
    DELTA,
    BOOK,
    DELTA,
];

/// The results of the reads after each of `REQUESTS`, in the same order.
const REPLIES: [&[Step]; 10] = [
    SUCCESS,
    FORBIDDEN,
    SUCCESS,
    FORBIDDEN,
    NOT_MODIFIED,
    NOT_MODIFIED,
    &[Step::Reset],
    &[],
    &[Step::Bytes("nothing like a status")],
    SUCCESS,
];

/// The lines that the peer logs for `REQUESTS` and `REPLIES`, and for the three connects after them: two that are
/// refused and one that succeeds.
const PEER_LINES: &str = "upstream 127.0.0.1:7: GET /api/client/delta: 403
upstream 127.0.0.1:7: GET /api/client/delta: 200, but not taken
upstream 127.0.0.1:7: GET /api/client/delta: 304
upstream 127.0.0.1:7: GET /api/client/delta: 304
upstream 127.0.0.1:7: GET /api/client/delta: no answer
upstream 127.0.0.1:7: POST /edge/validate: no answer
upstream 127.0.0.1:7: GET /api/client/delta: 200
upstream 127.0.0.1:7: unreachable: Connection refused (os error 111)
upstream 127.0.0.1:7: reachable again
";

#[test]
fn a_peer_logs_what_changes(rt: HostRuntime) {
    let net = net_of(&REPLIES);
    let mut peer = RealPeer::new(&net, "127.0.0.1:7");
    for request in REQUESTS {
        assert!(rt; peer.connect() == Ok(()));
        assert!(rt; exchange(&mut peer, request).0 == Ok(request.len()));
    }
    assert!(rt; peer.connect() == Err(Failed));
    assert!(rt; peer.connect() == Err(Failed));
    net.connects.set(0);
    assert!(rt; peer.connect() == Ok(()));
    assert_eq!(rt; net.logged.get().as_str(), PEER_LINES);
}

#[test]
fn a_server_that_hangs_is_waited_for_once(rt: HostRuntime) {
    let net = net_of(&[SUCCESS, SUCCESS]);
    let mut peer = RealPeer::new(&net, "127.0.0.1:7");
    net.hangs.set(true);
    assert!(rt; (peer.connect(), net.seconds.get()) == (Err(Failed), 30));
    net.hangs.set(false);
    net.seconds.set(34);
    assert!(rt; (peer.connect(), net.connects.get()) == (Err(Failed), 1));
    net.seconds.set(35);
    assert!(rt; peer.connect() == Ok(()));
    // An exchange also fails once 30 seconds have passed since its connect. For the next 5 seconds each connect fails
    // at once.
    net.seconds.set(65);
    assert!(rt; exchange(&mut peer, BOOK) == (Err(Failed), Err(Failed)));
    assert!(rt; peer.connect() == Err(Failed));
}

#[test]
fn programs_draw_different_words(rt: HostRuntime) {
    let mut first = SystemDraws::new(&rt);
    let mut second = SystemDraws::new(&rt);
    assert!(rt; first.draw().word != second.draw().word);
    assert!(rt; first.split().draw().word != second.split().draw().word);
}
