//! A peer over the network: the client side of a connection to a server, with a time limit for each exchange.
ghost use Rattle.std.specs.Prelude.{◌≡◌, ◌<◌, ◌≤◌, length, IfOk, None};
ghost use Rattle.std.specs.Io.{ReadsAtMost, WritesAtMost};
ghost use Rattle.std.specs.Io.KnownBytes.{ReadConsumes, WriteAppends};
ghost use Rattle.unl_base.specs.Faults.{HasExactCause, Rose};
ghost use Rattle.unl_base.specs.Peers.{ReadsConnection, WritesConnection};

use crate::exchange::Exchange;
use crate::moment::moment;
use crate::peer_log::PeerLog;
use crate::retrying::{read_once, write_once};
use std::fmt::Display;
use std::io;
use std::io::{ErrorKind, Read, Write};
use std::net::{Net, OpenStream, TcpStream, ToSocketAddrs};
use std::time::{Clock, Duration};
use unl_base::{Failed, Link, Peer, Sink, Source};

/// The client side of a connection to a server. Each connect makes a new connection, to the first address of the server
/// that accepts one. An exchange takes about 30 seconds at most, from the connect to the last byte; only the time of
/// looking up the server's name is not bounded. After an exchange that used up its time, connects fail at once for 5
/// seconds: of several callers that ask a hanging server in turn, only the first one waits.
#[derive(Drop)]
pub struct RealPeer<N: Net + Clock + Eprint + Drop, A: ToSocketAddrs + Display> {
    net: N,
    stream: Option<N::Stream>,
    exchange: Exchange,
    /// The time limit that is set for the stream's calls, in seconds.
    limit: u64,
    log: PeerLog<A>,
    faults: u64,
}

impl<N: Net + Clock + Eprint + Drop, A: ToSocketAddrs + Display> RealPeer<N, A> {
    /// A peer at an address (`HOST:PORT`) that isn't connected yet and has counted no fault.
    pub fn new(net: N, address: A) -> Self
        ensures { (result.stream ≡ None) × (result.faults ≡ 0) }
    {
        RealPeer {
            net,
            stream: None,
            exchange: Exchange::new(),
            limit: 0,
            log: PeerLog::new(address),
            faults: 0,
        }
    }

    /// Counts a read or a write that failed, and notes if the exchange has used up its time. If nothing of a reply to
    /// the current request was read, logs that there is no reply, unless this is what was last logged for this kind of
    /// request.
    fn note_failed_call(&mut self)
        ensures stream { self.new.stream ≡ self.old.stream }
        ensures rises { (self.old.faults ≤ self.new.faults) × Rose self.old.faults self.new.faults }
    {
        self.exchange.note_fault(moment(&self.net));
        self.log.note_read(&self.net, b"");
        self.faults = self.faults.saturating_add(1);
    }
}

/// Sets the time limit of a stream's calls to the seconds that are left, unless that is the limit already (`limit`).
///
/// # Errors
/// `TimedOut` if no second is left, or the error of the stream.
fn set_limit<S: OpenStream>(stream: &S, left: u64, limit: &mut u64) -> io::Result<()> {
    if left == 0 {
        return Err(io::Error::from(ErrorKind::TimedOut));
    }
    if left != *limit {
        let time = Some(Duration::from_secs(left));
        stream.set_read_timeout(time)?;
        stream.set_write_timeout(time)?;
        *limit = left;
    }
    Ok(())
}

/// Connects to the first address of a name that accepts a connection, within the time of the exchange.
///
/// # Errors
/// The error of looking up the name; `NotFound` if the name has no address; `TimedOut` if no time is left; or the error
/// of the last address.
fn connect_in_time<N: Net + Clock, A: ToSocketAddrs>(
    net: &N,
    address: &A,
    exchange: &Exchange,
) -> io::Result<N::Stream> {
    let mut last = io::Error::from(ErrorKind::NotFound);
    for address in address.to_socket_addrs(net)? {
        let left = exchange.left(moment(net));
        if left == 0 {
            return Err(io::Error::from(ErrorKind::TimedOut));
        }
        match TcpStream::connect_timeout(net, &address, Duration::from_secs(left)) {
            Ok(stream) => {
                // A request is written as a whole, so no byte should wait for further ones (Nagle's algorithm).
                let _ = stream.set_nodelay(true);
                return Ok(stream);
            }
            Err(fault) => last = fault,
        }
    }
    Err(last)
}

/// Reads once, within the time of the exchange.
///
/// # Errors
/// `TimedOut` if no time is left, or the error of the stream.
fn read_in_time<N: Clock, S: Read + OpenStream>(
    clock: &N,
    stream: &mut S,
    exchange: &Exchange,
    limit: &mut u64,
    room: &mut [u8],
) -> io::Result<usize>
    ensures bound { ReadsAtMost result room.new }
    ensures bytes { ReadConsumes (S.remaining stream.old) (S.remaining stream.new) result room.new }
{
    set_limit(stream, exchange.left(moment(clock)), limit)?;
    read_once(stream, room)
}

/// Writes once, within the time of the exchange.
///
/// # Errors
/// `TimedOut` if no time is left, or the error of the stream.
fn write_in_time<N: Clock, S: Write + OpenStream>(
    clock: &N,
    stream: &mut S,
    exchange: &Exchange,
    limit: &mut u64,
    piece: &[u8],
) -> io::Result<usize>
    ensures bound { WritesAtMost result piece.now }
    ensures bytes { WriteAppends (S.contents stream.old) (S.contents stream.new) result piece.now }
{
    set_limit(stream, exchange.left(moment(clock)), limit)?;
    write_once(stream, piece)
}

impl<N: Net + Clock + Eprint + Drop, A: ToSocketAddrs + Display> Source for RealPeer<N, A> {
    ghost use Rattle.std.specs.Prelude.{is_some};
    ghost use Rattle.unl_base.specs.Peers.{no_other_parts};

    ghost left = { λ _. None };

    ghost faults = { λ peer. peer.faults };

    ghost other_parts = { λ peer. record no_other_parts { connected = is_some peer.stream } };

    /// Reads from the connection that the last `connect` made. Returns 0 if it made none. On an error the fault count
    /// is incremented.
    fn read(&mut self, room: &mut [u8]) -> Result<usize, Failed>
        requires { 0 < length room.old }
        ensures fits { IfOk result (λ n. n ≤ length room.new) }
        ensures forwards { ReadsConnection ⟦<N::Stream as Read>⟧.remaining self.old.stream self.new.stream result room.new }
        ensures other_parts { is_some self.new.stream ≡ is_some self.old.stream }
        ensures cause { HasExactCause self.old.faults self.new.faults result }
    {
        let Some(stream) = &mut self.stream else {
            return Ok(0);
        };
        match read_in_time(&self.net, stream, &self.exchange, &mut self.limit, room) {
            Ok(count) => {
                self.log.note_read(&self.net, &room[..count]);
                Ok(count)
            }
            Err(_) => {
                self.note_failed_call();
                Err(Failed)
            }
        }
    }
}

impl<N: Net + Clock + Eprint + Drop, A: ToSocketAddrs + Display> Sink for RealPeer<N, A> {
    ghost use Rattle.std.specs.Prelude.{is_some};
    ghost use Rattle.unl_base.specs.Peers.{no_other_parts};

    ghost sent = { λ _. None };

    ghost faults = { λ peer. peer.faults };

    ghost other_parts = { λ peer. record no_other_parts { connected = is_some peer.stream } };

    /// Writes to the connection that the last `connect` made, and returns how many bytes it took. If there is none,
    /// drops the piece and returns its length. If the write fails or takes no byte, the fault count is incremented.
    fn write(&mut self, piece: &[u8]) -> Result<usize, Failed>
        requires { 0 < length piece.now }
        ensures some { IfOk result (λ n. 0 < n) }
        ensures fits { IfOk result (λ n. n ≤ length piece.now) }
        ensures forwards { WritesConnection ⟦<N::Stream as Write>⟧.contents self.old.stream self.new.stream result piece.now }
        ensures other_parts { is_some self.new.stream ≡ is_some self.old.stream }
        ensures cause { HasExactCause self.old.faults self.new.faults result }
    {
        let Some(stream) = &mut self.stream else {
            return Ok(piece.len());
        };
        self.log.note_written(&self.net, piece);
        match write_in_time(&self.net, stream, &self.exchange, &mut self.limit, piece) {
            Ok(count) if count > 0 => Ok(count),
            _ => {
                self.note_failed_call();
                Err(Failed)
            }
        }
    }
}

impl<N: Net + Clock + Eprint + Drop, A: ToSocketAddrs + Display> Link for RealPeer<N, A> {
    ghost use Rattle.std.proofs.Common.{refl};

    ghost one_count = { λ peer. refl };

    ghost reads_other_parts = { λ peer. refl };

    ghost writes_other_parts = { λ peer. refl };
}

impl<N: Net + Clock + Eprint + Drop, A: ToSocketAddrs + Display> Peer for RealPeer<N, A> {
    ghost use Rattle.std.specs.Prelude.{is_some};
    ghost use Rattle.std.proofs.Common.{refl};
    ghost use Rattle.unl_base.specs.Peers.{no_other_parts};

    ghost state = { λ peer. record no_other_parts { connected = is_some peer.stream } };

    fn connect(&mut self) -> Result<(), Failed> {
        self.stream = None;
        self.log.note_connection();
        let now = moment(&self.net);
        if self.exchange.rests(now) {
            self.faults = self.faults.saturating_add(1);
            return Err(Failed);
        }
        self.exchange.begin(now);
        self.limit = 0;
        match connect_in_time(&self.net, &self.log.address, &self.exchange) {
            Ok(stream) => {
                self.log.note_reached(&self.net);
                self.stream = Some(stream);
                Ok(())
            }
            Err(fault) => {
                self.exchange.note_fault(moment(&self.net));
                self.log.note_unreachable(&self.net, &fault);
                self.faults = self.faults.saturating_add(1);
                Err(Failed)
            }
        }
    }

    ghost idle = { λ peer off. tt };

    ghost earlier_known = { λ peer. refl };

    ghost reads = { λ peer. refl };

    ghost writes = { λ peer. refl };
}
