//! Listening at a port, and accepting connections.
ghost use Rattle.slab.specs.Slab.{slab_len};
ghost use Rattle.std.specs.Prelude.{◌≡◌, ◌≤◌, ◌+◌, ◌∷◌, ◌++◌, ◌⊎◌, ◌||◌, [], IfSome, MatchResult, None, OnErr, OnOk, OnSome, Some};
ghost use Rattle.std.specs.Prelude.{false, is_some, nat_le, true};
ghost use Rattle.std.specs.VecDeque.{deque_len};
ghost use Rattle.unl_net.specs.EndedConnections.{Accounts};

use crate::connection::Connection;
use crate::limits::most_connections;
use crate::log::{Log, Logged, WELL};
use crate::moment::moment;
use crate::reactor::Reactor;
use std::alloc::Global;
use std::io::{ErrorKind, Read, Write};
use std::net::{Ipv4Addr, Ipv6Addr, Net, OpenListener, OpenStream, SocketAddr, TcpListener};
use std::os::fd::AsRawFd;
use std::sync::Wait;
use std::time::{Clock, Duration};
use std::{io, thread};

/// How many connections are accepted in a row at most.
const MOST_AT_ONCE: u64 = 16;

/// How long the door pauses before it tries again to accept, in milliseconds.
const ACCEPT_PAUSE: u64 = 10;

/// The logged state while accepting fails.
const FAILS: u16 = 1;

/// The Linux error numbers that count as permanent, after which no accept is tried again: EBADF, EFAULT, EINVAL,
/// ENOTSOCK and EOPNOTSUPP.
const LASTING: [i32; 5] = [9, 14, 22, 88, 95];

/// The Linux error numbers of a shortage of file descriptors or of memory for one: ENOMEM, ENFILE, EMFILE and ENOBUFS.
const SHORTAGES: [i32; 4] = [12, 23, 24, 105];

/// Whether an error means that there are no more file descriptors, or no memory for one.
fn is_shortage(fault: &io::Error) -> bool {
    match fault.raw_os_error() {
        Some(code) => SHORTAGES.contains(&code),
        None => false,
    }
}

/// Whether an error is temporary, so that accepting is tried again: it has a system error number that is not in
/// `LASTING`.
fn is_temporary(fault: &io::Error) -> bool {
    match fault.raw_os_error() {
        Some(code) => !LASTING.contains(&code),
        None => false,
    }
}

/// How many connections were accepted, how many may be accepted in all, and whether accepting fails, for now or for
/// good.
#[derive(Clone, Copy)]
pub(crate) struct Accepting {
    pub log: Log,
    pub logged: Logged,
    /// How many connections are accepted at most.
    pub bound: u64,
    /// How many were accepted.
    pub accepted: u64,
    /// The error with which an accept or a wait for events failed for good, if one did: nothing more is accepted then.
    pub fault: Option<io::Error>,
    ghost within: { accepted ≤ bound },
}

impl Accepting {
    /// The initial state, with no accepted connection and no fault. At most `bound` connections may be accepted.
    pub fn new(bound: u64) -> Self
        ensures bound { result.bound ≡ bound }
        ensures none { result.accepted ≡ 0 }
    {
        Accepting {
            log: Log::new(),
            logged: Logged::new(),
            bound,
            accepted: 0,
            fault: None,
        }
    }

    /// Whether as many connections were accepted as the bound allows.
    pub fn is_full(&self) -> bool
        ensures { result ≡ nat_le self.now.bound self.now.accepted }
    {
        self.bound <= self.accepted
    }

    /// Whether no more connections are accepted.
    pub fn is_done(&self) -> bool
        ensures { result ≡ (is_some self.now.fault || nat_le self.now.bound self.now.accepted) }
    {
        self.fault.is_some() || self.is_full()
    }

    /// Notes that an accept or a wait for events failed for good.
    pub fn note_final_fault(&mut self, fault: io::Error)
        ensures { self.new ≡ record self.old { fault = Some fault } }
    {
        self.fault = Some(fault);
    }

    /// Counts a connection that was accepted. The bound must not have been reached before.
    fn count(&mut self)
        requires { nat_le self.old.bound self.old.accepted ≡ false }
        ensures { (self.new.bound ≡ self.old.bound) × (self.new.accepted ≡ self.old.accepted + 1) }
    {
        self.accepted += 1;
    }

    /// The error with which an accept or a wait for events failed for good, or `NotConnected` if none did.
    pub fn final_fault(&self) -> io::Error
        ensures { IfSome self.now.fault (λ fault. result ≡ fault) }
    {
        match self.fault {
            Some(fault) => fault,
            None => io::Error::from(ErrorKind::NotConnected),
        }
    }

    /// Notes that an accept succeeded, and logs it if a failure was noted since the last success.
    fn note_well<N: Eprint>(&mut self, net: &N)
        ensures { (self.new.bound ≡ self.old.bound) × (self.new.accepted ≡ self.old.accepted) }
    {
        if self.logged.is_news(WELL) {
            self.log.line(net, "accepting again");
        }
    }

    /// Notes that an accept failed with a temporary error, logs it if it is the first since the last success, and
    /// pauses.
    fn note_fault<N: Eprint + Clock>(&mut self, net: &N, fault: &io::Error)
        ensures { (self.new.bound ≡ self.old.bound) × (self.new.accepted ≡ self.old.accepted) }
    {
        if self.logged.is_news(FAILS) {
            self.log
                .line(net, format_args!("cannot accept, trying again: {fault}"));
        }
        thread::sleep(net, Duration::from_millis(ACCEPT_PAUSE));
    }
}

/// Accepts pending connections, at most `MOST_AT_ONCE`, and returns how many. Afterwards each of them is waiting or
/// ready in the reactor, or has ended. If accepting fails for good, the error is noted and no more connections are
/// accepted, but the existing ones are served.
#[tactic(auto, using(crate::proofs::Accounting::accept_rules))]
pub(crate) fn accept_some<N: Net + Clock + Eprint + Wait + Copy + Drop>(
    alloc: Global,
    net: N,
    listener: &N::Listener,
    reactor: &mut Reactor<N::Stream>,
    accepting: &mut Accepting,
) -> u64
    ensures accounts { Accounts result (slab_len reactor.old.waiting + deque_len reactor.old.ready) reactor.old.ended
        (slab_len reactor.new.waiting + deque_len reactor.new.ready) reactor.new.ended }
{
    'accepted: for accepted in 0..MOST_AT_ONCE {
        let Some(stream) = accept_one(net, listener, reactor, accepting) else {
            return accepted;
        };
        take_in(alloc, net, stream, reactor, accepting);
    }
    MOST_AT_ONCE
}

/// Accepts a connection, if one may be accepted and one is pending.
#[tactic(auto, using(crate::proofs::Accounting::step, crate::proofs::Conditions::if_any))]
fn accept_one<N: Net + Clock + Eprint + Wait + Copy + Drop>(
    net: N,
    listener: &N::Listener,
    reactor: &mut Reactor<N::Stream>,
    accepting: &mut Accepting,
) -> Option<N::Stream>
    ensures accounts { Accounts 0 (slab_len reactor.old.waiting + deque_len reactor.old.ready) reactor.old.ended
        (slab_len reactor.new.waiting + deque_len reactor.new.ready) reactor.new.ended }
    ensures not_full { OnSome result (nat_le accepting.new.bound accepting.new.accepted ≡ false) }
{
    if !may_accept(reactor, accepting) {
        return None;
    }
    stream_of(net, listener.accept(), reactor, accepting)
}

/// Whether a connection may be accepted. If there is no room, closes a waiting connection to make room. If there is no
/// waiting connection to close, one more connection may be accepted only if no connection is ready.
#[tactic(auto, using(crate::proofs::Accounting::same))]
fn may_accept<S: Read + Write + OpenStream + AsRawFd + Drop>(
    reactor: &mut Reactor<S>,
    accepting: &Accepting,
) -> bool
    ensures accounts { Accounts 0 (slab_len reactor.old.waiting + deque_len reactor.old.ready) reactor.old.ended
        (slab_len reactor.new.waiting + deque_len reactor.new.ready) reactor.new.ended }
    ensures not_full { result ≡ true → nat_le accepting.now.bound accepting.now.accepted ≡ false }
{
    if accepting.is_full() {
        return false;
    }
    if !reactor.may_accept || accepting.fault.is_some() {
        return false;
    }
    let has_room = reactor.make_room();
    has_room || !reactor.has_ready()
}

/// Returns the stream of a successful accept. Otherwise handles the error and returns `None`.
#[tactic(auto, using(crate::proofs::Accounting::same))]
fn stream_of<N: Net + Clock + Eprint + Wait + Copy + Drop>(
    net: N,
    accepted: io::Result<(N::Stream, SocketAddr)>,
    reactor: &mut Reactor<N::Stream>,
    accepting: &mut Accepting,
) -> Option<N::Stream>
    ensures accounts { Accounts 0 (slab_len reactor.old.waiting + deque_len reactor.old.ready) reactor.old.ended
        (slab_len reactor.new.waiting + deque_len reactor.new.ready) reactor.new.ended }
    ensures exact { MatchResult accepted (λ pair. result ≡ Some pair.0) (λ _. result ≡ None) }
    ensures counts { (accepting.new.bound ≡ accepting.old.bound) × (accepting.new.accepted ≡ accepting.old.accepted) }
{
    match accepted {
        Ok((stream, _)) => {
            accepting.note_well(&net);
            Some(stream)
        }
        Err(fault) => {
            note_failed(net, fault, reactor, accepting);
            None
        }
    }
}

/// Handles a failed accept. If no connection is pending, the door accepts again only after an event. A permanent error
/// ends accepting. A temporary one is logged, or, if descriptors or memory are short, waiting connections are closed.
#[tactic(auto, using(crate::proofs::Accounting::same))]
fn note_failed<N: Net + Clock + Eprint + Wait + Copy + Drop>(
    net: N,
    fault: io::Error,
    reactor: &mut Reactor<N::Stream>,
    accepting: &mut Accepting,
)
    ensures accounts { Accounts 0 (slab_len reactor.old.waiting + deque_len reactor.old.ready) reactor.old.ended
        (slab_len reactor.new.waiting + deque_len reactor.new.ready) reactor.new.ended }
    ensures counts { (accepting.new.bound ≡ accepting.old.bound) × (accepting.new.accepted ≡ accepting.old.accepted) }
{
    if fault.kind() == ErrorKind::WouldBlock {
        reactor.may_accept = false;
        return;
    }
    if !is_temporary(&fault) {
        accepting.note_final_fault(fault);
        return reactor.begin_ending(moment(&net));
    }
    if is_shortage(&fault) {
        return note_shortage(net, fault, reactor, accepting);
    }
    accepting.note_fault(&net, &fault);
}

/// Handles a shortage of descriptors or memory: closes connections that wait, or notes the error and pauses if there
/// are none.
#[tactic(auto, using(crate::proofs::Accounting::same))]
fn note_shortage<N: Net + Clock + Eprint + Wait + Copy + Drop>(
    net: N,
    fault: io::Error,
    reactor: &mut Reactor<N::Stream>,
    accepting: &mut Accepting,
)
    ensures accounts { Accounts 0 (slab_len reactor.old.waiting + deque_len reactor.old.ready) reactor.old.ended
        (slab_len reactor.new.waiting + deque_len reactor.new.ready) reactor.new.ended }
    ensures counts { (accepting.new.bound ≡ accepting.old.bound) × (accepting.new.accepted ≡ accepting.old.accepted) }
{
    if !reactor.note_shortage(moment(&net)) {
        accepting.note_fault(&net, &fault);
    }
}

/// Takes in the stream of a connection that was accepted before the bound was reached. A stream that can't be set up is
/// dropped: the connection counts as ended, but not towards the bound.
fn take_in<N: Net + Clock + Eprint + Wait + Copy + Drop>(
    alloc: Global,
    net: N,
    stream: N::Stream,
    reactor: &mut Reactor<N::Stream>,
    accepting: &mut Accepting,
)
    requires { nat_le accepting.old.bound accepting.old.accepted ≡ false }
    ensures accounts { Accounts 1 (slab_len reactor.old.waiting + deque_len reactor.old.ready) reactor.old.ended
        (slab_len reactor.new.waiting + deque_len reactor.new.ready) reactor.new.ended }
    ensures counts { (accepting.new.accepted ≡ accepting.old.accepted) ⊎ (accepting.new.accepted ≡ accepting.old.accepted + 1) }
{
    match Connection::new(alloc, stream) {
        Ok(connection) => take_in_counted(net, connection, reactor, accepting),
        Err(fault) => reactor.note_unset(fault),
    }
}

/// Takes in a connection that was accepted, and counts it towards the bound, which must not have been reached before.
#[tactic(auto, using(crate::proofs::Accounting::then_one))]
fn take_in_counted<N: Net + Clock + Eprint + Wait + Copy + Drop>(
    net: N,
    connection: Connection<N::Stream>,
    reactor: &mut Reactor<N::Stream>,
    accepting: &mut Accepting,
)
    requires { nat_le accepting.old.bound accepting.old.accepted ≡ false }
    ensures accounts { Accounts 1 (slab_len reactor.old.waiting + deque_len reactor.old.ready) reactor.old.ended
        (slab_len reactor.new.waiting + deque_len reactor.new.ready) reactor.new.ended }
    ensures counts { accepting.new.accepted ≡ accepting.old.accepted + 1 }
{
    accepting.count();
    note_if_accepted_all(reactor, accepting);
    reactor.take_in(&net, connection);
}

/// Notes that no more connections are accepted, if the bound is reached.
#[tactic(auto, using(crate::proofs::Accounting::same))]
fn note_if_accepted_all<S: Read + Write + OpenStream + AsRawFd + Drop>(
    reactor: &mut Reactor<S>,
    accepting: &Accepting,
)
    ensures accounts { Accounts 0 (slab_len reactor.old.waiting + deque_len reactor.old.ready) reactor.old.ended
        (slab_len reactor.new.waiting + deque_len reactor.new.ready) reactor.new.ended }
{
    if accepting.is_full() {
        reactor.note_accepted_all();
    }
}

/// Listens at a port: on IPv6 and IPv4 if one IPv6 socket serves both, otherwise on IPv4. The IPv6 socket is taken to
/// serve both if no IPv4 socket can be bound at the same port as well.
///
/// # Errors
/// Neither an IPv6 nor an IPv4 socket can be bound at the port.
pub(crate) fn bind_all<N: Net>(net: &N, port: u16) -> io::Result<N::Listener> {
    let Ok(both) = TcpListener::bind(net, (Ipv6Addr::UNSPECIFIED, port)) else {
        return bind_four(net, port);
    };
    match bind_four(net, port) {
        Ok(four) => Ok(four),
        Err(_) => Ok(both),
    }
}

/// Listens at a port on IPv4.
fn bind_four<N: Net>(net: &N, port: u16) -> io::Result<N::Listener> {
    TcpListener::bind(net, (Ipv4Addr::UNSPECIFIED, port))
}

/// Listens at a port, with a reactor for its connections. `most` is the limit on their number ([`Reactor::new`]).
///
/// # Errors
/// Listening at the port or registering for its events failed, or out of memory.
fn open_at<N: Net>(
    alloc: Global,
    net: &N,
    port: u16,
    workers: u32,
    most: usize,
) -> io::Result<(N::Listener, Reactor<N::Stream>)> {
    let listener = bind_all(net, port)?;
    listener.set_nonblocking(true)?;
    let reactor = Reactor::new(alloc, net, &listener, workers, most)?;
    Ok((listener, reactor))
}

/// Logs the address that a listener is open at, unless the system can't return it.
pub(crate) fn log_open<N: Eprint, L: OpenListener>(net: &N, listener: &L, log: &mut Log) {
    if let Ok(address) = listener.local_addr() {
        log.line(net, format_args!("listening at {address}"));
    }
}

/// Opens a listener at a port, with a reactor for its connections, and appends the port to `ports`.
///
/// # Errors
/// Listening at the port or registering for its events failed, or out of memory. `ports` is unchanged.
pub(crate) fn open_one_more<N: Net>(
    alloc: Global,
    net: &N,
    port: u16,
    workers: u32,
    ports: &mut Vec<u16>,
) -> io::Result<(N::Listener, Reactor<N::Stream>)>
    ensures ok { OnOk result (ports.new.items ≡ ports.old.items ++ port ∷ []) }
    ensures err { OnErr result (ports.new.items ≡ ports.old.items) }
{
    let opened = open_at(alloc, net, port, workers, most_connections())?;
    if ports.push(port).is_err() {
        return Err(io::Error::from(ErrorKind::OutOfMemory));
    }
    Ok(opened)
}
