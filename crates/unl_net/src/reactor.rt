//! The connections of a door that no link serves. The reactor waits for their events, and decides after each event
//! whether a connection keeps waiting, is ready for a link, or ends.
ghost use Rattle.slab.specs.Slab.{slab_len};
ghost use Rattle.std.specs.Prelude.{◌≡◌, ◌+◌, ◌++◌, [], true, IfNone, MatchOption, OnSome, option_to_list};
ghost use Rattle.std.specs.VecDeque.{deque_len};
ghost use Rattle.unl_net.specs.Buffers.{facts_of};
ghost use Rattle.unl_net.specs.EndedConnections.{Accounts, MayEnd, with_cut_if_any, cut_of};
ghost use Rattle.unl_net.specs.Phases.{phase_of};

use crate::connection::{Connection, PIECE};
use crate::cuts::{Cut, Cuts, EndReason, cut_of};
use crate::ending::CLOSED_AT_ONCE;
use crate::moment::{moment, seconds_between};
use crate::phase::Phase;
use crate::shared::SharedWithLinks;
use mio::unix::SourceFd;
use mio::{Events, Interest, Poll, Token, Waker};
use slab::Slab;
use std::alloc::Global;
use std::collections::VecDeque;
use std::io;
use std::io::{Read, Write};
use std::net::OpenStream;
use std::os::fd::{AsRawFd, RawFd};
use std::sync::{Arc, Wait};
use std::time::{Clock, Duration, Instant};

/// How many seconds after the last shortage of descriptors or memory as many connections are allowed as at first.
const SHORT_SECONDS: u64 = 300;

/// How many events are taken at once at most.
const MOST_EVENTS: usize = 256;

/// The token by which events name the listener.
const LISTENER: usize = 0;

/// The token by which events name the waker, which ends a wait of the door.
const WAKER: usize = 1;

/// The token by which events name the connection with the key 0. The others follow.
const FIRST: usize = 2;

/// The connections of a door that no link serves: some wait for their clients, the others are ready for a link.
#[derive(Drop)]
pub(crate) struct Reactor<S: Read + Write + OpenStream + AsRawFd + Drop> {
    alloc: Global,
    poll: Poll,
    events: Events,
    /// The keys of the connections to be handled next, called the noted ones: those that have events, those that may be
    /// over their time limit, or those to be placed again.
    pub(crate) keys: Vec<usize>,
    pub shared: Arc<SharedWithLinks<S>>,
    pub(crate) waiting: Slab<Connection<S>>,
    pub(crate) ready: VecDeque<Connection<S>>,
    room: [u8; PIECE],
    /// When `sweep` last ended the connections whose time is over.
    pub(crate) swept: Option<Instant>,
    /// The number of received bytes in the buffers of all connections that wait.
    pub(crate) received: u64,
    /// The maximum number of connections, including those of links. If links hold all connections, more are accepted
    /// nevertheless. `note_shortage` lowers it, and `sweep` sets it to `limit` again.
    most: usize,
    /// The maximum that the reactor was created with.
    limit: usize,
    /// When descriptors or memory were last short, if `most` is still lowered.
    short_since: Option<Instant>,
    /// How many connections have ended here. It stops at 2^64 - 1.
    pub(crate) ended: u64,
    /// Whether the door closes when it hands out the last connection, since as many were accepted as its bound allows.
    pub(crate) closes: bool,
    /// Whether accepting failed for good: each connection is then closed after its replies.
    pub(crate) is_ending: bool,
    /// When accepting failed for good.
    pub(crate) ending_since: Option<Instant>,
    /// The error with which a wait for events failed for good: no connection waits any more.
    pub(crate) wait_fault: Option<io::Error>,
    /// Whether a connection may be pending at the listener.
    pub may_accept: bool,
    /// The counts of the connections that were cut off and not logged yet.
    pub cuts: Cuts,
}

impl<S: Read + Write + OpenStream + AsRawFd + Drop> Reactor<S> {
    /// Returns a reactor for a listener, without connections. `most` is the maximum number of connections, including
    /// those of links: once it is reached, a connection that waits is closed before another is accepted.
    ///
    /// # Errors
    /// The error of the system, or out of memory.
    pub fn new<R: std::net::Net, L: AsRawFd>(
        alloc: Global,
        net: &R,
        listener: &L,
        workers: u32,
        most: usize,
    ) -> io::Result<Self> {
        let poll = Poll::new(net)?;
        let fd = listener.as_raw_fd();
        poll.registry()
            .register(&mut SourceFd(&fd), Token(LISTENER), Interest::READABLE)?;
        let waker = Waker::new(poll.registry(), Token(WAKER))?;
        Ok(Reactor {
            alloc,
            poll,
            events: Events::with_capacity(alloc, MOST_EVENTS)?,
            keys: Vec::with_capacity(alloc, MOST_EVENTS)?,
            shared: Arc::new(alloc, SharedWithLinks::new(alloc, waker, workers)?)?,
            waiting: Slab::new(alloc),
            ready: VecDeque::new(alloc),
            room: [0; PIECE],
            swept: None,
            received: 0,
            most,
            limit: most,
            short_since: None,
            ended: 0,
            closes: false,
            is_ending: false,
            ending_since: None,
            wait_fault: None,
            may_accept: true,
            cuts: Cuts::new(),
        })
    }

    /// Takes the next connection that is ready for a link, if there is one.
    pub fn next_ready(&mut self) -> Option<Connection<S>>
        ensures waiting { self.new.waiting ≡ self.old.waiting }
        ensures ready { self.old.ready.items ≡ option_to_list result ++ self.new.ready.items }
        ensures len { MatchOption result ((deque_len self.old.ready ≡ 0) × (deque_len self.new.ready ≡ 0))
            (λ _. deque_len self.new.ready + 1 ≡ deque_len self.old.ready) }
        ensures ended { self.new.ended ≡ self.old.ended }
    {
        self.ready.pop_front()
    }

    /// Whether a connection is ready for a link.
    pub fn has_ready(&self) -> bool {
        !self.ready.is_empty()
    }

    /// Whether no connection waits or is ready.
    pub fn is_empty(&self) -> bool
        ensures waiting { result ≡ true → slab_len self.now.waiting ≡ 0 }
        ensures ready { result ≡ true → self.now.ready.items ≡ [] }
    {
        self.waiting.is_empty() && self.ready.is_empty()
    }

    /// Whether there is no link.
    pub fn has_no_links(&self) -> bool {
        Arc::strong_count(&self.shared) <= 1
    }

    /// Whether there are as many connections as allowed, or more.
    pub fn is_full(&self) -> bool {
        self.live() >= self.most
    }

    /// Makes room for one more connection: if there are as many as allowed, closes one that waits. Returns false if
    /// none waits that could be closed.
    #[tactic(auto, using(crate::proofs::Accounting::same))]
    pub fn make_room(&mut self) -> bool
        ensures accounts { Accounts 0 (slab_len self.old.waiting + deque_len self.old.ready) self.old.ended
            (slab_len self.new.waiting + deque_len self.new.ready) self.new.ended }
    {
        if !self.is_full() {
            return true;
        }
        self.close_oldest()
    }

    /// How many connections there are, including those of links. Each link holds a reference to what is shared, and so
    /// does the door.
    fn live(&self) -> usize {
        self.waiting
            .len()
            .saturating_add(self.ready.len())
            .saturating_add(Arc::strong_count(&self.shared).saturating_sub(1))
    }

    /// Handles a lack of file descriptors, or of memory for one: closes up to 8 of the connections that wait, and allows
    /// 8 fewer than there were before, at least 1, until 5 minutes have passed without another shortage. Returns false
    /// if none waits that could be closed.
    pub fn note_shortage(&mut self, now: Option<Instant>) -> bool
        ensures accounts { Accounts 0 (slab_len self.old.waiting + deque_len self.old.ready) self.old.ended
            (slab_len self.new.waiting + deque_len self.new.ready) self.new.ended }
    {
        self.most = self.live().saturating_sub(CLOSED_AT_ONCE).max(1);
        self.short_since = now;
        let closes = self.oldest().is_some();
        self.close_some();
        closes
    }

    /// Allows as many connections as at first again, once 5 minutes have passed since the last shortage. A shortage
    /// whose time isn't known counts as past.
    pub(crate) fn end_shortage(&mut self, now: Option<Instant>)
        ensures same { self.new ≡ record self.old { most = self.new.most; short_since = self.new.short_since } }
    {
        if self.short_since.is_some() && seconds_between(self.short_since, now) < SHORT_SECONDS {
            return;
        }
        self.short_since = None;
        self.most = self.limit;
    }

    /// Takes in a connection that was just accepted.
    pub fn take_in<C: Clock>(&mut self, clock: &C, connection: Connection<S>)
        ensures accounts { Accounts 1 (slab_len self.old.waiting + deque_len self.old.ready) self.old.ended
            (slab_len self.new.waiting + deque_len self.new.ready) self.new.ended }
    {
        let mut connection = connection;
        connection.since = moment(clock);
        self.advance_and_place(clock, connection);
    }

    /// Takes back the connections that links returned, and returns how many these were. Each of them waits, is ready or
    /// has ended.
    #[tactic(auto, using(crate::proofs::Accounting::same, crate::proofs::Accounting::step_one))]
    pub fn take_back<C: Clock + Wait>(&mut self, clock: &C) -> u64
        ensures accounts { Accounts result (slab_len self.old.waiting + deque_len self.old.ready) self.old.ended
            (slab_len self.new.waiting + deque_len self.new.ready) self.new.ended }
    {
        'returned: for taken in 0..u64::MAX {
            let Some(connection) = self.shared.take_returned(clock) else {
                return taken;
            };
            self.place_back(clock, connection);
        }
        u64::MAX
    }

    /// Places a connection that a link gave back. Its stream is read at once only if the connection is to be closed.
    fn place_back<C: Clock>(&mut self, clock: &C, connection: Connection<S>)
        ensures accounts { Accounts 1 (slab_len self.old.waiting + deque_len self.old.ready) self.old.ended
            (slab_len self.new.waiting + deque_len self.new.ready) self.new.ended }
    {
        let mut connection = connection;
        connection.since = moment(clock);
        if let Err(fault) = connection.set_nonblocking() {
            return self.finish(connection, EndReason::Failed(fault));
        }
        connection.open(self.alloc);
        connection.received.shrink(self.alloc);
        if self.is_ending {
            connection.close_after_answers();
        }
        match connection.phase() {
            Phase::Draining => self.advance_and_place(clock, connection),
            _ => self.place(connection),
        }
    }

    /// Advances a connection (sends what is to be sent, then reads what came), and places it by its new phase. If that
    /// fails, the connection ends.
    fn advance_and_place<C: Clock>(&mut self, clock: &C, connection: Connection<S>)
        ensures accounts { Accounts 1 (slab_len self.old.waiting + deque_len self.old.ready) self.old.ended
            (slab_len self.new.waiting + deque_len self.new.ready) self.new.ended }
    {
        let mut connection = connection;
        let unsent = connection.to_send.len();
        let advanced = connection.advance(self.alloc, clock, &mut self.room);
        self.shared
            .note_sent(unsent.saturating_sub(connection.to_send.len()));
        match advanced {
            Ok(_) => self.place(connection),
            Err(fault) => self.finish(connection, EndReason::Failed(fault)),
        }
    }

    /// Places a connection by its phase: it ends, is ready for a link, or waits. If waiting for events failed for good,
    /// it ends instead of waiting.
    pub(crate) fn place(&mut self, connection: Connection<S>)
        ensures accounts { Accounts 1 (slab_len self.old.waiting + deque_len self.old.ready) self.old.ended
            (slab_len self.new.waiting + deque_len self.new.ready) self.new.ended }
    {
        let phase = connection.phase();
        if let Phase::Over = phase {
            return self.finish(connection, EndReason::Done);
        }
        if self.is_for_a_link(phase) {
            return self.make_ready(connection);
        }
        match self.wait_fault {
            Some(fault) => self.finish(connection, EndReason::Failed(fault)),
            None => self.wait_for(connection),
        }
    }

    /// Whether a connection in this phase is handed out as a link. Once the door has accepted all connections that its
    /// bound allows, a connection without a whole request is handed out too.
    fn is_for_a_link(&self, phase: Phase) -> bool {
        phase == Phase::Ready
            || (self.shared.has_accepted_all()
                && (phase == Phase::Idle || phase == Phase::Receiving))
    }

    /// Adds a connection to those that are ready for a link. If an allocation fails, the connection is cut off.
    #[tactic(auto, using(crate::proofs::Accounting::pushed, crate::proofs::Accounting::reserved))]
    fn make_ready(&mut self, connection: Connection<S>)
        ensures accounts { Accounts 1 (slab_len self.old.waiting + deque_len self.old.ready) self.old.ended
            (slab_len self.new.waiting + deque_len self.new.ready) self.new.ended }
    {
        match self.ready.reserve(1) {
            Ok(_) => self.ready.push_back_reserved(connection),
            Err(_) => self.finish(connection, EndReason::CutOff(Cut::Memory)),
        }
    }

    /// Drops a connection that may end for this reason, and counts it as ended. But if the door closes when it hands
    /// out its last connection (`closes`), and no other one waits or is ready, this one is made ready for a link
    /// instead: only by handing it out can the door close.
    #[tactic(auto, using(crate::proofs::Accounting::ended))]
    pub(crate) fn finish(&mut self, connection: Connection<S>, reason: EndReason)
        requires { MayEnd reason (phase_of (facts_of connection.received connection.to_send connection.closing connection.ended))
            connection.since }
        ensures accounts { Accounts 1 (slab_len self.old.waiting + deque_len self.old.ready) self.old.ended
            (slab_len self.new.waiting + deque_len self.new.ready) self.new.ended }
        ensures cuts { self.new.cuts ≡ with_cut_if_any
            (cut_of reason (phase_of (facts_of connection.received connection.to_send connection.closing connection.ended))) self.old.cuts }
    {
        let phase = connection.phase();
        self.cuts.count(cut_of(reason, phase));
        self.shared.note_sent(connection.to_send.len());
        if self.closes && self.is_empty() {
            return self.serve_last(connection);
        }
        self.ended = self.ended.saturating_add(1);
    }

    /// Makes the last connection ready for a link. Its buffers are emptied, so that the link reads nothing and ends. If
    /// an allocation fails, the connection is counted as ended instead.
    #[tactic(auto, using(crate::proofs::Accounting::pushed, crate::proofs::Accounting::ended))]
    fn serve_last(&mut self, connection: Connection<S>)
        ensures accounts { Accounts 1 (slab_len self.old.waiting + deque_len self.old.ready) self.old.ended
            (slab_len self.new.waiting + deque_len self.new.ready) self.new.ended }
        ensures cuts { self.new.cuts ≡ self.old.cuts }
    {
        let mut connection = connection;
        connection.ended = true;
        connection.to_send.clear(self.alloc);
        connection.received.clear(self.alloc);
        match self.ready.reserve(1) {
            Ok(_) => self.ready.push_back_reserved(connection),
            Err(_) => self.ended = self.ended.saturating_add(1),
        }
    }

    /// Adds a connection to those that wait for their clients. If an allocation fails, the connection is cut off.
    #[tactic(auto, using(crate::proofs::Accounting::waits, crate::proofs::Accounting::same))]
    fn wait_for(&mut self, connection: Connection<S>)
        ensures accounts { Accounts 1 (slab_len self.old.waiting + deque_len self.old.ready) self.old.ended
            (slab_len self.new.waiting + deque_len self.new.ready) self.new.ended }
    {
        let fd = connection.stream.as_raw_fd();
        let interest = interest_of(&connection);
        let received = connection.received.len() as u64;
        match self.waiting.insert(connection) {
            Ok(key) => {
                self.received = self.received.saturating_add(received);
                self.watch(key, fd, interest)
            }
            Err(refused) => self.finish(refused.value, EndReason::CutOff(Cut::Memory)),
        }
    }

    /// Registers a waiting connection for events, and cuts one off if all waiting connections together have received
    /// too many bytes.
    #[tactic(auto, using(crate::proofs::Accounting::step))]
    fn watch(&mut self, key: usize, fd: RawFd, interest: Interest)
        ensures accounts { Accounts 0 (slab_len self.old.waiting + deque_len self.old.ready) self.old.ended
            (slab_len self.new.waiting + deque_len self.new.ready) self.new.ended }
    {
        self.register(key, fd, interest);
        self.bound_received()
    }

    /// Registers a waiting connection for events. If that fails, which happens only if memory runs out, the connection
    /// is cut off.
    #[tactic(auto, using(crate::proofs::Accounting::same))]
    fn register(&mut self, key: usize, fd: RawFd, interest: Interest)
        ensures accounts { Accounts 0 (slab_len self.old.waiting + deque_len self.old.ready) self.old.ended
            (slab_len self.new.waiting + deque_len self.new.ready) self.new.ended }
    {
        let token = Token(key.saturating_add(FIRST));
        let registered = self
            .poll
            .registry()
            .register(&mut SourceFd(&fd), token, interest);
        if registered.is_err() {
            self.cut_off(key, Cut::Memory);
        }
    }

    /// Removes the connection with this key from those that wait, if there is one.
    pub(crate) fn take(&mut self, key: usize) -> Option<Connection<S>>
        ensures some { OnSome result (slab_len self.new.waiting + 1 ≡ slab_len self.old.waiting) }
        ensures none { IfNone result (slab_len self.new.waiting ≡ slab_len self.old.waiting) }
        ensures ready { deque_len self.new.ready ≡ deque_len self.old.ready }
        ensures ended { self.new.ended ≡ self.old.ended }
    {
        let connection = self.waiting.try_remove(key)?;
        let received = connection.received.len() as u64;
        self.received = self.received.saturating_sub(received);
        let fd = connection.stream.as_raw_fd();
        let _ = self.poll.registry().deregister(&mut SourceFd(&fd));
        Some(connection)
    }

    /// Waits for events, for `most` milliseconds at most, and handles them. A signal ends the wait early. So does a
    /// link that gives a connection back, if [`SharedWithLinks::note_sleep`] was called with true before.
    ///
    /// # Errors
    /// The error of the system.
    #[tactic(auto, using(crate::proofs::Accounting::same))]
    pub fn wait<C: Clock>(&mut self, clock: &C, most: u64) -> io::Result<()>
        ensures accounts { Accounts 0 (slab_len self.old.waiting + deque_len self.old.ready) self.old.ended
            (slab_len self.new.waiting + deque_len self.new.ready) self.new.ended }
    {
        let polled = self
            .poll
            .poll(&mut self.events, Some(Duration::from_millis(most)));
        self.shared.note_sleep(false);
        // A signal ends the wait without an event or an error.
        polled?;
        let may_accept = note_tokens(&self.events, &mut self.keys);
        self.may_accept = may_accept || self.may_accept;
        self.handle_noted(clock);
        Ok(())
    }

    /// Handles the events of the noted connections.
    #[tactic(auto, using(crate::proofs::Accounting::same, crate::proofs::Accounting::step))]
    fn handle_noted<C: Clock>(&mut self, clock: &C)
        ensures accounts { Accounts 0 (slab_len self.old.waiting + deque_len self.old.ready) self.old.ended
            (slab_len self.new.waiting + deque_len self.new.ready) self.new.ended }
    {
        'noted: for at in 0..self.keys.len() {
            self.handle_at(clock, at);
        }
    }

    /// The key at this index of the noted keys, if there is one.
    pub(crate) fn key(&self, at: usize) -> Option<usize> {
        self.keys.as_slice().get(at).copied()
    }

    /// Handles the event of the noted connection at this index.
    #[tactic(auto, using(crate::proofs::Accounting::same, crate::proofs::Accounting::step))]
    fn handle_at<C: Clock>(&mut self, clock: &C, at: usize)
        ensures accounts { Accounts 0 (slab_len self.old.waiting + deque_len self.old.ready) self.old.ended
            (slab_len self.new.waiting + deque_len self.new.ready) self.new.ended }
    {
        if let Some(key) = self.key(at) {
            self.handle_event(clock, key);
            self.bound_received();
        }
    }

    /// Handles the event of the waiting connection with this key: advances it, and keeps it waiting or places it.
    #[tactic(auto, using(crate::proofs::Accounting::same, crate::proofs::Accounting::placed, crate::proofs::Accounting::waits_again))]
    fn handle_event<C: Clock>(&mut self, clock: &C, key: usize)
        ensures accounts { Accounts 0 (slab_len self.old.waiting + deque_len self.old.ready) self.old.ended
            (slab_len self.new.waiting + deque_len self.new.ready) self.new.ended }
    {
        let Some(connection) = self.waiting.try_remove(key) else {
            return;
        };
        let mut connection = connection;
        let fd = connection.stream.as_raw_fd();
        let unsent = connection.to_send.len();
        let received = connection.received.len() as u64;
        self.received = self.received.saturating_sub(received);
        let advanced = connection.advance(self.alloc, clock, &mut self.room);
        self.shared
            .note_sent(unsent.saturating_sub(connection.to_send.len()));
        match advanced {
            Ok(phase) if phase.waits() => {
                self.received = self
                    .received
                    .saturating_add(connection.received.len() as u64);
                if unsent > 0 && connection.to_send.is_empty() {
                    let token = Token(key.saturating_add(FIRST));
                    let registry = self.poll.registry();
                    let _ = registry.reregister(&mut SourceFd(&fd), token, Interest::READABLE);
                }
                self.waiting.insert_reserved(connection);
            }
            Ok(_) => {
                let _ = self.poll.registry().deregister(&mut SourceFd(&fd));
                self.place(connection);
            }
            Err(fault) => self.finish(connection, EndReason::Failed(fault)),
        }
    }
}

/// Notes the keys of the connections that have events, and returns whether the listener has one.
fn note_tokens(events: &Events, keys: &mut Vec<usize>) -> bool {
    let mut may_accept = false;
    keys.truncate(0);
    for event in events.iter() {
        let Token(token) = event.token();
        if token == LISTENER {
            may_accept = true;
        }
        // There is room for all events that are taken at once.
        if token >= FIRST && keys.push(token - FIRST).is_err() {
            break;
        }
    }
    may_accept
}

/// The event that a connection waits for: that it can be written if bytes are to be sent, and otherwise that it can be
/// read.
fn interest_of<S: Read + Write + OpenStream + Drop>(connection: &Connection<S>) -> Interest {
    if connection.to_send.is_empty() {
        Interest::READABLE
    } else {
        Interest::WRITABLE
    }
}
