//! A door that accepts connections of the network, and hands out those with a whole request as links.
ghost use Rattle.slab.specs.Slab.{slab_len};
ghost use Rattle.std.specs.Prelude.{◌≡◌, ◌+◌, ◌-◌, ◌^◌, ◌∷◌, [], IfNone, IfOk, IfSome, None, OnErr};
ghost use Rattle.std.specs.Prelude.{true, unwrap_or};
ghost use Rattle.std.specs.VecDeque.{deque_len};
ghost use Rattle.unl_base.specs.Doors.{Accepts, IsFresh};
ghost use Rattle.unl_base.specs.Faults.{HasExactCause};
ghost use Rattle.unl_net.specs.Doors.{IsLastLink, IsFinished, door_state, ended_by, held_by, with_link, with_link_if_any};
ghost use Rattle.unl_net.specs.EndedConnections.{Accounts, LosesNone};

use crate::counts::Counts;
use crate::link::RealLink;
use crate::listener::{Accepting, accept_some, log_open, open_one_more};
use crate::moment::moment;
use crate::reactor::Reactor;
use crate::reports::Reports;
use std::alloc::{AllocError, Global};
use std::io;
use std::io::{ErrorKind, Read, Write};
use std::net::{Net, OpenListener, OpenStream};
use std::os::fd::AsRawFd;
use std::sync::{Arc, Wait};
use std::time::Clock;
use unl_base::{Door, Failed};

/// How many links are handed out at most before the door handles further events.
const MOST_IN_A_ROW: u64 = 32;

/// The longest wait for an event, in milliseconds.
const LONG_WAIT: u64 = 1_000;

/// The longest wait for an event while a connection is pending and there is no room for it yet, in milliseconds.
const SHORT_WAIT: u64 = 10;

/// A door over the network. It listens on all IPv6 and IPv4 addresses of this machine if one socket can do both,
/// otherwise on all IPv4 addresses. It holds the connections that wait for their clients, and hands one out as a link
/// once a whole request was received, or bytes that are refused (no valid request begins with them). The same
/// connection may be handed out several times, as one link after another.
#[derive(Drop)]
pub struct RealDoor<N: Net + Clock + Eprint + Wait + Copy + Drop> {
    net: N,
    alloc: Global,
    /// The ports that the door listened at, in order. There is room for one from the start.
    ports: Vec<u16>,
    listener: Option<N::Listener>,
    reactor: Option<Reactor<N::Stream>>,
    workers: u32,
    accepting: Accepting,
    reports: Reports,
    counts: Counts,
    faults: u64,
}

impl<N: Net + Clock + Eprint + Wait + Copy + Drop> RealDoor<N> {
    /// A door that doesn't listen yet and has counted no fault. It accepts `bound` connections (2^64 - 1 without a
    /// bound), and closes when it hands out the last link of these, or at once if the bound is 0. `workers`: how many
    /// worker threads serve links at the same time, or 0 if the thread that calls `accept` serves them.
    ///
    /// # Errors
    /// Out of memory.
    pub fn new(alloc: Global, net: N, bound: Option<u64>, workers: u32) -> Result<Self, AllocError>
        ensures new { IfOk result (λ door. (door.listener ≡ None) × (door.counts.handed_out ≡ 0) × (door.counts.taken_back ≡ 0)
            × (door.faults ≡ 0)) }
        ensures no_port { IfOk result (λ door. door.ports.items ≡ []) }
        ensures bound { IfOk result (λ door. door.accepting.bound ≡ unwrap_or bound (2 ^ 64 - 1)) }
        ensures workers { IfOk result (λ door. door.workers ≡ workers) }
    {
        Ok(RealDoor {
            net,
            alloc,
            ports: Vec::with_capacity(alloc, 1)?,
            listener: None,
            reactor: None,
            workers,
            accepting: Accepting::new(bound.unwrap_or(u64::MAX)),
            reports: Reports::new(),
            counts: Counts {
                closed: bound == Some(0),
                handed_out: 0,
                taken_back: 0,
            },
            faults: 0,
        })
    }
}

/// Waits for the next link. Returns it, and whether it is the last one.
///
/// # Errors
/// Out of memory. If accepting or waiting for events failed for good: the error of that failure, once no connection is
/// left. `NotConnected` if the door doesn't listen, or if all connections that its bound allows have ended.
#[tactic(auto, using(crate::proofs::Accounting::unchanged, crate::proofs::Accounting::of_opened))]
fn next_link<N: Net + Clock + Eprint + Wait + Copy + Drop>(
    alloc: Global,
    net: N,
    listener: &Option<N::Listener>,
    reactor: &mut Option<Reactor<N::Stream>>,
    accepting: &mut Accepting,
    reports: &mut Reports,
) -> io::Result<(RealLink<N::Stream, N>, bool)>
    ensures faultless { IfOk result (λ next. next.0.faults ≡ 0) }
    ensures last { IfOk result (λ next. next.1 ≡ true
        → IfSome reactor.new (λ reactor. IsLastLink accepting.new reactor.waiting reactor.ready.items)) }
    ensures accounts { LosesNone reports.old.arrived (held_by reactor.old) (ended_by reactor.old)
        reports.new.arrived (with_link result (held_by reactor.new)) (ended_by reactor.new) }
{
    let Some(listener) = listener else {
        return Err(io::Error::from(ErrorKind::NotConnected));
    };
    let Some(reactor) = reactor else {
        return Err(io::Error::from(ErrorKind::NotConnected));
    };
    next_link_or_fault(alloc, net, listener, reactor, accepting, reports)
}

/// Waits for the next link of a reactor. Returns it, and whether it is the last one.
///
/// # Errors
/// As [`next_link`].
fn next_link_or_fault<N: Net + Clock + Eprint + Wait + Copy + Drop>(
    alloc: Global,
    net: N,
    listener: &N::Listener,
    reactor: &mut Reactor<N::Stream>,
    accepting: &mut Accepting,
    reports: &mut Reports,
) -> io::Result<(RealLink<N::Stream, N>, bool)>
    ensures faultless { IfOk result (λ next. next.0.faults ≡ 0) }
    ensures last { IfOk result (λ next. next.1 ≡ true → IsLastLink accepting.new reactor.new.waiting reactor.new.ready.items) }
    ensures accounts { LosesNone reports.old.arrived (slab_len reactor.old.waiting + deque_len reactor.old.ready) reactor.old.ended
        reports.new.arrived (with_link result (slab_len reactor.new.waiting + deque_len reactor.new.ready)) reactor.new.ended }
{
    let next = next_link_if_any(alloc, net, listener, reactor, accepting, reports)?;
    let Some(next) = next else {
        return Err(accepting.final_fault());
    };
    Ok(next)
}

/// Waits for the next link of a reactor. Returns it, and whether it is the last one. `None`: no connection waits or is
/// ready, and no more are accepted. No connection is lost: each one that the reactor had before, that was accepted
/// meanwhile, or that a link returned, is now the link, waits, is ready, or was counted as ended.
///
/// # Errors
/// Out of memory.
#[tactic(auto, using(crate::proofs::Accounting::unchanged, crate::proofs::Accounting::behind))]
fn next_link_if_any<N: Net + Clock + Eprint + Wait + Copy + Drop>(
    alloc: Global,
    net: N,
    listener: &N::Listener,
    reactor: &mut Reactor<N::Stream>,
    accepting: &mut Accepting,
    reports: &mut Reports,
) -> io::Result<Option<(RealLink<N::Stream, N>, bool)>>
    ensures faultless { IfOk result (λ next. IfSome next (λ next. next.0.faults ≡ 0)) }
    ensures last { IfOk result (λ next. IfSome next (λ next. next.1 ≡ true
        → IsLastLink accepting.new reactor.new.waiting reactor.new.ready.items)) }
    ensures none { IfOk result (λ next. IfNone next (IsFinished accepting.new reactor.new.waiting reactor.new.ready.items)) }
    ensures accounts { LosesNone reports.old.arrived (slab_len reactor.old.waiting + deque_len reactor.old.ready) reactor.old.ended
        reports.new.arrived (with_link_if_any result (slab_len reactor.new.waiting + deque_len reactor.new.ready)) reactor.new.ended }
{
    'turns: for _turn in 0..u64::MAX {
        take_back(&net, reactor, reports);
        if let Some(next) = hand_out_in_a_row(alloc, net, reactor, accepting, reports)? {
            return Ok(Some(next));
        }
        if is_finished(&net, reactor, accepting, reports) {
            return Ok(None);
        }
        accept_and_wait(alloc, net, listener, reactor, accepting, reports);
    }
    Err(io::Error::from(ErrorKind::NotConnected))
}

/// Hands out a connection that is ready. Returns its link, and whether this is the last link. Returns `None` if no
/// connection is ready, or if `MOST_IN_A_ROW` were handed out since the door last waited for events.
///
/// # Errors
/// Out of memory.
#[tactic(auto, using(crate::proofs::Accounting::link_made, crate::proofs::Accounting::no_link_made))]
fn hand_out_in_a_row<N: Net + Clock + Eprint + Wait + Copy + Drop>(
    alloc: Global,
    net: N,
    reactor: &mut Reactor<N::Stream>,
    accepting: &Accepting,
    reports: &mut Reports,
) -> io::Result<Option<(RealLink<N::Stream, N>, bool)>>
    ensures faultless { IfOk result (λ next. IfSome next (λ next. next.0.faults ≡ 0)) }
    ensures last { IfOk result (λ next. IfSome next (λ next. next.1 ≡ true
        → IsLastLink accepting.now reactor.new.waiting reactor.new.ready.items)) }
    ensures accounts { LosesNone reports.old.arrived (slab_len reactor.old.waiting + deque_len reactor.old.ready) reactor.old.ended
        reports.new.arrived (with_link_if_any result (slab_len reactor.new.waiting + deque_len reactor.new.ready)) reactor.new.ended }
{
    if reports.in_a_row >= MOST_IN_A_ROW {
        reports.in_a_row = 0;
        return Ok(None);
    }
    match hand_out(alloc, net, reactor, accepting)? {
        Some(next) => {
            reports.in_a_row = reports.in_a_row.saturating_add(1);
            Ok(Some(next))
        }
        None => {
            reports.in_a_row = 0;
            Ok(None)
        }
    }
}

/// Takes back the connections that links returned, and counts them.
#[tactic(auto, using(crate::proofs::Accounting::arrived))]
fn take_back<N: Net + Clock + Eprint + Wait + Copy + Drop>(
    net: &N,
    reactor: &mut Reactor<N::Stream>,
    reports: &mut Reports,
)
    ensures accounts { LosesNone reports.old.arrived (slab_len reactor.old.waiting + deque_len reactor.old.ready) reactor.old.ended
        reports.new.arrived (slab_len reactor.new.waiting + deque_len reactor.new.ready) reactor.new.ended }
{
    let count = reactor.take_back(net);
    reports.count_arrived(count);
}

/// Accepts pending connections, and counts them.
#[tactic(auto, using(crate::proofs::Accounting::arrived))]
fn accept_more<N: Net + Clock + Eprint + Wait + Copy + Drop>(
    alloc: Global,
    net: N,
    listener: &N::Listener,
    reactor: &mut Reactor<N::Stream>,
    accepting: &mut Accepting,
    reports: &mut Reports,
)
    ensures accounts { LosesNone reports.old.arrived (slab_len reactor.old.waiting + deque_len reactor.old.ready) reactor.old.ended
        reports.new.arrived (slab_len reactor.new.waiting + deque_len reactor.new.ready) reactor.new.ended }
{
    let count = accept_some(alloc, net, listener, reactor, accepting);
    reports.count_arrived(count);
}

/// Whether the door is finished: no more connections are accepted, none waits or is ready, and the door need not wait
/// until its links return their connections ([`Reactor::needs_no_link`] says when).
#[tactic(auto, using(crate::proofs::Accounting::unchanged))]
fn is_finished<N: Net + Clock + Eprint + Wait + Copy + Drop>(
    net: &N,
    reactor: &mut Reactor<N::Stream>,
    accepting: &Accepting,
    reports: &mut Reports,
) -> bool
    ensures served { result ≡ true → IsFinished accepting.now reactor.new.waiting reactor.new.ready.items }
    ensures accounts { LosesNone reports.old.arrived (slab_len reactor.old.waiting + deque_len reactor.old.ready) reactor.old.ended
        reports.new.arrived (slab_len reactor.new.waiting + deque_len reactor.new.ready) reactor.new.ended }
{
    if !accepting.is_done() {
        return false;
    }
    if !reactor.needs_no_link(moment(net)) {
        return false;
    }
    // A link may have returned its connection since the door last took any back. Such a connection is taken back now,
    // so that it isn't missed.
    take_back(net, reactor, reports);
    reactor.is_empty()
}

/// Accepts connections, waits for events, and ends the connections whose time is over.
#[tactic(auto, using(crate::proofs::Accounting::behind))]
fn accept_and_wait<N: Net + Clock + Eprint + Wait + Copy + Drop>(
    alloc: Global,
    net: N,
    listener: &N::Listener,
    reactor: &mut Reactor<N::Stream>,
    accepting: &mut Accepting,
    reports: &mut Reports,
)
    ensures accounts { LosesNone reports.old.arrived (slab_len reactor.old.waiting + deque_len reactor.old.ready) reactor.old.ended
        reports.new.arrived (slab_len reactor.new.waiting + deque_len reactor.new.ready) reactor.new.ended }
{
    accept_more(alloc, net, listener, reactor, accepting, reports);
    // From here on, a link that returns a connection wakes the door.
    reactor.shared.note_sleep(true);
    wait_for_events(net, reactor, accepting, reports);
}

/// Takes back the connections that links returned without waking the door, waits for events, and ends the connections
/// whose time is over.
#[tactic(auto, using(crate::proofs::Accounting::around))]
fn wait_for_events<N: Net + Clock + Eprint + Wait + Copy + Drop>(
    net: N,
    reactor: &mut Reactor<N::Stream>,
    accepting: &mut Accepting,
    reports: &mut Reports,
)
    ensures accounts { LosesNone reports.old.arrived (slab_len reactor.old.waiting + deque_len reactor.old.ready) reactor.old.ended
        reports.new.arrived (slab_len reactor.new.waiting + deque_len reactor.new.ready) reactor.new.ended }
{
    take_back(&net, reactor, reports);
    wait(&net, reactor, accepting);
    sweep_and_log(net, reactor, accepting, reports);
}

/// Waits for events, and handles them. If the wait fails, it counts as failed for good: no more connections are
/// accepted, and those that wait end, as far as there is memory to note their keys.
#[tactic(auto, using(crate::proofs::Accounting::step))]
fn wait<N: Net + Clock + Eprint + Wait + Copy + Drop>(
    net: &N,
    reactor: &mut Reactor<N::Stream>,
    accepting: &mut Accepting,
)
    ensures accounts { Accounts 0 (slab_len reactor.old.waiting + deque_len reactor.old.ready) reactor.old.ended
        (slab_len reactor.new.waiting + deque_len reactor.new.ready) reactor.new.ended }
{
    let most = wait_limit(reactor, accepting);
    if let Err(fault) = reactor.wait(net, most) {
        accepting.note_final_fault(fault);
        reactor.end_waiting(fault);
    }
}

/// The longest time that the door waits for an event now, in milliseconds.
fn wait_limit<S: Read + Write + OpenStream + AsRawFd + Drop>(
    reactor: &Reactor<S>,
    accepting: &Accepting,
) -> u64 {
    if reactor.has_ready() {
        0
    } else if !reactor.may_accept || accepting.is_done() {
        LONG_WAIT
    } else if reactor.is_full() {
        SHORT_WAIT
    } else {
        0
    }
}

/// Hands out the first connection that is ready, if there is one. Returns its link, and whether this is the last link.
/// The link's pointer to the shared state is cloned first: if that fails, the connection stays ready.
///
/// # Errors
/// Out of memory.
#[tactic(auto, using(crate::proofs::Conditions::first_named))]
fn hand_out<N: Net + Clock + Eprint + Wait + Copy + Drop>(
    alloc: Global,
    net: N,
    reactor: &mut Reactor<N::Stream>,
    accepting: &Accepting,
) -> io::Result<Option<(RealLink<N::Stream, N>, bool)>>
    ensures faultless { IfOk result (λ next. IfSome next (λ next. next.0.faults ≡ 0)) }
    ensures last { IfOk result (λ next. IfSome next (λ next. next.1 ≡ true
        → IsLastLink accepting.now reactor.new.waiting reactor.new.ready.items)) }
    ensures first { IfOk result (λ next. IfSome next (λ next. reactor.old.ready.items
        ≡ next.0.served.connection ∷ reactor.new.ready.items)) }
    ensures ready { deque_len reactor.old.ready ≡ with_link_if_any result (deque_len reactor.new.ready) }
    ensures waiting { reactor.new.waiting ≡ reactor.old.waiting }
    ensures ended { reactor.new.ended ≡ reactor.old.ended }
{
    if !reactor.has_ready() {
        return Ok(None);
    }
    let shared = Arc::try_clone(&reactor.shared)?;
    let Some(connection) = reactor.next_ready() else {
        return Ok(None);
    };
    let is_alone = reactor.is_empty();
    let is_last = is_alone && accepting.is_full();
    let link = RealLink::new(alloc, net, shared, connection, is_alone);
    Ok(Some((link, is_last)))
}

/// Ends the connections whose time is over. Logs how many connections were cut off and how many replies had a status of
/// 500 or more, if it is time to log them.
#[tactic(auto, using(crate::proofs::Accounting::none_arrived))]
fn sweep_and_log<N: Net + Clock + Eprint + Wait + Copy + Drop>(
    net: N,
    reactor: &mut Reactor<N::Stream>,
    accepting: &mut Accepting,
    reports: &mut Reports,
)
    ensures accounts { LosesNone reports.old.arrived (slab_len reactor.old.waiting + deque_len reactor.old.ready) reactor.old.ended
        reports.new.arrived (slab_len reactor.new.waiting + deque_len reactor.new.ready) reactor.new.ended }
{
    let now = moment(&net);
    reactor.sweep(now);
    reactor.cuts.count_memory(reactor.shared.take_lost());
    let errors = reactor.shared.take_server_errors();
    reports.log_cuts(&net, now, &mut reactor.cuts, &mut accepting.log);
    reports.log_server_errors(&net, now, errors, &mut accepting.log);
}

impl<N: Net + Clock + Eprint + Wait + Copy + Drop> Door for RealDoor<N> {
    type L = RealLink<N::Stream, N>;

    ghost state = { λ door. door_state door.ports.items door.counts };

    ghost faults = { λ door. door.faults };

    fn listen(&mut self, port: u16) -> Result<(), Failed> {
        let opened = open_one_more(self.alloc, &self.net, port, self.workers, &mut self.ports);
        match opened {
            Ok((listener, reactor)) => {
                log_open(&self.net, &listener, &mut self.accepting.log);
                self.listener = Some(listener);
                self.reactor = Some(reactor);
                Ok(())
            }
            Err(fault) => {
                let line = format_args!("cannot listen at port {port}: {fault}");
                self.accepting.log.line(&self.net, line);
                self.faults = self.faults.saturating_add(1);
                Err(Failed)
            }
        }
    }

    /// Hands out a connection from which a whole request was received, or bytes that are refused. Once all connections
    /// that the door's bound allows were accepted, it hands out each one even before a request was received, and closes
    /// when it hands out the last of them.
    ///
    /// If accepting fails for good, the existing connections continue to wait for their requests. Each is closed after
    /// its requests are answered. This function fails when none is left, or after about 30 seconds. If waiting for
    /// events fails for good, it hands out the connections from which a whole request was received, and then fails.
    ///
    /// No connection is lost: each one that the door held before, that was accepted meanwhile, or that a link returned,
    /// is now the link, waits, is ready, or was counted as ended.
    #[tactic(auto, using(crate::proofs::Accounting::unchanged))]
    fn accept(&mut self) -> Result<Option<Self::L>, Failed>
        ensures accepts { IfOk result (λ link. Accepts link (door_state self.old.ports.items self.old.counts)
            (door_state self.new.ports.items self.new.counts)) }
        ensures fresh { IfOk result (λ link. IfSome link (λ l.
            IsFresh (door_state self.old.ports.items self.old.counts) None None l.faults)) }
        ensures kept { OnErr result (door_state self.new.ports.items self.new.counts
            ≡ door_state self.old.ports.items self.old.counts) }
        ensures cause { HasExactCause self.old.faults self.new.faults result }
        ensures closes { IfOk result (λ link. IfSome link (λ _. self.new.counts.closed ≡ true
            → IfSome self.new.reactor (λ reactor. IsLastLink self.new.accepting reactor.waiting reactor.ready.items))) }
        ensures accounts { LosesNone self.old.reports.arrived (held_by self.old.reactor) (ended_by self.old.reactor)
            self.new.reports.arrived (with_link_if_any result (held_by self.new.reactor)) (ended_by self.new.reactor) }
    {
        if self.counts.closed || self.counts.handed_out == u64::MAX {
            return Ok(None);
        }
        let next = next_link(
            self.alloc,
            self.net,
            &self.listener,
            &mut self.reactor,
            &mut self.accepting,
            &mut self.reports,
        );
        match next {
            Ok((link, is_last)) => {
                self.counts.handed_out += 1;
                self.counts.closed = is_last;
                Ok(Some(link))
            }
            Err(fault) => {
                let line = format_args!("cannot accept: {fault}");
                self.accepting.log.line(&self.net, line);
                self.faults = self.faults.saturating_add(1);
                Err(Failed)
            }
        }
    }

    fn give_back(&mut self, _link: Self::L) {
        let handed_out = self.counts.handed_out;
        if self.counts.taken_back < handed_out {
            self.counts.taken_back += 1;
        }
    }

    ghost within = { λ door. door.counts.in_order };
}
