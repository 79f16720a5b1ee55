//! Ends connections that wait for their clients: the one with the most received bytes if all together have received too
//! many, the oldest ones if there are as many connections as allowed or if file descriptors run out, and each one that
//! has waited too long. It also decides what happens to all of them once no more are accepted.
ghost use Rattle.slab.specs.Slab.{slab_len};
ghost use Rattle.std.specs.Prelude.{◌≡◌, ◌+◌, ◌&&◌, nat_le};
ghost use Rattle.std.specs.VecDeque.{deque_len};
ghost use Rattle.unl_net.specs.EndedConnections.{Accounts};
ghost use Rattle.unl_net.specs.Moments.{seconds_between};

use crate::connection::Connection;
use crate::cuts::{Cut, EndReason};
use crate::moment::seconds_between;
use crate::phase::Phase;
use crate::reactor::Reactor;
use slab::Slab;
use std::io;
use std::io::{Read, Write};
use std::net::OpenStream;
use std::os::fd::AsRawFd;
use std::time::Instant;

/// The maximum number of received bytes that all waiting connections together may hold.
const MOST_RECEIVED: u64 = 67_108_864;

/// How many connections are closed at once if the system has no more file descriptors, or no memory for one.
pub(crate) const CLOSED_AT_ONCE: usize = 8;

/// The longest time that connections may wait after accepting failed for good, in seconds.
const LAST_SECONDS: u64 = 30;

impl<S: Read + Write + OpenStream + AsRawFd + Drop> Reactor<S> {
    /// Ends the waiting connection with this key, if there is one, and counts it as cut off for this cause.
    #[tactic(auto, using(crate::proofs::Accounting::same, crate::proofs::Accounting::placed))]
    pub(crate) fn cut_off(&mut self, key: usize, cut: Cut)
        ensures accounts { Accounts 0 (slab_len self.old.waiting + deque_len self.old.ready) self.old.ended
            (slab_len self.new.waiting + deque_len self.new.ready) self.new.ended }
    {
        if let Some(connection) = self.take(key) {
            self.finish(connection, EndReason::CutOff(cut));
        }
    }

    /// Cuts off the waiting connection that has received most, if all of them together have received more than
    /// `MOST_RECEIVED` bytes.
    #[tactic(auto, using(crate::proofs::Accounting::same))]
    pub(crate) fn bound_received(&mut self)
        ensures accounts { Accounts 0 (slab_len self.old.waiting + deque_len self.old.ready) self.old.ended
            (slab_len self.new.waiting + deque_len self.new.ready) self.new.ended }
    {
        if self.received > MOST_RECEIVED {
            self.cut_largest();
        }
    }

    /// Cuts off the waiting connection that has received most, if one waits.
    #[tactic(auto, using(crate::proofs::Accounting::same))]
    fn cut_largest(&mut self)
        ensures accounts { Accounts 0 (slab_len self.old.waiting + deque_len self.old.ready) self.old.ended
            (slab_len self.new.waiting + deque_len self.new.ready) self.new.ended }
    {
        if let Some(key) = self.largest() {
            self.cut_off(key, Cut::Memory);
        }
    }

    /// The key of the waiting connection with the most received bytes, if one waits.
    fn largest(&self) -> Option<usize> {
        let mut largest: Option<(usize, usize)> = None;
        for (key, connection) in self.waiting.iter() {
            let received = connection.received.len();
            if is_more(received, &largest) {
                largest = Some((received, key));
            }
        }
        match largest {
            Some((_, key)) => Some(key),
            None => None,
        }
    }

    /// Closes the idle connection (nothing of its next request was received) that has waited longest, or, if none is
    /// idle, the one of all waiting connections that has waited longest. A connection that has waited since an unknown
    /// moment isn't considered. Returns false if there is none to close.
    #[tactic(auto, using(crate::proofs::Accounting::same))]
    pub(crate) fn close_oldest(&mut self) -> bool
        ensures accounts { Accounts 0 (slab_len self.old.waiting + deque_len self.old.ready) self.old.ended
            (slab_len self.new.waiting + deque_len self.new.ready) self.new.ended }
    {
        let Some(key) = self.oldest() else {
            return false;
        };
        self.cut_off(key, Cut::Room);
        true
    }

    /// Closes [`CLOSED_AT_ONCE`] connections as `close_oldest` does, or fewer if fewer wait.
    #[tactic(auto, using(crate::proofs::Accounting::same, crate::proofs::Accounting::step))]
    pub(crate) fn close_some(&mut self)
        ensures accounts { Accounts 0 (slab_len self.old.waiting + deque_len self.old.ready) self.old.ended
            (slab_len self.new.waiting + deque_len self.new.ready) self.new.ended }
    {
        'closed: for _closed in 0..CLOSED_AT_ONCE {
            self.close_oldest();
        }
    }

    /// The key of the connection that `close_oldest` closes, if there is one.
    pub(crate) fn oldest(&self) -> Option<usize> {
        let mut oldest: Option<(bool, Instant, usize)> = None;
        for (key, connection) in self.waiting.iter() {
            if let Some(since) = connection.since {
                let is_busy = connection.phase() != Phase::Idle;
                if is_older(is_busy, since, &oldest) {
                    oldest = Some((is_busy, since, key));
                }
            }
        }
        match oldest {
            Some((_, _, key)) => Some(key),
            None => None,
        }
    }

    /// Counts as ended a connection whose stream could not be set up.
    #[tactic(auto, using(crate::proofs::Accounting::ended))]
    pub fn note_unset(&mut self, _fault: io::Error)
        ensures accounts { Accounts 1 (slab_len self.old.waiting + deque_len self.old.ready) self.old.ended
            (slab_len self.new.waiting + deque_len self.new.ready) self.new.ended }
    {
        self.ended = self.ended.saturating_add(1);
    }

    /// Ends the connections whose time is over, at most once a second. A connection's time is over if it has waited too
    /// long, or if no connection may wait any longer (`is_over`). If there is no memory to note all of them, the rest
    /// end later. Also ends a shortage that is past (`end_shortage`).
    #[tactic(auto, using(crate::proofs::Accounting::same))]
    pub fn sweep(&mut self, now: Option<Instant>)
        ensures accounts { Accounts 0 (slab_len self.old.waiting + deque_len self.old.ready) self.old.ended
            (slab_len self.new.waiting + deque_len self.new.ready) self.new.ended }
    {
        if self.swept.is_some() && seconds_between(self.swept, now) < 1 {
            return;
        }
        self.swept = now;
        self.end_shortage(now);
        let is_over = self.is_over(now);
        note_keys(&self.waiting, &mut self.keys, now, is_over);
        self.end_noted(now)
    }

    /// Whether no connection may wait any longer: at `now` at least 30 seconds have passed since accepting failed for
    /// good.
    pub(crate) fn is_over(&self, now: Option<Instant>) -> bool
        ensures exact { result ≡ (self.now.is_ending && nat_le 30 (seconds_between self.now.ending_since now)) }
    {
        self.is_ending && LAST_SECONDS <= seconds_between(self.ending_since, now)
    }

    /// Ends those of the noted connections whose time is over.
    #[tactic(auto, using(crate::proofs::Accounting::same, crate::proofs::Accounting::step))]
    fn end_noted(&mut self, now: Option<Instant>)
        ensures accounts { Accounts 0 (slab_len self.old.waiting + deque_len self.old.ready) self.old.ended
            (slab_len self.new.waiting + deque_len self.new.ready) self.new.ended }
    {
        'noted: for at in 0..self.keys.len() {
            self.end_at(at, now);
        }
    }

    /// Ends the noted connection at this index, if its time is over.
    #[tactic(auto, using(crate::proofs::Accounting::same))]
    fn end_at(&mut self, at: usize, now: Option<Instant>)
        ensures accounts { Accounts 0 (slab_len self.old.waiting + deque_len self.old.ready) self.old.ended
            (slab_len self.new.waiting + deque_len self.new.ready) self.new.ended }
    {
        if let Some(key) = self.key(at) {
            self.end_key(key, now);
        }
    }

    /// Ends the waiting connection with this key if its time is over, and otherwise places it again.
    #[tactic(auto, using(crate::proofs::Accounting::same, crate::proofs::Accounting::placed, crate::proofs::Conditions::second_holds))]
    fn end_key(&mut self, key: usize, now: Option<Instant>)
        ensures accounts { Accounts 0 (slab_len self.old.waiting + deque_len self.old.ready) self.old.ended
            (slab_len self.new.waiting + deque_len self.new.ready) self.new.ended }
    {
        let Some(connection) = self.take(key) else {
            return;
        };
        if connection.is_late(now) {
            return self.finish(connection, EndReason::Late(now));
        }
        if self.is_over(now) {
            return self.finish(connection, EndReason::DoorEnds(self.ending_since, now));
        }
        self.place(connection)
    }

    /// Whether the door need not wait until its links return their connections: there are no links; or waiting for
    /// events failed for good, so that a returned connection could not wait for its client; or no connection may wait
    /// any longer (see `is_over`).
    pub(crate) fn needs_no_link(&self, now: Option<Instant>) -> bool {
        self.has_no_links() || self.wait_fault.is_some() || self.is_over(now)
    }

    /// Notes that accepting failed for good at `now`: from then on each connection is closed after its replies, or
    /// after 30 seconds.
    pub fn begin_ending(&mut self, now: Option<Instant>)
        ensures accounts { Accounts 0 (slab_len self.old.waiting + deque_len self.old.ready) self.old.ended
            (slab_len self.new.waiting + deque_len self.new.ready) self.new.ended }
    {
        self.is_ending = true;
        self.ending_since = now;
        self.place_all()
    }

    /// Notes that waiting for events failed for good: the connections that are ready for a link are served, and all
    /// others end, as far as there is memory to note their keys.
    pub fn end_waiting(&mut self, fault: io::Error)
        ensures accounts { Accounts 0 (slab_len self.old.waiting + deque_len self.old.ready) self.old.ended
            (slab_len self.new.waiting + deque_len self.new.ready) self.new.ended }
    {
        self.shared.keep_no_answers();
        self.wait_fault = Some(fault);
        self.place_all()
    }

    /// Notes that as many connections were accepted as the bound allows. From now on each connection from which a
    /// request may still come is ready for a link, even before a request was received. The link serves it until the
    /// connection ends. The door closes when it hands out the last connection. Two kinds of connections become ready
    /// only once a whole request was received: those with bytes still to be sent, and those whose keys there is no
    /// memory to note.
    pub fn note_accepted_all(&mut self)
        ensures accounts { Accounts 0 (slab_len self.old.waiting + deque_len self.old.ready) self.old.ended
            (slab_len self.new.waiting + deque_len self.new.ready) self.new.ended }
    {
        self.shared.note_accepted_all();
        self.closes = true;
        self.place_all()
    }

    /// Takes out all connections that wait and places each again by its phase (see [`Reactor::place`]), as far as there
    /// is memory to note their keys.
    fn place_all(&mut self)
        ensures accounts { Accounts 0 (slab_len self.old.waiting + deque_len self.old.ready) self.old.ended
            (slab_len self.new.waiting + deque_len self.new.ready) self.new.ended }
    {
        note_keys(&self.waiting, &mut self.keys, None, true);
        self.place_noted()
    }

    /// Places again all noted connections.
    #[tactic(auto, using(crate::proofs::Accounting::same, crate::proofs::Accounting::step))]
    fn place_noted(&mut self)
        ensures accounts { Accounts 0 (slab_len self.old.waiting + deque_len self.old.ready) self.old.ended
            (slab_len self.new.waiting + deque_len self.new.ready) self.new.ended }
    {
        'noted: for at in 0..self.keys.len() {
            self.place_again(at);
        }
    }

    /// Places again the noted connection at this index.
    #[tactic(auto, using(crate::proofs::Accounting::same))]
    fn place_again(&mut self, at: usize)
        ensures accounts { Accounts 0 (slab_len self.old.waiting + deque_len self.old.ready) self.old.ended
            (slab_len self.new.waiting + deque_len self.new.ready) self.new.ended }
    {
        if let Some(key) = self.key(at) {
            self.place_key(key);
        }
    }

    /// Places again the waiting connection with this key. If accepting failed for good and bytes are still to be sent,
    /// marks it to be closed after its replies, unless bytes of a further request were received.
    #[tactic(auto, using(crate::proofs::Accounting::same, crate::proofs::Accounting::placed))]
    fn place_key(&mut self, key: usize)
        ensures accounts { Accounts 0 (slab_len self.old.waiting + deque_len self.old.ready) self.old.ended
            (slab_len self.new.waiting + deque_len self.new.ready) self.new.ended }
    {
        let Some(connection) = self.take(key) else {
            return;
        };
        let mut connection = connection;
        if self.is_ending && !connection.to_send.is_empty() {
            connection.close_after_answers();
        }
        self.place(connection)
    }
}

/// Collects the keys of the connections that have waited too long at `now`, or, if `all`, of all that wait. It stops if
/// an allocation fails.
fn note_keys<S: Read + Write + OpenStream + AsRawFd + Drop>(
    waiting: &Slab<Connection<S>>,
    keys: &mut Vec<usize>,
    now: Option<Instant>,
    all: bool,
) {
    keys.truncate(0);
    for (key, connection) in waiting.iter() {
        if (all || connection.is_late(now)) && keys.push(key).is_err() {
            break;
        }
    }
}

/// Whether this number of received bytes is more than that of `largest`, the connection with the most received bytes so
/// far. True if there is none yet.
fn is_more(received: usize, largest: &Option<(usize, usize)>) -> bool {
    match largest {
        None => true,
        Some((most, _)) => received > *most,
    }
}

/// Whether a connection is to be closed rather than `oldest`, the choice so far: an idle connection is closed before a
/// busy one, and of two idle or two busy ones, the one that has waited longer.
fn is_older(is_busy: bool, since: Instant, oldest: &Option<(bool, Instant, usize)>) -> bool {
    match oldest {
        None => true,
        Some((others_busy, others, _)) => {
            (*others_busy && !is_busy) || (*others_busy == is_busy && since < *others)
        }
    }
}
