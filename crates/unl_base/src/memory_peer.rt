//! A peer whose replies are in memory.
ghost use Rattle.std.specs.Prelude.{◌≡◌, ◌<◌, ◌≤◌, ◌∷◌, ◌++◌, [], None, drop, take, length, map, IfOk, OnErr, OnOk};
ghost use Rattle.unl_base.specs.Doors.{next_of};
ghost use Rattle.unl_base.specs.Memory.{FailsAsListed, FailsIfListed, ReadsLine, WritesStore, calls_of, on_line, peer_of};
ghost use Rattle.unl_base.specs.Peers.{after_connect, after_failed_connect};

use crate::link::{Link, Sink, Source};
use crate::memory::{Calls, Incoming, Outgoing};
use crate::peer::Peer;
use crate::{BaseMemory, Failed};
use std::alloc::Global;
use std::collections::VecDeque;
use std::marker::Model;

/// Removes and returns the next reply; returns an empty one if none remain.
fn next_reply(replies: &mut VecDeque<Vec<u8>>) -> Vec<u8>
    ensures reply { result.items ≡ next_of (map (λ text. text.items) replies.old.items) }
    ensures rest { map (λ text. text.items) replies.new.items ≡ drop 1 (map (λ text. text.items) replies.old.items) }
{
    let none = Vec::new(*replies.allocator());
    replies.pop_front().unwrap_or(none)
}

/// Appends a copy of a text.
///
/// # Errors
///
/// `BaseMemory`: out of memory. Nothing changes.
fn add_copy(texts: &mut Vec<Vec<u8>>, text: &[u8]) -> Result<(), BaseMemory>
    ensures ok { OnOk result (map (λ text. text.items) texts.new.items
        ≡ map (λ text. text.items) texts.old.items ++ text.now ∷ []) }
    ensures err { OnErr result (texts.new.items ≡ texts.old.items) }
{
    let copy = copy_of(*texts.allocator(), text)?;
    if texts.push(copy).is_err() {
        return Err(BaseMemory);
    }
    Ok(())
}

/// Copies a text.
///
/// # Errors
///
/// `BaseMemory`: out of memory for the copy.
fn copy_of(alloc: Global, text: &[u8]) -> Result<Vec<u8>, BaseMemory>
    ensures { IfOk result (λ copy. copy.items ≡ text.now) }
{
    let mut copy = Vec::new(alloc);
    copy.extend_from_slice(text)?;
    Ok(copy)
}

/// A peer whose replies are in memory, for tests. It keeps what it was sent on each connection.
#[derive(Debug, Drop)]
pub struct MemoryPeer {
    line: Option<Incoming>,
    replies: VecDeque<Vec<u8>>,
    going: Outgoing,
    earlier: Vec<Vec<u8>>,
    calls: Calls,
}

impl Model for MemoryPeer {
    ghost use Rattle.std.specs.Prelude.{map};
    ghost use Rattle.unl_base.specs.Memory.{MemoryPeerState};

    ghost Value = { MemoryPeerState };

    ghost view = { λ peer. record {
      line = peer.line;
      replies = map (λ text. text.items) peer.replies.items;
      store = peer.going;
      earlier = map (λ text. text.items) peer.earlier.items;
      calls = peer.calls;
    } };
}

impl MemoryPeer {
    /// A peer that isn't connected yet. Each successful connect gives the next of `replies`, or an empty reply after
    /// the last. Connected or not, the peer takes writes while the bytes sent since the last successful connect fit
    /// into `room`. The calls of `connect`, `read` and `write` are numbered together from 0; those whose numbers are in
    /// `failing` fail.
    ///
    /// # Errors
    ///
    /// `BaseMemory`: out of memory for the buffer.
    pub fn new(
        alloc: Global,
        replies: Vec<Vec<u8>>,
        room: usize,
        failing: Vec<u64>,
    ) -> Result<Self, BaseMemory>
        ensures { IfOk result (λ peer. peer ≡ record {
          line = None;
          replies = map (λ text. text.items) replies.items;
          store = record { sent = []; room = room };
          earlier = [];
          calls = calls_of failing.items;
        }) }
    {
        Ok(MemoryPeer {
            line: None,
            replies: VecDeque::from(replies),
            going: Outgoing::new(alloc, room)?,
            earlier: Vec::new(alloc),
            calls: Calls::new(failing),
        })
    }

    /// The bytes written since the last successful connect.
    pub fn sent(&self) -> &[u8]
        ensures { result.now ≡ self.now.store.sent }
    {
        self.going.as_slice()
    }

    /// The bytes written before the last successful connect: a text for the time before the first connection, and then
    /// one for each earlier connection. Empty if no connect has succeeded.
    pub fn earlier(&self) -> &[Vec<u8>]
        ensures { map (λ text. text.items) result.now ≡ self.now.earlier }
    {
        self.earlier.as_slice()
    }
}

impl Source for MemoryPeer {
    ghost use Rattle.std.specs.Prelude.{Some, None};
    ghost use Rattle.unl_base.specs.Memory.{on_line, peer_of};

    ghost left = { λ peer. Some (on_line peer.line) };

    ghost faults = { λ peer. peer.calls.faults };

    ghost other_parts = { λ peer. record (peer_of peer) { left = None } };

    /// Reads as many bytes of the reply as fit into `room`; none if not connected. Fails exactly on the calls
    /// listed in `failing`.
    fn read(&mut self, room: &mut [u8]) -> Result<usize, Failed>
        requires { 0 < length room.old }
        ensures fits { IfOk result (λ n. n ≤ length room.new) }
        ensures taken { IfOk result (λ n. on_line self.old.line ≡ take n room.new ++ on_line self.new.line) }
        ensures end { IfOk result (λ n. n ≡ 0 → on_line self.old.line ≡ []) }
        ensures reads { ReadsLine result (length room.old) self.old self.new }
        ensures fails_as_listed { FailsAsListed result self.old.calls self.new.calls }
    {
        if self.calls.fails() {
            return Err(Failed);
        }
        match &mut self.line {
            Some(line) => Ok(line.give(room)),
            None => Ok(0),
        }
    }
}

impl Sink for MemoryPeer {
    ghost use Rattle.std.specs.Prelude.{Some, None};
    ghost use Rattle.unl_base.specs.Memory.{on_line, peer_of};

    ghost sent = { λ peer. Some peer.store.sent };

    ghost faults = { λ peer. peer.calls.faults };

    ghost other_parts = { λ peer. record (peer_of peer) { sent = None } };

    /// Takes all of `piece`. Fails exactly if the call is listed in `failing`, or if the bytes sent since the last
    /// successful connect and `piece` together exceed the `room` given to `new`. Takes nothing if it fails.
    fn write(&mut self, piece: &[u8]) -> Result<usize, Failed>
        requires { 0 < length piece.now }
        ensures writes { WritesStore result piece.now self.old.calls self.new.calls self.old.store self.new.store }
        ensures line { self.new.line ≡ self.old.line }
        ensures replies { self.new.replies ≡ self.old.replies }
        ensures earlier { self.new.earlier ≡ self.old.earlier }
    {
        if self.calls.fails() {
            return Err(Failed);
        }
        match self.going.take(piece) {
            Ok(()) => Ok(piece.len()),
            Err(_) => {
                self.calls.fail();
                Err(Failed)
            }
        }
    }
}

impl Link for MemoryPeer {
    ghost use Rattle.std.proofs.Common.{refl};

    ghost one_count = { λ peer. refl };

    ghost reads_other_parts = { λ peer. refl };

    ghost writes_other_parts = { λ peer. refl };
}

impl Peer for MemoryPeer {
    ghost use Rattle.std.proofs.Common.{refl};
    ghost use Rattle.unl_base.specs.Memory.{idle_line, peer_of};

    ghost state = { peer_of };

    /// Fails if the call is listed in `failing`, or if memory runs out while the bytes sent since the last successful
    /// connect are copied to `earlier`. Each failure increments the fault count.
    fn connect(&mut self) -> Result<(), Failed>
        ensures connects { OnOk result (peer_of self.new ≡ after_connect (peer_of self.old)) }
        ensures parts { OnErr result (peer_of self.new ≡ after_failed_connect (peer_of self.old)) }
        ensures room { self.new.store.room ≡ self.old.store.room }
        ensures fails_if_listed { FailsIfListed result self.old.calls self.new.calls }
    {
        self.line = None;
        if self.calls.fails() {
            return Err(Failed);
        }
        if add_copy(&mut self.earlier, self.going.as_slice()).is_err() {
            self.calls.fail();
            return Err(Failed);
        }
        self.line = Some(Incoming::new(next_reply(&mut self.replies), usize::MAX));
        self.going.clear();
        Ok(())
    }

    ghost idle = { λ peer. idle_line peer.line };

    ghost earlier_known = { λ peer. refl };

    ghost reads = { λ peer. refl };

    ghost writes = { λ peer. refl };
}
