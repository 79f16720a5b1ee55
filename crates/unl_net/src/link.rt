//! A link over a connection of a door: it reads the requests that were received, and sends the replies.
ghost use Rattle.std.specs.Prelude.{◌≡◌, ◌<◌, ◌≤◌, length, IfOk, None};
ghost use Rattle.std.specs.Io.KnownBytes.{WriteAppends};
ghost use Rattle.unl_base.specs.Faults.{HasExactCause};
ghost use Rattle.unl_base.specs.Peers.{no_other_parts};
ghost use Rattle.unl_net.specs.Buffers.{ConsumesReturned, coming, outgoing};

use crate::connection::Connection;
use crate::served::ServedConnection;
use crate::shared::SharedWithLinks;
use std::alloc::Global;
use std::io::{Read, Write};
use std::net::OpenStream;
use std::sync::{Arc, Wait};
use std::time::Clock;
use unl_base::{Failed, Link, Sink, Source};

/// A link over a connection. It reads whole requests only. It ends once it has replied to these and no further whole
/// request was received in time. Its connection then goes back to the door, which can hand it out again as another
/// link.
///
/// In three cases it reads all bytes as they come instead, and the connection ends with the link: if the bytes are
/// refused (no valid request begins with them), if its user reads on after a whole request before it replies, and once
/// the door has accepted all connections that its bound allows.
#[derive(Drop)]
pub struct RealLink<S: Read + Write + OpenStream + Drop, C: Clock + Wait + Drop> {
    served: ServedConnection<S, C>,
    faults: u64,
}

impl<S: Read + Write + OpenStream + Drop, C: Clock + Wait + Drop> RealLink<S, C> {
    /// A link that has counted no fault yet. `alone`: the door has no other connection.
    pub(crate) fn new(
        alloc: Global,
        clock: C,
        shared: Arc<SharedWithLinks<S>>,
        connection: Connection<S>,
        alone: bool,
    ) -> Self
        ensures faultless { result.faults ≡ 0 }
        ensures serves { result.served.connection ≡ connection }
    {
        RealLink {
            served: ServedConnection::new(alloc, clock, shared, connection, alone),
            faults: 0,
        }
    }
}

impl<S: Read + Write + OpenStream + Drop, C: Clock + Wait + Drop> Source for RealLink<S, C> {
    ghost left = { λ _. None };

    ghost faults = { λ link. link.faults };

    ghost other_parts = { λ _. no_other_parts };

    /// Reads bytes of requests. Returns 0 once the link has ended. On an error the fault count is incremented.
    fn read(&mut self, room: &mut [u8]) -> Result<usize, Failed>
        requires { 0 < length room.old }
        ensures fits { IfOk result (λ n. n ≤ length room.new) }
        ensures forwards { ConsumesReturned
            (coming self.old.served.connection.received (S.remaining self.old.served.connection.stream))
            (coming self.new.served.connection.received (S.remaining self.new.served.connection.stream)) result room.new }
        ensures cause { HasExactCause self.old.faults self.new.faults result }
    {
        match self.served.read(room) {
            Ok(count) => Ok(count),
            Err(_) => {
                self.faults = self.faults.saturating_add(1);
                Err(Failed)
            }
        }
    }
}

impl<S: Read + Write + OpenStream + Drop, C: Clock + Wait + Drop> Sink for RealLink<S, C> {
    ghost sent = { λ _. None };

    ghost faults = { λ link. link.faults };

    ghost other_parts = { λ _. no_other_parts };

    /// Sends the piece, and returns how many bytes were sent or kept: bytes that the client doesn't take yet are kept
    /// if possible, to be sent later. On an error, or if no byte was sent or kept, the fault count is incremented.
    fn write(&mut self, piece: &[u8]) -> Result<usize, Failed>
        requires { 0 < length piece.now }
        ensures some { IfOk result (λ n. 0 < n) }
        ensures fits { IfOk result (λ n. n ≤ length piece.now) }
        ensures forwards { WriteAppends
            (outgoing (S.contents self.old.served.connection.stream) self.old.served.connection.to_send)
            (outgoing (S.contents self.new.served.connection.stream) self.new.served.connection.to_send) result piece.now }
        ensures cause { HasExactCause self.old.faults self.new.faults result }
    {
        match self.served.write(piece) {
            Ok(count) if count > 0 => Ok(count),
            _ => {
                self.faults = self.faults.saturating_add(1);
                Err(Failed)
            }
        }
    }
}

impl<S: Read + Write + OpenStream + Drop, C: Clock + Wait + Drop> Link for RealLink<S, C> {
    ghost use Rattle.std.proofs.Common.{refl};

    ghost one_count = { λ link. refl };

    ghost reads_other_parts = { λ link. refl };

    ghost writes_other_parts = { λ link. refl };
}
