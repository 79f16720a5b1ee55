//! A peer: the client side of a connection to a server, which is reconnected for each exchange.
ghost use Rattle.std.specs.Prelude.{◌≡◌, false, is_some, OnErr, OnOk};
ghost use Rattle.unl_base.specs.Faults.{HasCause};
ghost use Rattle.unl_base.specs.Peers.{PeerState, after_connect, after_failed_connect};
ghost use Rattle.unl_base.specs.Streams.{HasEnded};

use crate::Failed;
use crate::link::Link;

/// A link to a server. Reads and writes affect only the current connection.
pub trait Peer: Link {
    /// Whether it is connected. If observable, also the bytes still to be read, the bytes sent since the last
    /// successful connect, those sent before it, and the bytes that each later connection will give to its reader.
    ghost state: { Self → PeerState };

    /// Connects, replacing any existing connection. The new connection gives the next reply to its reader, and nothing
    /// has been sent on it. The bytes sent since the previous successful connect are appended, as one text, to those
    /// sent earlier.
    ///
    /// # Errors
    ///
    /// `Failed`: it couldn't connect. The fault is counted, and there is no connection. The bytes sent and the
    /// replies are unchanged.
    fn connect(&mut self) -> Result<(), Failed>
        ensures connects { OnOk result (state self.new ≡ after_connect (state self.old)) }
        ensures parts { OnErr result (state self.new ≡ after_failed_connect (state self.old)) }
        ensures cause { HasCause (Self.Source.faults self.old) (Self.Source.faults self.new) result }
        ensures still { OnOk result (Self.Source.faults self.new ≡ Self.Source.faults self.old) };

    /// Without a connection there is nothing to read.
    ghost idle: { (peer : Self) → (state peer).connected ≡ false → HasEnded (state peer).left };

    /// The bytes sent before the last successful connect are observable exactly if those sent since then are.
    ghost earlier_known: { (peer : Self) → is_some (state peer).earlier ≡ is_some (state peer).sent };

    /// A read changes only the bytes still to be read.
    ghost reads: { (peer : Self) → state peer ≡ record (Self.Source.other_parts peer) { left = Self.Source.left peer } };

    /// A write changes only the bytes sent.
    ghost writes: { (peer : Self) → state peer ≡ record (Self.Sink.other_parts peer) { sent = Self.Sink.sent peer } };
}
