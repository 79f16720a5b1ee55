//! A door, which accepts connections at a port. It hands out each as a link (a byte stream in both directions), and
//! takes the link back at the end.
ghost use Rattle.std.specs.Prelude.{◌≡◌, ◌<◌, ◌≤◌, ℕ, is_ok, IfOk, IfSome, OnErr, OnOk};
ghost use Rattle.unl_base.specs.Doors.{Accepts, DoorState, IsFresh, IsListening, listening_at, taking_back};
ghost use Rattle.unl_base.specs.Faults.{HasCause};

use crate::Failed;
use crate::link::Link;

/// Accepts the links that arrive at a port.
pub trait Door {
    /// The type of its links.
    type L: Link;

    /// The ports that it listened at, whether it is closed, and how many links it has handed out and taken back. If
    /// observable, also the bytes that each link to come will give to its reader, and for each link taken back the
    /// bytes it had sent and its fault count.
    ghost state: { Self → DoorState };

    /// This door's fault count. It rises with each failed call, until it has saturated at 2^64 - 1.
    ghost faults: { Self → ℕ };

    /// Starts listening at `port`.
    ///
    /// # Errors
    ///
    /// `Failed`: the door can't listen at the port. The fault is counted; nothing else changes.
    fn listen(&mut self, port: u16) -> Result<(), Failed>
        ensures listens { state self.new ≡ listening_at port (is_ok result) (state self.old) }
        ensures cause { HasCause (faults self.old) (faults self.new) result }
        ensures still { OnOk result (faults self.new ≡ faults self.old) };

    /// Waits for the next link and returns it. Returns `None` if and only if the door is closed. A new link has sent
    /// nothing, and its fault count is 0. The door must be listening.
    ///
    /// # Errors
    ///
    /// `Failed`: no link could be accepted. The fault is counted; nothing else changes.
    fn accept(&mut self) -> Result<Option<Self::L>, Failed>
        requires { IsListening (state self.old) }
        ensures accepts { IfOk result (λ link. Accepts link (state self.old) (state self.new)) }
        ensures fresh { IfOk result (λ link. IfSome link (λ l.
            IsFresh (state self.old) (Self.L.Source.left l) (Self.L.Sink.sent l) (Self.L.Source.faults l))) }
        ensures kept { OnErr result (state self.new ≡ state self.old) }
        ensures cause { HasCause (faults self.old) (faults self.new) result }
        ensures still { OnOk result (faults self.new ≡ faults self.old) };

    /// Takes back a link that `accept` returned. Fewer links must have been taken back than handed out. The fault count
    /// of the door is unchanged.
    fn give_back(&mut self, link: Self::L)
        requires { (state self.old).back < (state self.old).given }
        ensures returns { state self.new ≡ taking_back (Self.L.Sink.sent link) (Self.L.Source.faults link) (state self.old) }
        ensures same_faults { faults self.new ≡ faults self.old };

    /// The door never takes back more links than it has handed out.
    ghost within: { (door : Self) → (state door).back ≤ (state door).given };
}
