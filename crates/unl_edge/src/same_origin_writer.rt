//! Makes one turn of a poller with a writer, and proves that the writer's origin stays the same. The origin is the
//! writer's publication and the opening board of that publication. The contract of `Poller::turn` says nothing of
//! origins, since that call takes any `Installer`.
ghost use Rattle.std.specs.Prelude.{◌≡◌, ◌≤◌, ◌+◌, OnOk, length};
ghost use Rattle.unl_edge_state.specs.Writing.{installed_by};
ghost use Rattle.unl_publication.specs.Looking.{SameOrigin};
ghost use Rattle.unl_refresh.specs.Connects.{Connects};
ghost use Rattle.unl_refresh.specs.Exchange.{peer_view};
ghost use Rattle.unl_refresh.specs.Turns.{ByResult, KeepsDuty, MakesTurn, StopsInTurn, poll_state};

use std::alloc::Global;
use std::marker::{Brand, PhantomData};
use std::sync::Wait;
use unl_base::Peer;
use unl_delta::{Batch, Installer, Place};
use unl_documents::Memory;
use unl_edge_state::EdgeWriter;
use unl_refresh::Poller;
use unl_tokens::Book;

/// What a writer knew before a turn. This value exists only in contracts, so a call passes it by a type parameter.
pub(crate) trait Root {
    ghost use Rattle.unl_core.specs.declared.board.Install.{Install};
    ghost use Rattle.unl_edge_state.specs.Editions.{BoardAt};
    ghost use Rattle.unl_publication.specs.declared.knowledge.Knowledge.{Knowledge};

    ghost known: { Knowledge BoardAt Install };
}

/// If a call passes `Brand`, the proof of that call chooses the value of `known`. The value here is only a placeholder.
impl Root for Brand {
    ghost use Rattle.unl_publication.specs.Rule.{knows_nothing};

    ghost known = { knows_nothing };
}

/// A writer with the same origin as the knowledge `K.known`. `origin` is an invariant, so each install preserves it.
struct SameOriginWriter<'w, W: Wait, K: Root> {
    writer: EdgeWriter<'w, W>,
    root: PhantomData<K>,
    ghost origin: { SameOrigin writer.known K.known },
}

impl<W: Wait, K: Root> Installer for SameOriginWriter<'_, W, K> {
    ghost installed = { λ origin_writer. installed_by origin_writer.writer };

    fn slots(&self) -> usize {
        self.writer.slots()
    }

    fn front(&self) -> u64 {
        self.writer.front()
    }

    fn place(&self, slot: usize) -> &Place {
        self.writer.place(slot)
    }

    fn install(&mut self, alloc: Global, slot: usize, batch: &Batch) -> Result<u64, Memory> {
        self.writer.install(alloc, slot, batch)
    }

    fn hold(&mut self, slot: usize) {
        self.writer.hold(slot);
    }

    fn install_book(&mut self, alloc: Global, book: Book) -> Result<Option<u64>, Memory> {
        self.writer.install_book(alloc, book)
    }
}

/// Makes one turn of the poller with a writer. Returns the writer, also on an error, with the result of the turn.
///
/// # Errors
/// `Memory` if out of memory. The turn ended early then.
pub(crate) fn turn_by<'w, W: Wait, P: Peer>(
    alloc: Global,
    poller: &mut Poller,
    writer: EdgeWriter<'w, W>,
    peer: &mut P,
) -> (EdgeWriter<'w, W>, Result<(), Memory>)
    ensures origin { SameOrigin result.0.known writer.entry.known }
    ensures asks { length writer.entry.known.installs ≡ 0 → poller.old.slots ≤ length writer.entry.places
        → poller.old.slots ≤ 8
        → OnOk result.1 (Connects (poller.old.slots + 1)
        (P.state peer.old).replies (P.Source.faults peer.old) (P.state peer.new).replies (P.Source.faults peer.new)) }
    ensures polls { length writer.entry.known.installs ≡ 0 → poller.old.slots ≤ length writer.entry.places
        → poller.old.slots ≤ 8
        → ByResult result.1 (MakesTurn poller.old.known poller.old.upstream poller.old.slot_pollers)
        (StopsInTurn poller.old.known poller.old.upstream poller.old.slot_pollers)
        (poll_state (installed_by writer.entry) poller.old.tags poller.old.metrics
        (peer_view (P.state peer.old) (P.Source.faults peer.old)))
        (poll_state (installed_by result.0) poller.new.tags poller.new.metrics
        (peer_view (P.state peer.new) (P.Source.faults peer.new))) }
    ensures same { KeepsDuty poller.old poller.new }
{
    turn_from::<W, P, Brand>(alloc, poller, writer, peer)
}

/// As `turn_by`, where the caller passes what the writer knew by the type parameter `K`.
fn turn_from<'w, W: Wait, P: Peer, K: Root>(
    alloc: Global,
    poller: &mut Poller,
    writer: EdgeWriter<'w, W>,
    peer: &mut P,
) -> (EdgeWriter<'w, W>, Result<(), Memory>)
    requires { K.known ≡ writer.known }
    ensures origin { SameOrigin result.0.known K.known }
    ensures asks { length writer.entry.known.installs ≡ 0 → poller.old.slots ≤ length writer.entry.places
        → poller.old.slots ≤ 8
        → OnOk result.1 (Connects (poller.old.slots + 1)
        (P.state peer.old).replies (P.Source.faults peer.old) (P.state peer.new).replies (P.Source.faults peer.new)) }
    ensures polls { length writer.entry.known.installs ≡ 0 → poller.old.slots ≤ length writer.entry.places
        → poller.old.slots ≤ 8
        → ByResult result.1 (MakesTurn poller.old.known poller.old.upstream poller.old.slot_pollers)
        (StopsInTurn poller.old.known poller.old.upstream poller.old.slot_pollers)
        (poll_state (installed_by writer.entry) poller.old.tags poller.old.metrics
        (peer_view (P.state peer.old) (P.Source.faults peer.old)))
        (poll_state (installed_by result.0) poller.new.tags poller.new.metrics
        (peer_view (P.state peer.new) (P.Source.faults peer.new))) }
    ensures same { KeepsDuty poller.old poller.new }
{
    let mut origin_writer = SameOriginWriter::<W, K> {
        writer,
        root: PhantomData,
    };
    let turned = poller.turn(alloc, &mut origin_writer, peer);
    let SameOriginWriter { writer, root: _ } = origin_writer;
    (writer, turned)
}
