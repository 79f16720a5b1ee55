//! A prepared command, before it is published.
ghost use Rattle.std.specs.Prelude.{◌≡◌, IfOk};
ghost use Rattle.unl_core.specs.declared.board.Install.TheVariants as installs;
ghost use Rattle.unl_upstream.specs.Upstream.{IsNext, version_after};

use std::alloc::Global;
use std::marker::Model;
use std::snapshot;
use unl_compiled::Snapshot;
use unl_core::{Install, Slot};
use unl_delta::{Batch, Event, Place};
use unl_documents::{List, Memory, Shared};

/// A prepared command that is not yet published: the index of its environment's slot (an upstream has a slot for each
/// environment), the new version number, and the new version. Contracts also see the slots that the command was
/// prepared from. The copy of these slots takes no space at run time.
#[derive(Drop)]
pub struct Ready {
    slot: usize,
    number: u64,
    snapshot: Shared<Snapshot>,
    from: snapshot::Snapshot<List<Slot>>,
}

impl Model for Ready {
    ghost use Rattle.unl_upstream.specs.Upstream.{Prepared};

    ghost Value = { Prepared };

    ghost view = { λ r. record { slot = r.slot; number = r.number; snapshot = r.snapshot; from = r.from.value } };
}

impl Ready {
    /// Creates a prepared command from `slots`, the index `slot` of its environment's slot in them, the new version
    /// number, and the new version.
    pub(crate) fn at(
        slots: &List<Slot>,
        slot: usize,
        number: u64,
        snapshot: Shared<Snapshot>,
    ) -> Ready
        ensures { result ≡ record { slot = slot; number = number; snapshot = snapshot; from = slots.now } }
    {
        let from = snapshot::Snapshot::of(slots);
        Ready {
            slot,
            number,
            snapshot,
            from,
        }
    }

    /// Returns the install that publishes the new version in its slot.
    pub(crate) fn into_install(self) -> Install
        ensures { result ≡ installs.Env self.slot self.snapshot }
    {
        let Ready {
            slot,
            number: _,
            snapshot,
            from: _,
        } = self;
        Install::Env(slot, snapshot)
    }

    /// Returns the version number that the environment has once the command is committed. Allocates nothing.
    pub fn number(&self) -> u64
        ensures { result ≡ self.now.number }
    {
        self.number
    }
}

/// Returns the snapshot of the version after an event. The event must be a valid change, numbered one above the version
/// of the given snapshot.
#[tactic(auto, using(crate::proofs::Next::next_applies, crate::proofs::Next::next_is_batch))]
pub(crate) fn snapshot_after(
    alloc: Global,
    snapshot: &Snapshot,
    event: Event,
) -> Result<Shared<Snapshot>, Memory>
    requires { IsNext snapshot.now event }
    ensures { IfOk result (λ s. s ≡ version_after snapshot.now event) }
{
    let place = Place {
        version: Some(snapshot.shared(alloc)?),
        held: false,
    };
    let mut events = List::new(alloc);
    events.push(event)?;
    let batch = Batch {
        epoch: snapshot.version().epoch,
        after: Some(snapshot.version().number),
        events,
    };
    Shared::new(alloc, snapshot.next(alloc, &place, &batch)?)
}
