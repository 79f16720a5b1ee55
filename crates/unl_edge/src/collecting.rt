//! After the worker pool has ended, returns the metrics senders of its worker slots to the metrics receiver.
ghost use Rattle.std.specs.Prelude.{◌≡◌, ◌+◌, ◌++◌, ◌^◌, List, [], All, IfOk, flat_map, length};
ghost use Rattle.unl_edge.specs.Edges.{accepted_in};
ghost use Rattle.unl_edge.specs.WorkerBooks.{HandsTo, handed_at};
ghost use Rattle.unl_metrics.specs.Book.{Book};
ghost use Rattle.unl_refresh.specs.Handovers.{SameBooks};

use crate::link_handler::EdgeLinkHandler;
use unl_refresh::MetricsReceiver;
use unl_workers::{AcceptOutcome, PoolFault, PoolOutcome, WorkerSlot};

/// Returns how many links (connections of clients) the door handed out, and whether the door was then closed or failed;
/// or the fault of the pool. Drops the receiver. If the pool ran, the receiver first takes the senders of all slots
/// back. This proves that the metrics books that the workers handed over are those that the receiver took and those
/// that still wait in the queue.
pub(crate) fn accepted_in<'a, R: Drop, W>(
    served: Result<PoolOutcome<EdgeLinkHandler<'a, W>, R>, PoolFault>,
    receiver: MetricsReceiver<'a>,
) -> Result<AcceptOutcome, PoolFault>
    requires parts { IfOk served (λ outcome. receiver.parts + length outcome.slots.items ≡ 2 ^ 64) }
    requires handed { IfOk served (λ outcome. receiver.handed ≡ []) }
    requires queue { IfOk served (λ outcome. All (HandsTo receiver) outcome.slots.items) }
    ensures accepted { result ≡ accepted_in served.entry }
    ensures counted { IfOk served.entry (λ outcome. (waiting : List Book)
        × SameBooks (flat_map handed_at outcome.slots.items) (receiver.entry.intake.taken ++ waiting)) }
{
    match served {
        Ok(outcome) => {
            let PoolOutcome {
                accepted,
                slots,
                ..
            } = outcome;
            count_metrics(receiver, slots);
            Ok(accepted)
        }
        Err(fault) => Err(fault),
    }
}

/// Returns the senders of all slots to the receiver, and drops the receiver. Proves that the books that were handed
/// over are those that the receiver took and those that still wait in the queue.
fn count_metrics<'a, R: Drop, W>(
    receiver: MetricsReceiver<'a>,
    pool_slots: Vec<WorkerSlot<EdgeLinkHandler<'a, W>, R>>,
)
    requires parts { receiver.parts + length pool_slots.items ≡ 2 ^ 64 }
    requires handed { receiver.handed ≡ [] }
    requires queue { All (HandsTo receiver) pool_slots.items }
    ensures { (waiting : List Book)
        × SameBooks (flat_map handed_at pool_slots.entry.items) (receiver.entry.intake.taken ++ waiting) }
{
    let mut receiver = receiver;
    for pool_slot in pool_slots {
        take_sender_back(&mut receiver, pool_slot);
    }
    receiver.all_counted();
}

/// Returns the sender of a slot to the receiver. The rest of the slot is dropped.
fn take_sender_back<'a, R: Drop, W>(
    receiver: &mut MetricsReceiver<'a>,
    pool_slot: WorkerSlot<EdgeLinkHandler<'a, W>, R>,
)
    requires { HandsTo receiver.old pool_slot }
    ensures { receiver.new ≡ record receiver.old {
      parts = receiver.old.parts + 1;
      handed = receiver.old.handed ++ handed_at pool_slot.entry;
    } }
{
    let WorkerSlot { server, .. } = pool_slot;
    let EdgeLinkHandler { sender, .. } = server;
    receiver.take_back(sender);
}
