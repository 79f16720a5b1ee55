//! Creates the worker slots of an edge, one for each reader.
ghost use Rattle.std.specs.Prelude.{◌≡◌, ◌<◌, ◌+◌, ◌-◌, All, IfOk, length};
ghost use Rattle.unl_edge.specs.LinkHandling.{HasLearned, IsOfOrigin};
ghost use Rattle.unl_edge.specs.WorkerBooks.{HasNewBook};
ghost use Rattle.unl_edge_state.specs.Reading.{IsNewReader};

use crate::link_handler::EdgeLinkHandler;
use std::alloc::Global;
use std::sync::Wait;
use unl_base::Draws;
use unl_documents::Memory;
use unl_edge_state::{EdgeReader, EdgeWriter};
use unl_refresh::MetricsReceiver;
use unl_workers::WorkerSlot;

/// Returns a worker slot for each reader. Each reader first learns all installs that the writer has published.
/// Each slot has its own source of times and random words, split off from `draws`, and its own sender of metrics to
/// `receiver`. The only error is `Memory`: out of memory, or a report of the writer has no list of installs.
pub(crate) fn worker_slots_of<'a, R: Draws + Drop, W: Wait>(
    alloc: Global,
    rt: &'a W,
    receiver: &mut MetricsReceiver<'a>,
    writer: &mut EdgeWriter<'_, W>,
    readers: Vec<EdgeReader>,
    draws: &mut R,
) -> Result<Vec<WorkerSlot<EdgeLinkHandler<'a, W>, R>>, Memory>
    requires origin { All (IsOfOrigin writer.old.known) readers.items }
    requires new { All IsNewReader readers.items }
    requires parts { length readers.items < receiver.old.parts }
    ensures same { writer.new ≡ writer.old }
    ensures draws { R.coming draws.new ≡ R.coming draws.old }
    ensures count { IfOk result (λ pool_slots. length pool_slots.items ≡ length readers.items) }
    ensures learned { IfOk result (λ pool_slots.
        All (λ pool_slot. HasLearned writer.old.known pool_slot.server.desk.reader) pool_slots.items) }
    ensures same_receiver { IfOk result (λ pool_slots. receiver.new ≡ record receiver.old { parts = receiver.new.parts }) }
    ensures parts { IfOk result (λ pool_slots. receiver.new.parts + length pool_slots.items ≡ receiver.old.parts) }
    ensures books { IfOk result (λ pool_slots. All (λ pool_slot. HasNewBook receiver.old pool_slot.server) pool_slots.items) }
{
    let mut pool_slots = Vec::new(alloc);
    for reader in readers {
        pool_slots.push(worker_slot_of(alloc, rt, receiver, writer, reader, draws)?)?;
    }
    Ok(pool_slots)
}

/// Returns the worker slot for a reader, as described at [`worker_slots_of`].
fn worker_slot_of<'a, R: Draws + Drop, W: Wait>(
    alloc: Global,
    rt: &'a W,
    receiver: &mut MetricsReceiver<'a>,
    writer: &mut EdgeWriter<'_, W>,
    mut reader: EdgeReader,
    draws: &mut R,
) -> Result<WorkerSlot<EdgeLinkHandler<'a, W>, R>, Memory>
    requires origin { IsOfOrigin writer.old.known reader }
    requires new { IsNewReader reader }
    requires parts { 1 < receiver.old.parts }
    ensures same { writer.new ≡ writer.old }
    ensures draws { R.coming draws.new ≡ R.coming draws.old }
    ensures learned { IfOk result (λ pool_slot. HasLearned writer.old.known pool_slot.server.desk.reader) }
    ensures parts { IfOk result (λ pool_slot. receiver.new ≡ record receiver.old { parts = receiver.old.parts - 1 }) }
    ensures books { IfOk result (λ pool_slot. HasNewBook receiver.old pool_slot.server) }
{
    reader.learn_all(writer.tell())?;
    let handler = EdgeLinkHandler::new(alloc, rt, receiver.new_sender(), reader)?;
    Ok(WorkerSlot::new(handler, draws.split()))
}
