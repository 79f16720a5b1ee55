//! Serves the links of a door with concurrent workers, while a poller keeps the board up to date. The board is the
//! state from which requests are answered: the snapshot of each environment, and the known tokens.
ghost use Rattle.std.specs.Prelude.{◌≡◌, ◌<◌, ◌≤◌, ◌+◌, All, IfOk, OnOk, length};
ghost use Rattle.std.specs.List.{AllZip};
ghost use Rattle.unl_base.specs.Doors.{IsListening};
ghost use Rattle.unl_core.specs.Board.{AreSlots};
ghost use Rattle.unl_edge.specs.LinkHandling.{IsOfOrigin, ReadsOnAt, ServesAt};
ghost use Rattle.unl_edge.specs.EdgeLinks.{ServesEachLink, WorkDuringTurns};
ghost use Rattle.unl_edge.specs.EdgeServices.{opened, service_at};
ghost use Rattle.unl_edge.specs.Polling.{KeepsReceiver, PollsOn, refreshing};
ghost use Rattle.unl_edge_state.specs.Reading.{HasBegun, IsNewReader};
ghost use Rattle.unl_edge_state.specs.Writing.{installed_by};
ghost use Rattle.unl_refresh.specs.Connects.{Connects};
ghost use Rattle.unl_refresh.specs.Exchange.{peer_view};
ghost use Rattle.unl_refresh.specs.MetricsQueues.{new_receiving};
ghost use Rattle.unl_refresh.specs.Turns.{poll_state};
ghost use Rattle.unl_workers.specs.Pool.{AcceptedIn, HasCauses};
ghost use Rattle.unl_workers.specs.Serving.{ServesSlot};
ghost use Rattle.unl_workers.specs.Shares.{EachLinkServedOnce};

use crate::collecting::accepted_in;
use crate::crossing::worker_parts_are_send;
use crate::link_handler::EdgeLinkHandler;
use crate::refresh_task::RefreshTask;
use crate::same_origin_writer::turn_by;
use crate::worker_slots::worker_slots_of;
use std::alloc::Global;
use std::sync::Wait;
use unl_base::{Door, Draws, Pace, Peer, Spawner};
use unl_core::Board;
use unl_documents::Memory;
use unl_edge_state::{EdgeReader, EdgeWriter, begin_orderly, readers_are_send, writers_are_send};
use unl_refresh::{MetricsQueue, MetricsReceiver, Poller};
use unl_workers::{AcceptOutcome, PoolFault, PoolOutcome, WorkerSlot, run_pool};

/// Serves the links of a listening door with this many workers (1 to 16), over a board that the poller keeps up to
/// date. The poller must have as many slots as the board. The upstream is polled once before the first link is
/// accepted, and then at a pace, concurrently with the workers. Returns the number of links that the door handed out,
/// and whether the door was then closed or failed.
///
/// # Errors
/// `Spawner` if a thread couldn't be started, and `Memory` if out of memory. On both errors the door handed out no
/// link.
pub(crate) fn serve_service<D: Door, P, R, T, S: Spawner, W: Wait + Sync>(
    alloc: Global,
    rt: &W,
    workers: u32,
    board: Board,
    poller: Poller,
    door: &mut D,
    peer: &mut P,
    draws: &mut R,
    pace: &mut T,
    spawner: &mut S,
) -> Result<AcceptOutcome, PoolFault>
where
    D::L: Drop + Send,
    P: Peer + Send,
    R: Draws + Drop + Send,
    T: Pace + Send,
    requires listens { IsListening (D.state door.old) }
    requires workers { (0 < workers) × (workers ≤ 16) }
    requires slots { AreSlots board.slots }
    requires slot_pollers { poller.slots ≡ length (opened board).places }
    ensures accepts { AcceptedIn (λ accepted. accepted) result (D.state door.old) (D.state door.new) }
    ensures connects { OnOk result (Connects (length (opened board).places + 1)
        (P.state peer.old).replies (P.Source.faults peer.old) (P.state peer.new).replies (P.Source.faults peer.new)) }
    ensures each_link_served_once { IfOk result (λ accepted. ServesEachLink (service_at poller board workers)
        (peer_view (P.state peer.old) (P.Source.faults peer.old)) (peer_view (P.state peer.new) (P.Source.faults peer.new))
        (D.state door.old) (D.state door.new) accepted.links) }
    ensures causes { HasCauses (λ accepted. accepted) result
        (D.faults door.old) (D.faults door.new) (S.faults spawner.old) (S.faults spawner.new) }
{
    let Ok((queue, pass)) = MetricsQueue::new(alloc) else {
        return Err(PoolFault::Memory);
    };
    let receiver = MetricsReceiver::new(&queue, pass);
    match begin_orderly(rt, alloc, board, workers) {
        Ok((writer, readers)) => serve_from(
            alloc, rt, writer, readers, receiver, poller, door, peer, draws, pace, spawner,
        ),
        Err(Memory) => Err(PoolFault::Memory),
    }
}

/// As `serve_service`, with a writer that has made no install, its readers (one for each worker), and a new receiver
/// of metrics. Ends the writer's publication.
fn serve_from<D: Door, P, R, T, S: Spawner, W: Wait + Sync>(
    alloc: Global,
    rt: &W,
    writer: EdgeWriter<'_, W>,
    readers: Vec<EdgeReader>,
    receiver: MetricsReceiver<'_>,
    poller: Poller,
    door: &mut D,
    peer: &mut P,
    draws: &mut R,
    pace: &mut T,
    spawner: &mut S,
) -> Result<AcceptOutcome, PoolFault>
where
    D::L: Drop + Send,
    P: Peer + Send,
    R: Draws + Drop + Send,
    T: Pace + Send,
    requires listens { IsListening (D.state door.old) }
    requires opens { length writer.known.installs ≡ 0 }
    requires slot_pollers { poller.slots ≡ length writer.places }
    requires few { length writer.places ≤ 8 }
    requires readers { All (HasBegun writer.known) readers.items }
    requires new { All IsNewReader readers.items }
    requires receiver { receiver ≡ new_receiving receiver.queue }
    ensures accepts { AcceptedIn (λ accepted. accepted) result (D.state door.old) (D.state door.new) }
    ensures connects { OnOk result (Connects (length writer.entry.places + 1)
        (P.state peer.old).replies (P.Source.faults peer.old) (P.state peer.new).replies (P.Source.faults peer.new)) }
    ensures each_link_served_once { IfOk result (λ accepted. 0 < length readers.items → ServesEachLink (record {
      duty = poller;
      opening = installed_by writer.entry;
      edition = writer.entry.known.opening;
      workers = length readers.items;
    })
        (peer_view (P.state peer.old) (P.Source.faults peer.old))
        (peer_view (P.state peer.new) (P.Source.faults peer.new))
        (D.state door.old) (D.state door.new) accepted.links) }
    ensures causes { HasCauses (λ accepted. accepted) result
        (D.faults door.old) (D.faults door.new) (S.faults spawner.old) (S.faults spawner.new) }
{
    let mut poller = poller;
    let (mut writer, turned) = turn_by(alloc, &mut poller, writer, peer);
    match turned {
        Ok(()) => {
            writer.leads_here();
            let served = serve_after(
                alloc,
                rt,
                &mut writer,
                readers,
                receiver,
                &mut poller,
                door,
                peer,
                draws,
                pace,
                spawner,
            );
            writer.end();
            served
        }
        Err(Memory) => {
            drop(readers);
            writer.end();
            Err(PoolFault::Memory)
        }
    }
}

/// As `serve_service`, after the first poll. Before any link is accepted, each reader learns the installs of `writer`,
/// so that no worker answers from an older board.
fn serve_after<'a, D: Door, P, R, T, S: Spawner, W: Wait + Sync>(
    alloc: Global,
    rt: &'a W,
    writer: &mut EdgeWriter<'_, W>,
    readers: Vec<EdgeReader>,
    receiver: MetricsReceiver<'a>,
    poller: &mut Poller,
    door: &mut D,
    peer: &mut P,
    draws: &mut R,
    pace: &mut T,
    spawner: &mut S,
) -> Result<AcceptOutcome, PoolFault>
where
    D::L: Drop + Send,
    P: Peer + Send,
    R: Draws + Drop + Send,
    T: Pace + Send,
    requires listens { IsListening (D.state door.old) }
    requires readers { All (IsOfOrigin writer.old.known) readers.items }
    requires new { All IsNewReader readers.items }
    requires receiver { receiver ≡ new_receiving receiver.queue }
    ensures accepts { AcceptedIn (λ accepted. accepted) result (D.state door.old) (D.state door.new) }
    ensures connects { OnOk result (Connects 0
        (P.state peer.old).replies (P.Source.faults peer.old) (P.state peer.new).replies (P.Source.faults peer.new)) }
    ensures each_link_served_once { IfOk result (λ accepted. 0 < length readers.items
        → WorkDuringTurns (length readers.items) writer.old.known.opening writer.old.known.installs poller.old
        (poll_state (installed_by writer.old) poller.old.tags poller.old.metrics
        (peer_view (P.state peer.old) (P.Source.faults peer.old)))
        (poll_state (installed_by writer.new) poller.new.tags poller.new.metrics
        (peer_view (P.state peer.new) (P.Source.faults peer.new)))
        (D.state door.old) (D.state door.new) accepted.links) }
    ensures causes { HasCauses (λ accepted. accepted) result
        (D.faults door.old) (D.faults door.new) (S.faults spawner.old) (S.faults spawner.new) }
{
    let mut receiver = receiver;
    match worker_slots_of(alloc, rt, &mut receiver, writer, readers, draws) {
        Ok(pool_slots) => {
            let served = serve_worker_slots(
                alloc,
                rt,
                writer,
                peer,
                &mut receiver,
                poller,
                pool_slots,
                door,
                pace,
                spawner,
            );
            accepted_in(served, receiver)
        }
        Err(Memory) => Err(PoolFault::Memory),
    }
}

/// As `serve_after`, with one worker for each of these slots. A worker takes links from a queue, and serves them one
/// after another.
fn serve_worker_slots<'a, D: Door, P, R, T, S: Spawner, W: Wait + Sync>(
    alloc: Global,
    rt: &'a W,
    writer: &mut EdgeWriter<'_, W>,
    peer: &mut P,
    receiver: &mut MetricsReceiver<'a>,
    poller: &mut Poller,
    pool_slots: Vec<WorkerSlot<EdgeLinkHandler<'a, W>, R>>,
    door: &mut D,
    pace: &mut T,
    spawner: &mut S,
) -> Result<PoolOutcome<EdgeLinkHandler<'a, W>, R>, PoolFault>
where
    D::L: Drop + Send,
    P: Peer + Send,
    R: Draws + Drop + Send,
    T: Pace + Send,
    requires { IsListening (D.state door.old) }
    ensures accepts { AcceptedIn (λ outcome. outcome.accepted) result (D.state door.old) (D.state door.new) }
    ensures slots { IfOk result (λ outcome. AllZip (ServesSlot ServesAt ReadsOnAt R.coming) pool_slots.entry.items outcome.slots.items) }
    ensures each_link_served_once { IfOk result (λ outcome. 0 < length pool_slots.entry.items
        → EachLinkServedOnce ServesAt R.coming D.L.Source.left D.L.Sink.sent D.L.Source.faults
        (D.state door.old) (D.state door.new) outcome.accepted.links pool_slots.entry.items outcome.slots.items) }
    ensures polls { OnOk result (PollsOn poller.old
        (refreshing (poll_state (installed_by writer.old) poller.old.tags poller.old.metrics
        (peer_view (P.state peer.old) (P.Source.faults peer.old))) receiver.old.intake)
        (refreshing (poll_state (installed_by writer.new) poller.new.tags poller.new.metrics
        (peer_view (P.state peer.new) (P.Source.faults peer.new))) receiver.new.intake)) }
    ensures receiver { OnOk result (KeepsReceiver receiver.old receiver.new) }
    ensures connects { OnOk result (Connects 0
        (P.state peer.old).replies (P.Source.faults peer.old) (P.state peer.new).replies (P.Source.faults peer.new)) }
    ensures causes { HasCauses (λ outcome. outcome.accepted) result
        (D.faults door.old) (D.faults door.new) (S.faults spawner.old) (S.faults spawner.new) }
{
    let mut turn = RefreshTask {
        poller,
        writer,
        peer,
        receiver,
        rt,
    };
    readers_are_send();
    writers_are_send::<W>();
    worker_parts_are_send();
    // The result is matched instead of returned directly, because the proof handles the case `Ok` separately: only in
    // this case is it known that the task still holds the same references.
    match run_pool(alloc, rt, spawner, door, pace, &mut turn, pool_slots) {
        Ok(outcome) => Ok(outcome),
        Err(PoolFault::Spawner) => Err(PoolFault::Spawner),
        Err(PoolFault::Memory) => Err(PoolFault::Memory),
    }
}
