//! Serves the links of a door concurrently, by a pool of workers.
ghost use Rattle.std.specs.Prelude.{◌≡◌, ◌<◌, ◌≤◌, ◌-◌, [], false, IfOk, IsErrOf};
ghost use Rattle.std.specs.Prelude.{filter_map, length, map, vec_capacity, vec_len};
ghost use Rattle.std.specs.List.{All, AllZip};
ghost use Rattle.crossbeam_queue.specs.Passes.{view};
ghost use Rattle.unl_base.specs.Doors.{IsListening};
ghost use Rattle.unl_workers.specs.Passes.{IsPassOfQueue};
ghost use Rattle.unl_workers.specs.Periodic.{MakesTurns};
ghost use Rattle.unl_workers.specs.Pool.{AcceptedIn, HasCauses, slot_of, worker_of};
ghost use Rattle.unl_workers.specs.Serving.{ServesSlot};
ghost use Rattle.unl_workers.specs.Shares.{EachLinkServedOnce};
ghost use Rattle.unl_workers.specs.Tallies.{new_tally, tally};

use crate::LinkQueue;
use crate::acceptor::{AcceptOutcome, Acceptor};
use crate::periodic::{PeriodicJob, PeriodicTask};
use crate::pool_jobs::{PoolJob, collect_slots, run_jobs, workers_of};
use crate::worker::{LinkHandler, WorkerSlot};
use std::alloc::Global;
use std::sync::Wait;
use thiserror::Error;
use unl_base::{Door, Draws, Job, Pace, SpawnFault, Spawner};

/// The result of a run of the pool, after the door was closed or failed.
#[derive(Drop)]
pub struct PoolOutcome<S, R> {
    /// The number of links that the door handed out, and whether it failed.
    pub accepted: AcceptOutcome,
    /// The number of turns that the periodic task made.
    pub turns: u64,
    /// The worker slots in their order, each with the number of links that its worker served.
    pub slots: Vec<WorkerSlot<S, R>>,
}

/// Why the pool did not run, so that no link was accepted.
#[derive(Clone, Copy, Debug, Error, PartialEq, Eq)]
pub enum PoolFault {
    /// A thread couldn't be started. The spawner incremented its fault count.
    #[error("a thread could not be started")]
    Spawner,
    /// Out of memory.
    #[error("out of memory")]
    Memory,
}

/// Accepts the links of a door on this thread until the door is closed or fails. The door must be listening.
/// Concurrently, each in a thread of its own, one worker for each slot serves the links, and `turn` makes its turns at
/// `pace` until none remains or no more links are accepted. If the door fails, the links that it handed out before are
/// served as well. May block. Without a slot no link is served, and the call never returns if the door hands out more
/// than 64.
///
/// # Errors
/// `Spawner` if a job couldn't be started, and `Memory` if memory for the queue or the jobs runs out. In both cases no
/// link was accepted, and the slots are dropped.
pub fn run_pool<S, R, D: Door, N, T, P: Spawner, W: Wait + Sync>(
    alloc: Global,
    rt: &W,
    spawner: &mut P,
    door: &mut D,
    pace: &mut T,
    turn: &mut N,
    slots: Vec<WorkerSlot<S, R>>,
) -> Result<PoolOutcome<S, R>, PoolFault>
where
    S: LinkHandler + Drop + Send,
    R: Draws + Drop + Send,
    D::L: Drop + Send,
    N: PeriodicTask + Send,
    T: Pace + Send,
    requires { IsListening (D.state door.old) }
    ensures accepts { AcceptedIn (λ done. done.accepted) result (D.state door.old) (D.state door.new) }
    ensures slots { IfOk result (λ done. AllZip (ServesSlot S.serves S.keeps R.coming) slots.items done.slots.items) }
    ensures each_link_served_once { IfOk result (λ done. 0 < length slots.items
        → EachLinkServedOnce S.serves R.coming D.L.Source.left D.L.Sink.sent D.L.Source.faults
        (D.state door.old) (D.state door.new) done.accepted.links slots.items done.slots.items) }
    ensures turns { IfOk result (λ done. MakesTurns N.turned N.keeps done.turns turn.old turn.new (T.turns pace.old) (T.turns pace.new)) }
    ensures causes { HasCauses (λ done. done.accepted) result (D.faults door.old) (D.faults door.new)
        (P.faults spawner.old) (P.faults spawner.new) }
    ensures untouched { IsErrOf result PoolFault.Memory
        → (D.faults door.new ≡ D.faults door.old) × (P.faults spawner.new ≡ P.faults spawner.old) }
{
    let Ok((queue, mut pass)) = LinkQueue::new(alloc) else {
        return Err(PoolFault::Memory);
    };
    let Ok((workers, room)) = workers_of(alloc, rt, &queue, &mut pass, slots) else {
        return Err(PoolFault::Memory);
    };
    let acceptor = Acceptor::new(rt, &queue, pass, door);
    let periodic = PeriodicJob::new(alloc, rt, &queue, pace, turn);
    let (lent, served) = run_prepared(spawner, &queue, workers, periodic, acceptor, room);
    take_back(lent);
    let (accepted, slots, periodic) = match served {
        Ok(served) => served,
        Err(fault) => return Err(fault),
    };
    let PeriodicJob {
        turn: lent_turn,
        pace: lent_pace,
        turns,
        ..
    } = periodic;
    take_back(lent_turn);
    take_back(lent_pace);
    Ok(PoolOutcome {
        accepted,
        turns,
        slots,
    })
}

/// The outcome of accepting, the slots, and the other job; or why the pool did not run.
type Prepared<S, R, B> = Result<(AcceptOutcome, Vec<WorkerSlot<S, R>>, B), PoolFault>;

/// Runs an acceptor on this thread, and workers and another job concurrently, none of which has started yet. Returns
/// the door, and with it the outcome of accepting, the slots of the workers (in the vector `room`) and the other job,
/// or why the pool did not run. `workers` must have capacity for one more job, and `room`, which must be empty, for all
/// slots.
fn run_prepared<'a, S, R, D: Door, P: Spawner, B: Job, W: Wait + Sync>(
    spawner: &mut P,
    queue: &LinkQueue<D::L>,
    workers: Vec<PoolJob<'_, S, R, D::L, W, B>>,
    other: B,
    acceptor: Acceptor<'a, D, W>,
    room: Vec<WorkerSlot<S, R>>,
) -> (&'a mut D, Prepared<S, R, B>)
where
    S: LinkHandler + Drop + Send,
    R: Draws + Drop + Send,
    D::L: Drop + Send,
    B: Drop + Send,
    requires more { vec_len workers < vec_capacity workers }
    requires room { length (filter_map worker_of workers.items) ≤ vec_capacity room }
    requires empty { room.items ≡ [] }
    requires begins { acceptor.closed ≡ false }
    requires queue { IsPassOfQueue queue.now acceptor.pass }
    requires knows { view acceptor.pass ≡ tally (18446744073709551616 - length (filter_map worker_of workers.items)) [] [] 1 0 }
    requires passes { All (λ worker. IsPassOfQueue queue.now worker.pass × (view worker.pass ≡ new_tally))
        (filter_map worker_of workers.items) }
    ensures same { result.0.ghost_name ≡ acceptor.entry.door.ghost_name }
    ensures accepts { AcceptedIn (λ served. served.0) result.1 (D.state acceptor.entry.door.now) (D.state result.0.now) }
    ensures slots { IfOk result.1 (λ served. AllZip (ServesSlot S.serves S.keeps R.coming)
        (map slot_of (filter_map worker_of workers.entry.items)) served.1.items) }
    ensures each_link_served_once { IfOk result.1 (λ served. 0 < length (filter_map worker_of workers.entry.items)
        → EachLinkServedOnce S.serves R.coming D.L.Source.left D.L.Sink.sent D.L.Source.faults
        (D.state acceptor.entry.door.now) (D.state result.0.now) served.0.links
        (map slot_of (filter_map worker_of workers.entry.items)) served.1.items) }
    ensures other { IfOk result.1 (λ served. B.worked other served.2) }
    ensures causes { HasCauses (λ served. served.0) result.1 (D.faults acceptor.entry.door.now) (D.faults result.0.now)
        (P.faults spawner.old) (P.faults spawner.new) }
    ensures untouched { IsErrOf result.1 PoolFault.Memory
        → (D.faults result.0.now ≡ D.faults acceptor.entry.door.now) × (P.faults spawner.new ≡ P.faults spawner.old) }
{
    let (acceptor, done) = run_jobs(spawner, workers, other, acceptor);
    let Acceptor {
        door,
        queue: _,
        mut pass,
        rt: _,
        closed: _,
        outcome,
    } = acceptor;
    match done {
        Ok((workers, other)) => {
            let slots = collect_slots(queue, &mut pass, workers, room);
            queue.all_taken(&mut pass);
            (door, Ok((outcome, slots, other)))
        }
        Err(SpawnFault::NotStarted) => (door, Err(PoolFault::Spawner)),
        Err(SpawnFault::Memory) => (door, Err(PoolFault::Memory)),
    }
}

/// Does nothing at run time. The call is the last use of a reference that a function returned: the borrow ends here,
/// with the value behind the reference unchanged.
fn take_back<T>(x: &mut T)
    ensures { x.new ≡ x.old }
{}
