//! The jobs of a pool, which run concurrently with the thread that accepts links: its workers, and one other job.
ghost use Rattle.std.specs.Prelude.{◌≡◌, ◌<◌, ◌≤◌, ◌+◌, ◌-◌, ◌++◌, [], IfOk, OnErr, OnOk};
ghost use Rattle.std.specs.Prelude.{filter_map, flat_map, length, map, option_to_list, vec_capacity, vec_len};
ghost use Rattle.std.specs.List.{All, AllZip};
ghost use Rattle.crossbeam_queue.specs.Passes.{view, IsSamePass};
ghost use Rattle.unl_base.specs.Spawning.{HasSpawnCause};
ghost use Rattle.unl_server.specs.Links.{link_view};
ghost use Rattle.unl_workers.specs.Passes.{IsPassOfQueue};
ghost use Rattle.unl_workers.specs.Pool.{PoolJobWorked, RunsWorker, slot_of, taken_by, worker_of};
ghost use Rattle.unl_workers.specs.Tallies.{new_tally, tally};

use crate::with_last::with_last;
use crate::worker::{LinkHandler, Worker, WorkerSlot, serve_all};
use crate::{LinkQueue, QueuePass};
use std::alloc::{AllocError, Global};
use std::sync::Wait;
use unl_base::{Draws, Job, Link, SpawnFault, Spawner};

/// A job of a pool, with a thread of its own: a worker, or the other job.
#[derive(Drop)]
pub(crate) enum PoolJob<'a, S, R, L, W, B> {
    Worker(Worker<'a, S, R, L, W>),
    Other(B),
}

impl<'a, S: LinkHandler, R: Draws, L: Link + Drop, W: Wait, B: Job> Job
    for PoolJob<'a, S, R, L, W, B> {
    ghost worked = { PoolJobWorked (RunsWorker S.serves S.keeps R.coming
        (λ l. link_view (L.Source.left l) (L.Sink.sent l) (L.Source.faults l))) B.worked };

    ghost cancelled = { λ before after. Unit {0} };

    fn work(&mut self) {
        match self {
            PoolJob::Worker(worker) => serve_all(worker),
            PoolJob::Other(job) => job.work(),
        }
    }

    fn cancel(&mut self) {}
}

/// Creates a worker for each slot (a server, with a time and a random word for each request), each with a pass of its
/// own that is split off from `pass`, which must have more parts than there are slots. The vector of workers has
/// capacity for one more job. Also returns an empty vector with capacity for all slots.
///
/// # Errors
/// Out of memory.
pub(crate) fn workers_of<'a, S, R, L, W, B>(
    alloc: Global,
    rt: &'a W,
    queue: &'a LinkQueue<L>,
    pass: &mut QueuePass<L>,
    slots: Vec<WorkerSlot<S, R>>,
) -> Result<(Vec<PoolJob<'a, S, R, L, W, B>>, Vec<WorkerSlot<S, R>>), AllocError>
where
    S: Drop,
    R: Drop,
    L: Drop,
    B: Drop,
    requires queue { IsPassOfQueue queue.now pass.old }
    requires parts { length slots.items < (view pass.old).parts }
    ensures queue { IsSamePass pass.old pass.new }
    ensures parts { IfOk result (λ made. view pass.new ≡ tally ((view pass.old).parts - length slots.items)
        (view pass.old).put (view pass.old).taken (view pass.old).may_put (view pass.old).ends_seen) }
    ensures workers { IfOk result (λ made. map slot_of (filter_map worker_of made.0.items) ≡ slots.items) }
    ensures passes { IfOk result (λ made. All (λ worker. IsPassOfQueue queue.now worker.pass × (view worker.pass ≡ new_tally))
        (filter_map worker_of made.0.items)) }
    ensures more { IfOk result (λ made. vec_len made.0 < vec_capacity made.0) }
    ensures room { IfOk result (λ made. length slots.items ≤ vec_capacity made.1) }
    ensures empty { IfOk result (λ made. made.1.items ≡ []) }
{
    let room = Vec::with_capacity(alloc, slots.len())?;
    let mut jobs = Vec::new(alloc);
    for slot in slots {
        let worker = new_worker(alloc, rt, queue, queue.split_pass(pass), slot);
        jobs.push(PoolJob::Worker(worker))?;
    }
    jobs.reserve_exact(1)?;
    Ok((jobs, room))
}

/// Creates a worker for a slot, with this pass.
fn new_worker<'a, S, R, L, W>(
    alloc: Global,
    rt: &'a W,
    queue: &'a LinkQueue<L>,
    pass: QueuePass<L>,
    slot: WorkerSlot<S, R>,
) -> Worker<'a, S, R, L, W>
    requires queue { IsPassOfQueue queue.now pass }
    requires parts { 0 < (view pass).parts }
    ensures slot { result.slot ≡ slot }
    ensures pass { result.pass ≡ pass }
{
    Worker {
        slot,
        queue,
        pass,
        rt,
        alloc,
    }
}

/// Runs workers and another job concurrently, and `here` on this thread. Returns `here`, the workers and the other job.
/// `workers` must have capacity for one more job.
///
/// # Errors
/// `NotStarted`: a job couldn't be started, and the spawner increments its fault count. `Memory`: out of memory. In
/// both cases `here` was cancelled, and the jobs are dropped.
pub(crate) fn run_jobs<'a, S, R, L, W, P: Spawner, B: Job, M: Job>(
    spawner: &mut P,
    workers: Vec<PoolJob<'a, S, R, L, W, B>>,
    other: B,
    here: M,
) -> (M, Result<(Vec<PoolJob<'a, S, R, L, W, B>>, B), SpawnFault>)
where
    S: LinkHandler + Drop + Send,
    R: Draws + Drop + Send,
    L: Link + Drop + Send,
    W: Wait + Sync,
    B: Drop + Send,
    requires { vec_len workers < vec_capacity workers }
    ensures here { OnOk result.1 (M.worked here result.0) }
    ensures each { IfOk result.1 (λ done. AllZip (PoolJobWorked (RunsWorker S.serves S.keeps R.coming
        (λ l. link_view (L.Source.left l) (L.Sink.sent l) (L.Source.faults l))) B.worked) workers.entry.items done.0.items) }
    ensures other { IfOk result.1 (λ done. B.worked other done.1) }
    ensures cancelled { OnErr result.1 (M.cancelled here result.0) }
    ensures cause { HasSpawnCause (P.faults spawner.old) (P.faults spawner.new) result.1 }
{
    let (here, done) = with_last(spawner, workers, PoolJob::Other(other), here);
    match done {
        Ok((workers, last)) => match last {
            PoolJob::Other(other) => (here, Ok((workers, other))),
            PoolJob::Worker(_) => unreachable!(),
        },
        Err(fault) => (here, Err(fault)),
    }
}

/// Returns the slots of the workers, in the vector `room`, and joins their passes to `pass`. Each worker has finished:
/// it has taken the end marker of the queue. `room` must be empty, with capacity for all slots.
pub(crate) fn collect_slots<S: Drop, R: Drop, L: Drop, W, B: Drop>(
    queue: &LinkQueue<L>,
    pass: &mut QueuePass<L>,
    jobs: Vec<PoolJob<'_, S, R, L, W, B>>,
    room: Vec<WorkerSlot<S, R>>,
) -> Vec<WorkerSlot<S, R>>
    requires queue { IsPassOfQueue queue.now pass.old }
    requires parts { 0 < (view pass.old).parts }
    requires passes { All (λ worker. IsPassOfQueue queue.now worker.pass
        × (view worker.pass ≡ tally 1 [] (taken_by worker) 0 1)) (filter_map worker_of jobs.items) }
    requires room { length (filter_map worker_of jobs.items) ≤ vec_capacity room }
    requires empty { room.items ≡ [] }
    ensures queue { IsSamePass pass.old pass.new }
    ensures slots { result.items ≡ map slot_of (filter_map worker_of jobs.entry.items) }
    ensures whole { view pass.new ≡ tally ((view pass.old).parts + length (filter_map worker_of jobs.entry.items)) (view pass.old).put
        ((view pass.old).taken ++ flat_map taken_by (filter_map worker_of jobs.entry.items))
        (view pass.old).may_put ((view pass.old).ends_seen + length (filter_map worker_of jobs.entry.items)) }
{
    let mut slots = room;
    for job in jobs {
        collect_slot(queue, pass, &mut slots, job);
    }
    slots
}

/// If the job is a worker, appends its slot to `slots`, which has capacity for it, and joins its pass to `pass`.
fn collect_slot<S: Drop, R: Drop, L: Drop, W, B: Drop>(
    queue: &LinkQueue<L>,
    pass: &mut QueuePass<L>,
    slots: &mut Vec<WorkerSlot<S, R>>,
    job: PoolJob<'_, S, R, L, W, B>,
)
    requires queue { IsPassOfQueue queue.now pass.old }
    requires parts { 0 < (view pass.old).parts }
    requires passes { All (λ worker. IsPassOfQueue queue.now worker.pass
        × (view worker.pass ≡ tally 1 [] (taken_by worker) 0 1)) (option_to_list (worker_of job)) }
    requires room { length slots.old.items + length (option_to_list (worker_of job)) ≤ vec_capacity slots.old }
    ensures queue { IsSamePass pass.old pass.new }
    ensures items { slots.new.items ≡ slots.old.items ++ map slot_of (option_to_list (worker_of job.entry)) }
    ensures whole { view pass.new ≡ tally ((view pass.old).parts + length (option_to_list (worker_of job.entry))) (view pass.old).put
        ((view pass.old).taken ++ flat_map taken_by (option_to_list (worker_of job.entry)))
        (view pass.old).may_put ((view pass.old).ends_seen + length (option_to_list (worker_of job.entry))) }
    ensures room { vec_capacity slots.old ≤ vec_capacity slots.new }
{
    match job {
        PoolJob::Worker(worker) => {
            let Worker {
                slot,
                pass: theirs,
                ..
            } = worker;
            queue.join_pass(pass, theirs);
            slots.push(slot).unwrap();
        }
        PoolJob::Other(_) => {}
    }
}
