//! Runs jobs concurrently on scoped threads, which all end before the call returns.
ghost use Rattle.std.specs.Prelude.{◌≡◌, ◌<◌, ◌≤◌, ◌++◌, ◌∷◌, [], IfOk, OnErr, OnOk, map, vec_capacity, vec_len};
ghost use Rattle.std.specs.List.{AllZip};

use crate::job::Job;
use crate::spawn_fault::SpawnFault;
use std::snapshot::Snapshot;
use std::sync::Wait;
use std::thread;
use std::thread::{Promise, PromisedHandle, Scope, Threads};

/// Runs each of `jobs` on its own thread and the job `here` on the caller's thread. Once all have finished, returns
/// `here`, and the jobs in their order.
///
/// # Errors
///
/// `NotStarted`: a thread can't be started. `Memory`: out of memory for the list of jobs or of thread handles. Either
/// way `here` is cancelled and returned, the jobs that were already started run to their end, and all of `jobs` are
/// dropped.
pub fn run_concurrently<R: Threads + Wait, J: Job + Send + Drop, M: Job>(
    rt: &R,
    jobs: Vec<J>,
    here: M,
) -> (M, Result<Vec<J>, SpawnFault>)
    ensures here { OnOk result.1 (M.worked here result.0) }
    ensures each { IfOk result.1 (λ done. AllZip J.worked jobs.items done.items) }
    ensures cancelled { OnErr result.1 (M.cancelled here result.0) }
{
    let mut here = here;
    let (lent, done) = run_around(rt, jobs, Lent { job: &mut here });
    take_back(lent);
    (here, done)
}

/// Work that `run_around` either runs or cancels on the caller's thread. The contract of `thread::scope` says nothing
/// about a `&mut` that its closure captures, so the closure captures a value of a type parameter instead.
trait ScopedWork {
    type Done;

    ghost works: { Self → Self.Done → Type 0 };

    ghost cancels: { Self → Self.Done → Type 0 };

    fn run(self) -> Self::Done
        ensures { works self result };

    fn cancel_job(self) -> Self::Done
        ensures { cancels self result };
}

/// A borrowed job.
#[derive(Drop)]
struct Lent<'a, M> {
    job: &'a mut M,
}

impl<'a, M: Job> ScopedWork for Lent<'a, M> {
    type Done = &'a mut M;

    ghost works = { λ lent done. (done.ghost_name ≡ lent.job.ghost_name) × M.worked lent.job.now done.now };

    ghost cancels = { λ lent done. (done.ghost_name ≡ lent.job.ghost_name) × M.cancelled lent.job.now done.now };

    fn run(self) -> &'a mut M {
        let Lent { job } = self;
        job.work();
        job
    }

    fn cancel_job(self) -> &'a mut M {
        let Lent { job } = self;
        job.cancel();
        job
    }
}

/// Does nothing. A call ends the borrow of the variable that `x` refers to, with the value that `x` has.
fn take_back<T>(x: &mut T)
    ensures { x.new ≡ x.old }
{}

/// The promise of a running job: the thread calls `work` once on the job `was`, and returns the resulting job.
#[derive(Drop)]
struct Worked<J> {
    was: Snapshot<J>,
}

impl<J: Job> Promise<J> for Worked<J> {
    ghost kept_by = { λ promise job. J.worked promise.was.value job };
}

/// A job running on its thread.
type Running<J> = PromisedHandle<J, Worked<J>>;

/// Runs each job on its own thread and `errand` on the caller's. On an error `errand` is cancelled, as in
/// [`run_concurrently`].
fn run_around<R: Threads + Wait, J: Job + Send + Drop, E: ScopedWork + Drop>(
    rt: &R,
    jobs: Vec<J>,
    errand: E,
) -> (E::Done, Result<Vec<J>, SpawnFault>)
    ensures here { OnOk result.1 (E.works errand result.0) }
    ensures each { IfOk result.1 (λ done. AllZip J.worked jobs.items done.items) }
    ensures cancelled { OnErr result.1 (E.cancels errand result.0) }
{
    let Ok(room) = Vec::with_capacity(*jobs.allocator(), jobs.len()) else {
        return (errand.cancel_job(), Err(SpawnFault::Memory));
    };
    thread::scope(
        thread::scope_env(),
        rt,
        move |scope| -> (E::Done, Result<Vec<J>, SpawnFault>)
            requires room { vec_len jobs ≤ vec_capacity room }
            requires empty { room.items ≡ [] }
            ensures here { OnOk result.1 (E.works errand result.0) }
            ensures each { IfOk result.1 (λ done. AllZip J.worked jobs.items done.items) }
            ensures cancelled { OnErr result.1 (E.cancels errand result.0) }
        {
            match start_all(scope, jobs) {
                Ok(started) => {
                    let here = errand.run();
                    (here, Ok(join_all(rt, started, room)))
                }
                Err((fault, started)) => {
                    let here = errand.cancel_job();
                    end_all(rt, started);
                    (here, Err(fault))
                }
            }
        },
    )
}

/// Starts each job on its own thread.
///
/// # Errors
///
/// The fault that stopped the call, and the handles of the jobs started so far. If the list of handles can't grow, it
/// lacks the handle of the last job started; the scope waits for that job.
fn start_all<'s, X, J: Job + Send + Drop + 's>(
    scope: &Scope<'s, X>,
    jobs: Vec<J>,
) -> Result<Vec<Running<J>>, (SpawnFault, Vec<Running<J>>)>
    ensures { IfOk result (λ started. map (λ handle. handle.promise.was.value) started.items ≡ jobs.items) }
{
    let mut started = Vec::new(*jobs.allocator());
    for job in jobs {
        match start(scope, job) {
            Ok(handle) => {
                if started.push(handle).is_err() {
                    return Err((SpawnFault::Memory, started));
                }
            }
            Err(fault) => return Err((fault, started)),
        }
    }
    Ok(started)
}

/// Starts a job on its own thread.
///
/// # Errors
///
/// `NotStarted`: the thread could not be started.
fn start<'s, X, J: Job + Send + Drop + 's>(
    scope: &Scope<'s, X>,
    job: J,
) -> Result<Running<J>, SpawnFault>
    ensures { IfOk result (λ handle. handle.promise.was.value ≡ job) }
{
    let was = Snapshot::of(&job);
    let started = scope.spawn_with(
        Worked { was },
        move || -> J
            ensures { J.worked job result }
        {
            let mut job = job;
            job.work();
            job
        },
    );
    match started {
        Ok(handle) => Ok(handle),
        Err(_) => Err(SpawnFault::NotStarted),
    }
}

/// Waits for each job and returns them in order, in `room`.
fn join_all<R: Threads, J: Job + Drop>(rt: &R, started: Vec<Running<J>>, room: Vec<J>) -> Vec<J>
    requires room { vec_len started ≤ vec_capacity room }
    requires empty { room.items ≡ [] }
    ensures { AllZip J.worked (map (λ handle. handle.promise.was.value) started.items) result.items }
{
    let mut done = room;
    for handle in started {
        keep(&mut done, handle.join(rt));
    }
    done
}

/// Appends a job to a list that has spare capacity.
fn keep<J: Drop>(done: &mut Vec<J>, job: J)
    requires { vec_len done.old < vec_capacity done.old }
    ensures items { done.new.items ≡ done.old.items ++ job ∷ [] }
    ensures room { vec_capacity done.old ≤ vec_capacity done.new }
{
    done.push(job).unwrap();
}

/// Waits for each job and drops it.
fn end_all<R: Threads, J: Job + Drop>(rt: &R, started: Vec<Running<J>>) {
    for handle in started {
        handle.join(rt);
    }
}
