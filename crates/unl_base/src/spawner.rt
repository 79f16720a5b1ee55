//! A spawner, which runs jobs: each on its own thread, or all in turn on the caller's thread.
ghost use Rattle.std.specs.Prelude.{◌≡◌, ◌≤◌, ℕ, IfOk, OnErr, OnOk};
ghost use Rattle.std.specs.List.{AllZip};
ghost use Rattle.unl_base.specs.Faults.{Rose};
ghost use Rattle.unl_base.specs.Spawning.{HasSpawnCause};

use crate::concurrent::run_concurrently;
use crate::in_turn::work_all;
use crate::job::Job;
use crate::spawn_fault::SpawnFault;
use std::sync::Wait;
use std::thread::Threads;

/// Where a spawner runs its jobs.
pub enum Placement<'a, R> {
    /// All on the caller's thread, one after the other.
    Here,
    /// Each on its own thread.
    Threads(&'a R),
    /// Nowhere: no job can be started.
    Nowhere,
}

/// The failure to start a job, which [`Spawner::count_fault`] counts. Only this crate creates one, so no other crate
/// can make a spawner count a fault.
#[derive(Debug, Drop)]
pub struct NotStarted {
    made_here: (),
}

impl NotStarted {
    /// The failure of the current attempt to start a job.
    fn now() -> Self {
        NotStarted { made_here: () }
    }
}

/// Runs jobs where `place` says.
pub trait Spawner {
    /// The runtime that starts its threads.
    type Rt: Threads + Wait;

    /// The number of failures to start a job, saturating at 2^64 - 1.
    ghost faults: { Self → ℕ };

    /// Returns where this spawner runs jobs.
    fn place(&self) -> Placement<'_, Self::Rt>;

    /// Counts a failure to start a job.
    fn count_fault(&mut self, failure: NotStarted)
        ensures later { faults self.old ≤ faults self.new }
        ensures rose { Rose (faults self.old) (faults self.new) };

    /// Runs `here` on the caller's thread and each job where `place` says, waits for all of them, and returns them, the
    /// jobs in order.
    ///
    /// # Errors
    ///
    /// `NotStarted`: a job couldn't be started, and the fault is counted. `Memory`: out of memory for the list of jobs
    /// or of thread handles; no fault is counted. Either way `here` was cancelled, the jobs already started
    /// have finished, and all jobs are dropped.
    final fn with<J: Job + Send + Drop, M: Job>(
        &mut self,
        jobs: Vec<J>,
        here: M,
    ) -> (M, Result<Vec<J>, SpawnFault>)
        ensures here { OnOk result.1 (M.worked here result.0) }
        ensures each { IfOk result.1 (λ done. AllZip J.worked jobs.items done.items) }
        ensures cancelled { OnErr result.1 (M.cancelled here result.0) }
        ensures cause { HasSpawnCause (faults self.old) (faults self.new) result.1 }
        ensures still { OnOk result.1 (faults self.new ≡ faults self.old) }
    {
        match self.place() {
            Placement::Here => run_in_turn(jobs, here),
            Placement::Threads(rt) => {
                let (here, done) = run_concurrently(rt, jobs, here);
                if let Err(SpawnFault::NotStarted) = &done {
                    self.count_fault(NotStarted::now());
                }
                (here, done)
            }
            Placement::Nowhere => {
                self.count_fault(NotStarted::now());
                (cancel_job(here), Err(SpawnFault::NotStarted))
            }
        }
    }
}

/// Runs `here`, then each job in turn.
fn run_in_turn<J: Job, M: Job>(jobs: Vec<J>, here: M) -> (M, Result<Vec<J>, SpawnFault>)
    ensures here { OnOk result.1 (M.worked here result.0) }
    ensures each { IfOk result.1 (λ done. AllZip J.worked jobs.items done.items) }
    ensures cancelled { OnErr result.1 (M.cancelled here result.0) }
    ensures started { OnErr result.1 ⊥ }
{
    let mut here = here;
    let mut jobs = jobs;
    here.work();
    work_all(jobs.as_mut_slice());
    (here, Ok(jobs))
}

/// Cancels a job.
fn cancel_job<M: Job>(here: M) -> M
    ensures { M.cancelled here result }
{
    let mut here = here;
    here.cancel();
    here
}
