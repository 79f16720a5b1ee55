//! Why a spawner (which runs jobs) failed.
use thiserror::Error;

/// Why a spawner did not run all of its jobs.
#[derive(Clone, Copy, Debug, PartialEq, Eq, Error)]
pub enum SpawnFault {
    /// A job couldn't be started. The spawner counted the fault.
    #[error("a job could not be started")]
    NotStarted,
    /// Out of memory for the list of jobs or of thread handles. No fault was counted.
    #[error("out of memory")]
    Memory,
}
