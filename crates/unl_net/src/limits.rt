//! The limit on the number of connections of a door, including those that links serve.
ghost use Rattle.std.specs.Prelude.{◌≤◌, ◌<◌};

use libc::types::rlimit;
use libc::{RLIMIT_NOFILE, getrlimit};

/// The highest limit on the connections of a door.
const MOST_CONNECTIONS: u64 = 16_384;

/// How many file descriptors are reserved for the rest of the program.
const RESERVED: u64 = 64;

/// The limit on the connections of a door: the process's limit of file descriptors, less 64 for the rest of the program
/// (or half of it if it is below 128), but at most 16,384 and at least 1. It is 512 if the process's limit can't be
/// read.
pub(crate) fn most_connections() -> usize
    ensures some { 0 < result }
    ensures most { result ≤ 16384 }
{
    let mut limit = rlimit {
        rlim_cur: 0,
        rlim_max: 0,
    };
    if getrlimit(RLIMIT_NOFILE, &mut limit) != 0 {
        return 512;
    }
    most_of(limit.rlim_cur)
}

/// The limit on the connections of a door if the process may open `limit` descriptors.
fn most_of(limit: u64) -> usize
    ensures some { 0 < result }
    ensures most { result ≤ 16384 }
{
    let kept = limit.saturating_sub(RESERVED).max(limit / 2);
    kept.max(1).min(MOST_CONNECTIONS) as usize
}
