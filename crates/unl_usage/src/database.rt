//! What the durable upstream reports about its database file, on standard error. A failed write is ignored.
use std::alloc::{AllocError, Global};
use std::fmt::Display;
use std::fs;
use std::rt::Files;
use std::time::UNIX_EPOCH;

/// Warns if the database file or its write-ahead log was changed after the epoch. The epoch should be the time of the
/// start, in seconds since 1970. If a file is newer, an earlier start may have used this epoch or a higher one. Edges
/// may then keep the versions of the earlier start, because they drop versions older than their own. A file that
/// doesn't exist, or whose time can't be read, causes no warning. Nothing is printed if memory runs out.
pub fn warn_of_epoch<R: Files + Eprint>(rt: &R, alloc: Global, path: &str, epoch: u64) {
    let Ok(log) = log_of(alloc, path) else {
        return;
    };
    let changed = changed_at(rt, path).max(changed_at(rt, log.as_str()));
    if changed > epoch {
        let _ = rt.eprintln(format_args!(
            "{path}: warning: changed at {changed}, after the epoch {epoch}: edges may keep what no upstream had; \
             start with --epoch \"$(date +%s)\""
        ));
    }
}

/// Reports the number of commands in a database, and the epoch in which they are served.
pub fn report_commands<R: Eprint>(rt: &R, count: u64, epoch: u64) {
    let _ = rt.eprintln(format_args!("{count} commands, epoch {epoch}"));
}

/// Reports why a database can't be opened or read.
pub fn report_unopened<R: Eprint, F: Display>(rt: &R, path: &str, fault: &F) {
    let _ = rt.eprintln(format_args!("{path}: {fault}"));
}

/// The path of the database's write-ahead log.
fn log_of(alloc: Global, path: &str) -> Result<String, AllocError> {
    format!(in alloc; "{path}-wal")
}

/// The modification time of a file, in seconds since 1970. 0 if it can't be read or is before 1970.
fn changed_at<R: Files>(rt: &R, path: &str) -> u64 {
    let Ok(metadata) = fs::metadata(rt, path) else {
        return 0;
    };
    let Ok(moment) = metadata.modified() else {
        return 0;
    };
    match moment.duration_since(UNIX_EPOCH) {
        Ok(since) => since.as_secs(),
        Err(_) => 0,
    }
}
