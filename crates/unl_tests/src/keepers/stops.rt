//! A crash test: stops the machine at each of its disk calls in turn while an upstream keeps commands, and checks that
//! the reopened upstream has the acknowledged commands and at most one more.
ghost use Rattle.std.specs.Prelude.{◌≡◌, true};

use crate::keepers::machine::Machine;
use crate::keepers::upstreams::{opened, put, state_of_dev};
use sqlite::{Connection, FileStore, Files, Options};
use sqlite_disk::{Crash, Disk, Memory};
use std::alloc::Global;
use std::cell::Cell;
use std::rc::Rc;
use unl_keeper::{Keeper, SqliteKeeper};
use unl_upstream::Upstream;

/// The names of the features that ten commands put, in this order.
const NAMES: &str = "abcdefghij";

/// An upper bound on the number of disk calls of a run.
const MOST: u64 = 2000;

/// Puts the features in order, until a put is not acknowledged with the next version number. Returns the number of puts
/// that were acknowledged before that.
fn put_all<K: Keeper>(alloc: Global, up: &mut Upstream, keeper: &mut K) -> u64
    requires { (K.state keeper.old).opened ≡ true }
    ensures { (K.state keeper.new).opened ≡ true }
{
    let mut done = 0u64;
    'names: for name in NAMES.chars() {
        if put(alloc, up, keeper, name) != Some(done.saturating_add(1)) {
            return done;
        }
        done = done.saturating_add(1);
    }
    done
}

/// Opens a database over these files, or returns them if that fails.
fn open<D: Disk + Drop>(
    alloc: Global,
    files: Files<D>,
) -> Result<Connection<FileStore<D>>, Files<D>> {
    if !files.may_be_used() {
        return Err(files);
    }
    match Connection::open_files(alloc, files, Options::new(7)) {
        Ok(connection) => Ok(connection),
        Err((_, left)) => Err(left.into_files()),
    }
}

/// Opens an upstream over the files and puts the features. Returns how many commands were acknowledged, and the files.
/// No disk call is made on the files after the last put.
fn run<D: Disk + Drop>(alloc: Global, files: Files<D>) -> (u64, Files<D>) {
    let mut keeper = match open(alloc, files) {
        Ok(connection) => SqliteKeeper::new(connection),
        Err(left) => return (0, left),
    };
    let done = match opened(alloc, &mut keeper) {
        Some(mut up) => put_all(alloc, &mut up, &mut keeper),
        None => 0,
    };
    (done, keeper.into_connection().0.into_store().close())
}

/// Reopens an upstream from the files and returns how many commands it has, which is its version number. Returns `None`
/// unless the names of its features are the prefix of `NAMES` of that length, and one more put gets the next number.
fn found<D: Disk + Drop>(alloc: Global, files: Files<D>) -> Option<u64> {
    let mut keeper = SqliteKeeper::new(open(alloc, files).ok()?);
    match opened(alloc, &mut keeper) {
        Some(mut up) => {
            let (number, names) = state_of_dev(alloc, &up)?;
            let is_prefix = NAMES.starts_with(names.as_str()) && names.len() as u64 == number;
            let next = put(alloc, &mut up, &mut keeper, 'z')?;
            (is_prefix && next == number.saturating_add(1)).then_some(number)
        }
        None => None,
    }
}

/// Returns a file as it is after the machine stopped. If `loses` is true, the writes that were not synced are lost.
fn after(machine: Machine<Memory>, loses: bool) -> Memory {
    let mut disk = machine.into_inner();
    if loses {
        disk.crash();
    }
    disk
}

/// Returns the log and the database file, both empty, of a machine that stops when `calls_left` is 0.
fn files_of(alloc: Global, calls_left: &Rc<Cell<u64>>) -> Option<Files<Machine<Memory>>> {
    Some(Files {
        log: Machine::new(Memory::new(alloc), calls_left.clone().ok()?),
        db: Machine::new(Memory::new(alloc), calls_left.clone().ok()?),
    })
}

/// Runs on a machine that stops after `calls` disk calls. Returns how many commands were acknowledged, how many the
/// reopened upstream has, and whether the machine used up its calls.
fn stops_at(alloc: Global, calls: u64, loses: bool) -> Option<(u64, u64, bool)> {
    let calls_left = Rc::new(alloc, Cell::new(calls)).ok()?;
    let (done, Files { log, db }) = run(alloc, files_of(alloc, &calls_left)?);
    let files = Files {
        log: after(log, loses),
        db: after(db, loses),
    };
    Some((done, found(alloc, files)?, calls_left.get() == 0))
}

/// Runs with 0, 1, 2 and so on allowed disk calls, and returns the first number that a run does not use up. Returns
/// `None` if the test fails: for example, if a reopened upstream has fewer commands than were acknowledged, or at least
/// two more, or doesn't have all ten after the last run.
fn calls_of_a_run(alloc: Global, loses: bool) -> Option<u64> {
    for calls in 0..MOST {
        let (done, found, stopped) = stops_at(alloc, calls, loses)?;
        if found != done && found != done.saturating_add(1) {
            return None;
        }
        if !stopped {
            return (found == 10).then_some(calls);
        }
    }
    None
}

#[test]
fn a_stop_at_each_disk_call(rt: HostRuntime) {
    let calls = calls_of_a_run(rt.alloc(), true);
    assert!(rt; calls.is_some_and(|n| n > 20));
    assert!(rt; calls_of_a_run(rt.alloc(), false) == calls);
}
