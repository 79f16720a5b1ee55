//! Opens the database file, serves an upstream whose commands are stored in it, and closes the database.
ghost use Rattle.std.specs.Prelude.{◌≡◌, Ok, Err, IfOk};
ghost use Rattle.unl_base.specs.Doors.{IsClosedAt};
ghost use Rattle.unl_base.specs.Faults.{Rose};
ghost use Rattle.unl_durable_upstream.specs.Databases.{IsClosedWith, RunsDatabase, RunsFile, ServesAndCloses};
ghost use Rattle.unl_durable_upstream.specs.Serving.{ReopeningEnds, facing};
ghost use Rattle.unl_durable_upstream.specs.declared.fault.ProgramFault.TheVariants.{Door as door_fault};
ghost use Rattle.unl_upstream.specs.Kept.{KeptState, kept_state};
ghost use Rattle.unl_upstream.specs.Reopening.{IsOpening};
ghost use Rattle.unl_words.specs.Ranges.{IsUpstream};

use crate::arguments::ProgramArguments;
use crate::fault::ProgramFault;
use crate::reporting::ReportingKeeper;
use crate::serving::{begin, serve_reopened};
use sqlite::{Connection, Error, File, FileStore};
use sqlite_disk::Disk;
use std::alloc::Global;
use std::sync::Wait;
use unl_base::{Door, Draws};
use unl_documents::Memory;
use unl_keeper::{Keeper, SqliteKeeper};
use unl_upstream::Upstream;
use unl_usage::report_unopened;

// `connect` and `disconnect` have no contract, so that the proofs about their callers don't have to describe the state
// of the database.

/// Opens the database at a path, or creates it.
fn connect(system: &HostRuntime, path: &str) -> Result<Connection<FileStore<File>>, Error> {
    Connection::open(system, path)
}

/// Closes a database. On success the content of its write-ahead log has been moved to the database file.
fn disconnect<F: Disk + Drop>(connection: Connection<FileStore<F>>) -> Result<(), Error> {
    connection.close()
}

/// Opens the database file at the path in the arguments, and serves it as [`serve_over`] does. `system` opens the file
/// and allocates memory; `rt` waits and reports. If the database can't be opened or read, the reason is reported on the
/// error stream of `rt`.
///
/// # Errors
/// `File`: the database could not be opened or closed. `Memory`: out of memory while the database was opened, or as for
/// [`serve_over`]. All other errors are those of [`serve_over`].
pub fn serve_file<D: Door, R: Draws, W: Wait + Eprint>(
    system: &HostRuntime,
    rt: &W,
    arguments: &ProgramArguments,
    door: &mut D,
    draws: &mut R,
) -> Result<u64, ProgramFault>
    requires { IsUpstream arguments.now.options }
    ensures runs { RunsFile arguments.now.options result
        (facing (D.state door.old) (R.coming draws.old)) (facing (D.state door.new) (R.coming draws.new)) }
    ensures door { result ≡ Err door_fault → Rose (D.faults door.old) (D.faults door.new) }
{
    let path = arguments.path.as_str();
    match connect(system, path) {
        Ok(connection) => {
            let served = serve_over(rt, system.alloc(), arguments, connection, door, draws);
            report_keeper(rt, path, &served);
            served
        }
        Err(error) => {
            report_unopened(rt, path, &error);
            Err(ProgramFault::from(error))
        }
    }
}

/// If serving `ended` with the error `Keeper`, reports that the commands in the file at `path` can't be read.
fn report_keeper<E: Eprint>(rt: &E, path: &str, ended: &Result<u64, ProgramFault>) {
    if let Err(ProgramFault::Keeper) = ended {
        report_unopened(rt, path, &"its table of commands can't be read");
    }
}

/// Reopens an upstream from a database, listens on the port in the arguments, and serves the links of the door until
/// the door is closed. Each command is in the database before it is acknowledged. If serving succeeded, the database is
/// closed, which moves the content of its write-ahead log to the file. Returns how many links were served. The random
/// word of the first draw is used as the boot number of the upstream, which distinguishes this run of the program from
/// others.
///
/// # Errors
/// `Row`: a row of the database is missing, holds no command, or its command is refused. `Keeper`: the keeper, which
/// reads the rows, failed while the upstream was reopened. `Door`: the door could not listen on the port, or could not
/// hand out a link. `File`: the links were served, but the database could not be closed. `Memory`: out of memory,
/// before a link was handed out or while the database was closed.
pub fn serve_over<F: Disk + Drop, D: Door, R: Draws, W: Wait + Eprint>(
    rt: &W,
    alloc: Global,
    arguments: &ProgramArguments,
    connection: Connection<FileStore<F>>,
    door: &mut D,
    draws: &mut R,
) -> Result<u64, ProgramFault>
    requires { IsUpstream arguments.now.options }
    ensures runs { RunsDatabase arguments.now.options result
        (facing (D.state door.old) (R.coming draws.old)) (facing (D.state door.new) (R.coming draws.new)) }
    ensures door { result ≡ Err door_fault → Rose (D.faults door.old) (D.faults door.new) }
    ensures closed { IfOk result (λ served. IsClosedAt arguments.now.options.port (D.state door.old) (D.state door.new)) }
{
    let boot = draws.draw().word;
    match begin(alloc, boot, &arguments.options) {
        Ok(up) => serve_database(rt, alloc, arguments, up, connection, door, draws),
        Err(Memory) => Err(ProgramFault::Memory),
    }
}

/// Reopens an upstream from a database, serves the links of the door, and closes the database if serving succeeded.
/// Returns how many links were served. The errors are those of [`serve_over`].
fn serve_database<F: Disk + Drop, D: Door, R: Draws, W: Wait + Eprint>(
    rt: &W,
    alloc: Global,
    arguments: &ProgramArguments,
    up: Upstream,
    connection: Connection<FileStore<F>>,
    door: &mut D,
    draws: &mut R,
) -> Result<u64, ProgramFault>
    requires { IsOpening up }
    ensures ends { ServesAndCloses up arguments.now.options.port result
        (facing (D.state door.old) (R.coming draws.old)) (facing (D.state door.new) (R.coming draws.new)) }
    ensures door { result ≡ Err door_fault → Rose (D.faults door.old) (D.faults door.new) }
{
    let keeper = SqliteKeeper::new(connection);
    let (served, keeper) = serve_keeper(rt, alloc, arguments, up, keeper, door, draws);
    close(served, keeper)
}

/// Reopens an upstream from a keeper, and serves the links of the door. Reports on the error stream when puts to the
/// keeper begin to fail other than by running out of memory, and when one succeeds again. Returns the result of
/// serving, and the keeper.
fn serve_keeper<K: Keeper + Drop, D: Door, R: Draws, W: Wait + Eprint>(
    rt: &W,
    alloc: Global,
    arguments: &ProgramArguments,
    mut up: Upstream,
    keeper: K,
    door: &mut D,
    draws: &mut R,
) -> (Result<u64, ProgramFault>, K)
    requires { IsOpening up }
    ensures ends { (last : KeptState) × ReopeningEnds (kept_state up (K.state keeper)) arguments.now.options.port
        result.0 last (facing (D.state door.old) (R.coming draws.old)) (facing (D.state door.new) (R.coming draws.new)) }
    ensures door { result.0 ≡ Err door_fault → Rose (D.faults door.old) (D.faults door.new) }
{
    let port = arguments.options.port;
    let epoch = arguments.options.epoch;
    let mut keeper = ReportingKeeper::new(rt, arguments.path.as_str(), keeper);
    let served = serve_reopened(rt, alloc, port, epoch, &mut up, &mut keeper, door, draws);
    (served, keeper.into_keeper())
}

/// Closes the database of a keeper, if serving succeeded.
///
/// # Errors
/// The error of serving, if there was one. `File`: the database could not be closed. `Memory`: out of memory while it
/// was closed.
fn close<F: Disk + Drop>(
    served: Result<u64, ProgramFault>,
    keeper: SqliteKeeper<FileStore<F>>,
) -> Result<u64, ProgramFault>
    ensures { IsClosedWith served result }
{
    match served {
        Ok(count) => close_after(count, keeper),
        Err(fault) => Err(fault),
    }
}

/// Closes the database of a keeper after `count` links were served.
///
/// # Errors
/// `File`: the database could not be closed. `Memory`: out of memory while it was closed.
fn close_after<F: Disk + Drop>(
    count: u64,
    keeper: SqliteKeeper<FileStore<F>>,
) -> Result<u64, ProgramFault>
    ensures { IsClosedWith (Ok count) result }
{
    let (connection, _) = keeper.into_connection();
    match disconnect(connection) {
        Ok(()) => Ok(count),
        Err(error) => Err(ProgramFault::from(error)),
    }
}
