//! A keeper (an append-only store of texts, one text per row) over a SQLite database.
ghost use Rattle.std.specs.Prelude.{◌≡◌, ◌↔◌, false};
ghost use Rattle.unl_keeper.specs.Faults.{CountRose};

use crate::keeper::Keeper;
use crate::refusal::KeepRefusal;
use sqlite::{Alter, Connection, Error, ErrorCode, params};
use std::alloc::Global;
use std::marker::Model;
use unl_documents::Text;

/// A keeper whose rows are those of the table `kept(place INTEGER PRIMARY KEY, text TEXT NOT NULL)`. `open` creates the
/// table if it does not exist. Contracts do not describe the rows. They describe only whether the keeper is open, the
/// number of kept rows and the fault count.
///
/// Each put is one upsert at the `place` after the kept rows, so it replaces what a failed put left there. The
/// connection must not be in a transaction, or a put commits nothing.
///
/// A statement that fails for any reason other than out of memory is a fault. A greatest `place` below 1 is a fault
/// too, and so is a row that does not hold text. A missing row is not a fault.
pub struct SqliteKeeper<D: Alter> {
    connection: Connection<D>,
    opened: bool,
    count: u64,
    faults: u64,
}

impl<D: Alter + Drop> Drop for SqliteKeeper<D> {
    fn drop(self) {
        let SqliteKeeper {
            connection: _,
            opened: _,
            count: _,
            faults: _,
        } = self;
    }
}

impl<D: Alter> Model for SqliteKeeper<D> {
    ghost use Rattle.unl_keeper.specs.Sqlite.{SqliteKeeperState};

    ghost Value = { SqliteKeeperState };

    ghost view = { λ k. record { opened = k.opened; count = k.count; faults = k.faults } };
}

/// Maps a database error: out of memory is `Memory`, any other error is `Fault`.
fn refusal(error: Error) -> KeepRefusal
    ensures { (result ≡ KeepRefusal.Memory) ↔ (error ≡ Error.SqliteFailure ErrorCode.OutOfMemory) }
{
    match error {
        Error::SqliteFailure(ErrorCode::OutOfMemory) => KeepRefusal::Memory,
        _ => KeepRefusal::Fault,
    }
}

// The seven functions below have no contract, so that the proofs of their callers need not describe the database.

/// Creates the table if it does not exist.
fn create<D: Alter>(connection: &mut Connection<D>) -> Result<usize, Error> {
    connection.execute(
        "CREATE TABLE IF NOT EXISTS kept (place INTEGER PRIMARY KEY, text TEXT NOT NULL)",
        &[],
    )
}

/// Returns the greatest `place`, or `None` if the table is empty.
fn greatest<D: Alter>(connection: &mut Connection<D>) -> Result<Option<i64>, Error> {
    connection
        .query_row("SELECT max(place) FROM kept", &[])?
        .get(0)
}

/// Writes a text at `place`, replacing any row there.
fn write<D: Alter>(connection: &mut Connection<D>, place: i64, text: &str) -> Result<usize, Error> {
    connection.execute(
        "INSERT INTO kept (place, text) VALUES (?1, ?2) ON CONFLICT (place) DO UPDATE SET text = excluded.text",
        params![place, text],
    )
}

/// Returns the text at `place`. The error is `QueryReturnedNoRows` if there is no such row.
fn select<D: Alter>(connection: &mut Connection<D>, place: i64) -> Result<String, Error> {
    connection
        .query_row("SELECT text FROM kept WHERE place = ?1", params![place])?
        .get(0)
}

/// Creates the table if needed and returns the number of kept rows: the greatest `place`, or 0 if the table is empty.
fn rows_of<D: Alter>(connection: &mut Connection<D>) -> Result<u64, KeepRefusal> {
    if let Err(error) = create(connection) {
        return Err(refusal(error));
    }
    match greatest(connection) {
        Ok(None) => Ok(0),
        Ok(Some(place)) if place >= 1 => Ok(place as u64),
        Ok(Some(_)) => Err(KeepRefusal::Fault),
        Err(error) => Err(refusal(error)),
    }
}

/// Writes a text at `place`.
fn put_row<D: Alter>(
    connection: &mut Connection<D>,
    place: u64,
    text: &Text,
) -> Result<(), KeepRefusal> {
    let Ok(place) = i64::try_from(place) else {
        return Err(KeepRefusal::Fault);
    };
    match write(connection, place, text.as_str()) {
        Ok(_) => Ok(()),
        Err(error) => Err(refusal(error)),
    }
}

/// Returns the text at `place`, or `None` if there is no such row.
fn row_at<D: Alter>(
    connection: &mut Connection<D>,
    place: u64,
) -> Result<Option<Text>, KeepRefusal> {
    let Ok(place) = i64::try_from(place) else {
        return Ok(None);
    };
    match select(connection, place) {
        Ok(text) => Ok(Some(Text::from(text))),
        Err(Error::QueryReturnedNoRows) => Ok(None),
        Err(error) => Err(refusal(error)),
    }
}

impl<D: Alter> SqliteKeeper<D> {
    /// Creates a keeper over a connection. It is not open. Allocates nothing.
    pub fn new(connection: Connection<D>) -> SqliteKeeper<D>
        ensures { result ≡ record { opened = false; count = 0; faults = 0 } }
    {
        SqliteKeeper {
            connection,
            opened: false,
            count: 0,
            faults: 0,
        }
    }

    /// Returns the connection, so that the caller can close it, and the fault count.
    pub fn into_connection(self) -> (Connection<D>, u64)
        ensures { result.1 ≡ self.faults }
    {
        let SqliteKeeper {
            connection,
            opened: _,
            count: _,
            faults,
        } = self;
        (connection, faults)
    }

    /// Increments the fault count.
    fn add_fault(&mut self)
        ensures same { self.new ≡ record self.old { faults = self.new.faults } }
        ensures risen { CountRose self.old.faults self.new.faults }
    {
        self.faults = self.faults.saturating_add(1);
    }
}

impl<D: Alter> Keeper for SqliteKeeper<D> {
    ghost use Rattle.unl_keeper.specs.Sqlite.{sqlite_state};

    ghost state = { sqlite_state };

    fn open(&mut self, _alloc: Global) -> Result<u64, KeepRefusal> {
        match rows_of(&mut self.connection) {
            Ok(count) => {
                self.count = count;
                self.opened = true;
                Ok(count)
            }
            Err(KeepRefusal::Fault) => {
                self.add_fault();
                Err(KeepRefusal::Fault)
            }
            Err(KeepRefusal::Memory) => Err(KeepRefusal::Memory),
        }
    }

    fn count(&self) -> u64 {
        self.count
    }

    fn put(&mut self, _alloc: Global, text: &Text) -> Result<(), KeepRefusal> {
        match put_row(&mut self.connection, self.count + 1, text) {
            Ok(()) => {
                self.count += 1;
                Ok(())
            }
            Err(KeepRefusal::Fault) => {
                self.add_fault();
                Err(KeepRefusal::Fault)
            }
            Err(KeepRefusal::Memory) => Err(KeepRefusal::Memory),
        }
    }

    fn read(&mut self, _alloc: Global, place: u64) -> Result<Option<Text>, KeepRefusal> {
        match row_at(&mut self.connection, place) {
            Ok(found) => Ok(found),
            Err(KeepRefusal::Fault) => {
                self.add_fault();
                Err(KeepRefusal::Fault)
            }
            Err(KeepRefusal::Memory) => Err(KeepRefusal::Memory),
        }
    }

    ghost at_least = { λ _. tt };

    ghost at_most = { λ _ _. tt };
}
