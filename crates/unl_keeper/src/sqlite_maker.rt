//! A maker of keepers over SQLite databases in memory.
ghost use Rattle.std.specs.Prelude.{◌≡◌};

use crate::maker::KeepMaker;
use crate::refusal::KeepRefusal;
use crate::sqlite_keeper::SqliteKeeper;
use sqlite::{Connection, MemStore};
use std::alloc::Global;
use std::marker::Model;

/// Creates keepers, each over its own database in memory. The rows of a database are not observable, so contracts
/// describe a maker by its fault count alone: the number of keepers taken back whose own fault count was above 0.
#[derive(Debug, Drop)]
pub struct SqliteMaker {
    faults: u64,
}

impl Model for SqliteMaker {
    ghost use Rattle.std.specs.Prelude.{ℕ};

    ghost Value = { ℕ };

    ghost view = { λ m. m.faults };
}

impl SqliteMaker {
    /// Creates a maker with a fault count of 0.
    pub fn new() -> SqliteMaker
        ensures { result ≡ 0 }
    {
        SqliteMaker { faults: 0 }
    }
}

impl KeepMaker for SqliteMaker {
    ghost use Rattle.std.specs.Prelude.{None};

    type K = SqliteKeeper<MemStore>;

    ghost state = { λ faults. record { held = None; faults = faults } };

    fn make(&mut self, alloc: Global) -> Result<SqliteKeeper<MemStore>, KeepRefusal> {
        match Connection::open_in_memory(alloc) {
            Ok(connection) => Ok(SqliteKeeper::new(connection)),
            Err(_) => Err(KeepRefusal::Memory),
        }
    }

    fn back(&mut self, keeper: SqliteKeeper<MemStore>) {
        let (_connection, faults) = keeper.into_connection();
        if faults > 0 {
            self.faults = self.faults.saturating_add(1);
        }
    }
}
