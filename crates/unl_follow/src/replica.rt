//! The `Replica` type: the newest version that a server sent, and evaluation with it.
ghost use Rattle.std.specs.Prelude.{◌≡◌, option_map};
ghost use Rattle.unl_documents.specs.Results.{Gives};
ghost use Rattle.unl_follow.specs.Replica.{found_in, installed_by, new_replica};
ghost use Rattle.unl_follow.specs.declared.fault.ReplicaRefusal.TheVariants.{Memory as out_of_memory};

use crate::fault::ReplicaRefusal;
use std::alloc::Global;
use std::marker::Model;
use unl_context::Context;
use unl_delta::{Batch, EnvVersion, Installer, Place, apply};
use unl_dependencies::{Evaluation, evaluate};
use unl_documents::{Memory, Shared};
use unl_strategies::Moment;
use unl_tokens::Book;

/// A local copy of one environment. It has a place, a token book, and the front, which is the number of installs so
/// far. The place has the newest version of the environment, if any, and whether the slot is held (ignores changes
/// until a whole state applies). As an [`Installer`] a replica has one slot, whose number is 0.
#[derive(Drop)]
pub struct Replica {
    place: Place,
    front: u64,
    book: Book,
}

impl Model for Replica {
    ghost use Rattle.unl_delta.specs.Valid.{IsValidPlace};
    ghost use Rattle.unl_follow.specs.Replica.{Kept};

    ghost Value = { Kept };

    ghost view = { λ replica. record { place = replica.place; front = replica.front; book = replica.book } };

    ghost invariant = { λ replica. IsValidPlace replica.place };
}

impl Replica {
    /// Creates a replica without a version, with an empty book, at front 0. Allocates nothing.
    pub fn new(alloc: Global) -> Replica
        ensures { result ≡ new_replica }
    {
        Replica {
            place: Place {
                version: None,
                held: false,
            },
            front: 0,
            book: Book::new(alloc),
        }
    }

    /// Evaluates the feature with this name in the state of the replica's version, for a context at a moment (a time, a
    /// random word and a host name). Returns `Ok(None)` exactly if that state has no feature with this name.
    ///
    /// # Errors
    ///
    /// `NotReady` exactly if the replica has no version; `Memory` if out of memory.
    pub fn evaluate(
        &self,
        alloc: Global,
        name: &str,
        context: &Context,
        moment: &Moment,
    ) -> Result<Option<Evaluation>, ReplicaRefusal>
        ensures { Gives out_of_memory result (found_in self.now.place.version name.now context.now moment.entry.now) }
    {
        let Some(version) = &self.place.version else {
            return Err(ReplicaRefusal::NotReady);
        };
        Ok(evaluate(alloc, &version.get().state, name, context, moment)?)
    }

    /// Returns the newest version, if one was received.
    pub fn version(&self) -> Option<&EnvVersion>
        ensures { option_map (λ version. version.now) result ≡ self.now.place.version }
    {
        match &self.place.version {
            Some(version) => Some(version.get()),
            None => None,
        }
    }
}

impl Installer for Replica {
    ghost installed = { installed_by };

    fn slots(&self) -> usize {
        count_of(&self.place)
    }

    fn front(&self) -> u64 {
        self.front
    }

    fn place(&self, _slot: usize) -> &Place {
        &self.place
    }

    /// Applies the batch to the place, which is then not held, increments the front and returns it. If memory runs
    /// out, nothing changes.
    fn install(&mut self, alloc: Global, _slot: usize, batch: &Batch) -> Result<u64, Memory> {
        let version = apply(alloc, &self.place, batch)?;
        let version = Shared::new(alloc, version)?;
        self.place = Place {
            version: Some(version),
            held: false,
        };
        self.front += 1;
        Ok(self.front)
    }

    fn hold(&mut self, _slot: usize) {
        self.place.held = true;
    }

    fn install_book(&mut self, _alloc: Global, book: Book) -> Result<Option<u64>, Memory> {
        if self.book.is_same(&book) {
            return Ok(None);
        }
        self.book = book;
        self.front += 1;
        Ok(Some(self.front))
    }
}

/// Returns the number of slots, which is 1.
fn count_of(_place: &Place) -> usize
    ensures { result ≡ 1 }
{
    1
}
