//! `Installer`: the trait of types that keep the current version of each slot and publish new versions.
ghost use Rattle.std.specs.Prelude.{◌≡◌, ℕ, ◌<◌, ◌^◌, ◌-◌, IfOk, OnErr, OnOk, length};
ghost use Rattle.unl_delta.specs.declared.batch.Batch.{Batch};
ghost use Rattle.unl_delta.specs.declared.batch.Verdict.TheVariants.{Apply};
ghost use Rattle.unl_delta.specs.Batch.{verdict_of};
ghost use Rattle.unl_delta.specs.History.{PreservesLines};
ghost use Rattle.unl_delta.specs.Installing.{Installed, place_of, after_install, after_hold, IsBookInstalled};
ghost use Rattle.unl_delta.specs.Valid.{IsValidBatch, IsValidPlace};

use crate::batch::Batch;
use crate::version::Place;
use std::alloc::Global;
use unl_documents::Memory;
use unl_tokens::Book;

/// Keeps a [`Place`] for each slot and a [`Book`] of tokens. Publishes each new version and each new book to readers.
/// Each slot is for one environment. The calls name a slot by its index, from 0, which must be below the number of
/// slots. A version is the state of the slot's environment, with its last events.
///
/// The front is the number of publications so far. A call changes at most the place of its slot or the book, and the
/// front. If it runs out of memory, it changes nothing.
pub trait Installer {
    /// The places, the front and the current book of the installer.
    ghost installed: { Self → Installed };

    /// An implementation can add a promise here that relates the old and the new installer after `install`. The default
    /// adds nothing.
    ghost installs: { ℕ → Batch → Self → Self → Type 0 } = { λ _ _ _ _. Unit {0} };

    /// An implementation can add a promise here that relates the old and the new installer after `hold`. The default
    /// adds nothing.
    ghost holds: { ℕ → Self → Self → Type 0 } = { λ _ _ _. Unit {0} };

    /// Returns the number of slots. Allocates nothing.
    fn slots(&self) -> usize
        ensures { result ≡ length (installed self.now).places };

    /// Returns the number of publications so far. Allocates nothing.
    fn front(&self) -> u64
        ensures { result ≡ (installed self.now).front };

    /// Returns the place of a slot. Allocates nothing.
    fn place(&self, slot: usize) -> &Place
        requires { slot < length (installed self.now).places }
        ensures place { result.now ≡ place_of (installed self.now) slot }
        ensures valid { IsValidPlace result.now };

    /// Applies a valid batch to a slot, publishes the new version and returns the new front. The slot is then not held.
    /// The verdict on the batch must be `Apply`, and the front must be below 2^64 - 1. The only error is out of memory.
    ///
    /// Clause `represents`: a line is the histories of one environment, one for each epoch. If the slot has no version
    /// or one that represents a line, and the batch was sent from that line, the new version represents the line too,
    /// and is not older. [`verdict`](crate::verdict) explains lines.
    fn install(&mut self, alloc: Global, slot: usize, batch: &Batch) -> Result<u64, Memory>
        requires slot { slot < length (installed self.old).places }
        requires front { (installed self.old).front < 2 ^ 64 - 1 }
        requires batch { IsValidBatch batch.now }
        requires applies { verdict_of (place_of (installed self.old) slot) batch.now ≡ Apply }
        ensures published { OnOk result (installed self.new ≡ after_install slot batch.now (installed self.old)) }
        ensures represents { OnOk result (PreservesLines (place_of (installed self.old) slot).version batch.now
            (place_of (installed self.new) slot).version) }
        ensures whole { OnOk result (installs slot batch.now self.old self.new) }
        ensures front { IfOk result (λ front. front ≡ (installed self.new).front) }
        ensures memory { OnErr result (installed self.new ≡ installed self.old) };

    /// Holds a slot: no changes apply there until a hydration does. The slot keeps its version. Publishes nothing and
    /// allocates nothing.
    fn hold(&mut self, slot: usize)
        requires { slot < length (installed self.old).places }
        ensures held { installed self.new ≡ after_hold slot (installed self.old) }
        ensures stays { (place_of (installed self.new) slot).version ≡ (place_of (installed self.old) slot).version }
        ensures whole { holds slot self.old self.new };

    /// Publishes a book and returns the new front. Returns `None` and publishes nothing if and only if the book equals
    /// the current book. The front must be below 2^64 - 1. The only error is out of memory.
    fn install_book(&mut self, alloc: Global, book: Book) -> Result<Option<u64>, Memory>
        requires { (installed self.old).front < 2 ^ 64 - 1 }
        ensures book { IfOk result (λ front. IsBookInstalled book (installed self.old) front (installed self.new)) }
        ensures memory { OnErr result (installed self.new ≡ installed self.old) };
}
