//! The writer of a board, which publishes installs. An install is one change of the board.
ghost use Rattle.std.specs.Prelude.{◌≡◌, ◌-◌, ◌^◌, ◌<◌, List, true, false, length, IfOk, IfNone, IfSome, IsErr, OnErr, OnOk};
ghost use Rattle.std.specs.Prelude.{OnSome};
ghost use Rattle.unl_core.specs.declared.board.Install.TheVariants.{Env, Tokens};
ghost use Rattle.unl_delta.specs.declared.batch.Verdict.TheVariants.{Apply};
ghost use Rattle.unl_delta.specs.Batch.{verdict_of};
ghost use Rattle.unl_delta.specs.History.{Era, PreservesLines, IsLine, IsSent};
ghost use Rattle.unl_delta.specs.Installing.{after_hold, after_install, place_of, IsBookInstalled};
ghost use Rattle.unl_delta.specs.Valid.{IsValidBatch};
ghost use Rattle.unl_delta.specs.View.{Sees};
ghost use Rattle.unl_core.specs.Board.{AreSlots};
ghost use Rattle.unl_edge_state.specs.Editions.{board_known};
ghost use Rattle.unl_edge_state.specs.Histories.{AlwaysRepresented};
ghost use Rattle.unl_edge_state.specs.Orderly.{KeepsOrder, KnowsOrderly, MayInstall};
ghost use Rattle.unl_edge_state.specs.Writing as writing;
ghost use Rattle.unl_edge_state.specs.Writing.{after_publish, installed_by, with_install, with_version};
ghost use Rattle.unl_edge_state.specs.Writing.{HasSlotBelow, IsWriting, LeadsTo, Stays};
ghost use Rattle.unl_publication.specs.Rule.{shared_knowledge};
ghost use Rattle.unl_publication.specs.Seen.{is_closed, reported_front, reported_list, written};

use crate::edition::Edition;
use crate::reader::Told;
use std::alloc::Global;
use std::marker::Model;
use std::sync::Wait;
use unl_compiled::Snapshot;
use unl_core::{Board, Install, snapshot_after};
use unl_delta::{Batch, Installer, Place};
use unl_documents::{Memory, Shared};
use unl_publication::{Counted, Publisher, Ruled, Writer};
use unl_tokens::Book;

/// Publishes installs on a board, and keeps the place of each slot: the slot's version, if any, and whether the slot is
/// held (only a batch that begins with a hydration, an event that contains the whole state, applies to a held slot). A
/// writer isn't `Drop`: close it with `end`.
pub struct EdgeWriter<'a, W: Wait> {
    publisher: Publisher<'a, W, Edition, Install, Ruled<Install>>,
    places: Vec<Place>,
}

impl<'a, W: Wait> Model for EdgeWriter<'a, W> {
    ghost use Rattle.unl_publication.specs.Seen.{published, stays_closed};
    ghost use Rattle.unl_edge_state.specs.Writing.{IsWriting, Writing};

    ghost Value = { Writing };

    ghost view = { λ writer. record {
      known = published writer.publisher;
      places = writer.places.items;
      closed = stays_closed writer.publisher;
    } };

    ghost invariant = { λ writer. IsWriting (published writer.publisher) writer.places.items };
}

impl<'a, W: Wait> EdgeWriter<'a, W> {
    /// Creates a writer from the writer of a publication and the places of the board's slots. The new writer waits for
    /// readers with `rt`.
    pub(crate) fn over(
        rt: &'a W,
        writer: Writer<Edition, Install, Ruled<Install>>,
        places: Vec<Place>,
    ) -> EdgeWriter<'a, W>
        requires { IsWriting (written writer) places.items }
        ensures { result ≡ record { known = written writer; places = places.items; closed = is_closed writer } }
    {
        EdgeWriter {
            publisher: Publisher::new(rt, writer),
            places,
        }
    }

    /// The published board. Doesn't allocate.
    pub fn board(&self) -> &Board
        ensures board { result.now ≡ board_known self.now.known }
        ensures slots { AreSlots result.now.slots }
    {
        self.publisher.value().board()
    }

    /// Publishes an install and returns the new front: the number of installs published so far. If the publication is
    /// orderly, a version that is installed has to result from the slot's version on the published board, if there is
    /// one, by one batch that applies. The slot of a version must exist, and fewer than 2^64 - 1 installs must have
    /// been published. Whether a slot is held doesn't change. Waits for readers that still look at an older board.
    ///
    /// # Errors
    ///
    /// `Memory` if the call runs out of memory. Nothing is published then. If the install was already appended to the
    /// log of the crate `left_right`, which shares the board with the readers, every later publication fails too.
    pub fn publish(&mut self, alloc: Global, what: Install) -> Result<u64, Memory>
        requires front { length self.old.known.installs < 2 ^ 64 - 1 }
        requires within { HasSlotBelow what (length self.old.places) }
        requires order { MayInstall self.old.known what }
        ensures published { OnOk result (self.new ≡ record (after_publish what self.old) { closed = self.new.closed }) }
        ensures front { IfOk result (λ front. front ≡ length self.new.known.installs) }
        ensures ordered { OnOk result (KeepsOrder self.new.known) }
        ensures memory { OnErr result (Stays self.old self.new) }
        ensures closed { self.old.closed ≡ true → (self.new.closed ≡ true) × IsErr result }
    {
        match what {
            Install::Tokens(book) => self.publish_book(book),
            Install::Env(slot, snapshot) => {
                let held = self.places[slot].held;
                self.publish_version(alloc, slot, snapshot, held)
            }
        }
    }

    /// Returns what one reader can learn now: the number of published installs and, if there is room for one more
    /// reader, the list of these installs. What is published and the places are unchanged. Doesn't allocate.
    pub fn tell(&mut self) -> Told
        ensures same { self.new ≡ self.old }
        ensures front { reported_front result ≡ length self.old.known.installs }
        ensures list { IfSome (reported_list result) (λ list. list ≡ shared_knowledge self.old.known) }
    {
        self.publisher.tell()
    }

    /// Proves that the published installs lead from the opening board to the writer's places and token book. A caller
    /// calls it to have this fact. Does nothing at run time.
    pub fn leads_here(&self)
        ensures { LeadsTo self.now.known.opening self.now.known.installs (installed_by self.now) }
    {
        let _ = &self.places;
    }

    /// Waits for the readers that are still looking, and ends publication. Doesn't allocate.
    pub fn end(self) {
        let EdgeWriter {
            publisher,
            places: _,
        } = self;
        publisher.end();
    }

    /// Publishes a token book. The places of the slots don't change.
    fn publish_book(&mut self, book: Shared<Book>) -> Result<u64, Memory>
        requires front { length self.old.known.installs < 2 ^ 64 - 1 }
        ensures published { OnOk result (self.new ≡ record (with_install (Tokens book) self.old) { closed = self.new.closed }) }
        ensures front { IfOk result (λ front. front ≡ length self.new.known.installs) }
        ensures ordered { OnOk result (KeepsOrder self.new.known) }
        ensures memory { OnErr result (Stays self.old self.new) }
        ensures closed { self.old.closed ≡ true → (self.new.closed ≡ true) × IsErr result }
    {
        Ok(self.publisher.publish(Install::Tokens(book))?)
    }

    /// Publishes a version at a slot, and sets whether the slot is held. In an orderly publication the version has to
    /// result from the slot's current version, if there is one, by one batch that applies.
    fn publish_version(
        &mut self,
        alloc: Global,
        slot: usize,
        snapshot: Shared<Snapshot>,
        held: bool,
    ) -> Result<u64, Memory>
        requires front { length self.old.known.installs < 2 ^ 64 - 1 }
        requires slot { slot < length self.old.places }
        requires order { MayInstall self.old.known (Env slot snapshot) }
        ensures published { OnOk result (self.new ≡ record (with_version slot snapshot held self.old) { closed = self.new.closed }) }
        ensures front { IfOk result (λ front. front ≡ length self.new.known.installs) }
        ensures ordered { OnOk result (KeepsOrder self.new.known) }
        ensures memory { OnErr result (Stays self.old self.new) }
        ensures closed { self.old.closed ≡ true → (self.new.closed ≡ true) × IsErr result }
    {
        let _ = snapshot.get().version();
        let version = snapshot.get().shared(alloc)?;
        let front = self.publisher.publish(Install::Env(slot, snapshot))?;
        self.places[slot] = Place {
            version: Some(version),
            held,
        };
        Ok(front)
    }
}

impl<W: Wait> Installer for EdgeWriter<'_, W> {
    ghost installed = { installed_by };

    ghost installs = { λ slot batch old new. new ≡ record (writing.writer_after_batch slot batch old) { closed = new.closed } };

    ghost holds = { λ slot old new. new ≡ writing.writer_after_hold slot old };

    fn slots(&self) -> usize {
        self.places.len()
    }

    fn front(&self) -> u64 {
        self.publisher.value().front()
    }

    fn place(&self, slot: usize) -> &Place {
        &self.places[slot]
    }

    fn install(&mut self, alloc: Global, slot: usize, batch: &Batch) -> Result<u64, Memory>
        requires slot { slot < length (installed_by self.old).places }
        requires front { (installed_by self.old).front < 2 ^ 64 - 1 }
        requires batch { IsValidBatch batch.now }
        requires applies { verdict_of (place_of (installed_by self.old) slot) batch.now ≡ Apply }
        ensures published { OnOk result (installed_by self.new ≡ after_install slot batch.now (installed_by self.old)) }
        ensures represents { OnOk result (PreservesLines (place_of (installed_by self.old) slot).version batch.now
            (place_of (installed_by self.new) slot).version) }
        ensures whole { OnOk result (self.new ≡ record (writing.writer_after_batch slot batch.now self.old) { closed = self.new.closed }) }
        ensures front { IfOk result (λ front. front ≡ (installed_by self.new).front) }
        ensures memory { OnErr result (installed_by self.new ≡ installed_by self.old) }
        ensures same { OnErr result (Stays self.old self.new) }
        ensures orderly { KnowsOrderly self.old.known → KnowsOrderly self.new.known }
        ensures ordered { OnOk result (KeepsOrder self.new.known) }
        ensures always_represented { (line : List Era) (sees : Sees) → IsLine line
            → AlwaysRepresented line sees slot self.old.known → IsSent line sees batch.now
            → AlwaysRepresented line sees slot self.new.known }
    {
        let slots = &self.publisher.value().board().slots;
        let snapshot = snapshot_after(alloc, slots, slot, &self.places[slot], batch)?;
        let snapshot = Shared::new(alloc, snapshot)?;
        self.publish_version(alloc, slot, snapshot, false)
    }

    fn hold(&mut self, slot: usize)
        requires { slot < length (installed_by self.old).places }
        ensures held { installed_by self.new ≡ after_hold slot (installed_by self.old) }
        ensures stays { (place_of (installed_by self.new) slot).version ≡ (place_of (installed_by self.old) slot).version }
        ensures whole { self.new ≡ writing.writer_after_hold slot self.old }
    {
        self.places[slot].held = true;
    }

    fn install_book(&mut self, alloc: Global, book: Book) -> Result<Option<u64>, Memory>
        requires { (installed_by self.old).front < 2 ^ 64 - 1 }
        ensures book { IfOk result (λ front. IsBookInstalled book (installed_by self.old) front (installed_by self.new)) }
        ensures memory { OnErr result (installed_by self.new ≡ installed_by self.old) }
        ensures repeated { IfOk result (λ front. IfNone front (self.new ≡ self.old)) }
        ensures whole { IfOk result (λ front. OnSome front
            (self.new ≡ record (with_install (Tokens book) self.old) { closed = self.new.closed })) }
        ensures same { OnErr result (Stays self.old self.new) }
        ensures orderly { KnowsOrderly self.old.known → KnowsOrderly self.new.known }
        ensures ordered { IfOk result (λ front. OnSome front (KeepsOrder self.new.known)) }
    {
        if self.publisher.value().board().book.get().is_same(&book) {
            return Ok(None);
        }
        let book = Shared::new(alloc, book)?;
        Ok(Some(self.publish_book(book)?))
    }
}
