//! The `Upstream` type. A command is applied in two steps, `prepare` and `commit`, or in one, `apply`.
ghost use Rattle.std.specs.Prelude.{◌≡◌, ◌≢◌, ◌≤◌, true, [], ◌∷◌, IfErr, IfOk, OnErr, OnOk, Ok, Err, length, map};
ghost use Rattle.std.specs.List.{list_all};
ghost use Rattle.std.specs.Str.{bytes_eq};
ghost use Rattle.unl_core.specs.Board.{AreDifferent, AreSlots};
ghost use Rattle.unl_delta.specs.Batch.{empty_at};
ghost use Rattle.unl_documents.specs.Results.{Gives};
ghost use Rattle.unl_documents.specs.Texts.{is_name};
ghost use Rattle.unl_upstream.specs.declared.refusal.CommandRefusal.TheVariants.{Memory as memory};
ghost use Rattle.unl_upstream.specs.Command.{IsValidCommand};
ghost use Rattle.unl_upstream.specs.History.{AreAdded, AreHistories};
ghost use Rattle.unl_upstream.specs.Upstream.{apply_command, committed, opening, opening_slot, prepared};
ghost use Rattle.unl_upstream.specs.Writing.{HasNames};

use crate::command::Command;
use crate::event::event_of;
use crate::ready::{Ready, snapshot_after};
use crate::refusal::CommandRefusal;
use std::alloc::Global;
use std::marker::Model;
use unl_compiled::Snapshot;
use unl_core::{Board, Install, Slot, install, place_in};
use unl_delta::EnvVersion;
use unl_documents::{List, Memory, Shared, Text};
use unl_tokens::Book;

/// The board that requests are answered from, with the current version of each environment, and the secret. A request
/// must send the secret as its token to give a command.
#[derive(Drop)]
pub struct Upstream {
    board: Board,
    secret: Text,
}

impl Model for Upstream {
    ghost use Rattle.unl_core.specs.Board.{AreSlots};
    ghost use Rattle.unl_upstream.specs.Upstream.{AreNamed, UpstreamState};

    ghost Value = { UpstreamState };

    ghost view = { λ up. record { board = up.board; secret = up.secret } };

    ghost invariant = { λ up. AreSlots up.board.slots × AreNamed up.board.slots };
}

impl Upstream {
    /// Creates an upstream of up to eight environments with different, valid names. Each environment is empty, at
    /// version number 0 of `epoch`. `boot` distinguishes this run of the program from others. `book` is the list of
    /// tokens that requests may use, and `secret` the token that allows a request to give commands.
    ///
    /// An upstream that lost its state must be created with a higher epoch than before. Otherwise its clients may have
    /// versions with higher numbers, and ignore the new versions.
    ///
    /// # Errors
    /// `Memory`: out of memory.
    pub fn new(
        alloc: Global,
        boot: u64,
        secret: &str,
        environments: &List<Text>,
        book: Book,
        epoch: u64,
    ) -> Result<Upstream, Memory>
        requires few { length environments.now ≤ 8 }
        requires different { AreDifferent environments.now }
        requires named { list_all is_name environments.now ≡ true }
        ensures opens { IfOk result (λ up. up ≡ opening boot secret.now environments.now book epoch) }
        ensures versions { IfOk result (AreHistories epoch []) }
    {
        Upstream::opening(alloc, boot, secret, environments, book, epoch)
    }

    /// Creates an upstream in its initial state. [`Upstream::new`] adds the clause about the histories of the versions.
    #[tactic(auto, using(crate::proofs::Slots::slots_opened, crate::proofs::Slots::named_opened))]
    fn opening(
        alloc: Global,
        boot: u64,
        secret: &str,
        environments: &List<Text>,
        book: Book,
        epoch: u64,
    ) -> Result<Upstream, Memory>
        requires few { length environments.now ≤ 8 }
        requires different { AreDifferent environments.now }
        requires named { list_all is_name environments.now ≡ true }
        ensures { IfOk result (λ up. up ≡ opening boot secret.now environments.now book epoch) }
    {
        let secret = Text::new(alloc, secret)?;
        let book = Shared::new(alloc, book)?;
        let slots = opening_slots(alloc, environments.as_slice(), epoch)?;
        let mut board = Board::new(alloc, boot, "", environments)?;
        board.slots = List::from_vec(slots);
        install(&mut board, Install::Tokens(book));
        Ok(Upstream { board, secret })
    }

    /// Returns the board with the current versions. Allocates nothing.
    pub fn board(&self) -> &Board
        ensures value { result.now ≡ self.now.board }
        ensures slots { AreSlots result.now.slots }
    {
        &self.board
    }

    /// Returns whether the token of a request is the secret.
    pub(crate) fn is_secret(&self, token: &[u8]) -> bool
        ensures { result ≡ bytes_eq token.now self.now.secret }
    {
        token == self.secret.as_str().as_bytes()
    }

    /// Applies a command and returns the new version number of its environment, one above the old. If the old version
    /// represents the history of some commands, the new version represents this history with the command added.
    ///
    /// # Errors
    /// The first variant of [`CommandRefusal`] that applies, or `Memory`: out of memory. The upstream is then
    /// unchanged.
    pub fn apply(&mut self, alloc: Global, command: &Command) -> Result<u64, CommandRefusal>
        requires { IsValidCommand command.now }
        ensures applied { IfOk result (λ number. apply_command command.now self.old ≡ Ok (record { up = self.new; number = number })) }
        ensures versions { IfOk result (λ number. AreAdded (command.now ∷ []) self.old self.new) }
        ensures refused { IfErr result (λ refusal. refusal ≢ memory → apply_command command.now self.old ≡ Err refusal) }
        ensures same { OnErr result (self.new ≡ self.old) }
    {
        self.apply_one(alloc, command)
    }

    /// Applies a command. [`Upstream::apply`] adds the clause about the histories of the versions.
    fn apply_one(&mut self, alloc: Global, command: &Command) -> Result<u64, CommandRefusal>
        requires { IsValidCommand command.now }
        ensures applied { IfOk result (λ number. apply_command command.now self.old ≡ Ok (record { up = self.new; number = number })) }
        ensures refused { IfErr result (λ refusal. refusal ≢ memory → apply_command command.now self.old ≡ Err refusal) }
        ensures same { OnErr result (self.new ≡ self.old) }
    {
        match self.prepare(alloc, command) {
            Ok(ready) => Ok(self.commit(ready)),
            Err(refusal) => Err(refusal),
        }
    }

    /// Prepares a command: computes the new version of its environment without publishing it. On success the command
    /// names an existing environment and, if it removes a feature, an existing feature, so these names are within the
    /// limits.
    ///
    /// # Errors
    /// The first variant of [`CommandRefusal`] that applies, or `Memory`: out of memory.
    #[tactic(auto, unfolding(crate::specs::Upstream::prepared), using(crate::proofs::Slots::named_at))]
    pub fn prepare(&self, alloc: Global, command: &Command) -> Result<Ready, CommandRefusal>
        requires { IsValidCommand command.now }
        ensures gives { Gives memory result (prepared command.now self.now) }
        ensures from { IfOk result (λ ready. ready.from ≡ self.now.board.slots) }
        ensures named { OnOk result (HasNames command.now) }
    {
        let environment = command.environment();
        let Some(slot) = place_in(&self.board.slots, environment) else {
            return Err(CommandRefusal::NoSuchEnvironment);
        };
        let Some(snapshot) = self.board.snapshot(environment) else {
            return Err(CommandRefusal::NoSuchEnvironment);
        };
        let event = event_of(alloc, command, snapshot.version())?;
        let number = event.number();
        let snapshot = snapshot_after(alloc, snapshot, event)?;
        Ok(Ready::at(&self.board.slots, slot, number, snapshot))
    }

    /// Publishes a prepared command and returns the new version number of its environment. The command must have been
    /// prepared from the current versions. Allocates nothing.
    #[tactic(auto, using(crate::proofs::Slots::named_after))]
    pub fn commit(&mut self, ready: Ready) -> u64
        requires { ready.from ≡ self.old.board.slots }
        ensures number { result ≡ ready.number }
        ensures committed { self.new ≡ committed ready self.old }
    {
        let number = ready.number();
        install(&mut self.board, ready.into_install());
        number
    }
}

/// Returns a slot for each environment, with an empty version at number 0 of the epoch.
fn opening_slots(alloc: Global, environments: &[Text], epoch: u64) -> Result<Vec<Slot>, Memory>
    ensures { IfOk result (λ slots. slots.items ≡ map (opening_slot epoch) environments.now) }
{
    let mut slots = Vec::new(alloc);
    for environment in environments {
        slots.push(opening_slot(alloc, environment.as_str(), epoch)?)?;
    }
    Ok(slots)
}

/// Returns the slot of an environment, with an empty version at number 0 of the epoch.
fn opening_slot(alloc: Global, environment: &str, epoch: u64) -> Result<Slot, Memory>
    ensures { IfOk result (λ slot. slot ≡ opening_slot epoch environment.now) }
{
    let environment = Text::new(alloc, environment)?;
    let snapshot = opening_snapshot(alloc, epoch)?;
    Ok(Slot {
        environment,
        snapshot: Some(snapshot),
    })
}

/// Returns an empty version at number 0 of the epoch.
fn opening_snapshot(alloc: Global, epoch: u64) -> Result<Shared<Snapshot>, Memory>
    ensures { IfOk result (λ snapshot. snapshot ≡ empty_at epoch) }
{
    let snapshot = Snapshot::build(alloc, EnvVersion::at(alloc, epoch))?;
    Shared::new(alloc, snapshot)
}
