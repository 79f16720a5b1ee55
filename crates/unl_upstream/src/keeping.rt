//! Keeping a command: storing its text with a keeper (a store of texts in numbered rows), and then publishing the new
//! version of its environment.
ghost use Rattle.std.specs.Prelude.{◌≡◌, ◌≢◌, ◌<◌, true, [], ◌∷◌, Err, IfOk, IfErr, OnOk};
ghost use Rattle.unl_upstream.specs.Command.{IsValidCommand};
ghost use Rattle.unl_upstream.specs.Kept.{Carries, IsPending, KeepsCommand, Puts, kept_state, with_room};
ghost use Rattle.unl_upstream.specs.Upstream.{apply_command};
ghost use Rattle.unl_upstream.specs.declared.refusal.KeepCommandRefusal.TheVariants.{Memory as memory};

use crate::command::Command;
use crate::ready::Ready;
use crate::refusal::KeepCommandRefusal;
use crate::upstream::Upstream;
use crate::writing::command_text;
use std::alloc::Global;
use unl_documents::{Memory, Text};
use unl_keeper::{KeepRefusal, Keeper};

/// The maximum number of commands that a keeper keeps, chosen by this project.
const MOST_ROWS: u64 = 10_000_000;

/// An accepted command for which the keeper has room: the prepared command, and the text to store.
#[derive(Drop)]
pub(crate) struct PendingPut {
    pub ready: Ready,
    pub text: Text,
}

/// Keeps a command: prepares it, stores its text with the keeper, and only then publishes it. Returns the new version
/// number of its environment, one above the old.
///
/// # Errors
/// `NoSuchEnvironment`, `NoSuchFeature`, `NoSuchSegment` or `TooMany`: the upstream refuses the command, with the first
/// of these that applies. `KeeperFull`: none of these applies, and the keeper keeps 10,000,000 commands or more.
/// `KeeperFault`: the keeper failed and incremented its fault count. `Memory`: out of memory. On every error the
/// upstream and the kept commands are unchanged. But after `KeeperFault` the text may be in the row after the kept
/// ones. Unless a later put replaces that row, reopening the keeper restores its command too.
pub fn keep<K: Keeper>(
    alloc: Global,
    up: &mut Upstream,
    keeper: &mut K,
    command: &Command,
) -> Result<u64, KeepCommandRefusal>
    requires valid { IsValidCommand command.now }
    requires opened { (K.state keeper.old).opened ≡ true }
    ensures stays { (K.state keeper.new).opened ≡ true }
    ensures keeps { KeepsCommand command.now (kept_state up.old (K.state keeper.old)) result (kept_state up.new (K.state keeper.new)) }
    ensures carries { Carries (record { command = command.now; result = result } ∷ [])
        (kept_state up.old (K.state keeper.old)) (kept_state up.new (K.state keeper.new)) }
{
    keep_one(alloc, up, keeper, command)
}

/// Keeps a command. [`keep`] adds the clause about what every attempt to keep a command preserves.
#[tactic(auto, using(crate::proofs::Carrying::refuses))]
fn keep_one<K: Keeper>(
    alloc: Global,
    up: &mut Upstream,
    keeper: &mut K,
    command: &Command,
) -> Result<u64, KeepCommandRefusal>
    requires valid { IsValidCommand command.now }
    requires opened { (K.state keeper.old).opened ≡ true }
    ensures stays { (K.state keeper.new).opened ≡ true }
    ensures keeps { KeepsCommand command.now (kept_state up.old (K.state keeper.old)) result (kept_state up.new (K.state keeper.new)) }
{
    let pending = prepare_put(alloc, up, keeper, command)?;
    match put(alloc, up, keeper, pending) {
        Ok(number) => Ok(number),
        Err(KeepRefusal::Fault) => Err(KeepCommandRefusal::KeeperFault),
        Err(KeepRefusal::Memory) => Err(KeepCommandRefusal::Memory),
    }
}

/// Prepares a command and its text, if the keeper has room for it.
///
/// # Errors
/// As for [`keep`], except `KeeperFault`.
#[tactic(auto, using(crate::proofs::Carrying::room_left, crate::proofs::Carrying::full, crate::proofs::Carrying::refused_for))]
pub(crate) fn prepare_put<K: Keeper>(
    alloc: Global,
    up: &Upstream,
    keeper: &K,
    command: &Command,
) -> Result<PendingPut, KeepCommandRefusal>
    requires { IsValidCommand command.now }
    ensures pending { IfOk result (λ pending. IsPending command.now (kept_state up.now (K.state keeper.now)) pending.ready pending.text) }
    ensures from { IfOk result (λ pending. pending.ready.from ≡ up.now.board.slots) }
    ensures room { OnOk result ((K.state keeper.now).count < 10000000) }
    ensures refused { IfErr result (λ e. e ≢ memory → with_room (K.state keeper.now).count (apply_command command.now up.now) ≡ Err e) }
{
    let ready = up.prepare(alloc, command)?;
    let text = command_text(alloc, command)?;
    let count = keeper.count();
    if count >= MOST_ROWS {
        return Err(KeepCommandRefusal::KeeperFull(count));
    }
    Ok(PendingPut { ready, text })
}

/// Stores a command's text, then publishes the prepared command and returns the new version number. Nothing after the
/// keeper's `put` can run out of memory.
///
/// # Errors
/// The errors of the keeper's `put`. The upstream and the kept commands are then unchanged.
pub(crate) fn put<K: Keeper>(
    alloc: Global,
    up: &mut Upstream,
    keeper: &mut K,
    pending: PendingPut,
) -> Result<u64, KeepRefusal>
    requires opened { (K.state keeper.old).opened ≡ true }
    requires room { (K.state keeper.old).count < 10000000 }
    requires from { pending.ready.from ≡ up.old.board.slots }
    ensures { Puts pending.ready pending.text (kept_state up.old (K.state keeper.old)) result (kept_state up.new (K.state keeper.new)) }
{
    keeper.put(alloc, &pending.text)?;
    Ok(up.commit(pending.ready))
}
