//! Takes the commands in the lines of an upstream's input. Each accepted command is stored by the upstream's keeper (a
//! store of texts in numbered rows) before it is published.
ghost use Rattle.std.specs.Prelude.{◌≡◌};
ghost use Rattle.unl_input.specs.Taking.{TakesLine};
ghost use Rattle.unl_upstream.specs.Command.{IsValidCommand};
ghost use Rattle.unl_upstream.specs.KeptLines.{kept_one, refusal_name};

use crate::command::Command;
use crate::keeping::keep;
use crate::reading::read_command_bytes;
use crate::refusal::KeepCommandRefusal;
use crate::upstream::Upstream;
use std::alloc::Global;
use std::marker::Model;
use unl_documents::{BadDocument, Text, fault_text};
use unl_input::{LineProcessor, LineRefusal};
use unl_keeper::Keeper;

/// An upstream, the opened keeper of its commands, and whether the keeper has failed at a line.
#[derive(Drop)]
pub(crate) struct CommandIntake<K: Keeper> {
    /// The upstream, after the commands so far.
    pub up: Upstream,
    /// The opened keeper of the commands.
    pub keeper: K,
    /// Whether the keeper has failed at a line.
    pub failed: bool,
}

impl<K: Keeper> Model for CommandIntake<K> {
    ghost use Rattle.std.specs.Prelude.{◌≡◌, ◌≢◌, false, true};
    ghost use Rattle.unl_upstream.specs.KeptLines.{KeptLines, kept_lines_of};
    ghost use Rattle.unl_upstream.specs.Kept.{kept_state};

    ghost Value = { KeptLines };

    ghost view = { λ kept. kept_lines_of (kept_state kept.up (K.state kept.keeper)) };

    ghost invariant = { λ kept. ((K.state kept.keeper).opened ≡ true) × (kept.failed ≡ true → (K.state kept.keeper).faults ≢ 0)
        × (kept.failed ≡ false → (K.state kept.keeper).faults ≡ 0) };
}

/// Stores and applies the command of each line. An accepted command prints nothing. A line is refused if its
/// command can't be read or is refused; the cause is the first fault of the document or the name of the refusal. If the
/// keeper fails, `failed` is set and no further line is processed, as if memory had run out.
impl<K: Keeper> LineProcessor for CommandIntake<K> {
    ghost use Rattle.unl_upstream.specs.KeptLines.{kept_line};

    type Desk = CommandIntake<K>;

    ghost line_result = { λ number kept_lines line. kept_line kept_lines line };

    ghost fits = { λ number kept_lines. Unit {0} };

    #[tactic(auto, unfolding(crate::specs::KeptLines::kept_line))]
    fn take(
        alloc: Global,
        desk: &mut CommandIntake<K>,
        _number: u64,
        line: &[u8],
    ) -> Result<Vec<u8>, LineRefusal> {
        match read_command_bytes(alloc, line) {
            Ok(command) => take_command(alloc, desk, &command),
            Err(BadDocument::Memory) => Err(LineRefusal::Memory),
            Err(fault) => Err(LineRefusal::Cause(Text::from(fault_text(alloc, &fault)?))),
        }
    }
}

/// Keeps the command of a line. Returns an empty text to print, or why the line is refused. If the keeper failed, sets
/// `failed` and returns `Memory`, which ends the processing.
fn take_command<K: Keeper>(
    alloc: Global,
    kept: &mut CommandIntake<K>,
    command: &Command,
) -> Result<Vec<u8>, LineRefusal>
    requires { IsValidCommand command.now }
    ensures { TakesLine result kept.new (kept_one command.now kept.old) }
{
    match keep(alloc, &mut kept.up, &mut kept.keeper, command) {
        Ok(_) => Ok(Vec::new(alloc)),
        Err(KeepCommandRefusal::KeeperFault) => {
            kept.failed = true;
            Err(LineRefusal::Memory)
        }
        Err(KeepCommandRefusal::Memory) => Err(LineRefusal::Memory),
        Err(refusal) => Err(LineRefusal::Cause(Text::new(alloc, name_of(refusal))?)),
    }
}

/// Returns the name of a refusal. It is empty for `KeeperFault` and `Memory`: they end the processing, and no line is
/// refused because of them.
fn name_of(refusal: KeepCommandRefusal) -> &'static str
    ensures { result.now ≡ refusal_name refusal }
{
    match refusal {
        KeepCommandRefusal::NoSuchEnvironment => "NoSuchEnvironment",
        KeepCommandRefusal::NoSuchFeature => "NoSuchFeature",
        KeepCommandRefusal::NoSuchSegment => "NoSuchSegment",
        KeepCommandRefusal::TooMany(_) => "TooMany",
        KeepCommandRefusal::KeeperFull(_) => "KeeperFull",
        KeepCommandRefusal::KeeperFault => "",
        KeepCommandRefusal::Memory => "",
    }
}
