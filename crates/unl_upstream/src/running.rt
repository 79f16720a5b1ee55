//! Runs an upstream: reopens it on a keeper (the store of its commands), takes the commands in the lines of an input,
//! and then serves the links of a door.
ghost use Rattle.std.specs.Prelude.{◌≡◌, ◌≢◌, true};
ghost use Rattle.unl_base.specs.Faults.{Rose};
ghost use Rattle.unl_upstream.specs.Ends.{EndCaused};
ghost use Rattle.unl_upstream.specs.Kept.{kept_state};
ghost use Rattle.unl_upstream.specs.Reopening.{IsOpening};
ghost use Rattle.unl_upstream.specs.Running.{KeeperEnd, LinesEnd, UpstreamLinksEnd, upstream_facing};

use crate::command_intake::CommandIntake;
use crate::ends::{ServingEnd, UpstreamEnd};
use crate::keeping_door::serve_kept_door;
use crate::printing::{print_connections, say_row};
use crate::reopening::{ReopenFault, reopen};
use crate::upstream::Upstream;
use std::alloc::Global;
use std::sync::Wait;
use unl_base::{Door, Draws, Sink, Source};
use unl_input::{LinesFault, WriteLineFault, process_lines};
use unl_keeper::Keeper;

/// Reopens an upstream on its keeper, applies and keeps the commands in the input's lines, and then listens at the
/// port, serves the links of the door until it is closed, and prints their count. Stops at the first failure. If a row
/// of the keeper is missing or isn't an accepted command, prints the number of the row and stops. Returns how the
/// upstream ended, and the keeper.
pub fn run_reopened<K: Keeper, I: Source, O: Sink, D: Door, R: Draws, W: Wait>(
    rt: &W,
    alloc: Global,
    port: u16,
    mut up: Upstream,
    mut keeper: K,
    input: &mut I,
    output: &mut O,
    door: &mut D,
    draws: &mut R,
) -> (UpstreamEnd, K)
    requires opens { IsOpening up }
    requires faultless { (K.state keeper).faults ≡ 0 }
    ensures ends { KeeperEnd (kept_state up (K.state keeper)) port result.0 (K.state result.1)
        (I.left input.old) (I.left input.new)
        (upstream_facing (O.sent output.old) (D.state door.old) (R.coming draws.old))
        (upstream_facing (O.sent output.new) (D.state door.new) (R.coming draws.new)) }
    ensures caused { EndCaused result.0 (Rose (I.faults input.old) (I.faults input.new))
        (Rose (O.faults output.old) (O.faults output.new)) (Rose (D.faults door.old) (D.faults door.new))
        ((K.state result.1).faults ≢ 0) }
{
    match reopen(alloc, &mut up, &mut keeper) {
        Ok(_) => take_commands(rt, alloc, port, up, keeper, input, output, door, draws),
        Err(ReopenFault::BadRow(place, _)) => {
            (UpstreamEnd::Row(say_row(alloc, output, place)), keeper)
        }
        Err(ReopenFault::NoRow(place)) => (UpstreamEnd::Row(say_row(alloc, output, place)), keeper),
        Err(ReopenFault::Fault) => (UpstreamEnd::KeeperFault, keeper),
        Err(ReopenFault::Memory) => (UpstreamEnd::OutOfMemory, keeper),
    }
}

/// Applies and keeps the commands in the input's lines, and then, if all are accepted, serves the links of the door.
/// Returns how the upstream ended, and the keeper.
fn take_commands<K: Keeper, I: Source, O: Sink, D: Door, R: Draws, W: Wait>(
    rt: &W,
    alloc: Global,
    port: u16,
    up: Upstream,
    keeper: K,
    input: &mut I,
    output: &mut O,
    door: &mut D,
    draws: &mut R,
) -> (UpstreamEnd, K)
    requires opened { (K.state keeper).opened ≡ true }
    requires faultless { (K.state keeper).faults ≡ 0 }
    ensures ends { LinesEnd (kept_state up (K.state keeper)) port result.0 (K.state result.1)
        (I.left input.old) (I.left input.new)
        (upstream_facing (O.sent output.old) (D.state door.old) (R.coming draws.old))
        (upstream_facing (O.sent output.new) (D.state door.new) (R.coming draws.new)) }
    ensures caused { EndCaused result.0 (Rose (I.faults input.old) (I.faults input.new))
        (Rose (O.faults output.old) (O.faults output.new)) (Rose (D.faults door.old) (D.faults door.new))
        ((K.state result.1).faults ≢ 0) }
{
    let mut kept = CommandIntake {
        up,
        keeper,
        failed: false,
    };
    let processed = process_lines::<CommandIntake<K>, I, O>(alloc, &mut kept, input, output);
    let CommandIntake {
        mut up,
        mut keeper,
        failed,
    } = kept;
    match processed {
        Ok(()) => {
            let end = serve_links(rt, alloc, port, &mut up, &mut keeper, output, door, draws);
            (UpstreamEnd::Links(end), keeper)
        }
        Err(LinesFault::Memory) if failed => (UpstreamEnd::KeeperFault, keeper),
        Err(fault) => (UpstreamEnd::Lines(fault), keeper),
    }
}

/// Listens at a port, serves the links of the door until it is closed, and prints how many links were served.
fn serve_links<K: Keeper, O: Sink, D: Door, R: Draws, W: Wait>(
    rt: &W,
    alloc: Global,
    port: u16,
    up: &mut Upstream,
    keeper: &mut K,
    output: &mut O,
    door: &mut D,
    draws: &mut R,
) -> ServingEnd
    requires { (K.state keeper.old).opened ≡ true }
    ensures ends { UpstreamLinksEnd (kept_state up.old (K.state keeper.old)) port result (kept_state up.new (K.state keeper.new))
        (upstream_facing (O.sent output.old) (D.state door.old) (R.coming draws.old))
        (upstream_facing (O.sent output.new) (D.state door.new) (R.coming draws.new)) }
    ensures caused { EndCaused (UpstreamEnd.Links result) ⊥ (Rose (O.faults output.old) (O.faults output.new))
        (Rose (D.faults door.old) (D.faults door.new)) ⊥ }
{
    if door.listen(port).is_err() {
        return ServingEnd::DoorFault;
    }
    match serve_kept_door(rt, alloc, up, keeper, door, draws) {
        Ok(served) => match print_connections(alloc, output, served) {
            Ok(()) => ServingEnd::Closed,
            Err(WriteLineFault::WriteFault) => ServingEnd::WriteFault,
            Err(WriteLineFault::Memory) => ServingEnd::OutOfMemory,
        },
        Err(_) => ServingEnd::DoorFault,
    }
}
