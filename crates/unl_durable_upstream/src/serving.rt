//! Creates an upstream from the options, reopens it from its keeper, and serves the links of a door with it.
ghost use Rattle.std.specs.Prelude.{◌≡◌, true, Err, IfOk, OnErr};
ghost use Rattle.unl_base.specs.Faults.{Rose};
ghost use Rattle.unl_durable_upstream.specs.Beginning.{upstream_of};
ghost use Rattle.unl_durable_upstream.specs.Serving.{ReopeningEnds, LinksEnd, facing};
ghost use Rattle.unl_durable_upstream.specs.declared.fault.ProgramFault.TheVariants.{Door as door_fault, Keeper as keeper_fault};
ghost use Rattle.unl_upstream.specs.Kept.{kept_state};
ghost use Rattle.unl_upstream.specs.Reopening.{IsOpening};
ghost use Rattle.unl_words.specs.Ranges.{IsUpstream};

use crate::fault::ProgramFault;
use std::alloc::Global;
use std::sync::Wait;
use unl_base::{Door, Draws, Failed};
use unl_documents::Memory;
use unl_keeper::Keeper;
use unl_upstream::{ReopenFault, Upstream, reopen, serve_kept_door};
use unl_usage::report_commands;
use unl_words::{UpstreamArguments, own_book};

/// Creates an upstream from its options and the boot number `boot`, which distinguishes this run of the program from
/// others. The new upstream has applied no command.
///
/// # Errors
/// Out of memory.
pub fn begin(alloc: Global, boot: u64, options: &UpstreamArguments) -> Result<Upstream, Memory>
    requires { IsUpstream options.now }
    ensures opens { IfOk result IsOpening }
    ensures begins { IfOk result (λ up. up ≡ upstream_of boot options.now) }
{
    let book = own_book(alloc, &options.client_tokens, &options.frontend_tokens)?;
    let secret = options.secret.as_str();
    let up = Upstream::new(
        alloc,
        boot,
        secret,
        &options.environments,
        book,
        options.epoch,
    )?;
    Ok(up)
}

/// Reopens an upstream from the rows of its keeper, prints their number and the epoch to standard error, listens on a
/// port, and serves the links of the door one after another until the door is closed. Each command is kept before it is
/// acknowledged. Returns how many links were served.
///
/// # Errors
/// `Row`: a row of the keeper is missing, holds no command, or its command is refused. `Keeper`: the keeper failed
/// while the upstream was reopened. `Memory`: out of memory while the upstream was reopened. `Door`: the door could not
/// listen on the port, or could not hand out a link. A keeper that fails while links are served does not end serving.
pub fn serve_reopened<K: Keeper, D: Door, R: Draws, W: Wait + Eprint>(
    rt: &W,
    alloc: Global,
    port: u16,
    epoch: u64,
    up: &mut Upstream,
    keeper: &mut K,
    door: &mut D,
    draws: &mut R,
) -> Result<u64, ProgramFault>
    requires { IsOpening up.old }
    ensures ends { ReopeningEnds (kept_state up.old (K.state keeper.old)) port result (kept_state up.new (K.state keeper.new))
        (facing (D.state door.old) (R.coming draws.old)) (facing (D.state door.new) (R.coming draws.new)) }
    ensures keeper { result ≡ Err keeper_fault → Rose (K.state keeper.old).faults (K.state keeper.new).faults }
    ensures door { result ≡ Err door_fault → Rose (D.faults door.old) (D.faults door.new) }
{
    match reopen(alloc, up, keeper) {
        Ok(count) => {
            report_commands(rt, count, epoch);
            match serve_links(rt, alloc, port, up, keeper, door, draws) {
                Ok(served) => Ok(served),
                Err(_) => Err(ProgramFault::Door),
            }
        }
        Err(ReopenFault::BadRow(place, _)) => Err(ProgramFault::Row(place)),
        Err(ReopenFault::NoRow(place)) => Err(ProgramFault::Row(place)),
        Err(ReopenFault::Fault) => Err(ProgramFault::Keeper),
        Err(ReopenFault::Memory) => Err(ProgramFault::Memory),
    }
}

/// Listens on a port, serves the links of the door one after another until the door is closed, and returns how many
/// were served. The keeper must be open.
///
/// # Errors
/// `Failed`: the door could not listen on the port, or could not hand out a link, and incremented its fault count.
#[tactic(auto, using(unl_base::proofs::Listening::listens_after))]
fn serve_links<K: Keeper, D: Door, R: Draws, W: Wait>(
    rt: &W,
    alloc: Global,
    port: u16,
    up: &mut Upstream,
    keeper: &mut K,
    door: &mut D,
    draws: &mut R,
) -> Result<u64, Failed>
    requires { (K.state keeper.old).opened ≡ true }
    ensures ends { LinksEnd (kept_state up.old (K.state keeper.old)) port result (kept_state up.new (K.state keeper.new))
        (facing (D.state door.old) (R.coming draws.old)) (facing (D.state door.new) (R.coming draws.new)) }
    ensures cause { OnErr result (Rose (D.faults door.old) (D.faults door.new)) }
{
    if door.listen(port).is_err() {
        return Err(Failed);
    }
    serve_kept_door(rt, alloc, up, keeper, door, draws)
}
