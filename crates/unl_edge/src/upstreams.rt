//! The command `upstream`: creates an upstream and its keeper (the store of its commands), and runs the upstream. The
//! upstream first applies the commands that the keeper has stored, then takes the commands in the lines of the input,
//! and then serves the links of a door.
ghost use Rattle.std.specs.Prelude.{◌≡◌, IfOk};
ghost use Rattle.unl_edge.specs.Scene.{ChangesForUpstream};
ghost use Rattle.unl_edge.specs.Status.{IsCaused, upstream_status};
ghost use Rattle.unl_edge.specs.Upstreams.{UpstreamEnds, UpstreamRuns};
ghost use Rattle.unl_upstream.specs.Running.{IsNew};
ghost use Rattle.unl_upstream.specs.Upstream.{opening};
ghost use Rattle.unl_words.specs.OwnBook.{own_book};
ghost use Rattle.unl_words.specs.Ranges.{IsUpstream};

use crate::world::World;
use std::alloc::Global;
use std::marker::Model;
use std::sync::Wait;
use unl_base::{Door, Draws, Pace, Peer, Sink, Source, Spawner};
use unl_documents::Memory;
use unl_keeper::{KeepMaker, KeepRefusal};
use unl_upstream::{Upstream, UpstreamEnd, run_reopened};
use unl_words::{UpstreamArguments, own_book};

/// Runs an upstream, and returns how the run ended. The boot number is the random word of one draw. First the upstream
/// is reopened on a new keeper: the commands in the keeper's rows are applied. Then the upstream takes the commands in
/// the input's lines, and finally it serves the links that come to its port, one after another.
pub fn run_upstream<
    I: Source,
    O: Sink,
    D: Door,
    P: Peer,
    R: Draws,
    T: Pace,
    S: Spawner,
    Q: KeepMaker,
    W: Wait,
>(
    alloc: Global,
    words: &UpstreamArguments,
    world: &mut World<I, O, D, P, R, T, S, Q, W>,
) -> UpstreamEnd
    requires { IsUpstream words.now }
    ensures runs { UpstreamRuns words.now result world.old world.new }
    ensures frame { ChangesForUpstream world.old world.new }
    ensures caused { IsCaused (upstream_status result) world.old world.new }
{
    let boot = world.draws.draw().word;
    match begin(alloc, boot, words) {
        Ok(fresh) => run_kept(alloc, words.port, fresh, world),
        Err(Memory) => UpstreamEnd::OutOfMemory,
    }
}

/// An upstream that has taken no command.
#[derive(Drop)]
struct NewUpstream {
    up: Upstream,
}

impl Model for NewUpstream {
    ghost use Rattle.unl_upstream.specs.Running.{IsNew};
    ghost use Rattle.unl_upstream.specs.Upstream.{UpstreamState};

    ghost Value = { UpstreamState };

    ghost view = { λ fresh. fresh.up };

    ghost invariant = { λ fresh. IsNew fresh.up };
}

impl NewUpstream {
    /// Consumes the wrapper and returns the upstream, with the fact that it is new.
    fn into_upstream(self) -> Upstream
        ensures same { result ≡ self }
        ensures new { IsNew result }
    {
        self.up
    }
}

/// Creates an upstream that has taken no command. Fails only if out of memory.
fn begin(alloc: Global, boot: u64, words: &UpstreamArguments) -> Result<NewUpstream, Memory>
    requires { IsUpstream words.now }
    ensures { IfOk result (λ fresh. fresh ≡ opening boot words.now.secret words.now.environments
        (own_book words.now.client_tokens words.now.frontend_tokens) words.now.epoch) }
{
    let book = own_book(alloc, &words.client_tokens, &words.frontend_tokens)?;
    let up = Upstream::new(
        alloc,
        boot,
        words.secret.as_str(),
        &words.environments,
        book,
        words.epoch,
    )?;
    let fresh = NewUpstream { up };
    Ok(fresh)
}

/// Creates a keeper, runs an upstream with it, and returns the keeper to its maker.
fn run_kept<
    I: Source,
    O: Sink,
    D: Door,
    P: Peer,
    R: Draws,
    T: Pace,
    S: Spawner,
    Q: KeepMaker,
    W: Wait,
>(
    alloc: Global,
    port: u16,
    fresh: NewUpstream,
    world: &mut World<I, O, D, P, R, T, S, Q, W>,
) -> UpstreamEnd
    ensures ends { UpstreamEnds fresh port result world.old world.new }
    ensures frame { ChangesForUpstream world.old world.new }
    ensures caused { IsCaused (upstream_status result) world.old world.new }
{
    let up = fresh.into_upstream();
    match world.keep.make(alloc) {
        Ok(keeper) => {
            let (end, keeper) = run_reopened(
                &world.rt,
                alloc,
                port,
                up,
                keeper,
                &mut world.input,
                &mut world.output,
                &mut world.door,
                &mut world.draws,
            );
            world.keep.back(keeper);
            end
        }
        Err(KeepRefusal::Fault) => UpstreamEnd::KeeperFault,
        Err(KeepRefusal::Memory) => UpstreamEnd::OutOfMemory,
    }
}
