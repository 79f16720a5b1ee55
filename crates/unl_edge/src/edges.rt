//! The command `edge`: polls its upstream to keep a board up to date (the known tokens and the current version of each
//! environment), and answers requests from this board. The requests come on the links (connections) that its door (the
//! listener at a port) accepts.
ghost use Rattle.std.specs.Prelude.{◌≡◌, ◌<◌, ◌≤◌, IfOk, length, map, true};
ghost use Rattle.unl_base.specs.Faults.{Rose};
ghost use Rattle.unl_core.specs.Board.{AreSlots};
ghost use Rattle.unl_edge.specs.Edges.{EdgeEnds, EdgeRuns};
ghost use Rattle.unl_edge.specs.Scene.{ChangesForEdge, ServingFailed};
ghost use Rattle.unl_edge.specs.EdgeServices.{begun_board, duty_of, opened, service_at};
ghost use Rattle.unl_edge.specs.Status.{Caused, serving_status};
ghost use Rattle.unl_words.specs.Lists.{are_upstream_tokens, environment_of};
ghost use Rattle.unl_words.specs.Ranges.{IsEdge};

use crate::edge_service::serve_service;
use crate::world::World;
use std::alloc::Global;
use std::sync::Wait;
use unl_base::{Door, Draws, Failed, Pace, Peer, Sink, Source, Spawner};
use unl_core::Board;
use unl_documents::{List, Memory, Text};
use unl_keeper::KeepMaker;
use unl_refresh::Poller;
use unl_upstream::{ServingEnd, print_connections};
use unl_words::{EdgeArguments, token_environments};
use unl_workers::PoolFault;

/// Runs an edge until its door is closed or fails, and returns how the run ended. The boot number of the board, which
/// distinguishes this run of the program from others, is a random word. The door listens, and the upstream is polled
/// once. Then the workers serve the links of the door concurrently, while the upstream is polled again at each turn of
/// `world.pace`. If the door fails, the links that it handed out before are still served. If the door is closed, the
/// number of links is printed.
pub fn run_edge<I: Source, O: Sink, D: Door, P, R, T, S: Spawner, Q: KeepMaker, W: Wait + Sync>(
    alloc: Global,
    words: &EdgeArguments,
    world: &mut World<I, O, D, P, R, T, S, Q, W>,
) -> ServingEnd
where
    D::L: Drop + Send,
    P: Peer + Send,
    R: Draws + Drop + Send,
    T: Pace + Send,
    requires { IsEdge words.now }
    ensures runs { EdgeRuns words.now result world.old world.new }
    ensures frame { ChangesForEdge world.old world.new }
    ensures caused { Caused (serving_status result) ⊥ (Rose world.old.output.faults world.new.output.faults)
        (ServingFailed world.old world.new) ⊥ }
{
    let boot = world.draws.draw().word;
    match begin_service(alloc, boot, words) {
        Ok((board, poller)) => serve_links(alloc, words.port, words.workers, board, poller, world),
        Err(Memory) => ServingEnd::OutOfMemory,
    }
}

/// Creates a board with an empty slot (an environment without a version) for each of the upstream's tokens, and the
/// poller that keeps the board up to date. Fails only if out of memory.
#[tactic(auto, using(crate::proofs::Fitting::address_fits, crate::proofs::Fitting::tokens_fit, crate::proofs::Fitting::opened_places))]
fn begin_service(alloc: Global, boot: u64, words: &EdgeArguments) -> Result<(Board, Poller), Memory>
    requires { IsEdge words.now }
    ensures slots { IfOk result (λ service. AreSlots service.0.slots) }
    ensures board { IfOk result (λ service. service.0 ≡ begun_board boot words.now.host words.now.upstream_tokens) }
    ensures poller { IfOk result (λ service. service.1 ≡ duty_of words.now) }
    ensures places { IfOk result (λ service. service.1.slots ≡ length (opened service.0).places) }
{
    let environments = token_environments(alloc, &words.upstream_tokens)?;
    let board = board_of(
        alloc,
        boot,
        &words.upstream_tokens,
        &environments,
        &words.host,
    )?;
    let poller = Poller::new(
        alloc,
        &words.upstream,
        &words.upstream_tokens,
        &environments,
        &words.tokens,
        words.delta,
    )?;
    Ok((board, poller))
}

/// Creates a board with an empty slot for each of `environments`, those of the upstream's tokens. Fails only if out of
/// memory.
#[tactic(auto, using(crate::proofs::Fitting::few_tokens, crate::proofs::Fitting::names_differ))]
fn board_of(
    alloc: Global,
    boot: u64,
    upstream_tokens: &List<Text>,
    environments: &List<Text>,
    host: &Text,
) -> Result<Board, Memory>
    requires tokens { are_upstream_tokens upstream_tokens.now ≡ true }
    requires environments { environments.now ≡ map environment_of upstream_tokens.now }
    ensures slots { IfOk result (λ board. AreSlots board.slots) }
    ensures board { IfOk result (λ board. board ≡ begun_board boot host.now upstream_tokens.now) }
{
    Board::new(alloc, boot, host.as_str(), environments)
}

/// Listens at a port, and serves the links of the door until the door is closed or fails. If it was closed, prints the
/// number of links.
fn serve_links<I: Source, O: Sink, D: Door, P, R, T, S: Spawner, Q: KeepMaker, W: Wait + Sync>(
    alloc: Global,
    port: u16,
    workers: u32,
    board: Board,
    poller: Poller,
    world: &mut World<I, O, D, P, R, T, S, Q, W>,
) -> ServingEnd
where
    D::L: Drop + Send,
    P: Peer + Send,
    R: Draws + Drop + Send,
    T: Pace + Send,
    requires workers { (0 < workers) × (workers ≤ 16) }
    requires slots { AreSlots board.slots }
    requires slot_pollers { poller.slots ≡ length (opened board).places }
    ensures ends { EdgeEnds (service_at poller board workers) port result world.old world.new }
    ensures frame { ChangesForEdge world.old world.new }
    ensures caused { Caused (serving_status result) ⊥ (Rose world.old.output.faults world.new.output.faults)
        (ServingFailed world.old world.new) ⊥ }
{
    if world.door.listen(port).is_err() {
        return ServingEnd::DoorFault;
    }
    match serve_service(
        alloc,
        &world.rt,
        workers,
        board,
        poller,
        &mut world.door,
        &mut world.peer,
        &mut world.draws,
        &mut world.pace,
        &mut world.spawner,
    ) {
        Ok(accepted) => match accepted.door {
            Ok(()) => ServingEnd::of_line(print_connections(
                alloc,
                &mut world.output,
                accepted.links,
            )),
            Err(Failed) => ServingEnd::DoorFault,
        },
        Err(PoolFault::Spawner) => ServingEnd::DoorFault,
        Err(PoolFault::Memory) => ServingEnd::OutOfMemory,
    }
}
