//! Workers. Each takes links from a queue and serves them, one after another.
ghost use Rattle.std.specs.Prelude.{◌≡◌, ◌<◌};
ghost use Rattle.crossbeam_queue.specs.Passes.{view, IsSamePass};
ghost use Rattle.unl_server.specs.Links.{link_view};
ghost use Rattle.unl_workers.specs.Passes.{IsPassOfQueue};
ghost use Rattle.unl_workers.specs.Serving.{ServesSlot, ServesMany, ServesOne, serving};
ghost use Rattle.unl_workers.specs.Taking.{ServesLink, TakesAndServes, TakesAndServesAt, with_draws};

use crate::forever::wait_forever;
use crate::{LinkQueue, QueuePass};
use std::alloc::Global;
use std::sync::Wait;
use unl_base::{Draws, Link};
use unl_server::Server;

/// A server with no precondition: it may always be passed a link.
pub trait LinkHandler: Server {
    /// The precondition of `serve_link` always holds.
    ghost always: { (server : Self) → Self.Server.fits server };
}

/// What one worker owns: a server, and a supply of draws (a time and a random word for each request).
#[derive(Drop)]
pub struct WorkerSlot<S, R> {
    /// Serves each link.
    pub server: S,
    /// The draws for the requests on these links.
    pub draws: R,
    /// The number of links served in the last run.
    pub links: u64,
}

impl<S, R> WorkerSlot<S, R> {
    /// Creates a slot that has served no link.
    pub fn new(server: S, draws: R) -> Self
        ensures { result ≡ record { server = server; draws = draws; links = 0 } }
    {
        WorkerSlot {
            server,
            draws,
            links: 0,
        }
    }
}

/// A worker, which takes links from a queue and serves them.
#[derive(Drop)]
pub(crate) struct Worker<'a, S, R, L, W> {
    pub slot: WorkerSlot<S, R>,
    pub queue: &'a LinkQueue<L>,
    pub pass: QueuePass<L>,
    pub rt: &'a W,
    pub alloc: Global,
    ghost queue_is: { IsPassOfQueue queue.now pass },
    ghost parts: { 0 < (view pass).parts },
}

/// Takes links from the queue and serves each, until the queue is closed and empty. May block.
pub(crate) fn serve_all<S: LinkHandler, R: Draws, L: Link + Drop, W: Wait>(
    worker: &mut Worker<'_, S, R, L, W>,
)
    ensures slot { ServesSlot S.serves S.keeps R.coming worker.old.slot worker.new.slot }
    ensures same { IsSamePass worker.old.pass worker.new.pass }
    ensures took { TakesAndServesAt S.serves R.coming (λ l. link_view (L.Source.left l) (L.Sink.sent l) (L.Source.faults l))
        (view worker.old.pass) worker.old.slot (view worker.new.pass) worker.new.slot }
{
    worker.slot.links = run_worker(
        worker.alloc,
        worker.rt,
        worker.queue,
        &mut worker.pass,
        &mut worker.slot.server,
        &mut worker.slot.draws,
    );
}

/// Does the work of one worker: takes links from the queue and serves each, until the queue is closed and empty.
/// Returns how many were served. May block. `pass` is the worker's right to use the queue. After 2^64 - 1 links the
/// call never returns.
pub fn run_worker<S: LinkHandler, R: Draws, L: Link + Drop, W: Wait>(
    alloc: Global,
    rt: &W,
    queue: &LinkQueue<L>,
    pass: &mut QueuePass<L>,
    server: &mut S,
    draws: &mut R,
) -> u64
    requires queue { IsPassOfQueue queue.now pass.old }
    requires parts { 0 < (view pass.old).parts }
    ensures served { ServesMany S.serves result (serving server.old (R.coming draws.old)) (serving server.new (R.coming draws.new)) }
    ensures keeps { S.keeps server.old server.new }
    ensures same { IsSamePass pass.old pass.new }
    ensures took { TakesAndServes (with_draws S.serves) (λ l. link_view (L.Source.left l) (L.Sink.sent l) (L.Source.faults l)) result 1
        (view pass.old) (serving server.old (R.coming draws.old)) (view pass.new) (serving server.new (R.coming draws.new)) }
{
    for served in 0..u64::MAX {
        match queue.take(rt, pass) {
            Some(link) => serve_one(alloc, link, server, draws),
            None => return served,
        }
    }
    wait_forever(rt)
}

/// Serves a link, and drops it.
fn serve_one<S: LinkHandler, R: Draws, L: Link + Drop>(
    alloc: Global,
    link: L,
    server: &mut S,
    draws: &mut R,
)
    ensures served { ServesOne S.serves (serving server.old (R.coming draws.old)) (serving server.new (R.coming draws.new)) }
    ensures keeps { S.keeps server.old server.new }
    ensures this { ServesLink (with_draws S.serves) (link_view (L.Source.left link) (L.Sink.sent link) (L.Source.faults link))
        (serving server.old (R.coming draws.old)) (serving server.new (R.coming draws.new)) }
{
    let mut link = link;
    server.serve_link(alloc, &mut link, draws);
}
