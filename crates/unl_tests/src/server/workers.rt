//! A test of a pool whose workers run one after another, without threads: the pool serves 64 links, as many as its
//! queue holds.
ghost use Rattle.std.specs.Prelude.{◌≤◌};

use std::alloc::Global;
use std::sync::Wait;
use std::thread::Threads;
use unl_base::{CountPace, Door, Draws, Failed, Link, ListDraws, OneByOne, Sink, Source};
use unl_server::Server;
use unl_workers::{AcceptOutcome, LinkHandler, PeriodicTask, WorkerSlot, run_pool};

/// A handler that reads once from each link, and counts the links that had a byte to read.
#[derive(Drop)]
struct Counting {
    links: u64,
}

impl Server for Counting {
    ghost use Rattle.std.specs.Prelude.{⊤};

    ghost fits = { λ server. ⊤ };

    ghost keeps = { λ server after. ⊤ };

    ghost serves = { λ server coming link link_after after coming_after. ⊤ };

    fn serve_link<L: Link, R: Draws>(&mut self, _alloc: Global, link: &mut L, _draws: &mut R) {
        if link.read(&mut [0u8; 1]) == Ok(1) {
            self.links = self.links.saturating_add(1);
        }
    }

    ghost keeps_itself = { λ server. tt };

    ghost keeps_on = { λ first next last first_kept next_kept. tt };
}

impl LinkHandler for Counting {
    ghost always = { λ server. tt };
}

/// A periodic task that does nothing.
#[derive(Drop)]
struct Idle;

impl PeriodicTask for Idle {
    ghost use Rattle.std.specs.Prelude.{⊤};

    ghost turned = { λ turn after. ⊤ };

    ghost keeps = { λ turn after. ⊤ };

    fn turn(&mut self, _alloc: Global) {}

    ghost keeps_itself = { λ turn. tt };

    ghost keeps_on = { λ first next last first_kept next_kept. tt };
}

/// A link with one byte to read.
#[derive(Drop)]
struct TestLink {
    is_read: bool,
}

impl Source for TestLink {
    ghost use Rattle.std.specs.Prelude.{None};
    ghost use Rattle.unl_base.specs.Peers.{no_other_parts};

    ghost left = { λ link. None };

    ghost faults = { λ link. 0 };

    ghost other_parts = { λ link. no_other_parts };

    fn read(&mut self, _room: &mut [u8]) -> Result<usize, Failed> {
        if self.is_read {
            return Ok(0);
        }
        self.is_read = true;
        Ok(1)
    }
}

impl Sink for TestLink {
    ghost use Rattle.std.specs.Prelude.{None};
    ghost use Rattle.unl_base.specs.Peers.{no_other_parts};

    ghost sent = { λ link. None };

    ghost faults = { λ link. 0 };

    ghost other_parts = { λ link. no_other_parts };

    fn write(&mut self, piece: &[u8]) -> Result<usize, Failed> {
        Ok(piece.len())
    }
}

impl Link for TestLink {
    ghost use Rattle.std.proofs.Common.{refl};

    ghost one_count = { λ link. refl };

    ghost reads_other_parts = { λ link. refl };

    ghost writes_other_parts = { λ link. refl };
}

/// A door with 64 links, as many as a queue holds.
#[derive(Drop)]
struct TestDoor {
    ports: Vec<u16>,
    handed_out: u64,
    taken_back: u64,
    faults: u64,
    ghost in_order: { taken_back ≤ handed_out },
    ghost within: { handed_out ≤ 64 },
}

impl Door for TestDoor {
    ghost use Rattle.std.specs.Prelude.{None, nat_eq};

    type L = TestLink;

    ghost state = { λ door. record {
      ports = door.ports.items;
      closed = nat_eq door.handed_out 64;
      given = door.handed_out;
      back = door.taken_back;
      links = None;
      returned = None;
    } };

    ghost faults = { λ door. door.faults };

    fn listen(&mut self, port: u16) -> Result<(), Failed> {
        if self.ports.push(port).is_err() {
            self.faults = self.faults.saturating_add(1);
            return Err(Failed);
        }
        Ok(())
    }

    fn accept(&mut self) -> Result<Option<TestLink>, Failed> {
        if self.handed_out == 64 {
            return Ok(None);
        }
        self.handed_out += 1;
        Ok(Some(TestLink { is_read: false }))
    }

    fn give_back(&mut self, _link: TestLink) {
        self.taken_back += 1;
    }

    ghost within = { λ door. door.in_order };
}

/// Returns a worker slot whose handler has counted no link.
fn slot(alloc: Global) -> WorkerSlot<Counting, ListDraws> {
    WorkerSlot::new(Counting { links: 0 }, ListDraws::new(Vec::new(alloc)))
}

/// Returns the number of links that the handlers of all slots counted.
fn links_counted(slots: &[WorkerSlot<Counting, ListDraws>]) -> u64 {
    let mut links = 0u64;
    for slot in slots {
        links = links.saturating_add(slot.server.links);
    }
    links
}

/// Serves the links of a door with two workers, which run one after another. Returns how accepting ended, the number of
/// links that the workers counted, and the number of turns that the periodic task made. Returns `None` if out of
/// memory.
fn serve<W: Threads + Wait + Sync>(rt: &W, alloc: Global) -> Option<(AcceptOutcome, u64, u64)> {
    let slots = vec![in alloc; slot(alloc), slot(alloc)].ok()?;
    let mut door = TestDoor {
        ports: Vec::new(alloc),
        handed_out: 0,
        taken_back: 0,
        faults: 0,
    };
    if door.listen(1).is_err() {
        return None;
    }
    let mut spawner: OneByOne<&W> = OneByOne::new();
    let mut pace = CountPace::new(5);
    let done = run_pool(
        alloc,
        rt,
        &mut spawner,
        &mut door,
        &mut pace,
        &mut Idle,
        slots,
    );
    match done {
        Ok(done) => Some((
            done.accepted,
            links_counted(done.slots.as_slice()),
            done.turns,
        )),
        Err(_) => None,
    }
}

#[test]
fn one_by_one_serves_up_to_64(rt: HostRuntime) {
    let accepted = AcceptOutcome {
        links: 64,
        door: Ok(()),
    };
    assert!(rt; serve(&rt, rt.alloc()) == Some((accepted, 64, 0)));
}
