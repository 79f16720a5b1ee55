//! Test doubles for the program's endpoints. Three of them count events in shared counters: links (connections), a door
//! (which hands out links) and a pace (which decides when the server is polled again). A fourth creates keepers (stores
//! of an upstream's commands) that fail.
ghost use Rattle.std.specs.Prelude.{◌≡◌, ◌≤◌};

use std::alloc::Global;
use std::io::Read;
use std::sync::atomic::{AtomicU64, Ordering};
use unl_base::{Door, Failed, Link, Pace, Sink, Source};
use unl_documents::List;
use unl_keeper::{KeepFail, KeepMaker, KeepRefusal, MemoryKeeper};

/// How often each of these events happened in a run.
#[derive(Drop)]
pub(crate) struct Events {
    /// The pace was asked for its next turn, so the turn before has ended.
    turns: AtomicU64,
    /// The next answer of a link's script was sent on that link, whole.
    answers: AtomicU64,
    /// Something else was sent on a link.
    wrong: AtomicU64,
    /// The door took back a link.
    returned: AtomicU64,
}

impl Events {
    /// Creates counters that are all 0.
    pub(crate) fn new() -> Events {
        Events {
            turns: AtomicU64::new(0),
            answers: AtomicU64::new(0),
            wrong: AtomicU64::new(0),
            returned: AtomicU64::new(0),
        }
    }

    /// Waits until this many turns have ended and this many answers were sent. Returns false if this has not happened
    /// after 1,000,000,000 checks.
    fn wait_for(&self, turns: u64, answers: u64) -> bool {
        for _ in 0..1_000_000_000u64 {
            if turns <= count_of(&self.turns) && answers <= count_of(&self.answers) {
                return true;
            }
        }
        false
    }

    /// Returns the number of correct answers sent on links, of wrong ones, and of links that the door took back.
    pub(crate) fn of_links(&self) -> (u64, u64, u64) {
        (
            count_of(&self.answers),
            count_of(&self.wrong),
            count_of(&self.returned),
        )
    }
}

/// Counts an event.
fn add_one(event: &AtomicU64) {
    event.fetch_add(1, Ordering::SeqCst);
}

/// Returns how often an event happened.
fn count_of(event: &AtomicU64) -> u64 {
    event.load(Ordering::SeqCst)
}

/// Bytes that a link receives after this many turns and answers.
#[derive(Clone, Copy)]
pub(crate) struct Arrival {
    /// The number of turns that must have ended.
    pub turns: u64,
    /// The number of correct answers that must have been sent, on all links together.
    pub answers: u64,
    /// The bytes.
    pub bytes: &'static str,
}

/// What a client sends on a link, and the answers that must be sent to the client.
#[derive(Clone, Copy)]
pub(crate) struct Script {
    /// What the client sends, in order.
    pub arrivals: &'static [Arrival],
    /// The answers, in order.
    pub answers: &'static [&'static str],
}

/// A link that follows a script. A read fails if the turns and answers that it waits for don't happen in time
/// ([`Events::wait_for`]).
#[derive(Drop)]
pub(crate) struct TestLink<'a> {
    arrivals: &'static [Arrival],
    arrived: &'static [u8],
    answers: &'static [&'static str],
    sent: usize,
    events: &'a Events,
    faults: u64,
}

impl<'a> TestLink<'a> {
    fn new(script: &Script, events: &'a Events) -> TestLink<'a>
        ensures { result.faults ≡ 0 }
    {
        TestLink {
            arrivals: script.arrivals,
            arrived: b"",
            answers: script.answers,
            sent: 0,
            events,
            faults: 0,
        }
    }
}

impl Source for TestLink<'_> {
    ghost use Rattle.std.specs.Prelude.{None};
    ghost use Rattle.unl_base.specs.Peers.{no_other_parts};

    ghost left = { λ link. None };

    ghost faults = { λ link. link.faults };

    ghost other_parts = { λ link. no_other_parts };

    fn read(&mut self, room: &mut [u8]) -> Result<usize, Failed> {
        if self.arrived.is_empty() {
            let Some((arrival, others)) = self.arrivals.split_first() else {
                return Ok(0);
            };
            if !self.events.wait_for(arrival.turns, arrival.answers) {
                self.faults = self.faults.saturating_add(1);
                return Err(Failed);
            }
            self.arrived = arrival.bytes.as_bytes();
            self.arrivals = others;
        }
        match self.arrived.read(room) {
            Ok(count) => Ok(count),
            Err(_) => {
                self.faults = self.faults.saturating_add(1);
                Err(Failed)
            }
        }
    }
}

/// Returns whether these are the bytes of a text.
fn is_text(bytes: &[u8], text: &str) -> bool {
    bytes == text.as_bytes()
}

impl Sink for TestLink<'_> {
    ghost use Rattle.std.specs.Prelude.{None};
    ghost use Rattle.unl_base.specs.Peers.{no_other_parts};

    ghost sent = { λ link. None };

    ghost faults = { λ link. link.faults };

    ghost other_parts = { λ link. no_other_parts };

    /// Takes all of `piece`. A piece that is exactly the next answer of the script is counted as an answer, and any
    /// other piece as wrong.
    fn write(&mut self, piece: &[u8]) -> Result<usize, Failed> {
        match self.answers.get(self.sent) {
            Some(answer) if is_text(piece, answer) => {
                self.sent = self.sent.saturating_add(1);
                add_one(&self.events.answers);
            }
            _ => add_one(&self.events.wrong),
        }
        Ok(piece.len())
    }
}

impl Link for TestLink<'_> {
    ghost use Rattle.std.proofs.Common.{refl};

    ghost one_count = { λ link. refl };

    ghost reads_other_parts = { λ link. refl };

    ghost writes_other_parts = { λ link. refl };
}

/// What a door does after its last link.
#[derive(Clone, Copy)]
pub(crate) enum AfterLinks {
    /// It closes once this many turns have ended. It fails if they don't end in time ([`Events::wait_for`]).
    Closes(u64),
    /// It fails.
    Fails,
}

/// A door that hands out one link for each of `scripts`, in order, and then does what `after` says.
#[derive(Drop)]
pub(crate) struct TestDoor<'a> {
    ports: Vec<u16>,
    scripts: &'static [Script],
    after: AfterLinks,
    events: &'a Events,
    given: u64,
    back: u64,
    faults: u64,
    ghost in_order: { back ≤ given },
}

impl<'a> TestDoor<'a> {
    /// Creates a door that listens at no port yet.
    pub(crate) fn new(
        alloc: Global,
        scripts: &'static [Script],
        after: AfterLinks,
        events: &'a Events,
    ) -> TestDoor<'a> {
        TestDoor {
            ports: Vec::new(alloc),
            scripts,
            after,
            events,
            given: 0,
            back: 0,
            faults: 0,
        }
    }
}

impl<'a> Door for TestDoor<'a> {
    ghost use Rattle.std.specs.Prelude.{None, length, nat_eq};

    type L = TestLink<'a>;

    ghost state = { λ door. record {
      ports = door.ports.items;
      closed = nat_eq (length door.scripts.now) 0;
      given = door.given;
      back = door.back;
      links = None;
      returned = None;
    } };

    ghost faults = { λ door. door.faults };

    fn listen(&mut self, port: u16) -> Result<(), Failed> {
        if self.ports.push(port).is_err() {
            self.faults = self.faults.saturating_add(1);
            return Err(Failed);
        }
        Ok(())
    }

    fn accept(&mut self) -> Result<Option<TestLink<'a>>, Failed> {
        let Some((script, others)) = self.scripts.split_first() else {
            return match self.after {
                AfterLinks::Closes(turns) if self.events.wait_for(turns, 0) => Ok(None),
                _ => {
                    self.faults = self.faults.saturating_add(1);
                    Err(Failed)
                }
            };
        };
        let Some(given) = self.given.checked_add(1) else {
            self.faults = self.faults.saturating_add(1);
            return Err(Failed);
        };
        self.given = given;
        self.scripts = others;
        Ok(Some(TestLink::new(script, self.events)))
    }

    fn give_back(&mut self, _link: TestLink<'a>) {
        self.back += 1;
        add_one(&self.events.returned);
    }

    ghost within = { λ door. door.in_order };
}

/// A pace with one turn for each item of `turns`. A turn starts once as many answers were sent as its item says, on all
/// links together, or if [`Events::wait_for`] gives up. Each call of `more`, including the first and the last, adds 1
/// to the count of ended turns: the first call ends the first poll, which doesn't wait for the pace.
#[derive(Drop)]
pub(crate) struct TestPace<'a> {
    turns: &'static [u64],
    events: &'a Events,
}

impl<'a> TestPace<'a> {
    /// Creates a pace with these turns.
    pub(crate) fn new(turns: &'static [u64], events: &'a Events) -> TestPace<'a> {
        TestPace { turns, events }
    }
}

impl Pace for TestPace<'_> {
    ghost use Rattle.std.specs.Prelude.{Some, length};

    ghost turns = { λ pace. Some (length pace.turns.now) };

    fn more(&mut self) -> bool {
        add_one(&self.events.turns);
        let Some((answers, others)) = self.turns.split_first() else {
            return false;
        };
        self.turns = others;
        let _ = self.events.wait_for(0, *answers);
        true
    }
}

/// How the keeper of an upstream fails.
#[derive(Clone, Copy)]
pub(crate) enum Keeping {
    /// Creating it fails.
    Unmade,
    /// The call of this number fails. The keeper's calls of `open`, `put` and `read` are numbered together, from 0. If
    /// there is no such call, none fails.
    FailsAt(u64),
}

/// A maker of keepers in memory. In contracts its fault count is always the maximum of `u64`. A saturated count always
/// counts as risen, so `make` need not count its failures.
#[derive(Drop)]
pub(crate) struct TestMaker {
    /// How the keepers that it creates fail.
    pub keeping: Keeping,
}

impl KeepMaker for TestMaker {
    ghost use Rattle.std.specs.Prelude.{None, ◌-◌, ◌^◌};

    type K = MemoryKeeper;

    ghost state = { λ maker. record { held = None; faults = 2 ^ 64 - 1 } };

    fn make(&mut self, alloc: Global) -> Result<MemoryKeeper, KeepRefusal> {
        let Keeping::FailsAt(call) = self.keeping else {
            return Err(KeepRefusal::Fault);
        };
        let fail = KeepFail {
            call,
            leaves: false,
        };
        match vec![in alloc; fail] {
            Ok(failing) => Ok(MemoryKeeper::new(alloc, List::from_vec(failing))),
            Err(_) => Err(KeepRefusal::Memory),
        }
    }

    fn back(&mut self, _keeper: MemoryKeeper) {}
}
