//! Runs of the program over endpoints in memory, and the comparison of how a run ended with how it must end.
use crate::run::run;
use crate::tests::outside::{AfterLinks, Events, Keeping, Script, TestDoor, TestMaker, TestPace};
use crate::world::World;
use std::alloc::Global;
use std::sync::Wait;
use std::thread::Threads;
use unl_base::{Door, ListDraws, MemoryPeer, MemorySink, MemorySource, Pace, RealSpawner};

/// A run: its arguments, what its endpoints do, and how it must end.
#[derive(Clone, Copy)]
pub(crate) struct Case {
    /// The name that a failed test prints.
    pub name: &'static str,
    /// The arguments, separated by single spaces.
    pub arguments: &'static str,
    /// The bytes of standard input.
    pub input: &'static str,
    /// The links that the door hands out, in order.
    pub links: &'static [Script],
    /// What the door does after its last link.
    pub after_links: AfterLinks,
    /// What the upstream replies on each of its connections, in order. On further connections it replies nothing.
    pub upstream: &'static [&'static str],
    /// The calls of the peer that fail. Its calls of `connect`, `read` and `write` are numbered together, from 0.
    pub failing_calls: &'static [u64],
    /// One item for each poll of the upstream after the first. The poll starts when this number of answers was sent, on
    /// all links together.
    pub turns: &'static [u64],
    /// How the keeper that stores the commands of an upstream fails.
    pub keeping: Keeping,
    /// The exit code.
    pub code: u8,
    /// The bytes that are written to standard output.
    pub printed: &'static str,
    /// The number of correct answers that are sent, on all links together. No other answer may be sent.
    pub answers: u64,
    /// The number of links that are given back to the door after they are served. An edge gives none back.
    pub returned: u64,
}

/// The values of the fields that a case leaves out: no input, links, replies, turns or failures; exit code 0.
pub(crate) const CASE: Case = Case {
    name: "",
    arguments: "",
    input: "",
    links: &[],
    after_links: AfterLinks::Closes(0),
    upstream: &[],
    failing_calls: &[],
    turns: &[],
    keeping: Keeping::FailsAt(u64::MAX),
    code: 0,
    printed: "",
    answers: 0,
    returned: 0,
};

/// How a run ended: the exit code, what was printed, and three counts: the correct answers that were sent on links, the
/// wrong ones, and the links that were given back to the door.
#[derive(Debug, Drop)]
pub(crate) struct Ending {
    code: u8,
    printed: String,
    links: (u64, u64, u64),
}

/// Returns whether a run ended as its case says, without a wrong answer. Returns false if there is no ending.
pub(crate) fn is_as_said(ending: &Option<Ending>, case: &Case) -> bool {
    match ending {
        Some(ending) => {
            ending.code == case.code
                && ending.printed.as_str() == case.printed
                && ending.links == (case.answers, 0, case.returned)
        }
        None => false,
    }
}

/// Runs a case. Returns `None` if out of memory, or if what was printed isn't UTF-8.
pub(crate) fn ran<W: Threads + Wait + Sync + Copy + Drop>(
    rt: W,
    alloc: Global,
    case: &Case,
) -> Option<Ending> {
    let events = Events::new();
    let door = TestDoor::new(alloc, case.links, case.after_links, &events);
    let pace = TestPace::new(case.turns, &events);
    let (code, printed) = run_with(rt, alloc, case, door, pace)?;
    Some(Ending {
        code,
        printed,
        links: events.of_links(),
    })
}

/// Runs a case with this door and this pace. Returns the exit code and what was printed. Returns `None` if out of
/// memory, or if what was printed isn't UTF-8.
fn run_with<D: Door + Drop, T: Pace + Drop + Send, W: Threads + Wait + Sync + Copy + Drop>(
    rt: W,
    alloc: Global,
    case: &Case,
    door: D,
    pace: T,
) -> Option<(u8, String)>
where
    D::L: Drop + Send,
{
    let words = words_of(alloc, case.arguments)?;
    let input = case.input.as_bytes().to_vec(alloc).ok()?;
    let output = MemorySink::new(alloc, 4_096, Vec::new(alloc)).ok()?;
    let peer = upstream_of(alloc, case)?;
    let mut world = World {
        input: MemorySource::new(input, 4_096, Vec::new(alloc)),
        output,
        door,
        peer,
        draws: ListDraws::new(Vec::new(alloc)),
        pace,
        spawner: RealSpawner::new(rt),
        keep: TestMaker {
            keeping: case.keeping,
        },
        rt,
    };
    let code = run(alloc, &words, &mut world);
    let printed = String::from_utf8(world.output.sent().to_vec(alloc).ok()?).ok()?;
    Some((code, printed))
}

/// Splits a line at each space. Returns `None` if out of memory.
fn words_of(alloc: Global, line: &str) -> Option<Vec<String>> {
    let mut words = Vec::new(alloc);
    for word in line.split(' ') {
        words.push(String::from_str(alloc, word).ok()?).ok()?;
    }
    Some(words)
}

/// Returns a peer that replies, and fails, as the case says. Returns `None` if out of memory.
fn upstream_of(alloc: Global, case: &Case) -> Option<MemoryPeer> {
    let mut replies = Vec::new(alloc);
    for reply in case.upstream {
        replies.push(reply.as_bytes().to_vec(alloc).ok()?).ok()?;
    }
    let failing = case.failing_calls.to_vec(alloc).ok()?;
    MemoryPeer::new(alloc, replies, 4_096, failing).ok()
}
