//! Accepts the links of a door, and queues them for the workers.
ghost use Rattle.std.specs.Prelude.{◌≡◌, ◌<◌, false};
ghost use Rattle.crossbeam_queue.specs.Passes.{view, IsSamePass};
ghost use Rattle.unl_base.specs.Doors.{IsListening};
ghost use Rattle.unl_base.specs.Faults.{HasCause};
ghost use Rattle.unl_workers.specs.Accepting.{AcceptsAll};
ghost use Rattle.unl_workers.specs.Passes.{IsPassOfQueue};
ghost use Rattle.unl_workers.specs.Queueing.{QueuesAll};

use crate::forever::wait_forever;
use crate::{LinkQueue, QueuePass};
use std::sync::Wait;
use unl_base::{Door, Failed, Job};

/// What a door handed out, and how accepting ended.
#[derive(Clone, Copy, Debug, PartialEq, Eq)]
pub struct AcceptOutcome {
    /// The number of links that the door handed out.
    pub links: u64,
    /// `Ok` if the door is closed. `Failed` if it could not hand out a link; the door incremented its fault count.
    pub door: Result<(), Failed>,
}

/// The job that accepts the links of a listening door and queues them for the workers.
pub(crate) struct Acceptor<'a, D: Door, W> {
    pub door: &'a mut D,
    pub queue: &'a LinkQueue<D::L>,
    pub pass: QueuePass<D::L>,
    pub rt: &'a W,
    /// Whether the acceptor has closed the queue.
    pub closed: bool,
    /// The number of links queued, and whether the door failed. Before the job runs: 0 and `Failed`.
    pub outcome: AcceptOutcome,
    ghost listens: { IsListening (D.state door.now) },
    ghost queue_is: { IsPassOfQueue queue.now pass },
    ghost parts: { 0 < (view pass).parts },
    ghost may_put: { closed ≡ false → (view pass).may_put ≡ 1 },
}

impl<'a, D: Door, W> Acceptor<'a, D, W> {
    /// An acceptor that has not accepted a link yet. Its pass may put links.
    pub fn new(
        rt: &'a W,
        queue: &'a LinkQueue<D::L>,
        pass: QueuePass<D::L>,
        door: &'a mut D,
    ) -> Self
        requires listens { IsListening (D.state door.old) }
        requires queue { IsPassOfQueue queue.now pass }
        requires parts { 0 < (view pass).parts }
        requires may_put { (view pass).may_put ≡ 1 }
        ensures same { result.door.ghost_name ≡ door.entry.ghost_name }
        ensures door { result.door.now ≡ door.old }
        ensures pass { result.pass ≡ pass }
        ensures begins { result.closed ≡ false }
    {
        Acceptor {
            door,
            queue,
            pass,
            rt,
            closed: false,
            outcome: AcceptOutcome {
                links: 0,
                door: Err(Failed),
            },
        }
    }
}

impl<'a, D: Door, W: Wait> Job for Acceptor<'a, D, W>
where
    D::L: Drop,
{
    ghost worked = { λ before after. (after.door.ghost_name ≡ before.door.ghost_name)
        × (before.closed ≡ false → AcceptsAll after.outcome (D.state before.door.now) (D.state after.door.now)
        × HasCause (D.faults before.door.now) (D.faults after.door.now) after.outcome.door
        × IsSamePass before.pass after.pass
        × QueuesAll D.L.Source.left D.L.Sink.sent D.L.Source.faults 0 after.outcome.links
        (view before.pass) (D.state before.door.now) (view after.pass) (D.state after.door.now)) };

    ghost cancelled = { λ before after. (after.door.ghost_name ≡ before.door.ghost_name) × (after.door.now ≡ before.door.now) };

    fn work(&mut self) {
        if self.closed {
            return;
        }
        self.outcome = accept_all(self.rt, self.queue, &mut self.pass, self.door);
        self.queue.close(self.rt, &mut self.pass);
        self.closed = true;
    }

    fn cancel(&mut self) {
        if self.closed {
            return;
        }
        self.queue.close(self.rt, &mut self.pass);
        self.closed = true;
    }
}

/// Accepts links until the door is closed or fails, and puts each into the queue. Blocks while no link arrives, and
/// while the queue is full. After 2^64 - 1 links it never returns.
fn accept_all<D: Door, W: Wait>(
    rt: &W,
    queue: &LinkQueue<D::L>,
    pass: &mut QueuePass<D::L>,
    door: &mut D,
) -> AcceptOutcome
where
    D::L: Drop,
    requires listens { IsListening (D.state door.old) }
    requires queue { IsPassOfQueue queue.now pass.old }
    requires parts { 0 < (view pass.old).parts }
    requires may_put { (view pass.old).may_put ≡ 1 }
    ensures accepts { AcceptsAll result (D.state door.old) (D.state door.new) }
    ensures cause { HasCause (D.faults door.old) (D.faults door.new) result.door }
    ensures listens { IsListening (D.state door.new) }
    ensures same { IsSamePass pass.old pass.new }
    ensures puts { QueuesAll D.L.Source.left D.L.Sink.sent D.L.Source.faults 1 result.links
        (view pass.old) (D.state door.old) (view pass.new) (D.state door.new) }
{
    for count in 0..u64::MAX {
        match door.accept() {
            Ok(Some(link)) => queue.put(rt, pass, link),
            Ok(None) => {
                return AcceptOutcome {
                    links: count,
                    door: Ok(()),
                };
            }
            Err(failed) => {
                return AcceptOutcome {
                    links: count,
                    door: Err(failed),
                };
            }
        }
    }
    wait_forever(rt)
}
