//! Serves the links (connections) of a door (a listener), one after another.
ghost use Rattle.std.specs.Prelude.{◌≡◌, ◌<◌, IfOk, OnOk};
ghost use Rattle.unl_base.specs.Doors.{IsClosed, IsListening, taking_back};
ghost use Rattle.unl_base.specs.Faults.{HasCause};
ghost use Rattle.unl_server.specs.Handling.{Coming};
ghost use Rattle.unl_server.specs.ServingDoor.{ServesDoor, ServesNextLink, server_and_door};
ghost use Rattle.unl_server.specs.Links.{LinkView, link_view};

use std::alloc::Global;
use std::sync::Wait;
use unl_base::{Door, Draws, Failed, Link};

/// A server, which serves links one after another.
pub trait Server {
    /// The precondition of `serve_link`, which also holds after it.
    ghost fits: { Self → Type 0 };

    /// A relation that holds between the server before and after any number of calls, such as that the server still
    /// holds the same references.
    ghost keeps: { Self → Self → Type 0 };

    /// The effect of serving a link: it relates the server and the coming draws (a time and a random word for each of
    /// the next requests) before, the link before and after, and the server and the coming draws after.
    ghost serves: { Self → Coming → LinkView → LinkView → Self → Coming → Type 0 };

    /// Serves a link, and then does the server's own work after each link, such as passing on the metrics that it
    /// collected. If the link fails, or memory runs out, only this link ends.
    fn serve_link<L: Link, R: Draws>(&mut self, alloc: Global, link: &mut L, draws: &mut R)
        requires { fits self.old }
        ensures serves { serves self.old (R.coming draws.old)
            (link_view (L.left link.old) (L.sent link.old) (L.Source.faults link.old))
            (link_view (L.left link.new) (L.sent link.new) (L.Source.faults link.new)) self.new (R.coming draws.new) }
        ensures fits { fits self.new }
        ensures keeps { keeps self.old self.new };

    // `keeps` is reflexive.
    ghost keeps_itself: { (server : Self) → keeps server server };

    // `keeps` is transitive.
    ghost keeps_on: { (first next last : Self) → keeps first next → keeps next last → keeps first last };
}

/// The outcome of waiting for a link.
#[derive(Clone, Copy, Debug, PartialEq, Eq)]
pub(crate) enum LinkOutcome {
    /// A link was handed out, served and returned to the door.
    Served,
    /// The door is closed.
    Closed,
}

/// Serves the links of a door, one after another, and gives each back to the door, until the door is closed. The door
/// must be listening. Returns how many links were served. If a link fails, or memory runs out while a link is served,
/// only that link ends.
///
/// # Errors
/// `Failed`: the door could not hand out a link. The door increments its fault count.
pub fn serve_door<S: Server, D: Door, R: Draws, W: Wait>(
    rt: &W,
    alloc: Global,
    server: &mut S,
    door: &mut D,
    draws: &mut R,
) -> Result<u64, Failed>
    requires listens { IsListening (D.state door.old) }
    requires fits { S.fits server.old }
    ensures serves { ServesDoor S.serves result (server_and_door server.old (R.coming draws.old) (D.state door.old))
        (server_and_door server.new (R.coming draws.new) (D.state door.new)) }
    ensures fits { S.fits server.new }
    ensures keeps { S.keeps server.old server.new }
    ensures ports { (D.state door.new).ports ≡ (D.state door.old).ports }
    ensures closed { OnOk result (IsClosed (D.state door.new)) }
    ensures cause { HasCause (D.faults door.old) (D.faults door.new) result }
{
    for served in 0..u64::MAX {
        match serve_next(alloc, server, door, draws) {
            Ok(LinkOutcome::Served) => {}
            Ok(LinkOutcome::Closed) => return Ok(served),
            Err(failed) => return Err(failed),
        }
    }
    wait_forever(rt)
}

/// Waits for the next link, serves it, and returns it to the door. Fails only if the door could not hand out a link.
fn serve_next<S: Server, D: Door, R: Draws>(
    alloc: Global,
    server: &mut S,
    door: &mut D,
    draws: &mut R,
) -> Result<LinkOutcome, Failed>
    requires listens { IsListening (D.state door.old) }
    requires fits { S.fits server.old }
    ensures serves { ServesNextLink S.serves result (server_and_door server.old (R.coming draws.old) (D.state door.old))
        (server_and_door server.new (R.coming draws.new) (D.state door.new)) }
    ensures fits { S.fits server.new }
    ensures keeps { S.keeps server.old server.new }
    ensures ports { (D.state door.new).ports ≡ (D.state door.old).ports }
    ensures closed { IfOk result (λ next. next ≡ LinkOutcome.Closed → IsClosed (D.state door.new)) }
    ensures cause { HasCause (D.faults door.old) (D.faults door.new) result }
{
    match door.accept()? {
        Some(link) => {
            serve_and_return(alloc, server, link, door, draws);
            Ok(LinkOutcome::Served)
        }
        None => Ok(LinkOutcome::Closed),
    }
}

/// Serves a link that the door has handed out, and returns it to the door.
fn serve_and_return<S: Server, D: Door, R: Draws>(
    alloc: Global,
    server: &mut S,
    mut link: D::L,
    door: &mut D,
    draws: &mut R,
)
    requires handed_out { (D.state door.old).back < (D.state door.old).given }
    requires fits { S.fits server.old }
    ensures served { (after : LinkView)
        × S.serves server.old (R.coming draws.old)
        (link_view (D.L.Source.left link) (D.L.Sink.sent link) (D.L.Source.faults link)) after server.new (R.coming draws.new)
        × (D.state door.new ≡ taking_back after.sent after.faults (D.state door.old)) }
    ensures fits { S.fits server.new }
    ensures keeps { S.keeps server.old server.new }
    ensures same_faults { D.faults door.new ≡ D.faults door.old }
{
    server.serve_link(alloc, &mut link, draws);
    door.give_back(link);
}

/// Never returns. `serve_door` calls it after `u64::MAX` links, which no run of the program serves.
fn wait_forever<T, W: Wait>(rt: &W) -> T
    ensures { ⊥ }
{
    for _ in rt.forever() {}
    unreachable!()
}
