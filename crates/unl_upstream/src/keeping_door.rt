//! Serves the links (connections) of a door (a listener) one after another, with an upstream that keeps its commands.
ghost use Rattle.std.specs.Prelude.{◌≡◌, true, OnOk};
ghost use Rattle.unl_base.specs.Doors.{IsClosed, IsListening};
ghost use Rattle.unl_base.specs.Faults.{HasCause};
ghost use Rattle.unl_server.specs.Linked.{linking};
ghost use Rattle.unl_upstream.specs.Kept.{AttemptsPreserve, kept_state};
ghost use Rattle.unl_upstream.specs.KeptLinks.{ServesAllKeptLinks};

use crate::keeping_server::{DurableUpstream, serve_kept};
use crate::upstream::Upstream;
use std::alloc::Global;
use std::sync::Wait;
use unl_base::{Door, Draws, Failed, Link};
use unl_keeper::Keeper;
use unl_server::{Server, serve_door};

impl<'a, K: Keeper> Server for DurableUpstream<'a, K> {
    ghost use Rattle.std.specs.Prelude.{◌≡◌, true};
    ghost use Rattle.std.proofs.Common.{◌∙◌, refl};
    ghost use Rattle.unl_upstream.specs.KeptLinks.{ExtendsAttempts};
    ghost use Rattle.unl_upstream.specs.KeptServing.{ServesLink, kept_in};

    ghost fits = { λ server. (K.state server.keeper.now).opened ≡ true };

    ghost keeps = { λ server after. (after.up.ghost_name ≡ server.up.ghost_name)
        × (after.keeper.ghost_name ≡ server.keeper.ghost_name)
        × ExtendsAttempts (kept_in K.state server) (kept_in K.state after) };

    ghost serves = { λ server coming link link_after after coming_after.
        ServesLink (kept_in K.state server) coming link link_after (kept_in K.state after) coming_after };

    fn serve_link<L: Link, R: Draws>(&mut self, alloc: Global, link: &mut L, draws: &mut R) {
        serve_kept(alloc, self.up, self.keeper, link, draws);
    }

    ghost keeps_itself = { λ server. (refl, refl, λ start reached. reached) };

    ghost keeps_on = { λ first next last one two. (
      two.0 ∙ one.0,
      two.1 ∙ one.1,
      λ start reached. two.2 start (one.2 start reached),
    ) };
}

/// Serves the links of a door one after another, and returns each to the door, until the door is closed. Returns how
/// many links were served. Each command is kept before it is acknowledged. A fault of a link, or running out of memory
/// while serving it, ends that link alone.
///
/// # Errors
/// `Failed`: the door failed to hand out a link, and incremented its fault count. The links before that were served.
pub fn serve_kept_door<K: Keeper, D: Door, R: Draws, W: Wait>(
    rt: &W,
    alloc: Global,
    up: &mut Upstream,
    keeper: &mut K,
    door: &mut D,
    draws: &mut R,
) -> Result<u64, Failed>
    requires listening { IsListening (D.state door.old) }
    requires opened { (K.state keeper.old).opened ≡ true }
    ensures stays { (K.state keeper.new).opened ≡ true }
    ensures serves_links { ServesAllKeptLinks result
        (linking (kept_state up.old (K.state keeper.old)) (R.coming draws.old) (D.state door.old))
        (linking (kept_state up.new (K.state keeper.new)) (R.coming draws.new) (D.state door.new)) }

    // This holds even if the door's links are not observable: nothing but attempts to keep the commands of the links
    // changed the upstream and its keeper.
    ensures carries { AttemptsPreserve (kept_state up.old (K.state keeper.old)) (kept_state up.new (K.state keeper.new)) }
    ensures closed { OnOk result (IsClosed (D.state door.new)) }
    ensures ports { (D.state door.new).ports ≡ (D.state door.old).ports }
    ensures cause { HasCause (D.faults door.old) (D.faults door.new) result }
{
    let mut kept = DurableUpstream { up, keeper };
    let served = serve_door(rt, alloc, &mut kept, door, draws);
    served
}
