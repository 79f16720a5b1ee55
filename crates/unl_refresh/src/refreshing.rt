//! Refreshes one slot (the part of the board for one environment) from a server.
ghost use Rattle.std.specs.Prelude.{◌<◌, ◌-◌, ◌^◌, IsTrue, length};
ghost use Rattle.unl_http_api.specs.RequestText.{fits_if_any, fits_line};
ghost use Rattle.unl_refresh.specs.Exchange.{HasPeerCause, peer_view};
ghost use Rattle.unl_refresh.specs.Once.{Delivers, RefreshedOnce, TakesNextReply, refresh_state};

use crate::ask::{Ask, request_of};
use crate::exchange::exchange;
use crate::outcome::{Outcome, RefreshFault};
use crate::taking::take_reading;
use std::alloc::Global;
use unl_base::Peer;
use unl_delta::Installer;

/// Makes one request for what is new in a slot, and applies the reply: a batch of events, or a feed as one hydration
/// (an event with the whole state). A batch that applies is published in one publication. If the batch doesn't continue
/// the slot's version (verdict [`Gap`](unl_delta::Verdict::Gap)), the slot is held: it ignores changes until a
/// hydration applies. In all other outcomes the slot is unchanged. `slot` is the index of the slot, from 0. The number
/// of publications so far must be below 2^64 - 1. The ask's host, token and tag must have no CR, LF or NUL.
///
/// The ask's tag becomes the reply's tag if the reply was published or the slot already had all of it. The ask keeps
/// its tag if the server had nothing new (status 304) or replied with a status other than 200. In all other cases, also
/// on an error, the ask has no tag afterwards, so that the server sends everything next time.
///
/// # Errors
/// `PeerFault` if the peer can't be connected to, written to or read; `Memory` if out of memory. Nothing is applied
/// then.
pub fn refresh_once<I: Installer, P: Peer>(
    alloc: Global,
    to: &mut I,
    slot: usize,
    ask: &mut Ask,
    peer: &mut P,
) -> Result<Outcome, RefreshFault>
    requires slot { slot < length (I.installed to.old).places }
    requires front { (I.installed to.old).front < 2 ^ 64 - 1 }
    requires host { IsTrue (fits_line ask.old.host) }
    requires token { IsTrue (fits_line ask.old.token) }
    requires tag { IsTrue (fits_if_any ask.old.tag) }

    // What is applied, the next tag, and what is sent.
    ensures leaves { RefreshedOnce slot
        (refresh_state (I.installed to.old) ask.old
        (peer_view (P.state peer.old) (P.Source.faults peer.old)))
        result
        (refresh_state (I.installed to.new) ask.new
        (peer_view (P.state peer.new) (P.Source.faults peer.new))) }

    // If the peer's replies are observable, the next one determines the outcome. Unless the peer failed or memory ran
    // out, exactly one reply is used up.
    ensures next_reply { TakesNextReply slot
        (refresh_state (I.installed to.old) ask.old
        (peer_view (P.state peer.old) (P.Source.faults peer.old)))
        result
        (refresh_state (I.installed to.new) ask.new
        (peer_view (P.state peer.new) (P.Source.faults peer.new))) }

    // If the slot's version, if any, represents a line of histories and the server sends batches from that line, the
    // new version represents the line too, and is not older. [`unl_delta::verdict`] explains lines.
    ensures delivery { Delivers slot
        (refresh_state (I.installed to.old) ask.old
        (peer_view (P.state peer.old) (P.Source.faults peer.old)))
        (refresh_state (I.installed to.new) ask.new
        (peer_view (P.state peer.new) (P.Source.faults peer.new))) }

    // If `PeerFault` is returned, the peer's fault count rose; otherwise the count didn't change.
    ensures causes { HasPeerCause result (P.Source.faults peer.old) (P.Source.faults peer.new) }
{
    refresh(alloc, to, slot, ask, peer)
}

/// Makes one request and applies the reply, as [`refresh_once`] does.
fn refresh<I: Installer, P: Peer>(
    alloc: Global,
    to: &mut I,
    slot: usize,
    ask: &mut Ask,
    peer: &mut P,
) -> Result<Outcome, RefreshFault>
    requires slot { slot < length (I.installed to.old).places }
    requires front { (I.installed to.old).front < 2 ^ 64 - 1 }
    requires host { IsTrue (fits_line ask.old.host) }
    requires token { IsTrue (fits_line ask.old.token) }
    requires tag { IsTrue (fits_if_any ask.old.tag) }
    ensures leaves { RefreshedOnce slot
        (refresh_state (I.installed to.old) ask.old
        (peer_view (P.state peer.old) (P.Source.faults peer.old)))
        result
        (refresh_state (I.installed to.new) ask.new
        (peer_view (P.state peer.new) (P.Source.faults peer.new))) }
    ensures causes { HasPeerCause result (P.Source.faults peer.old) (P.Source.faults peer.new) }
{
    let tag = ask.tag.take();
    let request = request_of(alloc, ask, &tag)?;
    let reading = exchange(alloc, peer, request.as_slice())?;
    let taken = take_reading(alloc, to, slot, ask.delta, tag, reading)?;
    ask.tag = taken.tag;
    Ok(taken.outcome)
}
