//! One refresh of a replica: a request to the server, and the effect of the reply.
ghost use Rattle.std.specs.Prelude.{◌≡◌, ◌<◌, ◌≤◌, ◌+◌, ◌-◌, ◌^◌, IsTrue, OnErr};
ghost use Rattle.unl_follow.specs.Replica.{installed_by};
ghost use Rattle.unl_http_api.specs.RequestText.{fits_if_any, fits_line};
ghost use Rattle.unl_refresh.specs.Exchange.{HasPeerCause, peer_view};
ghost use Rattle.unl_refresh.specs.Once.{Delivers, RefreshedOnce, TakesNextReply, refresh_state};

use crate::replica::Replica;
use std::alloc::Global;
use unl_base::Peer;
use unl_refresh::{Ask, Outcome, RefreshFault, refresh_once};

/// Makes one request, for a delta or for a whole feed as `ask.delta` says. If the reply applies to the replica's
/// version, the replica has the new version afterwards. If events may be missing between the replica's version and the
/// reply (`Outcome::Gap`), the replica keeps its version and is held: it ignores changes until a whole state applies.
/// Otherwise the replica is unchanged. Afterwards `ask.tag` is the tag to send with the next request, or `None`.
///
/// The ask's host, token and tag must have no CR, LF or NUL, and the replica's front must be less than 2^64 - 1.
///
/// # Errors
/// `PeerFault` if the peer can't be connected to, written to or read; `Memory` if out of memory. On both errors nothing
/// is applied, and the ask has no tag.
pub fn follow_once<P: Peer>(
    alloc: Global,
    replica: &mut Replica,
    ask: &mut Ask,
    peer: &mut P,
) -> Result<Outcome, RefreshFault>
    requires front { replica.old.front < 2 ^ 64 - 1 }
    requires host { IsTrue (fits_line ask.old.host) }
    requires token { IsTrue (fits_line ask.old.token) }
    requires tag { IsTrue (fits_if_any ask.old.tag) }

    // Clause `leaves` states which version the replica has afterwards, which tag the next request has, and which bytes
    // are sent.
    ensures leaves { RefreshedOnce 0
        (refresh_state (installed_by replica.old) ask.old
        (peer_view (P.state peer.old) (P.Source.faults peer.old)))
        result
        (refresh_state (installed_by replica.new) ask.new
        (peer_view (P.state peer.new) (P.Source.faults peer.new))) }

    // If the peer's replies are observable, the next of them determines the outcome. This reply is used up, except
    // that it may remain if the peer failed or memory ran out.
    ensures next_reply { TakesNextReply 0
        (refresh_state (installed_by replica.old) ask.old
        (peer_view (P.state peer.old) (P.Source.faults peer.old)))
        result
        (refresh_state (installed_by replica.new) ask.new
        (peer_view (P.state peer.new) (P.Source.faults peer.new))) }

    // A line is a list of event histories, one for each epoch, in rising order of epochs. Assume that the replica has
    // no version, or a revision of a line restricted to some projects, and that the server sends batches from that line
    // restricted in the same way. Then the same is true of the replica afterwards. The epoch of the version doesn't
    // fall, nor does the version's number within an epoch.
    ensures delivery { Delivers 0
        (refresh_state (installed_by replica.old) ask.old
        (peer_view (P.state peer.old) (P.Source.faults peer.old)))
        (refresh_state (installed_by replica.new) ask.new
        (peer_view (P.state peer.new) (P.Source.faults peer.new))) }

    // On an error the replica is unchanged.
    ensures fault { OnErr result (replica.new ≡ replica.old) }

    // At most one version is published.
    ensures next_front { replica.new.front ≤ replica.old.front + 1 }

    // `PeerFault` is returned only if the peer's fault count rose. On all other results the count is unchanged.
    ensures causes { HasPeerCause result (P.Source.faults peer.old) (P.Source.faults peer.new) }
{
    refresh_once(alloc, replica, 0, ask, peer)
}
