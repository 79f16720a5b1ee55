//! Follows a server with a replica for a number of turns, and prints a line after each.
ghost use Rattle.std.specs.Prelude.{◌≡◌, ◌<◌, ◌≤◌, ◌-◌, true, None, IfNone, IfSome, IsTrue, Err, nat_lt, option_map};
ghost use Rattle.unl_base.specs.Faults.{Rose};
ghost use Rattle.unl_follow.specs.Run.{Runs};
ghost use Rattle.unl_http_api.specs.RequestText.{fits_line};

use crate::fault::FollowFault;
use crate::replica::Replica;
use crate::subject::Subject;
use crate::turn::turn;
use std::alloc::Global;
use unl_base::{Draws, Pace, Peer, Sink};
use unl_refresh::Ask;

/// Follows a server with a new replica for at most `turns` turns, and prints one line about a feature after each turn.
/// Before each turn but the first, `pace` decides how long to wait; if it has no more turns, the run ends. A turn takes
/// one draw (a time and a random word), makes one request, and prints `turn K W number N on B`:
///
/// - K is the number of the turn, from 1.
/// - W is the outcome of the request: `published`, `unchanged`, `repeat`, `old`, `gap`, `held`, `refused` and an HTTP
///   status, or `bad` (see [`unl_refresh::Outcome`]), or `fault` if the peer failed.
/// - N is the number of the replica's version after the turn, or `-` if it has none. Unless the epoch is 0, the epoch
///   and a dot precede the number.
/// - B is `true` or `false`: whether the feature is on. It is `-` if there is no version or no such feature. The
///   feature is evaluated at the time and with the random word of the draw, and with an empty host name.
///
/// The ask must have no tag, and its host and token must have no CR, LF or NUL.
///
/// # Errors
/// `WriteFault` if the sink fails: a prefix of the text was sent. `Memory` if out of memory: only whole lines were
/// sent. A fault of the peer doesn't end the run.
pub fn follow<P: Peer, R: Draws, T: Pace, K: Sink>(
    alloc: Global,
    subject: &Subject<'_>,
    mut ask: Ask,
    turns: u32,
    peer: &mut P,
    draws: &mut R,
    pace: &mut T,
    sink: &mut K,
) -> Result<(), FollowFault>
    requires host { IsTrue (fits_line ask.host) }
    requires token { IsTrue (fits_line ask.token) }
    requires new { ask.tag ≡ None }
    // On success, the number of turns is the smaller of `turns` and the number that the pace allows. Unless memory ran
    // out, the turns took the upcoming draws and replies in order, and each turn with a reply sent the ask's request,
    // with the current tag, on a new connection. The lines of the turns were sent: all of them on success, a prefix of
    // their text if a write failed, whole lines if out of memory.
    ensures runs { Runs turns (T.turns pace.old) ask subject.now
        (record {
          peer = P.state peer.old;
          faults = P.Source.faults peer.old;
          coming = R.coming draws.old;
          sent = K.sent sink.old;
        })
        result
        (record {
          peer = P.state peer.new;
          faults = P.Source.faults peer.new;
          coming = R.coming draws.new;
          sent = K.sent sink.new;
        }) }
    ensures later { K.faults sink.old ≤ K.faults sink.new }
    ensures cause { result ≡ Err FollowFault.WriteFault → Rose (K.faults sink.old) (K.faults sink.new) }
{
    let mut replica = Replica::new(alloc);
    for made in 0..turns {
        if !has_next_turn(made, pace) {
            return Ok(());
        }
        match turn(
            alloc,
            made + 1,
            subject,
            &mut replica,
            &mut ask,
            peer,
            draws,
            sink,
        ) {
            Ok(()) => (),
            Err(fault) => return Err(fault),
        }
    }
    Ok(())
}

/// Returns whether there is one more turn after `made` turns. The first turn starts at once; each later one waits for
/// the pace.
fn has_next_turn<T: Pace>(made: u32, pace: &mut T) -> bool
    ensures first { made ≡ 0 → (result ≡ true) × (T.turns pace.new ≡ T.turns pace.old) }
    ensures takes { 0 < made → T.turns pace.new ≡ option_map (λ n. n - 1) (T.turns pace.old) }
    ensures observable { 0 < made → IfSome (T.turns pace.old) (λ n. result ≡ nat_lt 0 n) }
    ensures unobservable { 0 < made → IfNone (T.turns pace.old) (result ≡ true) }
{
    if made == 0 {
        return true;
    }
    pace.more()
}
