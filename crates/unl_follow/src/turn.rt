//! One turn of the command `follow`: it sends a request to a server, applies the reply to the replica (a copy of the
//! state of one environment, which such replies keep up to date), and writes a line.
ghost use Rattle.std.specs.Prelude.{◌≡◌, ℕ, ◌<◌, ◌≤◌, ◌+◌, ◌-◌, ◌^◌, List, Option, Err, IfOk, IsTrue, OnOk, string_bytes};
ghost use Rattle.unl_base.specs.Faults.{Rose};
ghost use Rattle.unl_base.specs.Streams.{Sends, SendsPrefix};
ghost use Rattle.unl_follow.specs.Replica.{installed_by};
ghost use Rattle.unl_follow.specs.Run.{AsksOnce, TakesTurn};
ghost use Rattle.unl_follow.specs.Turns.{turn_line};
ghost use Rattle.unl_http_api.specs.RequestText.{fits_if_any, fits_line};
ghost use Rattle.unl_refresh.specs.Refresh.{with_tag};

use crate::fault::FollowFault;
use crate::line::line;
use crate::once::follow_once;
use crate::replica::Replica;
use crate::subject::Subject;
use std::alloc::Global;
use unl_base::{Draw, Draws, Peer, Sink, write_all};
use unl_documents::Memory;
use unl_refresh::{Ask, Outcome, RefreshFault};
use unl_strategies::Moment;

/// Makes turn `number`: takes one draw, sends one request to the peer, applies the reply to the replica, and writes the
/// line of the turn to the sink. The request carries the tag of `ask`, if there is one. Afterwards `ask.tag` is the tag
/// to send with the next request, or `None`. A peer that fails is not an error: nothing is applied, the next request
/// has no tag, and the line says `fault`.
///
/// # Errors
/// `WriteFault` if the sink fails: a prefix of the line was written. `Memory` if out of memory: nothing was written.
pub(crate) fn turn<P: Peer, R: Draws, K: Sink>(
    alloc: Global,
    number: u32,
    subject: &Subject<'_>,
    replica: &mut Replica,
    ask: &mut Ask,
    peer: &mut P,
    draws: &mut R,
    sink: &mut K,
) -> Result<(), FollowFault>
    requires front { replica.old.front < 2 ^ 64 - 1 }
    requires host { IsTrue (fits_line ask.old.host) }
    requires token { IsTrue (fits_line ask.old.token) }
    requires tag { IsTrue (fits_if_any ask.old.tag) }
    ensures turn { OnOk result (TakesTurn Sends ask.old subject.now number
        (record { installed = installed_by replica.old; tag = ask.old.tag })
        (record {
          peer = P.state peer.old;
          faults = P.Source.faults peer.old;
          coming = R.coming draws.old;
          sent = K.sent sink.old;
        })
        (record { installed = installed_by replica.new; tag = ask.new.tag })
        (record {
          peer = P.state peer.new;
          faults = P.Source.faults peer.new;
          coming = R.coming draws.new;
          sent = K.sent sink.new;
        })) }
    ensures cut { result ≡ Err FollowFault.WriteFault → TakesTurn SendsPrefix ask.old subject.now number
        (record { installed = installed_by replica.old; tag = ask.old.tag })
        (record {
          peer = P.state peer.old;
          faults = P.Source.faults peer.old;
          coming = R.coming draws.old;
          sent = K.sent sink.old;
        })
        (record { installed = installed_by replica.new; tag = ask.new.tag })
        (record {
          peer = P.state peer.new;
          faults = P.Source.faults peer.new;
          coming = R.coming draws.new;
          sent = K.sent sink.new;
        }) }
    ensures memory { result ≡ Err FollowFault.Memory → K.sent sink.new ≡ K.sent sink.old }
    ensures same_ask { ask.new ≡ with_tag ask.new.tag ask.old }
    ensures next_tag { IsTrue (fits_if_any ask.new.tag) }
    ensures next_front { replica.new.front ≤ replica.old.front + 1 }
    ensures later { K.faults sink.old ≤ K.faults sink.new }
    ensures cause { result ≡ Err FollowFault.WriteFault → Rose (K.faults sink.old) (K.faults sink.new) }
{
    let draw = draws.draw();
    let outcome = ask_once(alloc, replica, ask, peer)?;
    let line = line_of_turn(alloc, number, &outcome, replica, subject, &draw)?;
    write_all(sink, line.as_bytes())?;
    Ok(())
}

/// Sends one request to the peer, applies the reply to the replica, and returns the outcome. Returns `Ok(None)` if the
/// peer failed. Afterwards `ask.tag` is the tag to send with the next request, or `None`. The only error is out of
/// memory.
fn ask_once<P: Peer>(
    alloc: Global,
    replica: &mut Replica,
    ask: &mut Ask,
    peer: &mut P,
) -> Result<Option<Outcome>, Memory>
    requires front { replica.old.front < 2 ^ 64 - 1 }
    requires host { IsTrue (fits_line ask.old.host) }
    requires token { IsTrue (fits_line ask.old.token) }
    requires tag { IsTrue (fits_if_any ask.old.tag) }
    ensures asks { IfOk result (λ outcome. AsksOnce ask.old
        (record { installed = installed_by replica.old; tag = ask.old.tag })
        (P.state peer.old) (P.Source.faults peer.old)
        (record { outcome = outcome; turn_state = record { installed = installed_by replica.new; tag = ask.new.tag } })
        (P.state peer.new) (P.Source.faults peer.new)) }
    ensures same_ask { ask.new ≡ with_tag ask.new.tag ask.old }
    ensures next_tag { IsTrue (fits_if_any ask.new.tag) }
    ensures next_front { replica.new.front ≤ replica.old.front + 1 }
{
    match follow_once(alloc, replica, ask, peer) {
        Ok(outcome) => Ok(Some(outcome)),
        Err(RefreshFault::PeerFault) => Ok(None),
        Err(RefreshFault::Memory) => Err(Memory),
    }
}

/// Returns the line of turn `number`, which had this outcome. The line says whether the subject's feature is on in the
/// replica's version, for the subject's context, at the time and with the random word of this draw.
#[tactic(auto, unfolding(crate::specs::Turns::turn_line))]
fn line_of_turn(
    alloc: Global,
    number: u32,
    outcome: &Option<Outcome>,
    replica: &Replica,
    subject: &Subject<'_>,
    draw: &Draw,
) -> Result<String, Memory>
    ensures { (tag : Option (List ℕ)) → IfOk result (λ line. string_bytes line ≡ turn_line subject.now number draw.entry.now
        (record { outcome = outcome.now; turn_state = record { installed = installed_by replica.now; tag = tag } })) }
{
    let moment = Moment {
        now: draw.now,
        word: draw.word,
        host: "",
    };
    line(alloc, number, outcome, replica, subject, &moment)
}
