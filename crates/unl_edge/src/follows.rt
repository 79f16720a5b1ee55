//! The command `follow`: polls a server turn by turn, and prints after each turn whether one feature is on.
ghost use Rattle.unl_base.specs.Faults.{Rose};
ghost use Rattle.unl_edge.specs.Follows.{ask_of, subject_of};
ghost use Rattle.unl_edge.specs.Status.{Caused, follow_status};
ghost use Rattle.unl_follow.specs.Run.{Runs};
ghost use Rattle.unl_words.specs.Ranges.{IsFollow};

use std::alloc::Global;
use unl_base::{Draws, Pace, Peer, Sink};
use unl_follow::{FollowFault, Subject, follow};
use unl_refresh::first_ask;
use unl_words::FollowArguments;

/// Polls an upstream or an edge with a token, and prints one line after each turn: what the reply was, and whether the
/// feature of the arguments is on for their context. Makes as many turns as the arguments say, or fewer if the pace
/// ends.
///
/// # Errors
/// `WriteFault` if the output fails; `Memory` if out of memory. A fault of the peer doesn't end the run.
#[tactic(auto, using(crate::proofs::Fitting::address_fits, crate::proofs::Fitting::token_fits))]
pub fn run_follow<P: Peer, R: Draws, T: Pace, O: Sink>(
    alloc: Global,
    words: &FollowArguments,
    peer: &mut P,
    draws: &mut R,
    pace: &mut T,
    output: &mut O,
) -> Result<(), FollowFault>
    requires { IsFollow words.now }
    ensures runs { Runs words.now.turns (T.turns pace.old) (ask_of words.now) (subject_of words.now)
        (record {
          peer = P.state peer.old;
          faults = P.Source.faults peer.old;
          coming = R.coming draws.old;
          sent = O.sent output.old;
        })
        result
        (record {
          peer = P.state peer.new;
          faults = P.Source.faults peer.new;
          coming = R.coming draws.new;
          sent = O.sent output.new;
        }) }
    ensures caused { Caused (follow_status result) ⊥ (Rose (O.faults output.old) (O.faults output.new)) ⊥ ⊥ }
{
    let ask = first_ask(alloc, &words.upstream, &words.token, words.delta)?;
    let subject = Subject {
        feature: words.feature.as_str(),
        context: &words.context,
    };
    follow(alloc, &subject, ask, words.turns, peer, draws, pace, output)
}
