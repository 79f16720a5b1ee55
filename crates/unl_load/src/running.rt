//! Runs the command `load`: from a seed and a number of asks (evaluations) to the line that is written.
ghost use Rattle.std.specs.Prelude.{◌≡◌, ◌≤◌, IfOk, IsErrOf, OnOk, string_bytes};
ghost use Rattle.unl_base.specs.Faults.{Rose};
ghost use Rattle.unl_base.specs.Streams.{Sends, SendsPrefix};
ghost use Rattle.unl_load.specs.Line.{line_of, load_line};

use crate::asking::count_on;
use crate::documents::{installed, state};
use crate::fault::LoadFault;
use crate::words::generator;
use std::alloc::{AllocError, Global};
use unl_base::{Sink, write_all};
use unl_documents::Memory;

/// Generates 1,000 features from a seed, makes `count` asks, each of which evaluates one feature for one user, and
/// writes one line: the number of features, the number of asks, and how many asks found their feature on and how many
/// off. The command line allows a count of 1 to 1,000,000.
///
/// The seed starts a random number generator. The first 1,000 words of the generator make one feature each. Each ask
/// then takes two words: the first selects the feature, the second is the number of the user. The feature is evaluated
/// at time 0 with random word 0. The same seed and count always give the same line.
///
/// # Errors
/// `WriteFault` if the sink fails: a prefix of the line was written. `Memory` if out of memory: nothing was written.
pub fn load<K: Sink>(alloc: Global, seed: u64, count: u64, sink: &mut K) -> Result<(), LoadFault>
    ensures ok { OnOk result (Sends (K.sent sink.old) (load_line seed count) (K.sent sink.new)) }
    ensures broken { IsErrOf result LoadFault.WriteFault → SendsPrefix (K.sent sink.old) (load_line seed count) (K.sent sink.new) }
    ensures unsent { IsErrOf result LoadFault.Memory → K.sent sink.new ≡ K.sent sink.old }
    ensures write { IsErrOf result LoadFault.WriteFault → Rose (K.faults sink.old) (K.faults sink.new) }
    ensures later { K.faults sink.old ≤ K.faults sink.new }
{
    let line = load_line(alloc, seed, count)?;
    match write_all(sink, line.as_bytes()) {
        Ok(()) => Ok(()),
        Err(_) => Err(LoadFault::WriteFault),
    }
}

/// Returns the line that [`load`] writes for this seed and count.
fn load_line(alloc: Global, seed: u64, count: u64) -> Result<String, Memory>
    ensures { IfOk result (λ line. string_bytes line ≡ load_line seed count) }
{
    let mut words = generator(seed);
    let state = state(alloc, &mut words)?;
    let snapshot = installed(alloc, state)?;
    let on = count_on(alloc, &snapshot, &mut words, count)?;
    Ok(line_of(alloc, count, on)?)
}

/// Returns the line for `count` asks, `on` of which found their feature on.
#[tactic(auto, unfolding(crate::specs::Line::line_of))]
fn line_of(alloc: Global, count: u64, on: u64) -> Result<String, AllocError>
    requires { on ≤ count }
    ensures { IfOk result (λ line. string_bytes line ≡ line_of count on) }
{
    let off = count - on;
    format!(in alloc; "features 1000 asks {count} on {on} off {off}\n")
}
