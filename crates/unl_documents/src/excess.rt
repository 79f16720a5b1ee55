//! Counting the constraints that strategies would have after inlining, which adds the constraints of their segments.
ghost use Rattle.std.specs.Prelude.{◌≡◌, ◌+◌, IfOk, flat_map, length, nat_lt};
ghost use Rattle.std.specs.List.{find};
ghost use Rattle.unl_documents.specs.Inline.{all_constraints, constraints_for, counts, first_excess as first_excess_of};
ghost use Rattle.unl_documents.specs.Chunks.{joined};

use crate::chunked_list::Chunk;
use crate::feature::Feature;
use crate::list::List;
use crate::memory::Memory;
use crate::segment::Segment;
use crate::segments::segment_of;
use crate::shared::Shared;
use crate::state::State;
use crate::strategy::Strategy;

/// Returns the number of constraints of the first strategy, in the order of features and strategies, that would have
/// more than 100 after inlining, or `None` if there is no such strategy. Doesn't allocate. The only error, `Memory`,
/// means that a count doesn't fit into 64 bits.
#[tactic(auto, unfolding(crate::specs::Inline::first_excess))]
pub(crate) fn first_excess(state: &State) -> Result<Option<u64>, Memory>
    ensures { IfOk result (λ found. found ≡ first_excess_of state.now) }
{
    first_excess_in(state.features.chunks(), &state.segments)
}

fn first_excess_in(
    chunks: &[Chunk<Feature>],
    segments: &List<Shared<Segment>>,
) -> Result<Option<u64>, Memory>
    ensures { IfOk result (λ found. found
        ≡ find (nat_lt 100) (flat_map (λ f. counts segments.now f.strategies) (joined chunks.now))) }
{
    for chunk in chunks {
        let found = first_excess_among(chunk.get().as_slice(), segments)?;
        if found.is_some() {
            return Ok(found);
        }
    }
    Ok(None)
}

fn first_excess_among(
    features: &[Shared<Feature>],
    segments: &List<Shared<Segment>>,
) -> Result<Option<u64>, Memory>
    ensures { IfOk result (λ found. found
        ≡ find (nat_lt 100) (flat_map (λ f. counts segments.now f.strategies) features.now)) }
{
    for shared in features {
        let found = excess_among(shared.get().strategies.as_slice(), segments)?;
        if found.is_some() {
            return Ok(found);
        }
    }
    Ok(None)
}

fn excess_among(
    strategies: &[Strategy],
    segments: &List<Shared<Segment>>,
) -> Result<Option<u64>, Memory>
    ensures { IfOk result (λ found. found ≡ find (nat_lt 100) (counts segments.now strategies.now)) }
{
    for strategy in strategies {
        let count = count_of(strategy, segments)?;
        if count > 100 {
            return Ok(Some(count));
        }
    }
    Ok(None)
}

/// Returns the number of constraints that a strategy would have after inlining. The only error, `Memory`, means that
/// the number doesn't fit into 64 bits.
#[tactic(auto, unfolding(crate::specs::Inline::all_constraints))]
fn count_of(strategy: &Strategy, segments: &List<Shared<Segment>>) -> Result<u64, Memory>
    ensures { IfOk result (λ count. count ≡ length (all_constraints segments.now strategy.now)) }
{
    let mut count = strategy.constraints.len() as u64;
    for id in strategy.segments.as_slice() {
        count = sum_of(count, count_for(segments, *id))?;
    }
    Ok(count)
}

fn sum_of(count: u64, more: u64) -> Result<u64, Memory>
    ensures { IfOk result (λ sum. sum ≡ count + more) }
{
    count.checked_add(more).ok_or(Memory)
}

/// Returns the number of constraints inlined for a segment id: those of the segment, or 1 if there is no segment with
/// this id, because a constraint that never holds is inlined in its place.
#[tactic(auto, unfolding(crate::specs::Inline::constraints_for))]
fn count_for(segments: &List<Shared<Segment>>, id: u64) -> u64
    ensures { result ≡ length (constraints_for segments.now id) }
{
    match segment_of(segments, id) {
        None => 1,
        Some(segment) => segment.constraints.len() as u64,
    }
}
