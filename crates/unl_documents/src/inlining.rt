//! Inlining segments: strategies get copies of the constraints of the segments that they refer to. Clients that
//! don't support segments get states with inlined segments.
ghost use Rattle.std.specs.Prelude.{◌≡◌, ◌==◌, ◌++◌, IfOk, OnOk, length, map};
ghost use Rattle.std.specs.List.{list_all};
ghost use Rattle.unl_documents.specs.Inline.{all_constraints as constraints_of, constraints_for, holds_for_nobody as nobody_meets};
ghost use Rattle.unl_documents.specs.Inline.{inlined as inlined_state, inlined_feature as feature_inlined};
ghost use Rattle.unl_documents.specs.Inline.{inlined_strategy as strategy_inlined, inlining_of};
ghost use Rattle.unl_documents.specs.Results.{Gives};
ghost use Rattle.unl_documents.specs.Chunks.{joined, NoneIsEmpty};
ghost use Rattle.unl_documents.specs.States.{IsValidState};
ghost use Rattle.unl_documents.specs.declared.inlining.InlineRefusal.TheVariants.{Memory as memory};

use crate::chunked_list::{Chunk, ChunkedList};
use crate::constraint::Constraint;
use crate::copied::TryClone;
use crate::excess::first_excess;
use crate::feature::Feature;
use crate::list::List;
use crate::memory::Memory;
use crate::operator::Operator;
use crate::segment::Segment;
use crate::segments::segment_of;
use crate::shared::Shared;
use crate::state::State;
use crate::strategy::Strategy;
use crate::text::Text;
use std::alloc::Global;
use thiserror::Error;

/// Why the segments of a state couldn't be inlined.
#[derive(Clone, Copy, Debug, Error)]
pub enum InlineRefusal {
    /// A strategy would have more than 100 constraints; the field is the number that it would have.
    #[error("a strategy would have {0} constraints")]
    TooMany(u64),
    /// Out of memory, or a count doesn't fit into 64 bits.
    #[error("out of memory")]
    Memory,
}

impl From<Memory> for InlineRefusal {
    ghost from_gives = { λ _ e. e ≡ memory };

    fn from(_e: Memory) -> InlineRefusal {
        InlineRefusal::Memory
    }
}

/// Returns the state with its segments inlined. Each strategy gets the constraints of its segments after its own, in
/// the order in which it lists the segments, and then refers to no segments. An id without a segment in the state
/// becomes one constraint that holds for no context: `userId` IN an empty list. The theorem `inlining_changes_nothing`
/// of `unl_dependencies` says that all evaluations stay the same.
///
/// # Errors
/// `TooMany(n)` if a strategy would have more than 100 constraints; `n` is the number of constraints of the first such
/// strategy, in the order of features and strategies. `Memory` if memory runs out or a count doesn't fit into 64 bits.
#[tactic(auto, unfolding(crate::specs::Inline::inlining_of))]
pub fn inline(alloc: Global, state: &State) -> Result<State, InlineRefusal>
    ensures gives { Gives memory result (inlining_of state.now) }
    ensures valid { IsValidState state.now → IfOk result IsValidState }
{
    match first_excess(state)? {
        Some(count) => Err(InlineRefusal::TooMany(count)),
        None => Ok(inlined(alloc, state)?),
    }
}

/// Inlines the segments, without checking the numbers of constraints.
#[tactic(auto, unfolding(crate::specs::Inline::inlined))]
fn inlined(alloc: Global, state: &State) -> Result<State, Memory>
    ensures { IfOk result (λ s. s ≡ inlined_state state.now) }
{
    Ok(State {
        features: ChunkedList::from_chunks(inlined_chunks(
            alloc,
            state.features.chunks(),
            &state.segments,
        )?),
        segments: List::new(alloc),
    })
}

/// Inlines the segments into the features of each chunk. The new chunks have as many features as the old ones.
fn inlined_chunks(
    alloc: Global,
    chunks: &[Chunk<Feature>],
    segments: &List<Shared<Segment>>,
) -> Result<List<Chunk<Feature>>, Memory>
    requires { NoneIsEmpty chunks.now }
    ensures features { IfOk result (λ rs. joined rs ≡ map (feature_inlined segments.now) (joined chunks.now)) }
    ensures full { IfOk result NoneIsEmpty }
{
    let mut inlined = List::new(alloc);
    for chunk in chunks {
        let features = inlined_features(alloc, chunk.get().as_slice(), segments)?;
        inlined.push(Shared::new(alloc, features)?)?;
    }
    Ok(inlined)
}

fn inlined_features(
    alloc: Global,
    features: &[Shared<Feature>],
    segments: &List<Shared<Segment>>,
) -> Result<List<Shared<Feature>>, Memory>
    ensures { IfOk result (λ fs. fs ≡ map (feature_inlined segments.now) features.now) }
{
    let mut inlined = List::new(alloc);
    for feature in features {
        inlined.push(inlined_feature(alloc, feature, segments)?)?;
    }
    Ok(inlined)
}

/// Inlines the segments into a feature. If none of its strategies refers to a segment, the result is another reference
/// to the same feature.
fn inlined_feature(
    alloc: Global,
    feature: &Shared<Feature>,
    segments: &List<Shared<Segment>>,
) -> Result<Shared<Feature>, Memory>
    ensures { IfOk result (λ f. f ≡ feature_inlined segments.now feature.now) }
{
    if names_none(feature.get().strategies.as_slice()) {
        return feature.copy();
    }
    Shared::new(alloc, with_inlined(alloc, feature.get(), segments)?)
}

/// Returns whether no strategy refers to a segment.
fn names_none(strategies: &[Strategy]) -> bool
    ensures { result ≡ list_all (λ s. length s.segments == 0) strategies.now }
{
    strategies.iter().all(|s| s.segments.is_empty())
}

#[tactic(auto, unfolding(crate::specs::Inline::inlined_feature))]
fn with_inlined(
    alloc: Global,
    feature: &Feature,
    segments: &List<Shared<Segment>>,
) -> Result<Feature, Memory>
    ensures { IfOk result (λ f. f ≡ feature_inlined segments.now feature.now) }
{
    let strategies = inlined_strategies(alloc, feature.strategies.as_slice(), segments)?;
    feature.with_strategies(alloc, strategies)
}

fn inlined_strategies(
    alloc: Global,
    strategies: &[Strategy],
    segments: &List<Shared<Segment>>,
) -> Result<List<Strategy>, Memory>
    ensures { IfOk result (λ ss. ss ≡ map (strategy_inlined segments.now) strategies.now) }
{
    let mut inlined = List::new(alloc);
    for strategy in strategies {
        inlined.push(inlined_strategy(alloc, strategy, segments)?)?;
    }
    Ok(inlined)
}

#[tactic(auto, unfolding(crate::specs::Inline::inlined_strategy))]
fn inlined_strategy(
    alloc: Global,
    strategy: &Strategy,
    segments: &List<Shared<Segment>>,
) -> Result<Strategy, Memory>
    ensures { IfOk result (λ s. s ≡ strategy_inlined segments.now strategy.now) }
{
    let constraints = all_constraints(alloc, strategy, segments)?;
    strategy.with_constraints(alloc, constraints, List::new(alloc))
}

#[tactic(auto, unfolding(crate::specs::Inline::all_constraints))]
fn all_constraints(
    alloc: Global,
    strategy: &Strategy,
    segments: &List<Shared<Segment>>,
) -> Result<List<Constraint>, Memory>
    ensures { IfOk result (λ cs. cs ≡ constraints_of segments.now strategy.now) }
{
    let mut constraints = strategy.constraints.copy(alloc)?;
    for id in strategy.segments.as_slice() {
        push_for(alloc, &mut constraints, *id, segments)?;
    }
    Ok(constraints)
}

/// Appends the constraints inlined for a segment id: those of the segment, or [`holds_for_nobody`] if there is no such
/// segment.
#[tactic(auto, unfolding(crate::specs::Inline::constraints_for))]
fn push_for(
    alloc: Global,
    constraints: &mut List<Constraint>,
    id: u64,
    segments: &List<Shared<Segment>>,
) -> Result<(), Memory>
    ensures { OnOk result (constraints.new ≡ constraints.old ++ constraints_for segments.now id) }
{
    match segment_of(segments, id) {
        None => constraints.push(holds_for_nobody(alloc)?),
        Some(segment) => push_copies(alloc, constraints, segment.constraints.as_slice()),
    }
}

fn push_copies(
    alloc: Global,
    constraints: &mut List<Constraint>,
    more: &[Constraint],
) -> Result<(), Memory>
    ensures { OnOk result (constraints.new ≡ constraints.old ++ more.now) }
{
    for constraint in more {
        constraints.push(constraint.copy(alloc)?)?;
    }
    Ok(())
}

/// Returns a constraint that no context meets: `userId` IN an empty list.
fn holds_for_nobody(alloc: Global) -> Result<Constraint, Memory>
    ensures { IfOk result (λ c. c ≡ nobody_meets) }
{
    Ok(Constraint {
        field: Text::new(alloc, "userId")?,
        operator: Operator::In,
        values: List::new(alloc),
        value: None,
        caseless: false,
        inverted: false,
    })
}
