//! The compiled features and segments of a version.
ghost use Rattle.std.specs.Prelude.{◌≡◌, ◌<◌, Some, IfOk, IsSome, length, nat_lt, option_map, slice_get, if◌then◌else◌};
ghost use Rattle.std.specs.List.{AllByRecursion};
ghost use Rattle.unl_compiled.specs.Next.{state_after};
ghost use Rattle.unl_compiled.specs.Places.{strategy_at};
ghost use Rattle.unl_delta.specs.State as delta_state;
ghost use Rattle.unl_delta.specs.Valid.{IsValidEvent};
ghost use Rattle.unl_documents.specs.Chunks.{joined, NoneIsEmpty};

use crate::feature::CompiledFeature;
use crate::segment::CompiledSegment;
use std::alloc::Global;
use std::marker::Model;
use unl_constraints::Compiled;
use unl_delta::Event;
use unl_delta::keyed::{put_in_chunks, put_in_place, without_in_chunks, without_in_place};
use unl_documents::{Chunk, ChunkedList, Feature, List, Memory, Segment, Shared, State, TryClone};

/// The compiled features and segments of a version. In contracts the value is the state that they were compiled from.
#[derive(Drop)]
pub(crate) struct Parts {
    /// The features, in ascending order of names.
    pub features: ChunkedList<CompiledFeature>,
    /// The segments, in ascending order of ids.
    pub segments: List<Shared<CompiledSegment>>,
}

impl Model for Parts {
    ghost use Rattle.unl_documents.specs.declared.state.State.{State};

    ghost Value = { State };

    ghost view = { λ p. record { features = p.features; segments = p.segments } };
}

impl TryClone for Parts {
    fn copy(&self, alloc: Global) -> Result<Parts, Memory> {
        Ok(Parts {
            features: self.features.copy(alloc)?,
            segments: self.segments.copy(alloc)?,
        })
    }
}

impl Parts {
    /// Compiles the features and segments of a state.
    pub(crate) fn of(alloc: Global, state: &State) -> Result<Parts, Memory>
        ensures { IfOk result (λ p. p ≡ state.now) }
    {
        Ok(Parts {
            features: compiled_features(alloc, &state.features)?,
            segments: compiled_segments(alloc, state.segments.as_slice())?,
        })
    }

    /// The chunks in which the feature list is stored. Joined they are the list, and none is empty.
    pub(crate) fn chunks(&self) -> &[Chunk<CompiledFeature>]
        ensures features { joined result.now ≡ self.now.features }
        ensures full { NoneIsEmpty result.now }
    {
        self.features.chunks()
    }

    /// The feature at a position, counted from 0, or `None` past the end.
    pub(crate) fn feature(&self, place: usize) -> Option<&CompiledFeature>
        ensures { option_map (λ f. f.now) result ≡ slice_get self.now.features place }
    {
        self.features.get(place)
    }

    /// The compiled constraints of the strategy at index `strategy` of the feature at index `feature`. Both indexes
    /// count from 0. The strategy must exist.
    pub(crate) fn constraints(&self, feature: usize, strategy: usize) -> &List<Compiled>
        requires { IsSome (strategy_at self.now feature strategy) }
        ensures { option_map (λ s. s.constraints) (strategy_at self.now feature strategy) ≡ Some result.now }
    {
        feature_at(&self.features, feature).constraints(strategy)
    }

    /// The parts after a batch's events. `self` has the parts of the version with the number `number`. If the first
    /// event is a hydration (a whole new state), its state replaces these parts, and all later events apply. Otherwise
    /// only events whose number is greater than `number` apply. Without a hydration, features and segments that no
    /// event names are shared with these parts.
    #[tactic(auto, unfolding(crate::specs::Next::state_after))]
    pub(crate) fn next(&self, alloc: Global, number: u64, events: &[Event]) -> Result<Parts, Memory>
        requires order { delta_state.IsInOrder self.now }
        requires events { AllByRecursion IsValidEvent events.now }
        ensures { IfOk result (λ p. p ≡ state_after number events.now self.now) }
    {
        match events {
            [] => self.copy(alloc),
            [Event::Hydration { state, .. }, rest @ ..] => {
                fold_all(alloc, Parts::of(alloc, state)?, rest)
            }
            _ => fold_later(alloc, self.copy(alloc)?, events, number),
        }
    }
}

/// The feature at an index, which must be less than the number of features.
fn feature_at(features: &ChunkedList<CompiledFeature>, place: usize) -> &CompiledFeature
    requires { place < length features.now }
    ensures { Some result.now ≡ slice_get features.now place }
{
    features.get(place).unwrap()
}

/// Compiles the features, in chunks of the same lengths.
fn compiled_features(
    alloc: Global,
    features: &ChunkedList<Feature>,
) -> Result<ChunkedList<CompiledFeature>, Memory>
    ensures { IfOk result (λ all. all ≡ features.now) }
{
    Ok(ChunkedList::from_chunks(compiled_chunks(alloc, features.chunks())?))
}

fn compiled_chunks(
    alloc: Global,
    chunks: &[Chunk<Feature>],
) -> Result<List<Chunk<CompiledFeature>>, Memory>
    requires { NoneIsEmpty chunks.now }
    ensures same { IfOk result (λ all. all ≡ chunks.now) }
    ensures full { IfOk result NoneIsEmpty }
{
    let mut all = List::with_room(alloc, chunks.len())?;
    for chunk in chunks {
        all.push(Shared::new(alloc, compiled_chunk(alloc, chunk.get())?)?)?;
    }
    Ok(all)
}

fn compiled_chunk(
    alloc: Global,
    chunk: &List<Shared<Feature>>,
) -> Result<List<Shared<CompiledFeature>>, Memory>
    ensures { IfOk result (λ all. all ≡ chunk.now) }
{
    let mut all = List::with_room(alloc, chunk.len())?;
    for feature in chunk.as_slice() {
        all.push(Shared::new(alloc, CompiledFeature::new(alloc, feature)?)?)?;
    }
    Ok(all)
}

fn compiled_segments(
    alloc: Global,
    segments: &[Shared<Segment>],
) -> Result<List<Shared<CompiledSegment>>, Memory>
    ensures { IfOk result (λ all. all ≡ segments.now) }
{
    let mut all = List::with_room(alloc, segments.len())?;
    for segment in segments {
        all.push(Shared::new(alloc, CompiledSegment::new(alloc, segment)?)?)?;
    }
    Ok(all)
}

/// The parts after all of the events.
fn fold_all(alloc: Global, parts: Parts, events: &[Event]) -> Result<Parts, Memory>
    requires order { delta_state.IsInOrder parts }
    requires events { AllByRecursion IsValidEvent events.now }
    ensures { IfOk result (λ p. p ≡ delta_state.fold_events events.now parts) }
{
    let mut now = parts;
    for event in events {
        now = step(alloc, now, event)?;
    }
    Ok(now)
}

/// The parts after the events whose number is greater than `above`.
#[tactic(auto, unfolding(unl_delta::specs::State::later))]
fn fold_later(alloc: Global, parts: Parts, events: &[Event], above: u64) -> Result<Parts, Memory>
    requires order { delta_state.IsInOrder parts }
    requires events { AllByRecursion IsValidEvent events.now }
    ensures { IfOk result (λ p. p ≡ delta_state.fold_events (delta_state.later delta_state.number_of above events.now) parts) }
{
    let mut now = parts;
    for event in events {
        now = step_above(alloc, now, event, above)?;
    }
    Ok(now)
}

/// The parts after an event, or unchanged if its number is not greater than `above`.
fn step_above(alloc: Global, parts: Parts, event: &Event, above: u64) -> Result<Parts, Memory>
    requires { delta_state.IsInOrder parts }
    ensures { IfOk result (λ p. p ≡ (if nat_lt above (delta_state.number_of event.now) then delta_state.step event.now parts else parts)) }
{
    if event.number() > above {
        return step(alloc, parts, event);
    }
    Ok(parts)
}

/// The parts after one event. An update compiles only its feature or segment, a removal compiles nothing, and a
/// hydration compiles everything.
fn step(alloc: Global, parts: Parts, event: &Event) -> Result<Parts, Memory>
    requires { delta_state.IsInOrder parts }
    ensures { IfOk result (λ p. p ≡ delta_state.step event.now parts) }
{
    match event {
        Event::Hydration { state, .. } => Parts::of(alloc, state),
        Event::FeatureUpdated { feature, .. } => {
            let compiled = Shared::new(alloc, CompiledFeature::new(alloc, feature)?)?;
            Ok(Parts {
                features: put_in_chunks(alloc, compiled, parts.features)?,
                segments: parts.segments,
            })
        }
        Event::FeatureRemoved { name, .. } => Ok(Parts {
            features: without_in_chunks(alloc, name, parts.features)?,
            segments: parts.segments,
        }),
        Event::SegmentUpdated { segment, .. } => {
            let compiled = Shared::new(alloc, CompiledSegment::new(alloc, segment)?)?;
            Ok(Parts {
                segments: put_in_place(compiled, parts.segments)?,
                features: parts.features,
            })
        }
        Event::SegmentRemoved { id, .. } => Ok(Parts {
            segments: without_in_place(id, parts.segments),
            features: parts.features,
        }),
    }
}
