//! Segments with compiled constraints: the constraints' values are sorted or parsed once, for many evaluations.
ghost use Rattle.std.specs.Prelude.{◌≡◌, IfOk, map, option_map};
ghost use Rattle.std.specs.List.{list_all};
ghost use Rattle.unl_constraints.specs.Constraint.{all_hold};
ghost use Rattle.unl_documents.specs.Inline.{segment_with};
ghost use Rattle.unl_documents.specs.Parameters.{AreRising};
ghost use Rattle.unl_documents.specs.States.{id_key};
ghost use Rattle.unl_strategies.specs.Strategy.{is_segment_met};

use std::alloc::Global;
use std::marker::Model;
use unl_constraints::Compiled;
use unl_context::Context;
use unl_delta::keyed::{Keyed, found};
use unl_documents::{Constraint, List, Memory, Segment, Shared};

/// A segment and its compiled constraints. In contracts the value is the segment.
#[derive(Drop)]
pub(crate) struct CompiledSegment {
    document: Shared<Segment>,
    constraints: List<Compiled>,
}

impl Model for CompiledSegment {
    ghost use Rattle.std.specs.Prelude.{◌≡◌};
    ghost use Rattle.unl_documents.specs.declared.segment.Segment.{Segment};

    ghost Value = { Segment };

    ghost view = { λ s. s.document };

    ghost invariant = { λ s. s.constraints ≡ s.document.constraints };
}

impl CompiledSegment {
    /// Compiles a segment's constraints.
    pub(crate) fn new(alloc: Global, document: &Shared<Segment>) -> Result<CompiledSegment, Memory>
        ensures { IfOk result (λ s. s ≡ document.now) }
    {
        let constraints = compiled(alloc, document.get().constraints.as_slice())?;
        Ok(CompiledSegment {
            constraints,
            document: document.copy()?,
        })
    }

    /// Whether a context meets all constraints of the segment. `now` is in milliseconds since 1970.
    fn holds(&self, alloc: Global, context: &Context, now: u64) -> Result<bool, Memory>
        ensures { IfOk result (λ b. b ≡ all_hold self.now.constraints context.now now) }
    {
        Compiled::all_hold(alloc, self.constraints.as_slice(), context, now)
    }
}

impl Keyed for CompiledSegment {
    ghost use Rattle.unl_documents.specs.States.{id_key};

    type Key = u64;

    ghost key = { id_key };

    fn key(&self) -> &u64 {
        &self.document.get().id
    }
}

/// Compiles the constraints, in their order.
pub(crate) fn compiled(alloc: Global, constraints: &[Constraint]) -> Result<List<Compiled>, Memory>
    ensures { IfOk result (λ all. all ≡ constraints.now) }
{
    let mut all = List::with_room(alloc, constraints.len())?;
    for constraint in constraints {
        all.push(Compiled::new(alloc, constraint)?)?;
    }
    Ok(all)
}

/// Whether each id names one of the segments, and the context meets all constraints of that segment. The segments are
/// in ascending order of their ids. `now` is in milliseconds since 1970.
pub(crate) fn all_met(
    alloc: Global,
    ids: &[u64],
    segments: &[Shared<CompiledSegment>],
    context: &Context,
    now: u64,
) -> Result<bool, Memory>
    requires { AreRising (map id_key segments.now) }
    ensures { IfOk result (λ b. b ≡ list_all (is_segment_met segments.now context.now now) ids.now) }
{
    for id in ids {
        if !is_met(alloc, *id, segments, context, now)? {
            return Ok(false);
        }
    }
    Ok(true)
}

#[tactic(auto, unfolding(unl_strategies::specs::Strategy::is_segment_met))]
fn is_met(
    alloc: Global,
    id: u64,
    segments: &[Shared<CompiledSegment>],
    context: &Context,
    now: u64,
) -> Result<bool, Memory>
    requires { AreRising (map id_key segments.now) }
    ensures { IfOk result (λ b. b ≡ is_segment_met segments.now context.now now id) }
{
    match segment_of(segments, id) {
        None => Ok(false),
        Some(segment) => segment.holds(alloc, context, now),
    }
}

/// Finds a segment by its id, by binary search. The segments are in ascending order of their ids.
fn segment_of(segments: &[Shared<CompiledSegment>], id: u64) -> Option<&CompiledSegment>
    requires { AreRising (map id_key segments.now) }
    ensures { option_map (λ s. s.now) result ≡ segment_with id segments.now }
{
    found(segments, &id)
}
