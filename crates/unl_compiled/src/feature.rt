//! Features with compiled constraints: the constraints' values are sorted or parsed once, for many evaluations.
ghost use Rattle.std.specs.Prelude.{◌≡◌, ◌<◌, ◌&&◌, Some, IfOk, length, map, option_map, slice_get};
ghost use Rattle.std.specs.List.{list_all};
ghost use Rattle.unl_constraints.specs.Constraint.{all_hold};
ghost use Rattle.unl_dependencies.specs.Evaluation.{is_active_at};
ghost use Rattle.unl_documents.specs.Parameters.{AreRising};
ghost use Rattle.unl_documents.specs.States.{id_key};
ghost use Rattle.unl_strategies.specs.Strategy.{is_segment_met};

use crate::segment::{CompiledSegment, all_met, compiled};
use std::alloc::Global;
use std::marker::Model;
use unl_constraints::Compiled;
use unl_context::Context;
use unl_delta::keyed::Keyed;
use unl_documents::{Feature, List, Memory, Shared, Strategy, Text};
use unl_strategies::{Moment, rule};

/// A feature and the compiled constraints of each of its strategies. In contracts the value is the feature.
#[derive(Drop)]
pub(crate) struct CompiledFeature {
    document: Shared<Feature>,
    constraints: List<List<Compiled>>,
}

impl Model for CompiledFeature {
    ghost use Rattle.std.specs.Prelude.{◌≡◌, map};
    ghost use Rattle.unl_documents.specs.declared.feature.Feature.{Feature};

    ghost Value = { Feature };

    ghost view = { λ f. f.document };

    ghost invariant = { λ f. f.constraints ≡ map (λ s. s.constraints) f.document.strategies };
}

impl CompiledFeature {
    /// Compiles the constraints of a feature's strategies.
    pub(crate) fn new(alloc: Global, document: &Shared<Feature>) -> Result<CompiledFeature, Memory>
        ensures { IfOk result (λ f. f ≡ document.now) }
    {
        let strategies = document.get().strategies.as_slice();
        Ok(CompiledFeature {
            constraints: compiled_each(alloc, strategies)?,
            document: document.copy()?,
        })
    }

    /// The feature's document.
    pub(crate) fn document(&self) -> &Feature
        ensures { result.now ≡ self.now }
    {
        self.document.get()
    }

    /// The compiled constraints of the strategy at an index, counted from 0. The strategy must exist.
    pub(crate) fn constraints(&self, place: usize) -> &List<Compiled>
        requires { place < length self.now.strategies }
        ensures { Some result.now ≡ option_map (λ s. s.constraints) (slice_get self.now.strategies place) }
    {
        &self.constraints.as_slice()[place]
    }

    /// Whether the feature has a strategy at the index `place`, counted from 0, and that strategy is active for the
    /// context at the moment. The segments are in ascending order of their ids.
    #[tactic(auto, unfolding(unl_strategies::specs::Strategy::is_active))]
    pub(crate) fn is_active(
        &self,
        alloc: Global,
        place: u32,
        segments: &[Shared<CompiledSegment>],
        context: &Context,
        moment: &Moment,
    ) -> Result<bool, Memory>
        requires { AreRising (map id_key segments.now) }
        ensures { IfOk result (λ b. b ≡ is_active_at self.now segments.now context.now moment.entry.now place) }
    {
        match self.document().strategies.get(place as usize) {
            None => Ok(false),
            Some(strategy) => {
                let constraints = self.constraints(place as usize).as_slice();
                if !is_eligible(alloc, strategy, constraints, segments, context, moment.now)? {
                    return Ok(false);
                }
                rule(
                    alloc,
                    strategy,
                    &self.document().name,
                    place,
                    context,
                    moment,
                )
            }
        }
    }
}

/// Whether a context meets all constraints of a strategy (`constraints` are their compiled form) and each segment that
/// the strategy names. A segment that is not among `segments` is not met. The segments are in ascending order of their
/// ids. `now` is in milliseconds since 1970.
fn is_eligible(
    alloc: Global,
    strategy: &Strategy,
    constraints: &[Compiled],
    segments: &[Shared<CompiledSegment>],
    context: &Context,
    now: u64,
) -> Result<bool, Memory>
    requires rising { AreRising (map id_key segments.now) }
    requires constraints { constraints.now ≡ strategy.now.constraints }
    ensures { IfOk result (λ b. b ≡ (all_hold strategy.now.constraints context.now now
        && list_all (is_segment_met segments.now context.now now) strategy.now.segments)) }
{
    if !Compiled::all_hold(alloc, constraints, context, now)? {
        return Ok(false);
    }
    all_met(alloc, strategy.segments.as_slice(), segments, context, now)
}

impl Keyed for CompiledFeature {
    ghost use Rattle.unl_documents.specs.States.{name_key};

    type Key = Text;

    ghost key = { name_key };

    fn key(&self) -> &Text {
        &self.document().name
    }
}

/// Compiles the constraints of each strategy, in order.
fn compiled_each(alloc: Global, strategies: &[Strategy]) -> Result<List<List<Compiled>>, Memory>
    ensures { IfOk result (λ all. all ≡ map (λ s. s.constraints) strategies.now) }
{
    let mut all = List::with_room(alloc, strategies.len())?;
    for strategy in strategies {
        all.push(compiled(alloc, strategy.constraints.as_slice())?)?;
    }
    Ok(all)
}
