//! The body of the frontend endpoints, as a JSON value.
ghost use Rattle.std.specs.Prelude.{◌≡◌, ◌++◌, IfOk, map};
ghost use Rattle.serde_json.specs.View.{view};
ghost use Rattle.unl_compiled.specs.Toggles.{body_for, toggle_data, variant_data, written_toggles};

use crate::collect::{ToggleSink, collect};
use crate::query::ToggleQuery;
use serde_json::{Map, Value};
use std::alloc::Global;
use unl_dependencies::{Evaluation, VariantAnswer};
use unl_documents::kind::{AnyText, Boolean};
use unl_documents::to_value::{put, put_some, put_value};
use unl_documents::{Feature, Field, Memory, PayloadJson};

/// The body for a query. Fails only if out of memory.
#[tactic(auto, unfolding(crate::specs::Toggles::toggles_data))]
pub(crate) fn toggles_of(alloc: Global, query: &ToggleQuery) -> Result<Value, Memory>
    ensures { IfOk result (λ v. view v ≡ body_for query.now) }
{
    let mut toggles = Vec::new(alloc);
    collect(&mut toggles, alloc, query)?;
    write_toggles(alloc, toggles)
}

#[tactic(auto, unfolding(crate::specs::Toggles::written_toggles))]
fn write_toggles(alloc: Global, toggles: Vec<Value>) -> Result<Value, Memory>
    ensures { IfOk result (λ v. view v ≡ written_toggles (map view toggles.items)) }
{
    let mut members = Map::new(alloc);
    put_value(&mut members, alloc, Field::Toggles, Value::Array(toggles))?;
    Ok(Value::Object(members))
}

impl ToggleSink for Vec<Value> {
    ghost use Rattle.unl_compiled.specs.Appending.{joins_values, none_value};

    ghost appends = { λ ds old new. map view new.items ≡ map view old.items ++ ds };

    ghost none = { λ sink. none_value (map view sink.items) };

    ghost joins = { λ first second start middle end. joins_values first second _ _ _ };

    fn append(
        &mut self,
        alloc: Global,
        feature: &Feature,
        evaluation: &Evaluation,
    ) -> Result<(), Memory> {
        self.push(write_toggle(alloc, feature, evaluation)?)?;
        Ok(())
    }
}

#[tactic(auto, unfolding(crate::specs::Toggles::toggle_data))]
fn write_toggle(alloc: Global, feature: &Feature, evaluation: &Evaluation) -> Result<Value, Memory>
    ensures { IfOk result (λ v. view v ≡ toggle_data feature.now evaluation.now) }
{
    let mut members = Map::new(alloc);
    let variant = write_variant(alloc, evaluation.on, &evaluation.variant)?;
    put_value(&mut members, alloc, Field::Variant, variant)?;
    put::<AnyText>(&mut members, alloc, Field::Name, &feature.name)?;
    put::<Boolean>(
        &mut members,
        alloc,
        Field::ImpressionData,
        &feature.impression,
    )?;
    put::<Boolean>(&mut members, alloc, Field::Enabled, &evaluation.on)?;
    Ok(Value::Object(members))
}

#[tactic(auto, unfolding(crate::specs::Toggles::variant_data))]
fn write_variant(alloc: Global, on: bool, variant: &VariantAnswer) -> Result<Value, Memory>
    ensures { IfOk result (λ v. view v ≡ variant_data on variant.now) }
{
    let mut members = Map::new(alloc);
    put::<AnyText>(&mut members, alloc, Field::Name, &variant.name)?;
    put::<Boolean>(&mut members, alloc, Field::FeatureEnabled, &on)?;
    put::<Boolean>(&mut members, alloc, Field::Enabled, &variant.enabled)?;
    put_some::<PayloadJson>(&mut members, alloc, Field::Payload, &variant.payload)?;
    Ok(Value::Object(members))
}
