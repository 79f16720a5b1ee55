//! Converts an explanation (why a feature is on or off) to a line of JSON.
ghost use Rattle.std.specs.Prelude.{◌≡◌, ◌++◌, false, codes, IfOk, OnOk, option_map, string_bytes};
ghost use Rattle.serde_json.specs.Data.{put as with_key, string};
ghost use Rattle.serde_json.specs.View.{members_view, view};
ghost use Rattle.serde_json.specs.Written.{compact_text, has_float};
ghost use Rattle.unl_documents.specs.Writing.{with_some};
ghost use Rattle.unl_documents.specs.declared.field.Field.TheVariants as field;
ghost use Rattle.unl_explain.specs.Line.{cause_text, evaluation_data, explanation_data, explanation_line, first_data, origin_text};
ghost use Rattle.unl_explain.specs.Line.{parent_data, reason_data, segment_data, strategy_data, variant_data, parent_variant};

use crate::reason::{Origin, ParentCause, ParentReason, Reason, SegmentReason, StrategyReason};
use serde_json::{Map, Value};
use std::alloc::{AllocError, Global};
use unl_dependencies::{Evaluation, VariantAnswer};
use unl_documents::kind::{AnyText, AnyWhole, Boolean};
use unl_documents::to_value::{ListJson, ToValue, put, put_some};
use unl_documents::{Field, List, Memory, PayloadJson};

/// Returns the line for an explanation: a JSON object with its keys in byte order, or `null` if there is no explanation
/// (the state lacks the feature).
#[tactic(auto, unfolding(crate::specs::Line::explanation_line))]
pub(crate) fn explanation_line(alloc: Global, reason: &Option<Reason>) -> Result<List<u8>, Memory>
    ensures { IfOk result (λ line. line ≡ explanation_line reason.now) }
{
    let value = explanation_value(alloc, reason)?;
    let text = plain_text(alloc, &value)?;
    let line = ended(alloc, &text)?;
    Ok(List::from_vec(line.into_bytes()))
}

/// Converts an explanation to JSON, or returns null if there is none.
#[tactic(auto, unfolding(crate::specs::Line::explanation_data))]
fn explanation_value(alloc: Global, reason: &Option<Reason>) -> Result<Value, Memory>
    ensures written { IfOk result (λ v. view v ≡ explanation_data reason.now) }
{
    match reason {
        None => Ok(Value::Null),
        Some(reason) => reason_value(alloc, reason),
    }
}

/// Returns the JSON text of a value that contains no floating-point number.
fn plain_text(alloc: Global, value: &Value) -> Result<String, Memory>
    requires { has_float (view value.now) ≡ false }
    ensures { IfOk result (λ s. string_bytes s ≡ compact_text (view value.now)) }
{
    Ok(value.to_string(alloc)?)
}

/// Returns the text with a line feed appended.
fn ended(alloc: Global, text: &str) -> Result<String, AllocError>
    ensures { IfOk result (λ line. string_bytes line ≡ text.now ++ codes "\n") }
{
    format!(in alloc; "{text}\n")
}

/// Inserts a value at a key of an object.
fn put_at(
    members: &mut Map<String, Value>,
    alloc: Global,
    key: &str,
    value: Value,
) -> Result<(), Memory>
    ensures { OnOk result (members_view members.new.entries ≡ with_key key.now (view value) (members_view members.old.entries)) }
{
    serde_json::put(members, alloc, key, value)?;
    Ok(())
}

/// Converts an explanation to JSON.
#[tactic(auto, unfolding(crate::specs::Line::reason_data))]
fn reason_value(alloc: Global, reason: &Reason) -> Result<Value, Memory>
    ensures { IfOk result (λ v. view v ≡ reason_data reason.now) }
{
    let mut members = Map::new(alloc);
    put::<ListJson<StrategyReasonJson>>(
        &mut members,
        alloc,
        Field::Strategies,
        &reason.strategies,
    )?;
    put_at(
        &mut members,
        alloc,
        "source",
        origin_value(alloc, reason.source)?,
    )?;
    let parents = ListJson::<ParentReasonJson>::write(alloc, &reason.parents)?;
    put_at(&mut members, alloc, "parents", parents)?;
    put_at(&mut members, alloc, "first", first_value(reason.first))?;
    put_at(
        &mut members,
        alloc,
        "evaluation",
        evaluation_value(alloc, &reason.evaluation)?,
    )?;
    put::<Boolean>(&mut members, alloc, Field::Enabled, &reason.enabled)?;
    Ok(Value::Object(members))
}

/// Converts the index of the first active strategy to JSON: a number, or null if there is no active strategy.
fn first_value(first: Option<u32>) -> Value
    ensures { view result ≡ first_data first }
{
    match first {
        None => Value::Null,
        Some(place) => Value::from(place),
    }
}

/// Converts the origin of a variant to JSON: `none` (no variant), `strategy` (the first active strategy) or `own` (the
/// feature's own variants).
fn origin_value(alloc: Global, origin: Origin) -> Result<Value, Memory>
    ensures { IfOk result (λ v. view v ≡ string (origin_text origin)) }
{
    match origin {
        Origin::NoVariant => word(alloc, "none"),
        Origin::Strategy => word(alloc, "strategy"),
        Origin::Own => word(alloc, "own"),
    }
}

/// Converts a word to a JSON string.
fn word(alloc: Global, text: &str) -> Result<Value, Memory>
    ensures { IfOk result (λ v. view v ≡ string text.now) }
{
    Ok(Value::try_from_str(alloc, text)?)
}

/// Converts an evaluation to JSON.
#[tactic(auto, unfolding(crate::specs::Line::evaluation_data))]
fn evaluation_value(alloc: Global, evaluation: &Evaluation) -> Result<Value, Memory>
    ensures { IfOk result (λ v. view v ≡ evaluation_data evaluation.now) }
{
    let mut members = Map::new(alloc);
    let variant = variant_value(alloc, &evaluation.variant)?;
    put_at(&mut members, alloc, "variant", variant)?;
    put_at(&mut members, alloc, "on", Value::from(evaluation.on))?;
    Ok(Value::Object(members))
}

/// Converts the variant of an evaluation to JSON.
#[tactic(auto, unfolding(crate::specs::Line::variant_data))]
fn variant_value(alloc: Global, variant: &VariantAnswer) -> Result<Value, Memory>
    ensures { IfOk result (λ v. view v ≡ variant_data variant.now) }
{
    let mut members = Map::new(alloc);
    put::<AnyText>(&mut members, alloc, Field::Name, &variant.name)?;
    put::<Boolean>(&mut members, alloc, Field::Enabled, &variant.enabled)?;
    put_some::<PayloadJson>(&mut members, alloc, Field::Payload, &variant.payload)?;
    Ok(Value::Object(members))
}

/// How the reason for a parent is written as a JSON object.
struct ParentReasonJson;

impl ToValue for ParentReasonJson {
    type In = ParentReason;

    ghost written = { parent_data };

    #[tactic(auto, unfolding(crate::specs::Line::parent_data))]
    fn write(alloc: Global, reason: &ParentReason) -> Result<Value, Memory> {
        let mut members = Map::new(alloc);
        put_at(&mut members, alloc, "met", Value::from(reason.met))?;
        put::<AnyText>(&mut members, alloc, Field::Feature, &reason.feature)?;
        put_at(
            &mut members,
            alloc,
            "cause",
            cause_value(alloc, &reason.cause)?,
        )?;
        put_variant(&mut members, alloc, &reason.cause)?;
        Ok(Value::Object(members))
    }
}

/// Converts the status of a parent (a feature that the explained feature depends on) to JSON: `absent`, `has-parents`,
/// `on` or `off`.
fn cause_value(alloc: Global, cause: &ParentCause) -> Result<Value, Memory>
    ensures { IfOk result (λ v. view v ≡ string (cause_text cause.now)) }
{
    match cause {
        ParentCause::Absent => word(alloc, "absent"),
        ParentCause::HasParents => word(alloc, "has-parents"),
        ParentCause::On(_) => word(alloc, "on"),
        ParentCause::Off => word(alloc, "off"),
    }
}

/// If the parent is on, inserts the name of the parent's variant at the key `variant`. Otherwise does nothing.
fn put_variant(
    members: &mut Map<String, Value>,
    alloc: Global,
    cause: &ParentCause,
) -> Result<(), Memory>
    ensures { OnOk result (members_view members.new.entries
        ≡ with_some field.Variant (option_map string (parent_variant cause.now)) (members_view members.old.entries)) }
{
    match cause {
        ParentCause::On(variant) => put::<AnyText>(members, alloc, Field::Variant, variant),
        ParentCause::Absent | ParentCause::HasParents | ParentCause::Off => Ok(()),
    }
}

/// How the reason for a strategy is written as a JSON object.
struct StrategyReasonJson;

impl ToValue for StrategyReasonJson {
    type In = StrategyReason;

    ghost written = { strategy_data };

    #[tactic(auto, unfolding(crate::specs::Line::strategy_data))]
    fn write(alloc: Global, reason: &StrategyReason) -> Result<Value, Memory> {
        let mut members = Map::new(alloc);
        put::<ListJson<SegmentReasonJson>>(&mut members, alloc, Field::Segments, &reason.segments)?;
        put_at(&mut members, alloc, "rule", Value::from(reason.rule))?;
        put::<AnyText>(&mut members, alloc, Field::Name, &reason.name)?;
        put::<ListJson<Boolean>>(&mut members, alloc, Field::Constraints, &reason.constraints)?;
        put_at(&mut members, alloc, "active", Value::from(reason.active))?;
        Ok(Value::Object(members))
    }
}

/// How the reason for a segment is written as a JSON object.
struct SegmentReasonJson;

impl ToValue for SegmentReasonJson {
    type In = SegmentReason;

    ghost written = { segment_data };

    #[tactic(auto, unfolding(crate::specs::Line::segment_data))]
    fn write(alloc: Global, reason: &SegmentReason) -> Result<Value, Memory> {
        let mut members = Map::new(alloc);
        put::<AnyWhole>(&mut members, alloc, Field::Id, &reason.id)?;
        put_at(&mut members, alloc, "found", Value::from(reason.found))?;
        put::<ListJson<Boolean>>(&mut members, alloc, Field::Constraints, &reason.constraints)?;
        Ok(Value::Object(members))
    }
}
