//! Writes the bulk report in which the counts of an environment are sent upstream.
ghost use Rattle.std.specs.Prelude.{◌≡◌, ◌<◌, ◌==◌, ◌^◌, false, if◌then◌else◌, IfOk, All, length, map, option_map, take};
ghost use Rattle.serde_json.specs.View.{view, items_of};
ghost use Rattle.serde_json.specs.Written.{has_float, compact_text};
ghost use Rattle.unl_metrics.specs.Book.{counted_in, IsCounted};
ghost use Rattle.unl_metrics.specs.Bulk.{bulk, bulk_of_items, counted_data, room_for};

use crate::row::Row;
use serde_json::{Map, Value};
use std::alloc::Global;
use unl_documents::kind::AnyText;
use unl_documents::to_value::{ListJson, put, put_value};
use unl_documents::{Field, List, Memory, Shared, Text};

/// The greatest length of a bulk report's text, in bytes.
const LONGEST: usize = 1_048_576;

/// The length of the text of a bulk report without rows, in bytes.
const EMPTY: usize = 32;

/// The rows of an environment. They are shared with `rows`, not copied.
fn rows_of(
    alloc: Global,
    rows: &[Shared<Row>],
    environment: &str,
) -> Result<Vec<Shared<Row>>, Memory>
    ensures { IfOk result (λ found. found.items ≡ counted_in environment.now rows.now) }
{
    let mut found = Vec::new(alloc);
    for row in rows {
        if row.get().is_of(environment) {
            found.push(row.copy()?)?;
        }
    }
    Ok(found)
}

/// The JSON values of the rows in the longest prefix of `rows` that fits into one bulk report. The rows must be valid.
fn fitting_values(alloc: Global, rows: &[Shared<Row>]) -> Result<Vec<Value>, Memory>
    requires { All IsCounted rows.now }
    ensures values { IfOk result (λ values. map view values.items ≡ map counted_data (take (room_for rows.now) rows.now)) }
    ensures count { IfOk result (λ values. length values.items ≡ room_for rows.now) }
{
    let mut values = Vec::new(alloc);
    let mut length = EMPTY;
    for row in rows {
        let value = row.get().write(alloc)?;
        let longer = length + length_of(alloc, &value)? + comma(values.len());
        if longer > LONGEST {
            return Ok(values);
        }
        length = longer;
        values.push(value)?;
    }
    Ok(values)
}

/// The length of a value's text, in bytes.
fn length_of(alloc: Global, value: &Value) -> Result<usize, Memory>
    requires { has_float (view value.now) ≡ false }
    ensures length { IfOk result (λ n. n ≡ length (compact_text (view value.now))) }
    ensures bound { IfOk result (λ n. n < 2 ^ 63) }
{
    Ok(value.to_string(alloc)?.len())
}

/// The number of separator bytes before an item of the report, given the number of items before that item.
fn comma(before: usize) -> usize
    ensures { result ≡ (if before == 0 then 0 else 1) }
{
    if before == 0 { 0 } else { 1 }
}

/// The bulk report of rows that are already JSON.
#[tactic(auto, unfolding(crate::specs::Bulk::bulk_of_items))]
fn bulk_value(alloc: Global, values: Vec<Value>) -> Result<Value, Memory>
    ensures { IfOk result (λ v. view v ≡ bulk_of_items (items_of (map view values.items))) }
{
    let mut members = Map::new(alloc);
    put_value(&mut members, alloc, Field::Metrics, Value::Array(values))?;
    let none: List<Text> = List::new(alloc);
    put::<ListJson<AnyText>>(&mut members, alloc, Field::Applications, &none)?;
    Ok(Value::Object(members))
}

/// The bulk report of an environment, as a JSON value, and the number of keys in it, or `None` if the environment has
/// no key. The rows must be valid.
pub(crate) fn bulk(
    alloc: Global,
    rows: &[Shared<Row>],
    environment: &str,
) -> Result<Option<(Value, usize)>, Memory>
    requires { All IsCounted rows.now }
    ensures { IfOk result (λ found. option_map (λ sent. (view sent.0, sent.1)) found ≡ bulk environment.now rows.now) }
{
    let rows = rows_of(alloc, rows, environment)?;
    if rows.is_empty() {
        return Ok(None);
    }
    let values = fitting_values(alloc, rows.as_slice())?;
    let count = values.len();
    Ok(Some((bulk_value(alloc, values)?, count)))
}
