//! Reads reports of metrics from parsed JSON values.
ghost use Rattle.std.specs.Prelude.{◌≡◌, ◌≤◌, IfOk, All, map, length};
ghost use Rattle.serde_json.specs.Events.{members_len};
ghost use Rattle.serde_json.specs.View.{view, members_view};
ghost use Rattle.unl_documents.specs.Kinds.{object_of, required as required_at};
ghost use Rattle.unl_documents.specs.Limits.{IsName};
ghost use Rattle.unl_documents.specs.Parameters.{AreRising};
ghost use Rattle.unl_documents.specs.Reading.{Gives};
ghost use Rattle.unl_metrics.specs.Readable.{last_hour, HasValidName, AreVariants, IsReadable, AreReadable};
ghost use Rattle.unl_metrics.specs.Reports.{variant_count, each_member, members as members_at, entry_of, toggle_of, bucket_of, single_of};
ghost use Rattle.unl_metrics.specs.Reports.{bulk_of};

use crate::hours::Hour;
use crate::report::{MetricEntry, Report, VariantCount};
use serde_json::{Map, Value};
use std::alloc::Global;
use unl_documents::document::{Document, Object};
use unl_documents::items::ListOf;
use unl_documents::keys::{defaulted, required, value_at};
use unl_documents::kind::{AnyWhole, Kind, Name, name_of};
use unl_documents::{BadDocument, Field, List, Text, TryClone};

/// Reads the counts of variants: an object from names to whole numbers, with at most 100 members.
struct Variants;

impl Kind for Variants {
    type Out = List<VariantCount>;

    ghost reads = { members_at 100 variant_count };

    ghost is_valid = { AreVariants };

    #[tactic(auto, unfolding(crate::specs::Reports::members))]
    fn read(alloc: Global, field: Field, value: &Value) -> Result<List<VariantCount>, BadDocument> {
        let Some(members) = value.as_object() else {
            return Err(BadDocument::WrongKind(field));
        };
        let count = count_of(members);
        if count > 100 {
            return Err(BadDocument::TooLarge(field, count as u64));
        }
        each_variant(alloc, field, members)
    }
}

/// The number of members of an object.
fn count_of(members: &Map<String, Value>) -> usize
    ensures members { result ≡ members_len (members_view members.now.entries) }
    ensures len { result ≡ length members.now.entries }
{
    members.len()
}

/// Reads each member of an object as the count of a variant, up to the first fault.
fn each_variant(
    alloc: Global,
    field: Field,
    members: &Map<String, Value>,
) -> Result<List<VariantCount>, BadDocument>
    ensures gives { Gives result (each_member (variant_count field) (members_view members.now.entries)) }
    ensures rising { IfOk result (λ variants. AreRising (map (λ v. v.name) variants)) }
    ensures names { IfOk result (All HasValidName) }
    ensures len { IfOk result (λ variants. length variants ≤ length members.now.entries) }
{
    let mut variants = List::new(alloc);
    for (name, value) in members.iter() {
        variants.push(variant_of(alloc, field, name.as_str(), value)?)?;
    }
    Ok(variants)
}

/// Reads the count of one variant. First its name is checked, then its count.
#[tactic(auto, unfolding(crate::specs::Reports::variant_count))]
fn variant_of(
    alloc: Global,
    field: Field,
    name: &str,
    value: &Value,
) -> Result<VariantCount, BadDocument>
    ensures gives { Gives result (variant_count field name.now (view value.now)) }
    ensures same { IfOk result (λ v. v.name ≡ name.now) }
    ensures named { IfOk result HasValidName }
{
    let name = name_of(alloc, field, name)?;
    let count = AnyWhole::read(alloc, field, value)?;
    Ok(VariantCount { name, count })
}

/// Reads an entry, the counts of a feature in an app during an hour, from the keys `yes`, `no` and `variants` of an
/// object. A key that is absent or null counts as 0 or as no variants.
#[tactic(auto, unfolding(crate::specs::Reports::entry_of))]
fn entry_of(
    alloc: Global,
    app: Text,
    feature: Text,
    hour: u32,
    value: &Value,
) -> Result<MetricEntry, BadDocument>
    requires app { IsName app }
    requires feature { IsName feature }
    requires hour { hour ≤ last_hour }
    ensures gives { Gives result (entry_of app feature hour (view value.now)) }
    ensures valid { IfOk result IsReadable }
{
    let none = List::new(alloc);
    let yes = defaulted::<AnyWhole>(alloc, 0, Field::Yes, value)?;
    let no = defaulted::<AnyWhole>(alloc, 0, Field::No, value)?;
    let variants = defaulted::<Variants>(alloc, none, Field::Variants, value)?;
    Ok(MetricEntry {
        app,
        feature,
        hour,
        yes,
        no,
        variants,
    })
}

/// Reads one toggle, a member of the object at `toggles`. First its key is checked, which is the feature's name, and
/// then its value, which must be an object with counts.
#[tactic(auto, unfolding(crate::specs::Reports::toggle_of, unl_documents::specs::Kinds::object_of))]
fn toggle_of(
    alloc: Global,
    app: &Text,
    hour: u32,
    field: Field,
    feature: &str,
    value: &Value,
) -> Result<MetricEntry, BadDocument>
    requires app { IsName app.now }
    requires hour { hour ≤ last_hour }
    ensures gives { Gives result (toggle_of app.now hour field feature.now (view value.now)) }
    ensures valid { IfOk result IsReadable }
{
    let feature = name_of(alloc, field, feature)?;
    if !value.is_object() {
        return Err(BadDocument::WrongKind(field));
    }
    entry_of(alloc, app.copy(alloc)?, feature, hour, value)
}

/// Reads each member of an object as a toggle, up to the first fault.
fn each_toggle(
    alloc: Global,
    app: &Text,
    hour: u32,
    field: Field,
    members: &Map<String, Value>,
) -> Result<List<MetricEntry>, BadDocument>
    requires app { IsName app.now }
    requires hour { hour ≤ last_hour }
    ensures gives { Gives result (each_member (toggle_of app.now hour field) (members_view members.now.entries)) }
    ensures valid { IfOk result (All IsReadable) }
    ensures len { IfOk result (λ entries. length entries ≤ length members.now.entries) }
{
    let mut entries = List::new(alloc);
    for (feature, value) in members.iter() {
        entries.push(toggle_of(alloc, app, hour, field, feature.as_str(), value)?)?;
    }
    Ok(entries)
}

/// Reads the toggles of an app in an hour: an object from feature names to objects with counts, with at most 10,000
/// members. The number of members is checked before any member is read.
#[tactic(auto, unfolding(crate::specs::Reports::members))]
fn toggles_of(
    alloc: Global,
    app: &Text,
    hour: u32,
    field: Field,
    value: &Value,
) -> Result<List<MetricEntry>, BadDocument>
    requires app { IsName app.now }
    requires hour { hour ≤ last_hour }
    ensures gives { Gives result (members_at 10000 (toggle_of app.now hour) field (view value.now)) }
    ensures valid { IfOk result AreReadable }
{
    let Some(members) = value.as_object() else {
        return Err(BadDocument::WrongKind(field));
    };
    let count = count_of(members);
    if count > 10_000 {
        return Err(BadDocument::TooLarge(field, count as u64));
    }
    each_toggle(alloc, app, hour, field, members)
}

/// Reads an app's bucket, an object. Its `start` is required and gives the hour of all entries. Its `toggles` give the
/// entries; if that key is absent or null, there are no entries.
#[tactic(auto, unfolding(crate::specs::Reports::bucket_of, unl_documents::specs::Kinds::defaulted))]
fn bucket_of(alloc: Global, app: &Text, value: &Value) -> Result<List<MetricEntry>, BadDocument>
    requires { IsName app.now }
    ensures gives { Gives result (bucket_of app.now (view value.now)) }
    ensures valid { IfOk result AreReadable }
{
    let hour = required::<Hour>(alloc, Field::Start, value)?;
    match value_at(Field::Toggles, value) {
        None => Ok(List::new(alloc)),
        Some(toggles) => toggles_of(alloc, app, hour, Field::Toggles, toggles),
    }
}

/// Reads the report that one app sends.
///
/// # Errors
/// The fault of the app's name, otherwise the first fault of the app's bucket. `Memory`: out of memory.
#[tactic(auto, unfolding(crate::specs::Reports::single_of))]
pub(crate) fn read_single(alloc: Global, value: &Value) -> Result<Report, BadDocument>
    ensures gives { Gives result (single_of (view value.now)) }
    ensures valid { IfOk result (λ report. AreReadable report.entries) }
{
    let app = required::<Name>(alloc, Field::AppName, value)?;
    let entries = entries_of(alloc, &app, Field::Bucket, value)?;
    Ok(Report { entries })
}

/// Reads the bucket of an app at a key, which is required.
#[tactic(auto, unfolding(unl_documents::specs::Kinds::required, unl_documents::specs::Kinds::object_of))]
fn entries_of(
    alloc: Global,
    app: &Text,
    field: Field,
    value: &Value,
) -> Result<List<MetricEntry>, BadDocument>
    requires { IsName app.now }
    ensures gives { Gives result (required_at (object_of (bucket_of app.now)) field (view value.now)) }
    ensures valid { IfOk result AreReadable }
{
    match value_at(field, value) {
        None => Err(BadDocument::Missing(field)),
        Some(bucket) if bucket.is_object() => bucket_of(alloc, app, bucket),
        Some(_) => Err(BadDocument::WrongKind(field)),
    }
}

/// How an entry of a bulk report is read from a JSON object.
struct MetricEntryJson;

impl Document for MetricEntryJson {
    ghost use Rattle.unl_metrics.specs.Reports.{bulk_entry_of};

    type Out = MetricEntry;

    ghost reads_object = { bulk_entry_of };

    ghost is_valid = { IsReadable };

    #[tactic(auto, unfolding(crate::specs::Reports::bulk_entry_of))]
    fn read_object(alloc: Global, value: &Value) -> Result<MetricEntry, BadDocument> {
        let feature = required::<Name>(alloc, Field::FeatureName, value)?;
        let app = required::<Name>(alloc, Field::AppName, value)?;
        let hour = required::<Hour>(alloc, Field::Timestamp, value)?;
        entry_of(alloc, app, feature, hour, value)
    }
}

/// Reads the bulk report that an edge sends for its apps.
///
/// # Errors
/// The fault of the list `metrics`, such as more than 10,000 items, or else the first fault of an item. `Memory`: out
/// of memory.
#[tactic(auto, unfolding(crate::specs::Reports::bulk_of))]
pub(crate) fn read_bulk(alloc: Global, value: &Value) -> Result<Report, BadDocument>
    ensures gives { Gives result (bulk_of (view value.now)) }
    ensures valid { IfOk result (λ report. AreReadable report.entries) }
{
    let entries = required::<ListOf<Object<MetricEntryJson>, 10_000>>(
        alloc,
        Field::Metrics,
        value,
    )?;
    Ok(Report { entries })
}
