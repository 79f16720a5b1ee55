//! A row of the metrics book: a key and the counts at that key.
ghost use Rattle.std.specs.Prelude.{◌≡◌, ◌≤◌, ℕ, List, false, T, fold, IfOk, OnOk, length, map, slice_get};
ghost use Rattle.std.specs.Cmp.Lexicographic.{slice_cmp};
ghost use Rattle.std.specs.FinMap.Entries.{is_sorted};
ghost use Rattle.std.specs.Option.{option_map_or};
ghost use Rattle.std.specs.Ordering.{nat_cmp, is_eq};
ghost use Rattle.serde_json.specs.Data.{no_members};
ghost use Rattle.serde_json.specs.View.{view, members_view};
ghost use Rattle.unl_metrics.specs.Bulk.{variants_data, with_counts, counted_data};
ghost use Rattle.unl_metrics.specs.Book.{counted, key_cmp, is_of, has_few_variants, tally_sum, sum, with_variant, pair, key_of, tally_of};
ghost use Rattle.unl_metrics.specs.Book.{place, IsCounted};

use crate::hours::hour_text;
use crate::report::{MetricEntry, VariantCount};
use serde_json::{Map, Value};
use std::alloc::Global;
use std::cmp::Ordering;
use std::marker::Model;
use unl_documents::kind::{AnyText, AnyWhole};
use unl_documents::to_value::{ToValue, put, put_value};
use unl_documents::{Field, List, Memory, Text, TryClone};

/// A key of the book and its tally (the counts at the key), stored as an environment and a report entry.
#[derive(Drop)]
pub(crate) struct Row {
    environment: Text,
    entry: MetricEntry,
}

impl Model for Row {
    ghost use Rattle.unl_metrics.specs.Book.{MetricKey, Tally, counted};

    ghost Value = { MetricKey × Tally };

    ghost view = { λ r. counted r.environment r.entry };
}

impl Row {
    /// The row of an entry in an environment.
    pub(crate) fn new(alloc: Global, environment: &str, entry: &MetricEntry) -> Result<Row, Memory>
        ensures { IfOk result (λ row. row ≡ counted environment.now entry.now) }
    {
        Ok(Row {
            environment: Text::new(alloc, environment)?,
            entry: entry.copy(alloc)?,
        })
    }

    /// Compares the keys: by environment, then app, then feature, then hour. Texts are compared byte by byte.
    pub(crate) fn compare(&self, other: &Row) -> Ordering
        ensures { result ≡ key_cmp self.now.0 other.now.0 }
    {
        compare(self.environment.as_str(), other.environment.as_str())
            .then(compare(self.entry.app.as_str(), other.entry.app.as_str()))
            .then(compare(self.entry.feature.as_str(), other.entry.feature.as_str()))
            .then(self.entry.hour.cmp(&other.entry.hour))
    }

    /// Whether the key is in the environment.
    pub(crate) fn is_of(&self, environment: &str) -> bool
        ensures { result ≡ is_of environment.now self.now.0 }
    {
        self.environment.as_str() == environment
    }

    /// Whether the tally has at most 100 variants.
    pub(crate) fn has_few_variants(&self) -> bool
        ensures { result ≡ has_few_variants self.now }
    {
        self.entry.variants.len() <= 100
    }

    /// A row with this row's key and the sum of both rows' tallies. This row must be valid.
    pub(crate) fn plus(&self, alloc: Global, other: &Row) -> Result<Row, Memory>
        requires { IsCounted self.now }
        ensures { IfOk result (λ row. row ≡ (self.now.0, tally_sum self.now.1 other.now.1)) }
    {
        Ok(Row {
            environment: self.environment.copy(alloc)?,
            entry: entry_sum(alloc, &self.entry, &other.entry)?,
        })
    }
}

/// Compares two texts byte by byte.
fn compare(this: &str, that: &str) -> Ordering
    ensures { result ≡ slice_cmp nat_cmp this.now that.now }
{
    this.cmp(that)
}

/// The sum of two counts, saturating at 2^64 - 1.
fn sum(a: u64, b: u64) -> u64
    ensures { result ≡ sum a b }
{
    a.saturating_add(b)
}

/// The sum of two entries: the app, feature and hour of the first entry, and the sums of the counts. The variants of
/// the first entry must be in ascending order of names.
#[tactic(auto, unfolding(crate::specs::Book::tally_sum))]
fn entry_sum(alloc: Global, this: &MetricEntry, that: &MetricEntry) -> Result<MetricEntry, Memory>
    requires { T (is_sorted (slice_cmp nat_cmp) (map pair this.now.variants)) }
    ensures key { IfOk result (λ e. (environment : List ℕ) → key_of environment e ≡ key_of environment this.now) }
    ensures tally { IfOk result (λ e. tally_of e ≡ tally_sum (tally_of this.now) (tally_of that.now)) }
{
    Ok(MetricEntry {
        app: this.app.copy(alloc)?,
        feature: this.feature.copy(alloc)?,
        hour: this.hour,
        yes: sum(this.yes, that.yes),
        no: sum(this.no, that.no),
        variants: variants_sum(alloc, &this.variants, that.variants.as_slice())?,
    })
}

/// The sum of two lists of variant counts: counts of the same variant are added. The names of the first list
/// must be in ascending order.
fn variants_sum(
    alloc: Global,
    these: &List<VariantCount>,
    those: &[VariantCount],
) -> Result<List<VariantCount>, Memory>
    requires { T (is_sorted (slice_cmp nat_cmp) (map pair these.now)) }
    ensures { IfOk result (λ counts. map pair counts ≡ fold with_variant (map pair these.now) (map pair those.now)) }
{
    let mut counts = these.copy(alloc)?.into_vec();
    for count in those {
        add_variant(&mut counts, alloc, count)?;
    }
    Ok(List::from_vec(counts))
}

/// Adds a count to that of the same variant, or inserts it in order if there is none. The names must be in ascending
/// order.
fn add_variant(
    counts: &mut Vec<VariantCount>,
    alloc: Global,
    count: &VariantCount,
) -> Result<(), Memory>
    requires { T (is_sorted (slice_cmp nat_cmp) (map pair counts.old.items)) }
    ensures { OnOk result (map pair counts.new.items ≡ with_variant (map pair counts.old.items) (pair count.now)) }
{
    let place = place_of(counts.as_slice(), count.name.as_str());
    if is_at(counts.as_slice(), place, count.name.as_str()) {
        counts[place].count = sum(counts[place].count, count.count);
        return Ok(());
    }
    counts.insert(place, count.copy(alloc)?)?;
    Ok(())
}

/// The position of a name in the list, or where the name would be inserted, by binary search. The names must be in
/// ascending order.
fn place_of(counts: &[VariantCount], name: &str) -> usize
    requires { T (is_sorted (slice_cmp nat_cmp) (map pair counts.now)) }
    ensures place { result ≡ place (slice_cmp nat_cmp) name.now (map pair counts.now) }
    ensures inside { result ≤ length counts.now }
{
    counts.partition_point(|count| compare(count.name.as_str(), name).is_lt())
}

/// Whether the count at the position has the name.
fn is_at(counts: &[VariantCount], place: usize, name: &str) -> bool
    ensures { result ≡ option_map_or (λ v. is_eq (slice_cmp nat_cmp v.name name.now)) (slice_get counts.now place) false }
{
    match counts.get(place) {
        Some(count) => compare(count.name.as_str(), name).is_eq(),
        None => false,
    }
}

impl Row {
    /// The row, which must be valid, as an item of a bulk report, as a JSON value.
    #[tactic(auto, unfolding(crate::specs::Bulk::counted_data))]
    pub(crate) fn write(&self, alloc: Global) -> Result<Value, Memory>
        requires { IsCounted self.now }
        ensures { IfOk result (λ v. view v ≡ counted_data self.now) }
    {
        let mut members = Map::new(alloc);
        put::<AnyWhole>(&mut members, alloc, Field::Yes, &self.entry.yes)?;
        let variants = variants_value(alloc, self.entry.variants.as_slice())?;
        put_value(&mut members, alloc, Field::Variants, variants)?;
        let hour = hour_text(alloc, self.entry.hour)?;
        put::<AnyText>(&mut members, alloc, Field::Timestamp, &hour)?;
        put::<AnyWhole>(&mut members, alloc, Field::No, &self.entry.no)?;
        put::<AnyText>(&mut members, alloc, Field::FeatureName, &self.entry.feature)?;
        put::<AnyText>(&mut members, alloc, Field::Environment, &self.environment)?;
        put::<AnyText>(&mut members, alloc, Field::AppName, &self.entry.app)?;
        Ok(Value::Object(members))
    }
}

/// The variant counts as a JSON object.
#[tactic(auto, unfolding(crate::specs::Bulk::variants_data))]
fn variants_value(alloc: Global, counts: &[VariantCount]) -> Result<Value, Memory>
    ensures { IfOk result (λ v. view v ≡ variants_data (map pair counts.now)) }
{
    Ok(Value::Object(members_of(alloc, counts)?))
}

fn members_of(alloc: Global, counts: &[VariantCount]) -> Result<Map<String, Value>, Memory>
    ensures { IfOk result (λ m. members_view m.entries ≡ with_counts (map pair counts.now) no_members) }
{
    let mut members = Map::new(alloc);
    for count in counts {
        let value = AnyWhole::write(alloc, &count.count)?;
        serde_json::put(&mut members, alloc, count.name.as_str(), value)?;
    }
    Ok(members)
}
