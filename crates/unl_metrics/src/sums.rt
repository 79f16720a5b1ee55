//! Adds rows, or the entries of a report, to the rows of a metrics book.
ghost use Rattle.std.specs.Prelude.{◌≡◌, ◌≤◌, false, T, IfOk, OnOk, All, length, map, slice_get};
ghost use Rattle.std.specs.List.{list_all};
ghost use Rattle.std.specs.FinMap.Entries.{is_sorted};
ghost use Rattle.std.specs.Option.{option_map_or};
ghost use Rattle.std.specs.Ordering.{is_eq};
ghost use Rattle.unl_metrics.specs.Book.{counted, key_cmp, with_tally, sum_of, fits, has_few_variants, place, IsCounted, HasOrderedKeys};
ghost use Rattle.unl_metrics.specs.Reports.{IsEntry};

use crate::report::MetricEntry;
use crate::row::Row;
use std::alloc::Global;
use unl_documents::{Memory, Shared};

/// A new list of the same rows. The rows are shared, not copied.
pub(crate) fn copies(alloc: Global, rows: &[Shared<Row>]) -> Result<Vec<Shared<Row>>, Memory>
    ensures { IfOk result (λ copies. copies.items ≡ rows.now) }
{
    let mut copies = Vec::new(alloc);
    for row in rows {
        copies.push(row.copy()?)?;
    }
    Ok(copies)
}

/// The position of a row's key, or where the key would be inserted, by binary search. The rows must be in ascending
/// order of keys.
fn place_of(rows: &[Shared<Row>], row: &Row) -> usize
    requires { T (is_sorted key_cmp rows.now) }
    ensures place { result ≡ place key_cmp row.now.0 rows.now }
    ensures inside { result ≤ length rows.now }
{
    rows.partition_point(|other| other.get().compare(row).is_lt())
}

/// Whether the row at the position has the same key as `row`.
fn is_at(rows: &[Shared<Row>], place: usize, row: &Row) -> bool
    ensures { result ≡ option_map_or (λ other. is_eq (key_cmp other.0 row.now.0)) (slice_get rows.now place) false }
{
    match rows.get(place) {
        Some(other) => other.get().compare(row).is_eq(),
        None => false,
    }
}

/// Adds a row's tally to the row with the same key, or inserts the row in order if there is none. The keys must be in
/// ascending order.
fn add_row(rows: &mut Vec<Shared<Row>>, alloc: Global, row: Shared<Row>) -> Result<(), Memory>
    requires { HasOrderedKeys rows.old.items }
    ensures { OnOk result (rows.new.items ≡ with_tally rows.old.items row) }
{
    let place = place_of(rows.as_slice(), row.get());
    if is_at(rows.as_slice(), place, row.get()) {
        let whole = rows[place].get().plus(alloc, row.get())?;
        rows[place] = Shared::new(alloc, whole)?;
        return Ok(());
    }
    rows.insert(place, row)?;
    Ok(())
}

/// The sum of two lists of rows: tallies with the same key are added. The rows must be valid, and the keys of the first
/// list must be in ascending order.
pub(crate) fn sum_of(
    alloc: Global,
    rows: &[Shared<Row>],
    others: &[Shared<Row>],
) -> Result<Vec<Shared<Row>>, Memory>
    requires rows { HasOrderedKeys rows.now }
    requires others { All IsCounted others.now }
    ensures sum { IfOk result (λ all. all.items ≡ sum_of rows.now others.now) }
    ensures order { IfOk result (λ all. HasOrderedKeys all.items) }
{
    let mut all = copies(alloc, rows)?;
    for other in others {
        add_row(&mut all, alloc, other.copy()?)?;
    }
    Ok(all)
}

/// The rows after the entries of a report are added for an environment. The rows and the entries must be valid, and the
/// keys of the rows must be in ascending order.
pub(crate) fn report_sum(
    alloc: Global,
    rows: &[Shared<Row>],
    environment: &str,
    entries: &[MetricEntry],
) -> Result<Vec<Shared<Row>>, Memory>
    requires rows { HasOrderedKeys rows.now }
    requires entries { All IsEntry entries.now }
    ensures sum { IfOk result (λ all. all.items ≡ sum_of rows.now (map (counted environment.now) entries.now)) }
    ensures order { IfOk result (λ all. HasOrderedKeys all.items) }
{
    let mut all = copies(alloc, rows)?;
    for entry in entries {
        let row = Shared::new(alloc, Row::new(alloc, environment, entry)?)?;
        add_row(&mut all, alloc, row)?;
    }
    Ok(all)
}

/// Whether there are at most 10,000 rows, and at most 100 variants in each.
#[tactic(auto, unfolding(crate::specs::Book::fits))]
pub(crate) fn fits(rows: &[Shared<Row>]) -> bool
    ensures { result ≡ fits rows.now }
{
    rows.len() <= 10_000 && have_few_variants(rows)
}

fn have_few_variants(rows: &[Shared<Row>]) -> bool
    ensures { result ≡ list_all has_few_variants rows.now }
{
    rows.iter().all(|row| row.get().has_few_variants())
}
