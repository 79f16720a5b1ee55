//! The book of metrics, a sorted list of keys with their counts.
ghost use Rattle.std.specs.Prelude.{◌≡◌, ◌≢◌, ◌≤◌, ◌==◌, [], length, take, drop, not, All, position, Ok, Err, false, IfOk, IfErr, IfSome};
ghost use Rattle.std.specs.Prelude.{OnOk, OnErr, option_map};
ghost use Rattle.std.specs.List.{prefix_len, remove_range};
ghost use Rattle.serde_json.specs.View.{view};
ghost use Rattle.serde_json.specs.Written.{has_float};
ghost use Rattle.unl_metrics.specs.Book.{book_sum, sum_of, if_fits, acknowledge, is_of, counted_in};
ghost use Rattle.unl_metrics.specs.Bulk.{bulk as bulk_of};
ghost use Rattle.unl_metrics.specs.Readable.{IsSendable, IsReadAs, entries_at};
ghost use Rattle.unl_metrics.specs.Reports.{IsReport};
ghost use Rattle.unl_metrics.specs.declared.refusal.AddRefusal.TheVariants.{Memory as memory};

use crate::bulk::bulk;
use crate::refusal::AddRefusal;
use crate::report::Report;
use crate::row::Row;
use crate::sums::{fits, report_sum, sum_of};
use serde_json::Value;
use std::alloc::Global;
use std::marker::Model;
use unl_documents::{Memory, Shared};

/// Counts of feature evaluations. A key is an environment, an app, a feature and an hour. A tally has the counts at one
/// key: how often the feature was on, how often off, and how often each variant was given. The book holds at most
/// 10,000 keys, and at most 100 variants at each key. In contracts the book is the list of its keys in ascending order,
/// each with its tally.
#[derive(Drop)]
pub struct MetricsBook {
    rows: Vec<Shared<Row>>,
}

impl Model for MetricsBook {
    ghost use Rattle.unl_metrics.specs.Book.{Book, IsMetricsBook};

    ghost Value = { Book };

    ghost view = { λ b. b.rows.items };

    ghost invariant = { λ b. IsMetricsBook b.rows.items };
}

impl MetricsBook {
    /// Creates an empty book. Doesn't allocate.
    pub fn new(alloc: Global) -> MetricsBook
        ensures { result ≡ [] }
    {
        MetricsBook {
            rows: Vec::new(alloc),
        }
    }

    /// The number of keys. Doesn't allocate.
    pub fn len(&self) -> usize
        ensures { result ≡ length self.now }
    {
        self.rows.len()
    }

    /// Whether there are no keys. Doesn't allocate.
    pub fn is_empty(&self) -> bool
        ensures { result ≡ (length self.now == 0) }
    {
        self.rows.is_empty()
    }

    /// Adds all counts of a report, for an environment. Sums saturate at 2^64 - 1.
    ///
    /// # Errors
    /// - `Full`: the sum would have more than 10,000 keys, or more than 100 variants at one key.
    /// - `Memory`: out of memory.
    ///
    /// On an error nothing is added: the book is unchanged.
    pub fn add(
        &mut self,
        alloc: Global,
        report: &Report,
        environment: &str,
    ) -> Result<(), AddRefusal>
        requires { IsReport report.now }
        ensures added { OnOk result (if_fits (book_sum self.old environment.now report.now) ≡ Ok self.new) }
        ensures refused { IfErr result (λ e. e ≢ memory → if_fits (book_sum self.old environment.now report.now) ≡ Err e) }
        ensures kept { OnErr result (self.new ≡ self.old) }
    {
        let entries = report.entries.as_slice();
        let rows = report_sum(alloc, self.rows.as_slice(), environment, entries)?;
        if !fits(rows.as_slice()) {
            return Err(AddRefusal::Full);
        }
        self.rows = rows;
        Ok(())
    }

    /// Moves all counts of another book into this one, which leaves the other book empty. Sums saturate at 2^64 - 1.
    ///
    /// # Errors
    /// As for [`MetricsBook::add`]. On an error both books are unchanged.
    pub fn merge(&mut self, alloc: Global, other: &mut MetricsBook) -> Result<(), AddRefusal>
        ensures merged { OnOk result (if_fits (sum_of self.old other.old) ≡ Ok self.new) }
        ensures emptied { OnOk result (other.new ≡ []) }
        ensures refused { IfErr result (λ e. e ≢ memory → if_fits (sum_of self.old other.old) ≡ Err e) }
        ensures kept { OnErr result (self.new ≡ self.old) }
        ensures other_kept { OnErr result (other.new ≡ other.old) }
    {
        let rows = sum_of(alloc, self.rows.as_slice(), other.rows.as_slice())?;
        if !fits(rows.as_slice()) {
            return Err(AddRefusal::Full);
        }
        self.rows = rows;
        other.rows.clear();
        Ok(())
    }

    /// The bulk report of an environment, as a JSON value, and the number of keys in it. `None` exactly if the
    /// environment has no key.
    ///
    /// The report has the longest prefix of the environment's keys, in ascending order, for which the report's text is
    /// at most 1,048,576 bytes. It has no key if the first key alone is too long. If the book's hours and its names of
    /// apps, features and variants are within the limits for reading a report, [`Report::read_bulk`] reads the text
    /// back as the counts of the keys in the report.
    ///
    /// # Errors
    /// `Memory`: out of memory.
    pub fn bulk(&self, alloc: Global, environment: &str) -> Result<Option<(Value, usize)>, Memory>
        ensures report { IfOk result (λ found. option_map (λ sent. (view sent.0, sent.1)) found ≡ bulk_of environment.now self.now) }
        ensures reads_back { All IsSendable self.now → IfOk result (λ found. IfSome found (λ sent.
            IsReadAs (view sent.0) (entries_at (take sent.1 (counted_in environment.now self.now))))) }
        ensures no_float { IfOk result (λ found. IfSome found (λ sent. has_float (view sent.0) ≡ false)) }
    {
        bulk(alloc, self.rows.as_slice(), environment)
    }

    /// Drops the first `count` keys of an environment, or all of its keys if there are fewer. To be called when the
    /// upstream has accepted a bulk report of `count` keys, and the book has not changed since that report was made.
    /// Doesn't allocate.
    pub fn acknowledged(&mut self, environment: &str, count: usize)
        ensures { self.new ≡ acknowledge environment.now count self.old }
    {
        let start = first_of(self.rows.as_slice(), environment);
        let run = run_of(rows_from(self.rows.as_slice(), start), environment);
        let end = start + run.min(count);
        drop_range(&mut self.rows, start, end);
    }
}

/// The position of the first row of an environment, or the number of rows if it has none.
fn first_of(rows: &[Shared<Row>], environment: &str) -> usize
    ensures place { result ≡ prefix_len (λ row. not (is_of environment.now row.0)) rows.now }
    ensures inside { result ≤ length rows.now }
{
    match place_in(rows, environment) {
        Some(place) => place,
        None => rows.len(),
    }
}

/// The position of the first row of an environment. `None` if it has none.
fn place_in(rows: &[Shared<Row>], environment: &str) -> Option<usize>
    ensures { result ≡ position (λ row. is_of environment.now row.0) rows.now }
{
    rows.iter().position(|row| row.get().is_of(environment))
}

/// The number of rows of an environment at the start of the slice.
fn run_of(rows: &[Shared<Row>], environment: &str) -> usize
    ensures run { result ≡ prefix_len (λ row. is_of environment.now row.0) rows.now }
    ensures inside { result ≤ length rows.now }
{
    match place_outside(rows, environment) {
        Some(place) => place,
        None => rows.len(),
    }
}

/// The position of the first row of another environment. `None` if there is none.
fn place_outside(rows: &[Shared<Row>], environment: &str) -> Option<usize>
    ensures { result ≡ position (λ row. not (is_of environment.now row.0)) rows.now }
{
    rows.iter().position(|row| !row.get().is_of(environment))
}

fn rows_from(rows: &[Shared<Row>], start: usize) -> &[Shared<Row>]
    requires { start ≤ length rows.now }
    ensures { result.now ≡ drop start rows.now }
{
    &rows[start..]
}

fn drop_range(rows: &mut Vec<Shared<Row>>, start: usize, end: usize)
    requires order { start ≤ end }
    requires inside { end ≤ length rows.old.items }
    ensures { rows.new.items ≡ remove_range rows.old.items start end }
{
    rows.drain(start..end);
}
