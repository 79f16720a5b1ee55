//! Reports of metrics: how many times each feature was on and off, and how many times each variant was given.
ghost use Rattle.std.specs.Prelude.{IfOk};
ghost use Rattle.unl_documents.specs.Results.{Gives};
ghost use Rattle.unl_metrics.specs.Readable.{AreReadable};
ghost use Rattle.unl_metrics.specs.Reports.{single_report_of, bulk_report_of, IsReport};
ghost use Rattle.unl_metrics.specs.declared.fault.BadReport.TheVariants.{Memory as memory};

use crate::fault::BadReport;
use crate::reading::{read_bulk, read_single};
use std::alloc::Global;
use unl_documents::parsing::read_object;
use unl_documents::{List, Memory, Text, TryClone};

/// How many times a variant was given.
#[derive(Debug, Drop, PartialEq)]
pub struct VariantCount {
    /// The variant's name.
    pub name: Text,
    /// How many times the variant was given.
    pub count: u64,
}

/// The counts of one feature in one app during one hour.
#[derive(Debug, Drop, PartialEq)]
pub struct MetricEntry {
    /// The app's name.
    pub app: Text,
    /// The feature's name.
    pub feature: Text,
    /// The hour, in whole hours since 1970. In a valid entry it is less than 70,389,528, the number of hours from 1970
    /// to the end of 9999.
    pub hour: u32,
    /// How many times the feature was on.
    pub yes: u64,
    /// How many times the feature was off.
    pub no: u64,
    /// How many times each variant was given, in byte order of the variants' names, each name once.
    pub variants: List<VariantCount>,
}

/// A report of metrics, read from JSON.
#[derive(Debug, Drop, PartialEq)]
pub struct Report {
    /// The entries. Several may have the same app, feature and hour.
    pub entries: List<MetricEntry>,
}

impl Report {
    /// Reads the report that one app sends, from JSON:
    /// `{"appName":"..","bucket":{"start":"..","toggles":{"NAME":{"yes":0,"no":0,"variants":{"NAME":0}}}}}`.
    ///
    /// `appName`, `bucket` and `start` are required. `toggles`, `yes`, `no` and `variants` may be absent or null, which
    /// counts as empty or 0. Other keys are ignored. `start` is an instant from 1970 to 9999-12-30T22:00:00.999999999Z,
    /// the latest that `jiff` reads; its hour is the hour of all entries. Each toggle gives one entry. Names have 1 to
    /// 255 bytes.
    ///
    /// # Errors
    /// - `NotJson`: the bytes are not a JSON object.
    /// - `Memory`: out of memory.
    /// - Otherwise the first fault at a key. The keys are checked in this order: `appName`, `bucket`, in it `start`
    ///   and then `toggles`, and in each toggle `yes`, `no` and `variants`.
    ///
    /// `toggles` has at most 10,000 members, and `variants` at most 100 (limits chosen by this project); otherwise the
    /// fault is `TooLarge`. The number of members is checked before any member is read. Then the members are read in
    /// byte order of their keys. For each member, first its key is checked, which must be a name, and then its value.
    pub fn read_single(alloc: Global, bytes: &[u8]) -> Result<Report, BadReport>
        ensures gives { Gives memory result (single_report_of bytes.now) }
        ensures valid { IfOk result IsReport }
        ensures readable { IfOk result (λ report. AreReadable report.entries) }
    {
        single_report(alloc, bytes)
    }

    /// Reads the bulk report that an edge sends for its apps, from JSON:
    /// `{"metrics":[{"featureName":"..","appName":"..","timestamp":"..","yes":0,"no":0,"variants":{"NAME":0}}]}`.
    ///
    /// `metrics` is required, and in each of its items `featureName`, `appName` and `timestamp`. `yes`, `no` and
    /// `variants` may be absent or null, which counts as 0 or empty. Other keys are ignored. Each item gives one entry,
    /// at the hour of its `timestamp`, an instant as for [`Report::read_single`].
    ///
    /// # Errors
    /// - `NotJson`: the bytes are not a JSON object.
    /// - `Memory`: out of memory.
    /// - Otherwise the first fault. `metrics` must be a list, all its items must be objects (`WrongKind`), and then
    ///   there must be at most 10,000 of them (`TooLarge`). Then the keys of each item are checked in the order shown,
    ///   and `variants` as in [`Report::read_single`].
    pub fn read_bulk(alloc: Global, bytes: &[u8]) -> Result<Report, BadReport>
        ensures gives { Gives memory result (bulk_report_of bytes.now) }
        ensures valid { IfOk result IsReport }
        ensures readable { IfOk result (λ report. AreReadable report.entries) }
    {
        bulk_report(alloc, bytes)
    }
}

#[tactic(auto, unfolding(crate::specs::Reports::single_report_of))]
fn single_report(alloc: Global, bytes: &[u8]) -> Result<Report, BadReport>
    ensures gives { Gives memory result (single_report_of bytes.now) }
    ensures readable { IfOk result (λ report. AreReadable report.entries) }
{
    let Some(value) = read_object(alloc, bytes)? else {
        return Err(BadReport::NotJson);
    };
    Ok(read_single(alloc, &value)?)
}

#[tactic(auto, unfolding(crate::specs::Reports::bulk_report_of))]
fn bulk_report(alloc: Global, bytes: &[u8]) -> Result<Report, BadReport>
    ensures gives { Gives memory result (bulk_report_of bytes.now) }
    ensures readable { IfOk result (λ report. AreReadable report.entries) }
{
    let Some(value) = read_object(alloc, bytes)? else {
        return Err(BadReport::NotJson);
    };
    Ok(read_bulk(alloc, &value)?)
}

impl TryClone for VariantCount {
    fn copy(&self, alloc: Global) -> Result<VariantCount, Memory> {
        Ok(VariantCount {
            name: self.name.copy(alloc)?,
            count: self.count,
        })
    }
}

impl TryClone for MetricEntry {
    fn copy(&self, alloc: Global) -> Result<MetricEntry, Memory> {
        Ok(MetricEntry {
            app: self.app.copy(alloc)?,
            feature: self.feature.copy(alloc)?,
            hour: self.hour,
            yes: self.yes,
            no: self.no,
            variants: self.variants.copy(alloc)?,
        })
    }
}

impl TryClone for Report {
    fn copy(&self, alloc: Global) -> Result<Report, Memory> {
        Ok(Report {
            entries: self.entries.copy(alloc)?,
        })
    }
}
