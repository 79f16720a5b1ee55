//! The report of a check, built line by line.
ghost use Rattle.std.specs.Prelude.{◌≡◌, ◌+◌, ◌<◌, length, OnOk, IfOk, string_bytes};
ghost use Rattle.unl_spec_runner.specs.Report.{counts_line};
ghost use Rattle.unl_spec_runner.specs.Steps.{none_yet, with_counts, with_line};

use crate::fault::Summary;
use std::alloc::{AllocError, Global};
use std::marker::Model;
use unl_documents::Memory;

/// A report: the text so far, and the number of tests that passed and of those that failed.
#[derive(Debug, Drop)]
pub struct Report {
    printed: Vec<u8>,
    passed: u64,
    failed: u64,
}

impl Model for Report {
    ghost use Rattle.std.specs.Prelude.{◌+◌, ◌≤◌, length};
    ghost use Rattle.unl_spec_runner.specs.Report.{Report as Plain};

    ghost Value = { Plain };

    ghost view = { λ r. record { text = r.printed.items; passed = r.passed; failed = r.failed } };

    // Each test has a line of at least one byte, so there are at most as many tests as bytes, and the counts fit in
    // 64 bits.
    ghost invariant = { λ r. r.passed + r.failed ≤ length r.printed.items };
}

impl Report {
    /// Returns an empty report.
    pub fn new(alloc: Global) -> Report
        ensures { result ≡ none_yet }
    {
        Report {
            printed: Vec::new(alloc),
            passed: 0,
            failed: 0,
        }
    }

    /// Returns the text so far.
    pub fn text(&self) -> &[u8]
        ensures { result.now ≡ self.now.text }
    {
        &self.printed
    }

    /// Returns the number of tests that passed, and of those that failed.
    pub fn summary(&self) -> Summary
        ensures passed { result.passed ≡ self.now.passed }
        ensures failed { result.failed ≡ self.now.failed }
    {
        Summary {
            passed: self.passed,
            failed: self.failed,
        }
    }

    /// Returns the number of the next test. Tests are numbered from 1.
    pub fn next_number(&self) -> u64
        ensures { result ≡ self.now.passed + self.now.failed + 1 }
    {
        self.passed + self.failed + 1
    }

    /// Appends the line of a test, which must not be empty, and counts the test as passed or failed. The only error is
    /// out of memory.
    pub fn add_line(&mut self, line: &[u8], passed: bool) -> Result<(), Memory>
        requires { 0 < length line.now }
        ensures { OnOk result (self.new ≡ with_line line.now passed self.old) }
    {
        self.printed.extend_from_slice(line)?;
        if passed {
            self.passed += 1;
        } else {
            self.failed += 1;
        }
        Ok(())
    }

    /// Appends the line with the counts. The only error is out of memory.
    pub fn add_counts(&mut self, alloc: Global) -> Result<(), Memory>
        ensures { OnOk result (self.new ≡ with_counts self.old) }
    {
        let line = counts_line(alloc, self.passed, self.failed)?;
        self.printed.extend_from_slice(line.as_bytes())?;
        Ok(())
    }
}

/// Returns the line with the counts.
#[tactic(auto, unfolding(crate::specs::Report::counts_line))]
fn counts_line(alloc: Global, passed: u64, failed: u64) -> Result<String, AllocError>
    ensures { IfOk result (λ s. string_bytes s ≡ counts_line passed failed) }
{
    format!(in alloc; "passed {passed} failed {failed}\n")
}
