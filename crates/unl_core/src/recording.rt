//! Adds the report of an answered request to the metrics book (the summed counts of reports).
ghost use Rattle.std.specs.Prelude.{◌≡◌, Err, IfOk, IfSome, Ok, OnErr, OnOk};
ghost use Rattle.unl_core.specs.Recording.{final_book, final_reply, summed};
ghost use Rattle.unl_metrics.specs.Reports.{IsReport};

use crate::desk::Answer;
use crate::reply::refuse;
use crate::status;
use std::alloc::Global;
use unl_documents::{Memory, Text};
use unl_http_api::Reply;
use unl_metrics::{AddRefusal, MetricsBook, Report};

/// Adds the answer's report, if it has one, to the book. The report must be valid. Returns the answer's reply. If the
/// book has no room for the report, returns the refusal 503 `MetricsFull` instead, and the book is unchanged.
///
/// # Errors
/// `Memory`: out of memory. The book is unchanged.
pub fn record_report(alloc: Global, book: &mut MetricsBook, answer: Answer) -> Result<Reply, Memory>
    requires { IfSome answer.report IsReport }
    ensures reply { IfOk result (λ reply. reply ≡ final_reply book.old answer) }
    ensures book { OnOk result (book.new ≡ final_book book.old answer) }
    ensures memory { OnErr result (book.new ≡ book.old) }
{
    match sum_up(alloc, book, &answer.report, &answer.environment) {
        Ok(()) => Ok(answer.reply),
        Err(AddRefusal::Full) => refuse(alloc, status::SERVICE_UNAVAILABLE, "MetricsFull"),
        Err(AddRefusal::Memory) => Err(Memory),
    }
}

/// Adds the report, which must be valid and is for `environment`, to the book. Does nothing if there is no report or no
/// environment. On the errors `Full` (the book has no room) and `Memory` the book is unchanged.
fn sum_up(
    alloc: Global,
    book: &mut MetricsBook,
    report: &Option<Report>,
    environment: &Option<Text>,
) -> Result<(), AddRefusal>
    requires { IfSome report.now IsReport }
    ensures summed { OnOk result (summed book.old report.now environment.now ≡ Ok book.new) }
    ensures full { result ≡ Err AddRefusal.Full → summed book.old report.now environment.now ≡ Err AddRefusal.Full }
    ensures same { OnErr result (book.new ≡ book.old) }
{
    let Some(report) = report else {
        return Ok(());
    };
    let Some(environment) = environment else {
        return Ok(());
    };
    book.add(alloc, report, environment.as_str())
}
