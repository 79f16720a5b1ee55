//! Feature metrics: reports of how many times each feature was on and off, and the book that sums them until they are
//! sent upstream.
#![tactic(auto)]

mod book;
mod bulk;
mod fault;
mod hours;
pub mod laws;
mod reading;
mod refusal;
mod report;
mod row;
mod sums;

pub use book::MetricsBook;
pub use fault::BadReport;
pub use refusal::AddRefusal;
pub use report::{MetricEntry, Report, VariantCount};
