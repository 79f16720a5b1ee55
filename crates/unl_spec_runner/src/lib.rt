//! The command `check`: runs the tests of test files, which have the format of the Unleash client specification. A test
//! file has a state (features and segments) and tests. A test evaluates a feature of its file's state for a context,
//! and compares the result with the expected one.
#![tactic(auto)]

mod checking;
mod document;
mod expected;
mod fault;
mod report;
mod running;

pub use checking::check;
pub use fault::{CheckFault, Summary};
