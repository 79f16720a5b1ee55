//! Explains why a feature is on or off for a context at a moment. An explanation holds the feature's evaluation and the
//! result of each part of the evaluation. [`explain_run`] reads a state, a feature's name, a context, a time and a
//! random word from an input and writes the explanation as a line of JSON.
#![tactic(auto)]

mod explaining;
pub mod laws;
mod line;
mod parents;
mod question;
mod reason;
mod running;
mod source;
mod strategies;

pub use explaining::explain;
pub use reason::{Origin, ParentCause, ParentReason, Reason, SegmentReason, StrategyReason};
pub use running::{ExplainFault, explain_run};
