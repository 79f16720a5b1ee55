//! The snapshots that requests are evaluated against: versions of an environment with their constraints compiled.
#![tactic(auto)]

mod collect;
mod feature;
mod index;
mod index_after;
mod index_change;
mod parts;
mod query;
mod seen;
mod segment;
mod snapshot;
mod toggles;
mod toggles_text;

pub use snapshot::Snapshot;
