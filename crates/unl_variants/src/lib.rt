//! Chooses one of a feature's variants for a context: by overrides, otherwise by weights.
#![tactic(auto)]

mod choosing;
mod laws;
mod overrides;
mod stickiness;
mod weights;

pub use choosing::choose;
pub use laws::{choice_is_chosen, only_choice_is_chosen};
