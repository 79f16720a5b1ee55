//! Evaluates features: whether a feature is on, and with which variant, for a context (the data about a user) at a
//! moment (the time, the source of random numbers and the host name).
#![tactic(auto)]

mod dependencies;
mod evaluating;
mod evaluation;
mod features;
mod finding;
mod laws;
mod picking;

pub use dependencies::{agrees, all_met, is_met, is_met_by};
pub use evaluating::{decide, evaluate, evaluate_feature};
pub use evaluation::{Decision, Evaluation, VariantAnswer};
pub use features::Features;
pub use finding::feature_named;
pub use laws::{
    each_is_found, first_is_least, inlining_changes_nothing, none_exactly_if_absent,
    parent_evaluates_alone, seen_among_all,
};
pub use picking::{evaluate_where, first_active, own_variant, strategy_variant, variant_of};
