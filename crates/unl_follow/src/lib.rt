//! A replica of one environment ([`Replica`]): it polls a server for deltas or whole feeds, keeps the newest version,
//! and evaluates features with it. [`follow`] polls turn by turn and prints after each turn whether one feature is on.
#![tactic(auto)]

mod fault;
pub mod laws;
mod line;
mod once;
mod replica;
mod run;
mod subject;
mod turn;

pub use crate::fault::{FollowFault, ReplicaRefusal};
pub use crate::once::follow_once;
pub use crate::replica::Replica;
pub use crate::run::follow;
pub use crate::subject::Subject;
