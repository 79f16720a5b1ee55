//! The command `load`: generates 1,000 features from a seed, makes a given number of evaluations, each of a random one
//! of these features for a random user, and writes one line that says how many evaluations were on and how many off.
#![tactic(auto)]

mod asking;
mod documents;
mod fault;
mod running;
mod words;

pub use fault::LoadFault;
pub use running::load;
