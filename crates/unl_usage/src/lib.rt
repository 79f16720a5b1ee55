//! What the programs report to an operator on standard error: why arguments are refused, the usage of each command, and
//! the state of a database. Also reads the arguments, from the command line and from the file that
//! `UNL_EDGE_WORDS_FILE` names.
#![tactic(auto)]

mod arguments;
mod database;
mod options;
mod program;
mod refused;
mod scan;
mod usage;
mod value_fault;

pub use arguments::{ArgumentsFault, read_arguments};
pub use database::{report_commands, report_unopened, warn_of_epoch};
pub use program::Program;
pub use refused::{refusal_text, report_refusal};
