//! The upstream: the server that holds the features and segments of up to eight environments. It applies commands to
//! them and answers requests from their current state.
//!
//! Each environment has a version: its state, a number that each accepted command increments, and an epoch, which is
//! set when the upstream is created. An upstream that lost its state starts again at number 0, and must be created with
//! a higher epoch than before. An upstream can also keep its commands: it stores each one with a `unl_keeper::Keeper`
//! before it acknowledges the command, and can be reopened from the stored commands. [`run_reopened`] reopens an
//! upstream, takes the commands in the lines of an input, and then serves the links of a door.
#![tactic(auto)]

mod answering;
mod command;
mod command_intake;
mod command_or_reply;
mod ends;
mod event;
mod keeping;
mod keeping_door;
mod keeping_server;
pub mod laws;
mod printing;
mod reading;
mod ready;
mod refusal;
mod reopening;
mod running;
mod serving;
mod upstream;
mod writing;

pub use command::Command;
pub use ends::{ServingEnd, UpstreamEnd};
pub use keeping::keep;
pub use keeping_door::serve_kept_door;
pub use keeping_server::{answer_kept, serve_kept};
pub use printing::print_connections;
pub use reading::read_command;
pub use ready::Ready;
pub use refusal::{CommandRefusal, KeepCommandRefusal};
pub use reopening::{ReopenFault, reopen};
pub use running::run_reopened;
pub use upstream::Upstream;
pub use writing::write_command;
