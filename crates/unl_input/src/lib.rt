//! The inputs of the program's commands. An input is read whole, up to a limit, and answered or refused
//! ([`answer_input`]), or it is taken line by line, each line processed before the next is read ([`process_lines`]).
//! [`context_in`] reads the context in an input.
#![tactic(auto)]

mod answering;
mod context;
pub mod laws;
mod line;
mod reader;
mod reading;
mod refusal;
mod taking;

pub use answering::{AnswerFault, InputAnswer, answer_input};
pub use context::context_in;
pub use line::{LineProcessor, LineRefusal};
pub use reading::{InputFault, read_input};
pub use refusal::{InputRefusal, WriteLineFault, write_refusal};
pub use taking::{LinesFault, process_lines};
