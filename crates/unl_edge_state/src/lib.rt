//! The board of an edge: the known tokens and the current version of each environment. Requests are answered from it.
//! An install is one change of the board. Each board has one writer, and only this writer publishes installs. The
//! readers of a board, which can be on other threads, implement the trait `Desk`: they answer requests from the board
//! that was published last, and never wait. The front of a board is the number of installs that led to it.
#![tactic(auto)]

mod beginning;
mod crossing;
mod edition;
pub mod laws;
mod reader;
mod writer;

pub use beginning::{begin, begin_orderly};
pub use crossing::{readers_are_send, writers_are_send};
pub use edition::Edition;
pub use reader::{EdgeReader, Told};
pub use writer::EdgeWriter;
