//! Parses the command line of the program into a command and the checked values of that command's options.
#![tactic(auto)]

mod book;
mod command;
mod items;
mod name;
mod number;
mod read;
mod refusal;
mod token;
mod value;
mod words;

pub use book::own_book;
pub use read::read_words;
pub use refusal::WordsRefusal;
pub use token::{token_environment, token_environments};
pub use words::{EdgeArguments, FollowArguments, UpstreamArguments, Words};
