//! A value that one writer changes and several readers read. Each change is one install, and the list of published
//! installs only grows. A reader never waits: it looks at one copy of the value while the writer changes the other
//! (`left_right`).
#![tactic(auto)]

mod knowledge;
mod new_readers;
mod publisher;
mod reader;
mod rule;
mod value;
mod writer;

pub use knowledge::Knowledge;
pub use new_readers::new_reader;
pub use publisher::Publisher;
pub use reader::{Guard, Reader};
pub use rule::{Ruled, Rules};
pub use value::Counted;
pub use writer::{Told, Writer};
