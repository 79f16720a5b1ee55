//! The two programs whose usage can be reported.

/// A program that reports refused arguments.
#[derive(Clone, Copy, Debug, PartialEq, Eq)]
pub enum Program {
    /// `unl_edge`, with all its commands. The first argument is the command.
    Edge,
    /// `unl_durable_upstream`, an upstream with a database file. The first argument is the path of the file.
    DurableUpstream,
}

impl Program {
    /// Returns the name of the executable.
    pub fn name(self) -> &'static str {
        match self {
            Program::Edge => "unl_edge",
            Program::DurableUpstream => "unl_durable_upstream",
        }
    }
}
