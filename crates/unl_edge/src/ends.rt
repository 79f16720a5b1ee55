//! The outcomes of the command `check`, and of bad arguments.

/// The outcome of the command `check`.
#[derive(Clone, Copy)]
pub enum CheckEnd {
    /// All tests passed, and the report was printed.
    Passed,
    /// At least one test failed, and the report was printed.
    Failed,
    /// The input is refused, and the cause was printed.
    Refused,
    /// The input failed.
    ReadFault,
    /// The output failed.
    WriteFault,
    /// Memory ran out, and nothing was printed.
    OutOfMemory,
}

/// The outcome of arguments that name no command, are rejected by clap, or have a value outside its range.
#[derive(Clone, Copy)]
pub enum ArgumentsEnd {
    /// The line that says that the arguments are bad was printed.
    Bad,
    /// The output failed.
    WriteFault,
    /// Memory ran out while the arguments were read, and nothing was printed.
    OutOfMemory,
}
