//! The outcomes of running an upstream. The upstream is reopened, takes the commands in the lines of its input, and
//! then serves the links of a door.
ghost use Rattle.std.specs.Prelude.{◌≡◌};
ghost use Rattle.unl_upstream.specs.Ends.{line_end};

use unl_input::{LinesFault, WriteLineFault};

/// The outcome of serving the links of a door. A door accepts the connections of clients and hands them out as links.
#[derive(Clone, Copy)]
pub enum ServingEnd {
    /// The door was closed, and the count of the links was printed.
    Closed,
    /// The door was closed, and then printing the count of the links failed.
    WriteFault,
    /// The door couldn't listen or hand out a link, or an edge couldn't start a thread.
    DoorFault,
    /// Memory ran out.
    OutOfMemory,
}

impl ServingEnd {
    /// Returns the outcome for a closed door, from the result of printing the count of its links.
    pub fn of_line(written: Result<(), WriteLineFault>) -> ServingEnd
        ensures { result ≡ line_end written }
    {
        match written {
            Ok(()) => ServingEnd::Closed,
            Err(WriteLineFault::WriteFault) => ServingEnd::WriteFault,
            Err(WriteLineFault::Memory) => ServingEnd::OutOfMemory,
        }
    }
}

/// The outcome of running an upstream. The keeper of an upstream stores its commands in rows.
#[derive(Clone, Copy)]
pub enum UpstreamEnd {
    /// Memory ran out before the first line of the input was taken.
    OutOfMemory,
    /// The keeper couldn't be created, or failed before all lines of the input were taken.
    KeeperFault,
    /// A row of the keeper is missing or isn't an accepted command. The field is the result of printing a line about
    /// that row.
    Row(Result<(), WriteLineFault>),
    /// Taking the lines stopped before the end of the input. The field is the cause: a refused line, a failed read or
    /// write, or out of memory.
    Lines(LinesFault),
    /// All lines were accepted. The field is the outcome of serving links after that.
    Links(ServingEnd),
}
