//! The exit code of the program, by the outcome of its command.
ghost use Rattle.std.specs.Prelude.{◌≡◌};
ghost use Rattle.unl_edge.specs.Status.{check_status, code_of, explain_status, follow_status, lines_status, load_status};
ghost use Rattle.unl_edge.specs.Status.{row_status, serving_status, upstream_status, arguments_status};

use crate::ends::{ArgumentsEnd, CheckEnd};
use unl_explain::ExplainFault;
use unl_follow::FollowFault;
use unl_input::{LinesFault, WriteLineFault};
use unl_load::LoadFault;
use unl_upstream::{ServingEnd, UpstreamEnd};

/// How the program ends.
#[derive(Clone, Copy)]
pub enum Status {
    /// The command succeeded. For `check` this means that all tests passed.
    Done,
    /// A test of the command `check` failed.
    TestFailed,
    /// The arguments name no command, are rejected by clap, or have a value outside its range.
    BadArguments,
    /// The input or a line of it is refused, or a row of an upstream's keeper is missing or refused.
    Refused,
    /// The input failed.
    ReadFault,
    /// The output failed.
    WriteFault,
    /// Memory ran out.
    OutOfMemory,
    /// The door failed, or a thread couldn't be started.
    DoorFault,
    /// The keeper failed before the upstream served a link, or no keeper could be created.
    KeeperFault,
}

impl Status {
    /// Returns the exit code, 0 to 8. Which code a status has is chosen by this project.
    pub fn code(self) -> u8
        ensures { result ≡ code_of self }
    {
        match self {
            Status::Done => 0,
            Status::TestFailed => 1,
            Status::BadArguments => 2,
            Status::Refused => 3,
            Status::ReadFault => 4,
            Status::WriteFault => 5,
            Status::OutOfMemory => 6,
            Status::DoorFault => 7,
            Status::KeeperFault => 8,
        }
    }

    /// Returns the status for the lines of the input, of the command `replay` or `upstream`.
    pub fn of_lines(end: Result<(), LinesFault>) -> Status
        ensures { result ≡ lines_status end }
    {
        match end {
            Ok(()) => Status::Done,
            Err(LinesFault::Bad) => Status::Refused,
            Err(LinesFault::ReadFault) => Status::ReadFault,
            Err(LinesFault::WriteFault) => Status::WriteFault,
            Err(LinesFault::Memory) => Status::OutOfMemory,
        }
    }

    /// Returns the status for the command `check`.
    pub fn of_check(end: CheckEnd) -> Status
        ensures { result ≡ check_status end }
    {
        match end {
            CheckEnd::Passed => Status::Done,
            CheckEnd::Failed => Status::TestFailed,
            CheckEnd::Refused => Status::Refused,
            CheckEnd::ReadFault => Status::ReadFault,
            CheckEnd::WriteFault => Status::WriteFault,
            CheckEnd::OutOfMemory => Status::OutOfMemory,
        }
    }

    /// Returns the status for the command `explain`.
    pub fn of_explanation(end: Result<(), ExplainFault>) -> Status
        ensures { result ≡ explain_status end }
    {
        match end {
            Ok(()) => Status::Done,
            Err(ExplainFault::BadInput(_fault)) => Status::Refused,
            Err(ExplainFault::TooLarge) => Status::Refused,
            Err(ExplainFault::ReadFault) => Status::ReadFault,
            Err(ExplainFault::WriteFault) => Status::WriteFault,
            Err(ExplainFault::Memory) => Status::OutOfMemory,
        }
    }

    /// Returns the status for serving links, by the command `edge` or `upstream`.
    pub fn of_serving(end: ServingEnd) -> Status
        ensures { result ≡ serving_status end }
    {
        match end {
            ServingEnd::Closed => Status::Done,
            ServingEnd::WriteFault => Status::WriteFault,
            ServingEnd::DoorFault => Status::DoorFault,
            ServingEnd::OutOfMemory => Status::OutOfMemory,
        }
    }

    /// Returns the status for the command `follow`.
    pub fn of_following(end: Result<(), FollowFault>) -> Status
        ensures { result ≡ follow_status end }
    {
        match end {
            Ok(()) => Status::Done,
            Err(FollowFault::WriteFault) => Status::WriteFault,
            Err(FollowFault::Memory) => Status::OutOfMemory,
        }
    }

    /// Returns the status for the command `load`.
    pub fn of_load(end: Result<(), LoadFault>) -> Status
        ensures { result ≡ load_status end }
    {
        match end {
            Ok(()) => Status::Done,
            Err(LoadFault::WriteFault) => Status::WriteFault,
            Err(LoadFault::Memory) => Status::OutOfMemory,
        }
    }

    /// Returns the status if a row of a keeper is missing or refused. `written` is the result of printing a line about
    /// that row.
    pub fn of_row(written: Result<(), WriteLineFault>) -> Status
        ensures { result ≡ row_status written }
    {
        match written {
            Ok(()) => Status::Refused,
            Err(WriteLineFault::WriteFault) => Status::WriteFault,
            Err(WriteLineFault::Memory) => Status::OutOfMemory,
        }
    }

    /// Returns the status for the command `upstream`.
    pub fn of_upstream(end: UpstreamEnd) -> Status
        ensures { result ≡ upstream_status end }
    {
        match end {
            UpstreamEnd::OutOfMemory => Status::OutOfMemory,
            UpstreamEnd::KeeperFault => Status::KeeperFault,
            UpstreamEnd::Row(written) => Status::of_row(written),
            UpstreamEnd::Lines(fault) => Status::of_lines(Err(fault)),
            UpstreamEnd::Links(end) => Status::of_serving(end),
        }
    }

    /// Returns the status for bad arguments. `end` says whether the line about them was printed.
    pub fn of_arguments(end: ArgumentsEnd) -> Status
        ensures { result ≡ arguments_status end }
    {
        match end {
            ArgumentsEnd::Bad => Status::BadArguments,
            ArgumentsEnd::WriteFault => Status::WriteFault,
            ArgumentsEnd::OutOfMemory => Status::OutOfMemory,
        }
    }
}
