//! The program: an upstream that stores its commands in a database file, so that it still has them after being killed
//! and restarted.
#![tactic(auto)]

ghost use Rattle.std.specs.Prelude.{◌≡◌};
ghost use Rattle.unl_durable_upstream.specs.Databases.{ProgramEnds, exit_code_of};

mod arguments;
mod database;
mod fault;
mod reporting;
mod serving;

use arguments::read_program_arguments;
use database::serve_file;
use fault::ProgramFault;
use std::net::Net;
use std::process::ExitCode;
use std::random::RandomSource;
use std::sync::Wait;
use std::time::Clock;
use unl_net::{RealDoor, SystemDraws};
use unl_usage::{Program, report_refusal, warn_of_epoch};

fn main(rt: HostRuntime) -> ExitCode {
    let ended = run(&rt, rt);
    if let Err(ProgramFault::BadArguments) = &ended {
        report_refusal(&rt, Program::DurableUpstream);
    }
    let printed = print_end(&rt, &ended);
    ExitCode::from(exit_code(&ended, printed))
}

/// Reads the arguments, warns if the database file that they name is newer than the epoch, and serves an upstream over
/// this file. Connections are accepted by a door, and serving ends when the door closes. Files are opened with
/// `system`, sockets with `rt`. Returns how many links were served.
///
/// # Errors
/// As for `read_program_arguments` and `serve_file`. `Memory`: out of memory.
fn run<N: Net + Clock + RandomSource + Eprint + Wait + Copy + Drop>(
    system: &HostRuntime,
    rt: N,
) -> Result<u64, ProgramFault>
    ensures { ProgramEnds result }
{
    let arguments = match read_program_arguments(system) {
        Ok(arguments) => arguments,
        Err(fault) => return Err(fault),
    };
    let alloc = system.alloc();
    warn_of_epoch(
        system,
        alloc,
        arguments.path.as_str(),
        arguments.options.epoch,
    );
    let mut draws = SystemDraws::new(rt);
    match RealDoor::new(alloc, rt, arguments.bound(), 0) {
        Ok(mut door) => serve_file(system, &rt, &arguments, &mut door, &mut draws),
        Err(fault) => Err(ProgramFault::from(fault)),
    }
}

/// Prints how many links were served, or why the program failed. Returns whether printing succeeded.
fn print_end(rt: &HostRuntime, ended: &Result<u64, ProgramFault>) -> bool {
    let printed = match ended {
        Ok(served) => println!(rt; "connections {served}"),
        Err(fault) => println!(rt; "{fault}"),
    };
    printed.is_ok()
}

/// Returns the exit code of the program: the code of the error, if there was one. On success the exit code is 0, or 5
/// if the number of served links could not be printed.
fn exit_code(ended: &Result<u64, ProgramFault>, is_printed: bool) -> u8
    ensures { result ≡ exit_code_of ended.now is_printed }
{
    match ended {
        Ok(_) if is_printed => 0,
        Ok(_) => 5,
        Err(fault) => fault.code(),
    }
}
