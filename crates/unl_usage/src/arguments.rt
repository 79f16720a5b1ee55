//! Reads the arguments: those of the command line, followed by the lines of a file.
use std::alloc::{AllocError, Global};
use std::env::{Args, VarError};
use std::io::ErrorKind;
use std::rt::{Env, Files};
use std::{env, fs, io};
use thiserror::Error;

/// The environment variable with the path of a file whose lines are further arguments.
pub(crate) const FILE_VARIABLE: &str = "UNL_EDGE_WORDS_FILE";

/// Why the arguments could not be read.
#[derive(Clone, Copy, Debug, PartialEq, Eq, Error)]
pub enum ArgumentsFault {
    /// An argument, the path of the file or the file isn't UTF-8, or the file can't be read.
    #[error("the arguments are not accepted")]
    Bad,
    /// Out of memory.
    #[error("out of memory")]
    Memory,
}

/// Why the arguments could not be read, in detail, for the report to the operator.
#[derive(Drop)]
pub(crate) enum Cause {
    /// An argument or the path of the file isn't UTF-8. Carries a text that says which.
    NotText(&'static str),
    /// The file can't be read, or isn't UTF-8. Carries its path and the error of the system.
    File(String, io::Error),
    /// Out of memory.
    Memory,
}

impl From<AllocError> for Cause {
    fn from(_: AllocError) -> Cause {
        Cause::Memory
    }
}

/// Reads the arguments of the command line, without the program's name. If the environment variable
/// `UNL_EDGE_WORDS_FILE` has the path of a file, each non-empty line of that file is appended as an argument. If the
/// variable is not set or empty, no file is read.
///
/// # Errors
/// `Bad` if an argument, the path or the file isn't UTF-8, or if the file can't be read. `Memory` if memory runs out.
pub fn read_arguments<R: Env + Files + AllocGlobal>(rt: &R) -> Result<Vec<String>, ArgumentsFault> {
    match arguments(rt) {
        Ok(list) => Ok(list),
        Err(Cause::Memory) => Err(ArgumentsFault::Memory),
        Err(_) => Err(ArgumentsFault::Bad),
    }
}

/// Reads the arguments as [`read_arguments`] does. The error carries more detail.
pub(crate) fn arguments<R: Env + Files + AllocGlobal>(rt: &R) -> Result<Vec<String>, Cause> {
    let args = match env::args(rt) {
        Ok(args) => args,
        Err(fault) if fault.kind() == ErrorKind::OutOfMemory => return Err(Cause::Memory),
        Err(_) => return Err(Cause::NotText("an argument")),
    };
    let mut list = after_name(rt.alloc(), args)?;
    match env::var(rt, FILE_VARIABLE) {
        Ok(path) if path.as_str().is_empty() => {}
        Ok(path) => push_file(rt, path, &mut list)?,
        Err(VarError::NotPresent) => {}
        Err(VarError::OutOfMemory) => return Err(Cause::Memory),
        Err(VarError::NotUnicode) => return Err(Cause::NotText(FILE_VARIABLE)),
    }
    Ok(list)
}

/// The arguments after the program's name.
fn after_name(alloc: Global, args: Args) -> Result<Vec<String>, AllocError> {
    args.skip(1).collect(alloc)
}

/// Appends the non-empty lines of a file.
fn push_file<R: Files + AllocGlobal>(
    rt: &R,
    path: String,
    list: &mut Vec<String>,
) -> Result<(), Cause> {
    match fs::read_to_string(rt, path.as_str()) {
        Ok(text) => Ok(push_lines(rt.alloc(), text.as_str(), list)?),
        Err(fault) if fault.kind() == ErrorKind::OutOfMemory => Err(Cause::Memory),
        Err(fault) => Err(Cause::File(path, fault)),
    }
}

/// Appends the non-empty lines of a text.
fn push_lines(alloc: Global, text: &str, list: &mut Vec<String>) -> Result<(), AllocError> {
    for line in text.lines() {
        if !line.is_empty() {
            list.push(String::from_str(alloc, line)?)?;
        }
    }
    Ok(())
}
