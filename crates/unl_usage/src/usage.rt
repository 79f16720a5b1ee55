//! The usage texts of the programs and their commands.
use crate::options::{COMMANDS, CommandOption};
use crate::program::Program;
use std::alloc::AllocError;

/// The version of the programs, and the toolchain that last proved them.
const VERSION: &str = "1.0.0, proved with rattle-kit-13f of the logic dac8208d650f15bf";

/// The note on the environment variable that names a file with more arguments.
const FILE_NOTE: &str =
    "If UNL_EDGE_WORDS_FILE names a file, each of its non-empty lines is one more argument.";

/// Appends the program's name and version.
pub(crate) fn push_version(text: &mut String, program: Program) -> Result<(), AllocError> {
    let name = program.name();
    write!(text, "{name} {VERSION}")
}

/// Appends the list of commands, and the note on the file of arguments.
pub(crate) fn push_commands(text: &mut String) -> Result<(), AllocError> {
    text.push_str("usage: unl_edge COMMAND [--OPTION VALUE ..]")?;
    for (name, purpose) in &COMMANDS {
        write!(text, "\n  {name:<10}{purpose}")?;
    }
    text.push_str(
        "\nunl_edge COMMAND --help lists the options of a command, unl_edge --version the version.\n",
    )?;
    text.push_str(FILE_NOTE)
}

/// Appends the usage of a command: one line with its required options, one line for each option, and the note on the
/// file of arguments.
pub(crate) fn push_usage(
    text: &mut String,
    program: Program,
    command: &str,
    options: &[CommandOption],
) -> Result<(), AllocError> {
    match program {
        Program::Edge => write!(text, "usage: unl_edge {command}")?,
        Program::DurableUpstream => text.push_str("usage: unl_durable_upstream FILE")?,
    }
    for option in options {
        push_named(text, option)?;
    }
    for option in options {
        push_option_of(text, program, option)?;
    }
    text.push_str("\n")?;
    text.push_str(FILE_NOTE)
}

/// Appends an option to the first line of the usage if it is required.
fn push_named(text: &mut String, option: &CommandOption) -> Result<(), AllocError> {
    if option.absent.is_some() {
        return Ok(());
    }
    let name = option.name;
    let value = option.value;
    write!(text, " --{name} {value}")
}

/// Appends the line that describes an option. `--keep` is left out for `unl_durable_upstream`, where it has no effect:
/// the commands are always kept in the database file.
fn push_option_of(
    text: &mut String,
    program: Program,
    option: &CommandOption,
) -> Result<(), AllocError> {
    match program {
        Program::DurableUpstream if option.name == "keep" => Ok(()),
        Program::Edge | Program::DurableUpstream => push_option(text, option),
    }
}

/// Appends the line that describes an option.
fn push_option(text: &mut String, option: &CommandOption) -> Result<(), AllocError> {
    let name = option.name;
    let value = option.value;
    let purpose = option.purpose;
    let range = option.range;
    write!(text, "\n  --{name} {value}")?;
    match option.absent {
        Some(absent) => write!(text, " ({absent})")?,
        None => text.push_str(" (required)")?,
    }
    write!(text, ": {purpose}; {range}")
}
