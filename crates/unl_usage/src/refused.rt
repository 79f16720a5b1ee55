//! Reports why arguments are refused, followed by the usage.
use crate::arguments::{Cause, FILE_VARIABLE, arguments};
use crate::options::{CommandOption, options_of};
use crate::program::Program;
use crate::scan::{Given, OptionFault, scan};
use crate::usage::{push_commands, push_usage, push_version};
use crate::value_fault::{ValueFault, fault_of};
use std::alloc::{AllocError, Global};
use std::fmt::Display;
use std::rt::{Env, Files};

/// Reads the arguments again, and prints on standard error why the program refuses them, followed by its usage
/// ([`refusal_text`]). If they can't be read, prints only why not. Prints nothing if memory runs out.
pub fn report_refusal<R: Env + Files + AllocGlobal + Eprint>(rt: &R, program: Program) {
    match arguments(rt) {
        Ok(args) => {
            if let Ok(text) = refusal_text(rt.alloc(), program, &args) {
                report(rt, text.as_str());
            }
        }
        Err(Cause::NotText(what)) => report(rt, format_args!("{what} isn't UTF-8")),
        Err(Cause::File(path, fault)) => report(
            rt,
            format_args!("{FILE_VARIABLE}: {path}: {fault}"),
        ),
        Err(Cause::Memory) => {}
    }
}

/// Prints a text and a line break on standard error. A failed write is ignored.
fn report<E: Eprint, D: Display + Drop>(rt: &E, line: D) {
    let _ = rt.eprintln(line);
}

/// Returns the text to print for refused arguments, as lines: the reason, unless they ask for help, and the usage. If
/// the first argument is `--version` or `-V`, the text is the version instead. The text contains no option value that
/// was given, since a value may be secret.
///
/// # Errors
/// `AllocError`: out of memory.
pub fn refusal_text(
    alloc: Global,
    program: Program,
    args: &[String],
) -> Result<String, AllocError> {
    let mut text = String::new(alloc);
    let first = match args.first() {
        Some(first) => first.as_str(),
        None => "",
    };
    match program {
        _ if first == "--version" || first == "-V" => push_version(&mut text, program)?,
        Program::Edge => push_edge(alloc, &mut text, first, args)?,
        Program::DurableUpstream => push_durable(alloc, &mut text, first, args)?,
    }
    Ok(text)
}

/// Appends why `unl_edge` refuses its arguments, and the usage: that of the command or, if none is named, the commands.
fn push_edge(
    alloc: Global,
    text: &mut String,
    first: &str,
    args: &[String],
) -> Result<(), AllocError> {
    let Some(options) = options_of(first) else {
        push_no_command(text, first)?;
        return push_commands(text);
    };
    push_fault(alloc, text, Program::Edge, first, options, args)?;
    push_usage(text, Program::Edge, first, options)
}

/// Appends why the first argument names no command, unless it asks for help.
fn push_no_command(text: &mut String, first: &str) -> Result<(), AllocError> {
    match first {
        "--help" | "-h" | "help" => Ok(()),
        "" => text.push_str("unl_edge: no command is given\n"),
        _ => text.push_str("unl_edge: the first argument names no command\n"),
    }
}

/// Appends why `unl_durable_upstream` refuses its arguments, and its usage.
fn push_durable(
    alloc: Global,
    text: &mut String,
    first: &str,
    args: &[String],
) -> Result<(), AllocError> {
    let program = Program::DurableUpstream;
    let command = "upstream";
    let options = options_of(command).unwrap_or(&[]);
    if first.is_empty() || first.starts_with('-') {
        if first != "--help" && first != "-h" {
            text.push_str(
                "unl_durable_upstream: the first argument must be the path of the database\n",
            )?;
        }
    } else {
        push_fault(alloc, text, program, command, options, args)?;
    }
    push_usage(text, program, command, options)
}

/// Appends why the arguments after the first are refused, unless they ask for help.
fn push_fault(
    alloc: Global,
    text: &mut String,
    program: Program,
    command: &str,
    options: &[CommandOption],
    args: &[String],
) -> Result<(), AllocError> {
    let rest = args.get(1..).unwrap_or(&[]);
    match scan(alloc, options, rest)? {
        Err(OptionFault::Help) => Ok(()),
        Err(option_fault) => {
            push_place(text, program, command)?;
            push_option_fault(text, &option_fault)
        }
        Ok(found) => {
            push_place(text, program, command)?;
            push_values(alloc, text, command, options, &found)
        }
    }
}

/// Appends the start of a line: the name of the program and, for `unl_edge`, that of the command.
fn push_place(text: &mut String, program: Program, command: &str) -> Result<(), AllocError> {
    match program {
        Program::Edge => write!(text, "unl_edge {command}: "),
        Program::DurableUpstream => text.push_str("unl_durable_upstream: "),
    }
}

/// Appends why the arguments aren't options with values.
fn push_option_fault(text: &mut String, option_fault: &OptionFault<'_>) -> Result<(), AllocError> {
    match *option_fault {
        OptionFault::Help => Ok(()),
        OptionFault::NotAnOption(place) => writeln!(text, "argument {place} is not an option"),
        OptionFault::Unknown(name) => writeln!(text, "there is no option --{name}"),
        OptionFault::NoValue(option) => {
            let name = option.name;
            write!(text, "--{name} has no value after it; ")?;
            text.push_str("one that begins with a hyphen is written --OPTION=VALUE\n")
        }
        OptionFault::Repeated(option) => {
            let name = option.name;
            writeln!(text, "--{name} is given twice")
        }
        OptionFault::Missing(option) => {
            let name = option.name;
            writeln!(text, "--{name} is missing")
        }
    }
}

/// Appends why the first refused value is refused. If each value alone is accepted, the client and frontend tokens
/// together are at fault.
fn push_values(
    alloc: Global,
    text: &mut String,
    command: &str,
    options: &[CommandOption],
    found: &[Given<'_>],
) -> Result<(), AllocError> {
    for given in found {
        if let Some(fault) = fault_of(alloc, command, options, given)? {
            return push_value(text, &given.option, fault);
        }
    }
    text.push_str(
        "--client-tokens and --frontend-tokens have a token in common, or more than 1024\n",
    )
}

/// Appends why the value of an option is refused.
fn push_value(
    text: &mut String,
    option: &CommandOption,
    fault: ValueFault,
) -> Result<(), AllocError> {
    let name = option.name;
    let range = option.range;
    writeln!(text, "--{name} {fault}: {range}")
}
