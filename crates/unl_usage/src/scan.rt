//! Splits arguments into options and their values, or finds the first fault.
use crate::options::CommandOption;
use std::alloc::{AllocError, Global};

/// An option and its given value.
#[derive(Clone, Copy, Debug)]
pub(crate) struct Given<'a> {
    pub option: CommandOption,
    pub value: &'a str,
}

/// Why the arguments aren't options with values.
#[derive(Clone, Copy, Debug)]
pub(crate) enum OptionFault<'a> {
    /// The arguments ask for help.
    Help,
    /// The argument at this position is neither an option nor the value of one. The first argument after the command
    /// has position 2.
    NotAnOption(usize),
    /// The command has no option with this name.
    Unknown(&'a str),
    /// The option has no value.
    NoValue(CommandOption),
    /// The option is given twice.
    Repeated(CommandOption),
    /// The option is required, but not given.
    Missing(CommandOption),
}

/// The given options with their values, or the first fault.
pub(crate) type Scanned<'a> = Result<Vec<Given<'a>>, OptionFault<'a>>;

/// The meaning of an argument where an option may begin.
enum Argument<'a> {
    /// An option with its value.
    Whole(Given<'a>),
    /// An option whose value is the next argument.
    ValueNext(CommandOption),
    /// Not an option of the command, for this reason.
    None(OptionFault<'a>),
}

/// Splits the arguments after a command into its options: `--name value` or `--name=value`, each at most once. Returns
/// the first fault as the inner error.
///
/// # Errors
/// `AllocError`: out of memory.
pub(crate) fn scan<'a>(
    alloc: Global,
    options: &[CommandOption],
    args: &'a [String],
) -> Result<Scanned<'a>, AllocError> {
    let mut found = Vec::new(alloc);
    let mut begun: Option<CommandOption> = None;
    for (place, word) in args.iter().enumerate() {
        let word = word.as_str();
        let given = match begun {
            Some(option) if is_value(word) => Given {
                option,
                value: word,
            },
            Some(option) => return Ok(Err(OptionFault::NoValue(option))),
            None => match read_argument(options, word, place) {
                Argument::Whole(given) => given,
                Argument::ValueNext(option) => {
                    begun = Some(option);
                    continue;
                }
                Argument::None(option_fault) => return Ok(Err(option_fault)),
            },
        };
        begun = None;
        if value_of(&found, given.option.name).is_some() {
            return Ok(Err(OptionFault::Repeated(given.option)));
        }
        found.push(given)?;
    }
    match begun {
        Some(option) => Ok(Err(OptionFault::NoValue(option))),
        None => Ok(with_required(options, found)),
    }
}

/// Classifies an argument where an option may begin. `place` is its index among the arguments after the command.
fn read_argument<'a>(options: &[CommandOption], word: &'a str, place: usize) -> Argument<'a> {
    if word == "--help" || word == "-h" {
        return Argument::None(OptionFault::Help);
    }
    let Some(rest) = word.strip_prefix("--") else {
        return Argument::None(OptionFault::NotAnOption(place.saturating_add(2)));
    };
    match rest.split_once('=') {
        Some((name, value)) => match option_named(options, name) {
            Some(option) => Argument::Whole(Given { option, value }),
            None => Argument::None(OptionFault::Unknown(name)),
        },
        None => match option_named(options, rest) {
            Some(option) => Argument::ValueNext(option),
            None => Argument::None(OptionFault::Unknown(rest)),
        },
    }
}

/// Whether an argument can be the value of the option before it: it is `-`, or doesn't begin with a hyphen.
fn is_value(word: &str) -> bool {
    word == "-" || !word.starts_with('-')
}

/// Returns the given options if all required ones are among them, and otherwise `Missing` for the first that is not.
fn with_required<'a>(options: &[CommandOption], found: Vec<Given<'a>>) -> Scanned<'a> {
    for option in options {
        if option.absent.is_none() && value_of(&found, option.name).is_none() {
            return Err(OptionFault::Missing(*option));
        }
    }
    Ok(found)
}

/// The option of the command with this name, or `None` if there is none.
fn option_named(options: &[CommandOption], name: &str) -> Option<CommandOption> {
    options.iter().find(|option| option.name == name).copied()
}

/// The value given for the option with this name, or `None` if none is given.
pub(crate) fn value_of<'a>(found: &[Given<'a>], name: &str) -> Option<&'a str> {
    for given in found {
        if given.option.name == name {
            return Some(given.value);
        }
    }
    None
}
