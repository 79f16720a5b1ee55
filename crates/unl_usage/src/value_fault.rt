//! Finds why the value of an option is refused: calls `read_words` with this value, or with one of its list items, and
//! with valid sample values for the other required options.
use crate::options::{CommandOption, OptionKind, sample_of};
use crate::scan::Given;
use std::alloc::{AllocError, Global};
use thiserror::Error;
use unl_words::{WordsRefusal, read_words};

/// Why the value of an option is refused. Its text follows the name of the option.
#[derive(Clone, Copy, Debug, Error)]
pub(crate) enum ValueFault {
    /// It is not a number.
    #[error("is no number")]
    NoNumber,
    /// It is a number outside the range.
    #[error("is out of range")]
    OutOfRange,
    /// It is a list without items.
    #[error("is an empty list")]
    EmptyList,
    /// The item at this position is refused even as the only item. Positions count from 1 and skip empty items.
    #[error("has a bad item {0}")]
    BadItem(usize),
    /// Each item alone is accepted, but there are too many, or two of them are alike: equal items, or tokens of the
    /// same environment for an option that allows one token for each environment.
    #[error("has too many items, or two alike")]
    BadItems,
    /// It is a text that the option doesn't accept.
    #[error("has a bad value")]
    BadText,
}

/// Returns why this command refuses the value of an option. `None` if it accepts the value.
pub(crate) fn fault_of(
    alloc: Global,
    command: &str,
    options: &[CommandOption],
    given: &Given<'_>,
) -> Result<Option<ValueFault>, AllocError> {
    if takes(alloc, command, options, given.option.name, given.value)? {
        return Ok(None);
    }
    let fault = match given.option.kind {
        OptionKind::Number if is_number(given.value) => ValueFault::OutOfRange,
        OptionKind::Number => ValueFault::NoNumber,
        OptionKind::List => list_fault(alloc, command, options, given)?,
        OptionKind::Other => ValueFault::BadText,
    };
    Ok(Some(fault))
}

/// Returns why the command refuses the value of a list option.
fn list_fault(
    alloc: Global,
    command: &str,
    options: &[CommandOption],
    given: &Given<'_>,
) -> Result<ValueFault, AllocError> {
    let mut count = 0usize;
    for item in given.value.split(',') {
        if item.trim_ascii().is_empty() {
            continue;
        }
        count = count.saturating_add(1);
        if !takes(alloc, command, options, given.option.name, item)? {
            return Ok(ValueFault::BadItem(count));
        }
    }
    if count == 0 {
        Ok(ValueFault::EmptyList)
    } else {
        Ok(ValueFault::BadItems)
    }
}

/// Whether a command accepts this value of an option.
fn takes(
    alloc: Global,
    command: &str,
    options: &[CommandOption],
    name: &str,
    value: &str,
) -> Result<bool, AllocError> {
    let mut args = Vec::new(alloc);
    args.push(String::from_str(alloc, command)?)?;
    for option in options {
        if option.absent.is_none() && option.name != name {
            args.push(word_of(alloc, option.name, sample_of(option.name))?)?;
        }
    }
    args.push(word_of(alloc, name, value)?)?;
    match read_words(alloc, &args) {
        Ok(_) => Ok(true),
        Err(WordsRefusal::Bad) => Ok(false),
        Err(WordsRefusal::Memory) => Err(AllocError),
    }
}

/// Returns an option and its value as one argument, `--name=value`.
fn word_of(alloc: Global, name: &str, value: &str) -> Result<String, AllocError> {
    format!(in alloc; "--{name}={value}")
}

/// Whether a text consists of one or more ASCII digits.
fn is_number(text: &str) -> bool {
    !text.is_empty() && text.bytes().all(|byte| byte.is_ascii_digit())
}
