//! Reads option values that are numbers, and checks their bounds.
ghost use Rattle.std.specs.Prelude.{◌≡◌, IfOk, option_copied};
ghost use Rattle.std.specs.List.{list_all};
ghost use Rattle.std.specs.Char.{is_ascii_digit};
ghost use Rattle.unl_words.specs.Ranges.{IsWithin};
ghost use Rattle.unl_words.specs.Values.{is_number, is_port, number_or, number_within, required, within};

use crate::WordsRefusal;

/// Reads the number of an option, from `least` to `most`. Returns the default if the option is absent, and `Bad` if its
/// value isn't such a number.
pub(crate) fn number_or(
    given: Option<&str>,
    default: u64,
    least: u64,
    most: u64,
) -> Result<u64, WordsRefusal>
    requires { IsWithin least most default }
    ensures gives { result ≡ number_or default least most (option_copied given.entry) }
    ensures range { IfOk result (IsWithin least most) }
{
    match given {
        Some(text) => number_within(text, least, most),
        None => Ok(default),
    }
}

/// Reads the number of a required option, from `least` to `most`. Returns `Bad` if the option is absent or its value
/// isn't such a number.
pub(crate) fn required_number(
    given: Option<&str>,
    least: u64,
    most: u64,
) -> Result<u64, WordsRefusal>
    ensures gives { result ≡ required (number_within least most) (option_copied given.entry) }
    ensures range { IfOk result (IsWithin least most) }
{
    match given {
        Some(text) => number_within(text, least, most),
        None => Err(WordsRefusal::Bad),
    }
}

/// Whether a text is a port: 1 to 65535.
pub(crate) fn is_port(text: &str) -> bool
    ensures { result ≡ is_port text.now }
{
    number_within(text, 1, 65_535).is_ok()
}

/// Parses a number from `least` to `most`, written as one or more ASCII digits; leading zeros are allowed. Any other
/// text is `Bad`.
#[tactic(auto, unfolding(crate::specs::Values::number_within))]
fn number_within(text: &str, least: u64, most: u64) -> Result<u64, WordsRefusal>
    ensures gives { result ≡ number_within least most text.now }
    ensures range { IfOk result (IsWithin least most) }
{
    if !is_number(text) {
        return Err(WordsRefusal::Bad);
    }
    match text.parse::<u64>() {
        Ok(number) => within(number, least, most),
        Err(_) => Err(WordsRefusal::Bad),
    }
}

/// Returns the number if it is from `least` to `most`, otherwise `Bad`.
fn within(number: u64, least: u64, most: u64) -> Result<u64, WordsRefusal>
    ensures gives { result ≡ within least most number }
    ensures range { IfOk result (IsWithin least most) }
{
    if least <= number && number <= most {
        Ok(number)
    } else {
        Err(WordsRefusal::Bad)
    }
}

/// Whether a text consists of one or more ASCII digits.
fn is_number(text: &str) -> bool
    ensures { result ≡ is_number text.now }
{
    !text.is_empty() && are_digits(text.as_bytes())
}

/// Whether each byte is an ASCII digit.
fn are_digits(bytes: &[u8]) -> bool
    ensures { result ≡ list_all is_ascii_digit bytes.now }
{
    bytes.iter().all(|byte| byte.is_ascii_digit())
}
