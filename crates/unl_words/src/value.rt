//! Reads option values that are neither numbers nor lists: addresses, secrets, tokens, names, texts of one line, modes
//! and a context. Each reading function says which values it accepts, and returns `Bad` for any other value. It returns
//! `Bad` for an absent option too, unless it states a default.
ghost use Rattle.std.specs.Prelude.{◌≡◌, ◌<◌, true, Ok, IfOk, option_copied, option_map};
ghost use Rattle.std.specs.List.{list_all};
ghost use Rattle.std.specs.Path.{rsplit_once};
ghost use Rattle.clap.specs.Words.{first_of, found_of, rows_of};
ghost use Rattle.unl_context.specs.Limits.{is_within_limits};
ghost use Rattle.unl_documents.specs.Results.{Gives};
ghost use Rattle.unl_documents.specs.Texts.{is_name};
ghost use Rattle.unl_words.specs.Lists.{environment_of, is_token, token_of};
ghost use Rattle.unl_words.specs.Values.{address_of, context_by, is_line_byte, is_address, is_line, is_secret, line_of};
ghost use Rattle.unl_words.specs.Values.{mode_or_delta};
ghost use Rattle.unl_words.specs.Values.{name_of, or_empty, passed, placed, required, secret_of, sqlite_or_memory};
ghost use Rattle.unl_words.specs.declared.refusal.WordsRefusal.TheVariants.{Memory};

use crate::WordsRefusal;
use crate::number::is_port;
use crate::token::{is_token, token_environment};
use clap::ArgMatches;
use std::alloc::Global;
use unl_context::Context;
use unl_documents::Text;
use unl_documents::texts::is_name;

/// Returns the value of an option, or `None` if the option is absent.
pub(crate) fn given<'a>(matches: &ArgMatches<'a>, name: &str) -> Option<&'a str>
    ensures { option_copied result ≡ first_of name.now (rows_of (found_of matches.now)) }
{
    matches.get_str(name)
}

/// Reads a text without carriage return, line feed or NUL. Returns an empty text if the option is absent.
pub(crate) fn line_or_empty(alloc: Global, given: Option<&str>) -> Result<Text, WordsRefusal>
    ensures gives { Gives Memory result (or_empty line_of (option_copied given.entry)) }
    ensures valid { IfOk result (λ text. is_line text ≡ true) }
{
    let text = given.unwrap_or("");
    accepted(alloc, text, is_line(text))
}

/// Reads a context from the query of a URL, such as `userId=7&region=eu`. Returns an empty context if the option is
/// absent.
pub(crate) fn context_or_none(alloc: Global, given: Option<&str>) -> Result<Context, WordsRefusal>
    ensures gives { Gives Memory result (or_empty context_by (option_copied given.entry)) }
    ensures valid { IfOk result (λ context. is_within_limits context ≡ true) }
{
    Ok(Context::read_query(alloc, given.unwrap_or("").as_bytes())?)
}

/// Sets the context's environment to that of a token, replacing any environment in the context.
pub(crate) fn placed(
    alloc: Global,
    mut context: Context,
    token: &Text,
) -> Result<Context, WordsRefusal>
    requires token { is_token true token.now ≡ true }
    requires within { is_within_limits context ≡ true }
    ensures gives { Gives Memory result (Ok (placed (environment_of token.now) context)) }
    ensures valid { IfOk result (λ context. is_within_limits context ≡ true) }
{
    let environment = token_environment(alloc, token.as_str())?;
    context.set_environment(alloc, environment.as_str())?;
    Ok(context)
}

/// Reads the name of a feature.
pub(crate) fn name(alloc: Global, given: Option<&str>) -> Result<Text, WordsRefusal>
    ensures gives { Gives Memory result (required name_of (option_copied given.entry)) }
    ensures valid { IfOk result (λ text. is_name text ≡ true) }
{
    match given {
        Some(text) => accepted(alloc, text, is_name(text)),
        None => Err(WordsRefusal::Bad),
    }
}

/// Reads a token that is sent to an upstream: a text that [`is_token`] accepts, with `[]` allowed as its project.
pub(crate) fn token(alloc: Global, given: Option<&str>) -> Result<Text, WordsRefusal>
    ensures gives { Gives Memory result (required token_of (option_copied given.entry)) }
    ensures valid { IfOk result (λ text. is_token true text ≡ true) }
{
    let Some(text) = given else {
        return Err(WordsRefusal::Bad);
    };
    let passes = is_token(alloc, text, true)?;
    accepted(alloc, text, passes)
}

/// Reads a secret: a nonempty text without carriage return, line feed or NUL.
pub(crate) fn secret(alloc: Global, given: Option<&str>) -> Result<Text, WordsRefusal>
    ensures gives { Gives Memory result (required secret_of (option_copied given.entry)) }
    ensures valid { IfOk result (λ text. is_secret text ≡ true) }
{
    match given {
        Some(text) => accepted(alloc, text, is_secret(text)),
        None => Err(WordsRefusal::Bad),
    }
}

/// Reads an address `HOST:PORT`, split at its last colon. The host is a nonempty text without carriage return, line
/// feed or NUL.
pub(crate) fn address(alloc: Global, given: Option<&str>) -> Result<Text, WordsRefusal>
    ensures gives { Gives Memory result (required address_of (option_copied given.entry)) }
    ensures valid { IfOk result (λ text. is_address text ≡ true) }
{
    match given {
        Some(text) => accepted(alloc, text, is_address(text)),
        None => Err(WordsRefusal::Bad),
    }
}

/// Reads the mode: true for `delta` (only changes are requested), which is the default, and false for `feed` (whole
/// feeds).
pub(crate) fn mode_or_delta(given: Option<&str>) -> Result<bool, WordsRefusal>
    ensures { result ≡ mode_or_delta (option_copied given.entry) }
{
    match given {
        Some("delta") | None => Ok(true),
        Some("feed") => Ok(false),
        Some(_) => Err(WordsRefusal::Bad),
    }
}

/// Reads where an upstream keeps the commands that change its features: true for `sqlite` (a database in memory), and
/// false for `memory` (a list), which is the default.
pub(crate) fn sqlite_or_memory(given: Option<&str>) -> Result<bool, WordsRefusal>
    ensures { result ≡ sqlite_or_memory (option_copied given.entry) }
{
    match given {
        Some("memory") | None => Ok(false),
        Some("sqlite") => Ok(true),
        Some(_) => Err(WordsRefusal::Bad),
    }
}

/// Returns a copy of the text if `passes` is true, otherwise `Bad`.
fn accepted(alloc: Global, text: &str, passes: bool) -> Result<Text, WordsRefusal>
    ensures gives { Gives Memory result (passed passes text.now) }
    ensures passes { IfOk result (λ copy. (copy ≡ text.now) × (passes ≡ true)) }
{
    if passes {
        Ok(Text::new(alloc, text)?)
    } else {
        Err(WordsRefusal::Bad)
    }
}

#[tactic(auto, unfolding(crate::specs::Values::is_address))]
fn is_address(text: &str) -> bool
    ensures { result ≡ is_address text.now }
{
    match cut_last(text, ':') {
        Some((host, port)) => is_secret(host) && is_port(port),
        None => false,
    }
}

/// Splits a text at the last occurrence of an ASCII character.
fn cut_last(text: &str, mark: char) -> Option<(&str, &str)>
    requires { mark < 128 }
    ensures { option_map (λ sides. (sides.0.now, sides.1.now)) result ≡ rsplit_once mark text.now }
{
    text.rsplit_once(mark)
}

fn is_secret(text: &str) -> bool
    ensures { result ≡ is_secret text.now }
{
    !text.is_empty() && is_line(text)
}

/// Whether a text contains no carriage return, line feed or NUL.
pub(crate) fn is_line(text: &str) -> bool
    ensures { result ≡ is_line text.now }
{
    are_line_bytes(text.as_bytes())
}

fn are_line_bytes(bytes: &[u8]) -> bool
    ensures { result ≡ list_all is_line_byte bytes.now }
{
    bytes.iter().all(|byte| is_line_byte(*byte))
}

fn is_line_byte(byte: u8) -> bool
    ensures { result ≡ is_line_byte byte }
{
    byte != b'\r' && byte != b'\n' && byte != 0
}
