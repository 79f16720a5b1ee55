//! Parses a command line: its command, and the value of each option, checked against its range.
ghost use Rattle.std.specs.Prelude.{◌≡◌, ◌<◌, ◌^◌, Some, IfOk, codes, map, string_bytes};
ghost use Rattle.clap.specs.Words.{first_of, found_of, rows_of};
ghost use Rattle.unl_documents.specs.Results.{Gives};
ghost use Rattle.unl_words.specs.Commands.{command_by};
ghost use Rattle.unl_words.specs.Ranges.{IsInRange, IsWithin};
ghost use Rattle.unl_words.specs.Values.{number_or};
ghost use Rattle.unl_words.specs.Words.{CommandDefinition, DecidedByRanges, asked_of, asks_check, asks_edge, asks_follow, asks_load};
ghost use Rattle.unl_words.specs.Words.{asks_upstream, command_of, last_number, words_of};
ghost use Rattle.unl_words.specs.declared.refusal.WordsRefusal.TheVariants.{Memory};

use crate::name::{CommandName, first_name};
use crate::number::{number_or, required_number};
use crate::value::given;
use crate::{
    EdgeArguments, FollowArguments, UpstreamArguments, Words, WordsRefusal, command, items, value,
};
use clap::ArgMatches;
use std::alloc::Global;

/// The latest time that `--now` accepts, in milliseconds since 1970. The limit is chosen by this project.
const LAST_MOMENT: u64 = 100_000_000_000_000;

/// Reads the arguments of a command line, without the name of the program. The first argument names the command. Clap
/// parses the others as a command without subcommands, in which each option has one value after its long name. A number
/// consists of one or more ASCII digits. A list has commas between its items; ASCII whitespace around an item is
/// removed, and empty items are dropped. The fields of [`Words`] say what each value means.
///
/// - `replay` has no options.
/// - `check` has `--now`, a time of at most 100,000,000,000,000 milliseconds since 1970, and `--word`, an unsigned
///   64-bit number. Each defaults to 0.
/// - `edge` has `--port` (default 3063), `--upstream` `HOST:PORT`, which is split at its last colon into a nonempty
///   host and a port, `--upstream-tokens`, 1 to 8 tokens with distinct environments, `--tokens`, 1 to 1,024 tokens,
///   `--host` (default empty), `--workers`, 1 to 16 (default 4), `--interval`, 1 to 3,600 seconds (default 15),
///   `--connections`, an unsigned 64-bit number (default 0), and `--mode`, `feed` or `delta` (default `delta`). The
///   upstream and both lists of tokens are required.
/// - `upstream` has `--port` (default 4242), `--secret`, which isn't empty, `--environments`, 1 to 8 distinct names,
///   `--client-tokens` and `--frontend-tokens` (default empty), together at most 1,024 distinct texts, each with one
///   project or all projects, `--connections` as for `edge`, `--epoch`, an unsigned 64-bit number (default 0), and
///   `--keep`, `memory` or `sqlite` (default `memory`). The secret and the environments are required.
/// - `follow` has `--upstream` as for `edge`, `--token`, `--feature`, a name, `--context`, the query of a URL, such as
///   `userId=7`, that `Context::read_query` accepts (default empty), `--mode` as for `edge`, `--turns`, 1 to 1,000,000
///   (default 1), and `--interval` as for `edge`. The first three are required. The context's environment is set to
///   that of the token.
/// - `explain` has no options.
/// - `load` has `--seed`, an unsigned 64-bit number, and `--count`, 1 to 1,000,000. Both are required.
///
/// A port is 1 to 65535. A name has 1 to 255 bytes. A token's text has at most 512 bytes, `Scope::read` can parse it as
/// `project:environment.secret`, and its environment and projects are names. Hosts, secrets and tokens contain no
/// carriage return, line feed or NUL.
///
/// # Errors
///
/// - `Bad`: there are no arguments, the first names no command, clap rejects the others (as it does `--help`), or a
///   value is outside its range.
/// - `Memory`: out of memory.
#[tactic(auto, unfolding(crate::specs::Words::words_of))]
pub fn read_words(alloc: Global, words: &[String]) -> Result<Words, WordsRefusal>
    // The result is what the definition `words_of` gives for the arguments, or the error `Memory`.
    ensures exact { Gives Memory result (words_of (map string_bytes words.now)) }
    // If the first argument names a command, and clap accepts the others for it, the result is what the command
    // makes of the values that clap finds (`Bad` if one is outside its range), or the error `Memory`.
    ensures decided { (command : CommandDefinition) → command_of (map string_bytes words.now) ≡ Some command
        → DecidedByRanges command (map string_bytes words.now) result }
    // The values are in their ranges.
    ensures valid { IfOk result IsInRange }
{
    match first_name(words) {
        Some(name) => read_command(alloc, name, words),
        None => Err(WordsRefusal::Bad),
    }
}

/// Reads the arguments of the command with this name. The first argument is the name itself.
fn read_command(
    alloc: Global,
    name: CommandName,
    arguments: &[String],
) -> Result<Words, WordsRefusal>
    ensures exact { Gives Memory result (asked_of (command_by name) (map string_bytes arguments.now)) }
    ensures decided { DecidedByRanges (command_by name) (map string_bytes arguments.now) result }
    ensures valid { IfOk result IsInRange }
{
    let command = command::named(alloc, name)?;
    let matches = command::matched(command, arguments)?;
    asked(alloc, name, &matches)
}

/// Returns the command with the values that clap found, or `Bad` if a value is outside its range.
#[tactic(auto, unfolding(crate::specs::Commands::command_by))]
fn asked(alloc: Global, name: CommandName, matches: &ArgMatches<'_>) -> Result<Words, WordsRefusal>
    ensures gives { Gives Memory result ((command_by name).asks (rows_of (found_of matches.now))) }
    ensures valid { IfOk result IsInRange }
{
    match name {
        CommandName::Replay => Ok(Words::Replay),
        CommandName::Check => asked_check(matches),
        CommandName::Edge => asked_edge(alloc, matches),
        CommandName::Upstream => asked_upstream(alloc, matches),
        CommandName::Follow => asked_follow(alloc, matches),
        CommandName::Explain => Ok(Words::Explain),
        CommandName::Load => asked_load(matches),
    }
}

/// Returns the `check` command with the values that clap found.
#[tactic(auto, unfolding(crate::specs::Words::asks_check))]
fn asked_check(matches: &ArgMatches<'_>) -> Result<Words, WordsRefusal>
    ensures gives { result ≡ asks_check (rows_of (found_of matches.now)) }
    ensures valid { IfOk result IsInRange }
{
    let now = number_or(given(matches, "now"), 0, 0, LAST_MOMENT)?;
    let word = any_number(matches, "word")?;
    Ok(Words::Check { now, word })
}

/// Returns the `edge` command with the values that clap found.
#[tactic(auto, unfolding(crate::specs::Words::asks_edge))]
fn asked_edge(alloc: Global, matches: &ArgMatches<'_>) -> Result<Words, WordsRefusal>
    ensures gives { Gives Memory result (asks_edge (rows_of (found_of matches.now))) }
    ensures valid { IfOk result IsInRange }
{
    let port = port_or(matches, 3063)?;
    let workers = short_number(matches, "workers", 4, 1, 16)?;
    let interval = short_number(matches, "interval", 15, 1, 3600)?;
    let connections = any_number(matches, "connections")?;
    let delta = value::mode_or_delta(given(matches, "mode"))?;
    let upstream = value::address(alloc, given(matches, "upstream"))?;
    let upstream_tokens = items::upstream_tokens(alloc, given(matches, "upstream-tokens"))?;
    let tokens = items::tokens(alloc, given(matches, "tokens"))?;
    let host = value::line_or_empty(alloc, given(matches, "host"))?;
    Ok(Words::Edge(EdgeArguments {
        port,
        upstream,
        upstream_tokens,
        tokens,
        host,
        workers,
        interval,
        connections,
        delta,
    }))
}

/// Returns the `upstream` command with the values that clap found.
#[tactic(auto, unfolding(crate::specs::Words::asks_upstream))]
fn asked_upstream(alloc: Global, matches: &ArgMatches<'_>) -> Result<Words, WordsRefusal>
    ensures gives { Gives Memory result (asks_upstream (rows_of (found_of matches.now))) }
    ensures valid { IfOk result IsInRange }
{
    let port = port_or(matches, 4242)?;
    let connections = any_number(matches, "connections")?;
    let epoch = any_number(matches, "epoch")?;
    let sqlite = value::sqlite_or_memory(given(matches, "keep"))?;
    let secret = value::secret(alloc, given(matches, "secret"))?;
    let environments = items::environments(alloc, given(matches, "environments"))?;
    let client_tokens = items::own_tokens(alloc, given(matches, "client-tokens"))?;
    let frontend_tokens = items::own_tokens(alloc, given(matches, "frontend-tokens"))?;
    if !items::fit_one_book(&client_tokens, &frontend_tokens) {
        return Err(WordsRefusal::Bad);
    }
    Ok(Words::Upstream(UpstreamArguments {
        port,
        secret,
        environments,
        client_tokens,
        frontend_tokens,
        connections,
        epoch,
        sqlite,
    }))
}

/// Returns the `follow` command with the values that clap found.
#[tactic(auto, unfolding(crate::specs::Words::asks_follow))]
fn asked_follow(alloc: Global, matches: &ArgMatches<'_>) -> Result<Words, WordsRefusal>
    ensures gives { Gives Memory result (asks_follow (rows_of (found_of matches.now))) }
    ensures valid { IfOk result IsInRange }
{
    let delta = value::mode_or_delta(given(matches, "mode"))?;
    let turns = short_number(matches, "turns", 1, 1, 1_000_000)?;
    let interval = short_number(matches, "interval", 15, 1, 3600)?;
    let upstream = value::address(alloc, given(matches, "upstream"))?;
    let token = value::token(alloc, given(matches, "token"))?;
    let feature = value::name(alloc, given(matches, "feature"))?;
    let context = value::context_or_none(alloc, given(matches, "context"))?;
    let context = value::placed(alloc, context, &token)?;
    Ok(Words::Follow(FollowArguments {
        upstream,
        token,
        feature,
        context,
        delta,
        turns,
        interval,
    }))
}

/// Returns the `load` command with the values that clap found.
#[tactic(auto, unfolding(crate::specs::Words::asks_load))]
fn asked_load(matches: &ArgMatches<'_>) -> Result<Words, WordsRefusal>
    ensures gives { result ≡ asks_load (rows_of (found_of matches.now)) }
    ensures valid { IfOk result IsInRange }
{
    let seed = required_number(given(matches, "seed"), 0, u64::MAX)?;
    let count = required_number(given(matches, "count"), 1, 1_000_000)?;
    Ok(Words::Load { seed, count })
}

/// Reads the port in the option `--port`: 1 to 65535. Returns the default if the option is absent.
fn port_or(matches: &ArgMatches<'_>, default: u64) -> Result<u16, WordsRefusal>
    requires { IsWithin 1 65535 default }
    ensures gives { result ≡ number_or default 1 65535 (first_of (codes "port") (rows_of (found_of matches.now))) }
    ensures range { IfOk result (IsWithin 1 65535) }
{
    let port = number_or(given(matches, "port"), default, 1, 65_535)?;
    Ok(port as u16)
}

/// Reads the number in an option, within bounds that fit in 32 bits. Returns the default if the option is absent.
fn short_number(
    matches: &ArgMatches<'_>,
    name: &str,
    default: u64,
    least: u64,
    most: u64,
) -> Result<u32, WordsRefusal>
    requires default { IsWithin least most default }
    requires short { most < 2 ^ 32 }
    ensures gives { result ≡ number_or default least most (first_of name.now (rows_of (found_of matches.now))) }
    ensures range { IfOk result (IsWithin least most) }
{
    let number = number_or(given(matches, name), default, least, most)?;
    Ok(number as u32)
}

/// Reads the unsigned 64-bit number in an option. Returns 0 if the option is absent.
fn any_number(matches: &ArgMatches<'_>, name: &str) -> Result<u64, WordsRefusal>
    ensures { result ≡ number_or 0 0 last_number (first_of name.now (rows_of (found_of matches.now))) }
{
    number_or(given(matches, name), 0, 0, u64::MAX)
}
