//! The definition of each command for clap: its name and its options.
ghost use Rattle.std.specs.Prelude.{◌≡◌, ◌≢◌, true, false, map, IfOk, IfErr, Ok, Err, string_bytes};
ghost use Rattle.std.specs.List.{fold};
ghost use Rattle.clap.specs.Words.{app_of, found_of, is_simple_and_free, matches_of, rows_of, rule_of, takes, with_rule};
ghost use Rattle.unl_words.specs.Commands.{command_by};
ghost use Rattle.unl_words.specs.Words.{check_app, edge_app, explain_app, follow_app, load_app, matched, option_named};
ghost use Rattle.unl_words.specs.Words.{replay_app, upstream_app};
ghost use Rattle.unl_words.specs.declared.refusal.WordsRefusal.TheVariants.{Memory};

use crate::WordsRefusal;
use crate::name::CommandName;
use clap::{Arg, ArgAction, ArgMatches, Command};
use std::alloc::{AllocError, Global};

/// Returns clap's definition of the command with this name.
#[tactic(auto, unfolding(crate::specs::Commands::command_by))]
pub(crate) fn named<'a>(alloc: Global, name: CommandName) -> Result<Command<'a>, AllocError>
    ensures { IfOk result (λ command. app_of command ≡ (command_by name).app) }
{
    match name {
        CommandName::Replay => Ok(replay(alloc)),
        CommandName::Check => check(alloc),
        CommandName::Edge => edge(alloc),
        CommandName::Upstream => upstream(alloc),
        CommandName::Follow => follow(alloc),
        CommandName::Explain => Ok(explain(alloc)),
        CommandName::Load => load(alloc),
    }
}

/// Returns clap's definition of `replay`, which has no options.
#[tactic(auto, unfolding(crate::specs::Words::replay_app))]
fn replay<'a>(alloc: Global) -> Command<'a>
    ensures { app_of result ≡ replay_app }
{
    Command::new(alloc, "replay")
}

/// Returns clap's definition of `check`, which has options for the time and the random word of its evaluations.
#[tactic(auto, unfolding(crate::specs::Words::check_app))]
fn check<'a>(alloc: Global) -> Result<Command<'a>, AllocError>
    ensures { IfOk result (λ command. app_of command ≡ check_app) }
{
    with_options(alloc, Command::new(alloc, "check"), &["now", "word"], false)
}

/// Returns clap's definition of `edge`, which requires its upstream and both lists of tokens.
#[tactic(auto, unfolding(crate::specs::Words::edge_app))]
fn edge<'a>(alloc: Global) -> Result<Command<'a>, AllocError>
    ensures { IfOk result (λ command. app_of command ≡ edge_app) }
{
    let required = ["upstream", "upstream-tokens", "tokens"];
    let others = ["host", "workers", "interval", "connections", "mode"];
    let command = with_option(alloc, Command::new(alloc, "edge"), "port", false)?;
    let command = with_options(alloc, command, &required, true)?;
    with_options(alloc, command, &others, false)
}

/// Returns clap's definition of `upstream`, which requires its secret and its environments.
#[tactic(auto, unfolding(crate::specs::Words::upstream_app))]
fn upstream<'a>(alloc: Global) -> Result<Command<'a>, AllocError>
    ensures { IfOk result (λ command. app_of command ≡ upstream_app) }
{
    let required = ["secret", "environments"];
    let others = [
        "client-tokens",
        "frontend-tokens",
        "connections",
        "epoch",
        "keep",
    ];
    let command = with_option(alloc, Command::new(alloc, "upstream"), "port", false)?;
    let command = with_options(alloc, command, &required, true)?;
    with_options(alloc, command, &others, false)
}

/// Returns clap's definition of `follow`, which requires its upstream, its token and its feature.
#[tactic(auto, unfolding(crate::specs::Words::follow_app))]
fn follow<'a>(alloc: Global) -> Result<Command<'a>, AllocError>
    ensures { IfOk result (λ command. app_of command ≡ follow_app) }
{
    let required = ["upstream", "token", "feature"];
    let others = ["context", "mode", "turns", "interval"];
    let command = with_options(alloc, Command::new(alloc, "follow"), &required, true)?;
    with_options(alloc, command, &others, false)
}

/// Returns clap's definition of `explain`, which has no options.
#[tactic(auto, unfolding(crate::specs::Words::explain_app))]
fn explain<'a>(alloc: Global) -> Command<'a>
    ensures { app_of result ≡ explain_app }
{
    Command::new(alloc, "explain")
}

/// Returns clap's definition of `load`, which requires its seed and its count.
#[tactic(auto, unfolding(crate::specs::Words::load_app))]
fn load<'a>(alloc: Global) -> Result<Command<'a>, AllocError>
    ensures { IfOk result (λ command. app_of command ≡ load_app) }
{
    with_options(alloc, Command::new(alloc, "load"), &["seed", "count"], true)
}

/// Adds an option for each name. All of them are required, or none.
fn with_options<'a>(
    alloc: Global,
    command: Command<'a>,
    names: &[&'a str],
    required: bool,
) -> Result<Command<'a>, AllocError>
    ensures { IfOk result (λ more. app_of more ≡ fold with_rule (app_of command.entry)
        (map (λ name. record (option_named name.now) { required = required }) names.entry.now)) }
{
    let mut command = command;
    for name in names {
        command = with_option(alloc, command, *name, required)?;
    }
    Ok(command)
}

/// Adds an option that takes one value after its long name.
fn with_option<'a>(
    alloc: Global,
    command: Command<'a>,
    name: &'a str,
    required: bool,
) -> Result<Command<'a>, AllocError>
    ensures { IfOk result (λ more. app_of more
        ≡ with_rule (app_of command.entry) (record (option_named name.entry.now) { required = required })) }
{
    command.arg(option_named(alloc, name, required))
}

/// Returns an option that takes one value after its long name.
fn option_named<'a>(alloc: Global, name: &'a str, required: bool) -> Arg<'a>
    ensures rule { rule_of result ≡ record (option_named name.entry.now) { required = required } }
    ensures local { result.global ≡ false }
{
    Arg::new(alloc, name)
        .long(name)
        .action(ArgAction::Set)
        .required(required)
}

/// Parses the arguments after the first, which is the command's name, and returns the values that clap finds.
pub(crate) fn matched<'a>(
    command: Command<'a>,
    arguments: &'a [String],
) -> Result<ArgMatches<'a>, WordsRefusal>
    requires simple { is_simple_and_free (app_of command) ≡ true }
    ensures rows { IfOk result (λ matches. rows_of (found_of matches)
        ≡ matches_of (app_of command.entry) (map string_bytes arguments.entry.now)) }
    ensures found { IfOk result (λ matches. matched (app_of command.entry) (map string_bytes arguments.entry.now)
        ≡ Ok (rows_of (found_of matches))) }
    ensures refused { IfErr result (λ refusal. refusal ≢ Memory
        → matched (app_of command.entry) (map string_bytes arguments.entry.now) ≡ Err refusal) }
    ensures accepted { IfErr result (λ refusal. takes (app_of command.entry) (map string_bytes arguments.entry.now) ≡ true
        → refusal ≡ Memory) }
{
    Ok(command.try_get_matches_from(arguments)?)
}
