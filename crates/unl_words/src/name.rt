//! Finds the command that the first argument names.
ghost use Rattle.std.specs.Prelude.{◌≡◌, map, option_map, string_bytes};
ghost use Rattle.unl_words.specs.Commands.{command_by};
ghost use Rattle.unl_words.specs.Words.{command_named, command_of};

/// The name of a command: the first argument of a command line.
#[derive(Clone, Copy)]
pub(crate) enum CommandName {
    Replay,
    Check,
    Edge,
    Upstream,
    Follow,
    Explain,
    Load,
}

/// Returns the command that the first argument names, or `None` if there is no argument or the first names no command.
pub(crate) fn first_name(arguments: &[String]) -> Option<CommandName>
    ensures { option_map command_by result ≡ command_of (map string_bytes arguments.now) }
{
    match arguments.first() {
        Some(first) => read_name(first.as_str()),
        None => None,
    }
}

/// Returns the command name that is equal to this text, if there is one.
#[tactic(auto, unfolding(crate::specs::Commands::command_by))]
fn read_name(text: &str) -> Option<CommandName>
    ensures { option_map command_by result ≡ command_named text.now }
{
    match text {
        "replay" => Some(CommandName::Replay),
        "check" => Some(CommandName::Check),
        "edge" => Some(CommandName::Edge),
        "upstream" => Some(CommandName::Upstream),
        "follow" => Some(CommandName::Follow),
        "explain" => Some(CommandName::Explain),
        "load" => Some(CommandName::Load),
        _ => None,
    }
}
