//! The command line of the program: the path of the database file, then the options of the command `upstream` of
//! `unl_edge`.
ghost use Rattle.std.specs.Prelude.{◌≡◌, ℕ, List, IfNone, IfOk, IfSome, map, string_bytes};
ghost use Rattle.unl_durable_upstream.specs.Arguments.{IsReading, NamesAnotherCommand, bound_of};
ghost use Rattle.unl_words.specs.Ranges.{IsUpstream};
ghost use Rattle.unl_words.specs.declared.words.Words.TheVariants.{Upstream};

use crate::fault::ProgramFault;
use std::alloc::Global;
use std::mem;
use unl_usage::{ArgumentsFault, read_arguments};
use unl_words::{UpstreamArguments, Words, WordsRefusal, read_words};

/// The arguments of the program.
#[derive(Drop)]
pub struct ProgramArguments {
    /// The path of the database file.
    pub path: String,
    /// The values of the options, with defaults for absent ones.
    pub options: UpstreamArguments,
}

impl ProgramArguments {
    /// Returns the number of connections after which the program stops listening, or `None` if the options set no
    /// limit.
    pub fn bound(&self) -> Option<u64>
        ensures { result ≡ bound_of self.now.options.connections }
    {
        let connections = self.options.connections;
        if connections > 0 {
            Some(connections)
        } else {
            None
        }
    }
}

/// Reads the path of the database file and the options of `upstream` from the arguments: those of the command line,
/// then the non-empty lines of the file that the environment variable `UNL_EDGE_WORDS_FILE` names, if it is set and not
/// empty. [`read_words`] describes the options.
///
/// # Errors
/// `BadArguments`: there are no arguments; an argument, or the path or content of the file of arguments, isn't UTF-8;
/// that file can't be read; or the arguments after the path of the database file are not valid options of `upstream`.
/// `Memory`: out of memory.
pub fn read_program_arguments(rt: &HostRuntime) -> Result<ProgramArguments, ProgramFault>
    ensures reads { (words : List (List ℕ)) × IsReading words result }
    ensures valid { IfOk result (λ arguments. IsUpstream arguments.options) }
{
    match read_arguments(rt) {
        Ok(words) => read_path_first(rt.alloc(), words),
        Err(ArgumentsFault::Bad) => Err(ProgramFault::BadArguments),
        Err(ArgumentsFault::Memory) => Err(ProgramFault::Memory),
    }
}

/// Takes the first argument as the path, puts the command name `upstream` in its place, and then reads the options.
///
/// # Errors
/// `BadArguments`: there are no arguments, or those after the path are not valid options of `upstream`. `Memory`: out
/// of memory.
fn read_path_first(alloc: Global, mut words: Vec<String>) -> Result<ProgramArguments, ProgramFault>
    ensures reads { IsReading (map string_bytes words.items) result }
    ensures valid { IfOk result (λ arguments. IsUpstream arguments.options) }
{
    let command = String::from_str(alloc, "upstream")?;
    let Some(first) = words.first_mut() else {
        return Err(ProgramFault::BadArguments);
    };
    let path = mem::replace(first, command);
    match read_words(alloc, &words) {
        Ok(read) => match upstream_options(read) {
            Some(options) => Ok(ProgramArguments { path, options }),
            None => Err(ProgramFault::BadArguments),
        },
        Err(WordsRefusal::Bad) => Err(ProgramFault::BadArguments),
        Err(WordsRefusal::Memory) => Err(ProgramFault::Memory),
    }
}

/// Returns the options of `upstream`, or `None` if the arguments name another command.
fn upstream_options(words: Words) -> Option<UpstreamArguments>
    ensures upstream { IfSome result (λ options. words ≡ Upstream options) }
    ensures other { IfNone result (NamesAnotherCommand words) }
{
    match words {
        Words::Upstream(options) => Some(options),
        _ => None,
    }
}
