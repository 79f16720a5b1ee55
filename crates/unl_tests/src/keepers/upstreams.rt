//! Helpers for the tests: an upstream of one environment opened from a keeper, commands for it, and its state.
ghost use Rattle.std.specs.Prelude.{◌≡◌, true, IfSome};
ghost use Rattle.unl_upstream.specs.Command.{IsValidCommand};
ghost use Rattle.unl_upstream.specs.Reopening.{IsOpening};

use std::alloc::Global;
use unl_documents::parsing::read_json;
use unl_documents::{List, Text};
use unl_keeper::Keeper;
use unl_tokens::Book;
use unl_upstream::{Command, Upstream, keep, read_command, reopen};

/// Creates an upstream with the environment `dev`, in its initial state.
fn fresh(alloc: Global) -> Option<Upstream>
    ensures { IfSome result IsOpening }
{
    let mut environments = List::new(alloc);
    environments.push(Text::new(alloc, "dev").ok()?).ok()?;
    Upstream::new(alloc, 0, "s", &environments, Book::new(alloc), 0).ok()
}

/// Creates an upstream and reopens it from a keeper. Returns `None` if reopening fails, or out of memory.
pub(crate) fn opened<K: Keeper>(alloc: Global, keeper: &mut K) -> Option<Upstream>
    ensures { IfSome result (λ _. (K.state keeper.new).opened ≡ true) }
{
    let mut up = fresh(alloc)?;
    match reopen(alloc, &mut up, keeper) {
        Ok(_) => Some(up),
        Err(_) => None,
    }
}

/// Returns the command that puts a feature of this name.
fn command_of(alloc: Global, name: char) -> Option<Command>
    ensures { IfSome result IsValidCommand }
{
    let text = format!(in alloc;
        r#"{{"command":"put-feature","environment":"dev","feature":{{"name":"{name}","enabled":true}}}}"#
    ).ok()?;
    match read_json(alloc, text.as_bytes()) {
        Ok(Some(value)) => read_command(alloc, &value).ok(),
        _ => None,
    }
}

/// Puts a feature with this name, and returns the new version number of `dev` if the command is acknowledged.
pub(crate) fn put<K: Keeper>(
    alloc: Global,
    up: &mut Upstream,
    keeper: &mut K,
    name: char,
) -> Option<u64>
    requires { (K.state keeper.old).opened ≡ true }
    ensures { (K.state keeper.new).opened ≡ true }
{
    match command_of(alloc, name) {
        Some(command) => keep(alloc, up, keeper, &command).ok(),
        None => None,
    }
}

/// Returns the version number of `dev`, and the names of its features, concatenated; `None` if `dev` has no version, or
/// out of memory.
pub(crate) fn state_of_dev(alloc: Global, up: &Upstream) -> Option<(u64, String)> {
    let version = up.board().snapshot("dev")?.version();
    let mut names = String::new(alloc);
    for chunk in version.state.features.chunks() {
        for feature in chunk.get().as_slice() {
            names.push_str(feature.get().name.as_str()).ok()?;
        }
    }
    Some((version.number, names))
}
