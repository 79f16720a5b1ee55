//! Checks the tokens in the values of options, and reads their environments.
ghost use Rattle.std.specs.Prelude.{◌≡◌, Ok, IfOk, map};
ghost use Rattle.std.specs.List.{list_all};
ghost use Rattle.unl_documents.specs.Texts.{is_name};
ghost use Rattle.unl_tokens.specs.Names.{are_names};
ghost use Rattle.unl_words.specs.Lists.{environment_of, is_named, is_token};

use crate::value::is_line;
use std::alloc::Global;
use unl_documents::texts::is_name;
use unl_documents::{List, Memory, Text};
use unl_tokens::{BadToken, Projects, Scope};

/// Returns the environments of tokens, in their order. The environment is empty if a text can't be read as a token. The
/// only error is out of memory.
pub fn token_environments(alloc: Global, tokens: &List<Text>) -> Result<List<Text>, Memory>
    ensures { IfOk result (λ environments. environments ≡ map environment_of tokens.now) }
{
    environments(alloc, tokens.as_slice())
}

fn environments(alloc: Global, tokens: &[Text]) -> Result<List<Text>, Memory>
    ensures { IfOk result (λ environments. environments ≡ map environment_of tokens.now) }
{
    let mut environments = List::new(alloc);
    for token in tokens {
        environments.push(token_environment(alloc, token.as_str())?)?;
    }
    Ok(environments)
}

/// Returns the environment of a token, or an empty text if the argument can't be read as a token. The only error is out
/// of memory.
pub fn token_environment(alloc: Global, token: &str) -> Result<Text, Memory>
    ensures { IfOk result (λ environment. environment ≡ environment_of token.now) }
{
    match Scope::read(alloc, token) {
        Ok(scope) => Ok(scope.environment),
        Err(BadToken::Memory) => Err(Memory),
        Err(_) => Text::new(alloc, ""),
    }
}

/// Whether each text is a token, as defined at [`is_token`].
pub(crate) fn all_tokens(alloc: Global, texts: &[Text], may_be_open: bool) -> Result<bool, Memory>
    ensures { IfOk result (λ all. all ≡ list_all (is_token may_be_open) texts.now) }
{
    for text in texts {
        if !is_token(alloc, text.as_str(), may_be_open)? {
            return Ok(false);
        }
    }
    Ok(true)
}

/// Whether a text is a token: it has at most 512 bytes, none of which is a carriage return, line feed or NUL,
/// `Scope::read` can parse it, and its environment and projects are names. A text with `[]` in place of a project
/// doesn't name the token's projects, and is accepted only if `may_be_open` is true.
pub(crate) fn is_token(alloc: Global, text: &str, may_be_open: bool) -> Result<bool, Memory>
    ensures { IfOk result (λ is. is ≡ is_token may_be_open text.now) }
{
    if text.len() > 512 || !is_line(text) {
        return Ok(false);
    }
    match Scope::read(alloc, text) {
        Ok(scope) => Ok(is_named(&scope, may_be_open)),
        Err(BadToken::Memory) => Err(Memory),
        Err(_) => Ok(false),
    }
}

fn is_named(scope: &Scope, may_be_open: bool) -> bool
    ensures { result ≡ is_named may_be_open (Ok scope.now) }
{
    is_name(scope.environment.as_str())
        && are_names(&scope.projects)
        && (may_be_open || !scope.listed)
}

fn are_names(projects: &Projects) -> bool
    ensures { result ≡ are_names projects.now }
{
    match projects {
        Projects::All => true,
        Projects::Only(names) => all_names(names.as_slice()),
    }
}

/// Whether each text is a name.
pub(crate) fn all_names(texts: &[Text]) -> bool
    ensures { result ≡ list_all is_name texts.now }
{
    texts.iter().all(|text| is_name(text.as_str()))
}
