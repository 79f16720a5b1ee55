//! Reads option values that are comma-separated lists: environments and tokens.
ghost use Rattle.std.specs.Prelude.{◌≡◌, ◌++◌, true, IfOk, option_copied};
ghost use Rattle.std.specs.List.{list_any};
ghost use Rattle.std.specs.Str.{bytes_eq};
ghost use Rattle.unl_documents.specs.Results.{Gives};
ghost use Rattle.unl_words.specs.Lists.{are_apart, are_different, are_environments, are_own_tokens, are_tokens, are_upstream_tokens};
ghost use Rattle.unl_words.specs.Lists.{fit_one_book, has_count, items_of};
ghost use Rattle.unl_words.specs.Values.{or_empty, passed, required};
ghost use Rattle.unl_words.specs.declared.refusal.WordsRefusal.TheVariants.{Memory as memory};

use crate::WordsRefusal;
use crate::token::{all_names, all_tokens, token_environments};
use std::alloc::Global;
use unl_documents::texts::comma_items;
use unl_documents::{List, Memory, Text};

/// Reads the environments of an upstream: 1 to 8 distinct names.
pub(crate) fn environments(alloc: Global, given: Option<&str>) -> Result<List<Text>, WordsRefusal>
    ensures gives { Gives memory result (required (items_of are_environments) (option_copied given.entry)) }
    ensures valid { IfOk result (λ items. are_environments items ≡ true) }
{
    let Some(text) = given else {
        return Err(WordsRefusal::Bad);
    };
    let items = comma_items(alloc, text)?;
    let pass = are_environments(&items);
    accepted(items, pass)
}

/// Reads the tokens that an edge sends to its upstream: 1 to 8, with distinct environments.
pub(crate) fn upstream_tokens(
    alloc: Global,
    given: Option<&str>,
) -> Result<List<Text>, WordsRefusal>
    ensures gives { Gives memory result (required (items_of are_upstream_tokens) (option_copied given.entry)) }
    ensures valid { IfOk result (λ items. are_upstream_tokens items ≡ true) }
{
    let Some(text) = given else {
        return Err(WordsRefusal::Bad);
    };
    let items = comma_items(alloc, text)?;
    let pass = are_upstream_tokens(alloc, &items)?;
    accepted(items, pass)
}

/// Reads the tokens that an edge may accept from clients: 1 to 1,024.
pub(crate) fn tokens(alloc: Global, given: Option<&str>) -> Result<List<Text>, WordsRefusal>
    ensures gives { Gives memory result (required (items_of are_tokens) (option_copied given.entry)) }
    ensures valid { IfOk result (λ items. are_tokens items ≡ true) }
{
    let Some(text) = given else {
        return Err(WordsRefusal::Bad);
    };
    let items = comma_items(alloc, text)?;
    let pass = are_tokens(alloc, &items)?;
    accepted(items, pass)
}

/// Reads the tokens of one kind that an upstream knows, each with one project or all projects. Returns an empty list if
/// the option is absent.
pub(crate) fn own_tokens(alloc: Global, given: Option<&str>) -> Result<List<Text>, WordsRefusal>
    ensures gives { Gives memory result (or_empty (items_of are_own_tokens) (option_copied given.entry)) }
    ensures valid { IfOk result (λ items. are_own_tokens items ≡ true) }
{
    let items = comma_items(alloc, given.unwrap_or(""))?;
    let pass = all_tokens(alloc, items.as_slice(), false)?;
    accepted(items, pass)
}

/// Returns the items if `pass` is true, otherwise `Bad`.
fn accepted(items: List<Text>, pass: bool) -> Result<List<Text>, WordsRefusal>
    ensures { result ≡ passed pass items }
{
    if pass {
        Ok(items)
    } else {
        Err(WordsRefusal::Bad)
    }
}

fn are_environments(items: &List<Text>) -> bool
    ensures { result ≡ are_environments items.now }
{
    has_count(items, 1, 8) && all_names(items.as_slice()) && are_different(items.as_slice())
}

fn are_upstream_tokens(alloc: Global, items: &List<Text>) -> Result<bool, Memory>
    ensures { IfOk result (λ are. are ≡ are_upstream_tokens items.now) }
{
    if !has_count(items, 1, 8) || !all_tokens(alloc, items.as_slice(), true)? {
        return Ok(false);
    }
    let environments = token_environments(alloc, items)?;
    Ok(are_different(environments.as_slice()))
}

fn are_tokens(alloc: Global, items: &List<Text>) -> Result<bool, Memory>
    ensures { IfOk result (λ are. are ≡ are_tokens items.now) }
{
    if !has_count(items, 1, 1024) {
        return Ok(false);
    }
    all_tokens(alloc, items.as_slice(), true)
}

fn has_count(items: &List<Text>, least: usize, most: usize) -> bool
    ensures { result ≡ has_count least most items.now }
{
    least <= items.len() && items.len() <= most
}

/// Whether there are at most 1,024 tokens of both kinds together, all with distinct texts.
pub(crate) fn fit_one_book(client: &List<Text>, frontend: &List<Text>) -> bool
    ensures { result ≡ fit_one_book client.now frontend.now }
{
    client.len() <= 1024
        && frontend.len() <= 1024 - client.len()
        && are_different_together(client.as_slice(), frontend.as_slice())
}

/// Whether the texts of both lists together are distinct.
#[tactic(auto, using(crate::proofs::Differences::different_together))]
fn are_different_together(texts: &[Text], others: &[Text]) -> bool
    ensures { result ≡ are_different (texts.now ++ others.now) }
{
    are_different(texts) && are_different(others) && are_apart(texts, others)
}

/// Whether no text of the first list is also in the second.
fn are_apart(texts: &[Text], others: &[Text]) -> bool
    ensures { result ≡ are_apart texts.now others.now }
{
    texts.iter().all(|text| !is_one_of(text.as_str(), others))
}

/// Whether the texts are distinct.
#[tactic(auto, unfolding(crate::specs::Lists::are_different))]
fn are_different(texts: &[Text]) -> bool
    ensures { result ≡ are_different texts.now }
{
    let mut rest = texts;
    while let Some((text, others)) = rest.split_first() {
        if is_one_of(text.as_str(), others) {
            return false;
        }
        rest = others;
    }
    true
}

/// Whether a text is in a list.
fn is_one_of(text: &str, texts: &[Text]) -> bool
    ensures { result ≡ list_any (λ other. bytes_eq other text.now) texts.now }
{
    texts.iter().any(|other| other.as_str() == text)
}
