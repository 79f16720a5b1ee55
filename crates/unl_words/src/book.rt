//! The token book of an upstream, built from the arguments of its command line.
ghost use Rattle.std.specs.Prelude.{◌≡◌, true, Ok, IfOk, map};
ghost use Rattle.serde_json.specs.View.{view};
ghost use Rattle.unl_words.specs.OwnBook.{own_answer, own_book, own_entry, tokens_read};
ghost use Rattle.unl_tokens.specs.Books.{book_of};
ghost use Rattle.unl_words.specs.Lists.{are_own_tokens, fit_one_book};

use serde_json::{Map, Value};
use std::alloc::Global;
use unl_documents::kind::AnyText;
use unl_documents::to_value::{put, put_value};
use unl_documents::{Field, List, Memory, Text};
use unl_tokens::{BadBook, Book};

/// Builds the token book (the list of known tokens) from the client and frontend tokens in the arguments of `upstream`.
/// Each token has the projects that its text names. [`Book::read_value`] reads the book from a JSON value that lists
/// the texts with their kinds. The book is empty if this value can't be read, which happens only for texts that the
/// arguments don't allow.
///
/// # Errors
/// The only error is out of memory.
#[tactic(auto, unfolding(crate::specs::OwnBook::own_book))]
pub fn own_book(alloc: Global, clients: &List<Text>, frontends: &List<Text>) -> Result<Book, Memory>
    ensures book { IfOk result (λ book. book ≡ own_book clients.now frontends.now) }

    // If the arguments are in their ranges, the JSON value can be read, and the book is what is read from it.
    ensures whole { are_own_tokens clients.now ≡ true → are_own_tokens frontends.now ≡ true → fit_one_book clients.now frontends.now ≡ true
        → book_of (own_answer clients.now frontends.now) ≡ Ok (own_book clients.now frontends.now) }
{
    let answer = own_answer(alloc, clients.as_slice(), frontends.as_slice())?;
    read_answer(alloc, &answer)
}

/// Reads the book from a JSON value that lists tokens. The book is empty if the value can't be read.
fn read_answer(alloc: Global, answer: &Value) -> Result<Book, Memory>
    ensures { IfOk result (λ book. book ≡ tokens_read (book_of (view answer.now))) }
{
    match Book::read_value(alloc, answer) {
        Ok(book) => Ok(book),
        Err(BadBook::Memory) => Err(Memory),
        Err(_) => Ok(Book::new(alloc)),
    }
}

/// Returns a JSON value that lists these tokens, in the form that [`Book::read_value`] reads.
#[tactic(auto, unfolding(crate::specs::OwnBook::own_answer))]
fn own_answer(alloc: Global, clients: &[Text], frontends: &[Text]) -> Result<Value, Memory>
    ensures { IfOk result (λ value. view value ≡ own_answer clients.now frontends.now) }
{
    let mut entries = entries_of(alloc, "client", clients)?;
    let mut others = entries_of(alloc, "frontend", frontends)?;
    entries.append(&mut others)?;
    let mut members = Map::new(alloc);
    put_value(&mut members, alloc, Field::Tokens, Value::Array(entries))?;
    Ok(Value::Object(members))
}

/// Returns an entry of the given kind for each text.
fn entries_of(alloc: Global, kind: &str, texts: &[Text]) -> Result<Vec<Value>, Memory>
    ensures { IfOk result (λ entries. map view entries.items ≡ map (own_entry kind.now) texts.now) }
{
    let mut entries = Vec::new(alloc);
    for text in texts {
        entries.push(own_entry(alloc, kind, text)?)?;
    }
    Ok(entries)
}

/// Returns the JSON entry of a token with this text and kind. It has no list of projects, so the token has the projects
/// that its text names.
#[tactic(auto, unfolding(crate::specs::OwnBook::own_entry))]
fn own_entry(alloc: Global, kind: &str, text: &Text) -> Result<Value, Memory>
    ensures { IfOk result (λ value. view value ≡ own_entry kind.now text.now) }
{
    let mut members = Map::new(alloc);
    put::<AnyText>(&mut members, alloc, Field::Kind, &Text::new(alloc, kind)?)?;
    put::<AnyText>(&mut members, alloc, Field::Token, text)?;
    Ok(Value::Object(members))
}
