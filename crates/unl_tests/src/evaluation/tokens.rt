//! Tests of the faults of tokens, of copies of token books, and of requests that ask which tokens are valid.
use std::alloc::Global;
use unl_documents::TryClone;
use unl_tokens::{BadToken, Book, Scope, read_request, write_request};

/// Texts that are not tokens, each with its fault. The error of a token book does not tell these faults apart.
const NO_TOKENS: [(&str, BadToken); 8] = [
    ("ab", BadToken::NoColon),
    ("", BadToken::NoColon),
    ("a.b:c", BadToken::NoDot),
    ("a:b", BadToken::NoDot),
    (":b", BadToken::NoDot),
    ("a:.s", BadToken::EmptyPart),
    (":dev.s", BadToken::EmptyPart),
    ("a:dev.", BadToken::EmptyPart),
];

#[test]
fn faults_of_tokens_are_named(rt: HostRuntime) {
    let alloc = rt.alloc();
    for (text, fault) in NO_TOKENS {
        assert!(rt; Scope::read(alloc, text).err() == Some(fault), "{text}");
    }
}

const BOOK: &str =
    r#"{"tokens":[{"token":"a:dev.s","type":"client"},{"token":"*:dev.f","type":"frontend"}]}"#;

const ASKED: &str = r#"{"tokens":["*:dev.f"]}"#;

/// Returns whether a copy of a book has the same tokens as the book.
fn copy_is_same(alloc: Global) -> Option<bool> {
    let book = Book::read(alloc, BOOK.as_bytes()).ok()?;
    Some(book.copy(alloc).ok()?.is_same(&book))
}

/// Returns whether parsing a request that asks which tokens are valid, and writing it again, results in the same text.
fn is_written_so(alloc: Global) -> Option<bool> {
    let asked = read_request(alloc, ASKED.as_bytes()).ok()?;
    let request = write_request(alloc, &asked).ok()?;
    Some(request.to_string(alloc).ok()?.as_str() == ASKED)
}

#[test]
fn books_are_copied_and_requests_written(rt: HostRuntime) {
    assert!(rt; copy_is_same(rt.alloc()) == Some(true));
    assert!(rt; is_written_so(rt.alloc()) == Some(true));
}
