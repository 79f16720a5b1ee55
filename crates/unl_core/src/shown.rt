//! Finds the token of a request in the board's book, and the snapshot of the token's environment.
ghost use Rattle.std.specs.Prelude.{◌≡◌};
ghost use Rattle.unl_core.specs.Board.{snapshot_in};
ghost use Rattle.unl_core.specs.Shown.{entry_of, is_kind, ready_by, shown_at, shown_by, with_its_version};

use crate::board::Board;
use std::marker::Model;
use unl_compiled::Snapshot;
use unl_http_api::Request;
use unl_tokens::{Book, Kind, Token};

/// Why a request is refused because of its token.
#[derive(Clone, Copy)]
pub enum TokenRefusal {
    /// The request has no token.
    NoToken,
    /// The token book has no such token.
    UnknownToken,
    /// The token is for the other API: a client token at a frontend route, or the reverse.
    WrongKind,
    /// The token's environment has no slot on the board, or no snapshot yet.
    NotReady,
}

/// The token of a request, found in the token book.
#[derive(Drop)]
pub(crate) struct Shown<'b> {
    /// The position of the token in the book, from 0.
    pub place: u32,
    /// The token.
    pub token: &'b Token,
}

impl<'b> Model for Shown<'b> {
    ghost use Rattle.unl_core.specs.Shown.{Shown as Plain};

    ghost Value = { Plain };

    ghost view = { λ s. record { place = s.place; token = s.token.now } };
}

/// The token of a request, found in the token book, and the snapshot of the token's environment.
#[derive(Drop)]
pub(crate) struct Ready<'b> {
    /// The position of the token in the book, from 0.
    pub place: u32,
    /// The token.
    pub token: &'b Token,
    /// The current snapshot of the token's environment.
    pub snapshot: &'b Snapshot,
}

impl<'b> Model for Ready<'b> {
    ghost use Rattle.unl_core.specs.Shown.{Ready as Plain};

    ghost Value = { Plain };

    ghost view = { λ r. record { place = r.place; token = r.token.now; version = r.snapshot.now } };
}

/// Whether two kinds are equal.
fn is_kind(found: Kind, kind: Kind) -> bool
    ensures { result ≡ is_kind found kind }
{
    match found {
        Kind::Client => match kind {
            Kind::Client => true,
            Kind::Frontend => false,
        },
        Kind::Frontend => match kind {
            Kind::Client => false,
            Kind::Frontend => true,
        },
    }
}

/// The token with this text and its position in the book, or `None` if the book has no such token.
fn entry_of<'b>(book: &'b Book, text: &[u8]) -> Option<Shown<'b>>
    ensures { result ≡ entry_of text.now book.now }
{
    match book.find(text) {
        None => None,
        Some(place) => shown_at(book, place),
    }
}

/// The token at a position, with the position. `None` if the book has no such position.
fn shown_at<'b>(book: &'b Book, place: u32) -> Option<Shown<'b>>
    ensures { result ≡ shown_at book.now place }
{
    match book.get(place) {
        None => None,
        Some(token) => Some(Shown { place, token }),
    }
}

/// The token of a request, if the board's book has the token and the token is of this kind. Otherwise the refusal:
/// `NoToken`, `UnknownToken` or `WrongKind`.
pub(crate) fn shown_by<'b>(
    board: &'b Board,
    request: &Request,
    kind: Kind,
) -> Result<Shown<'b>, TokenRefusal>
    ensures { result ≡ shown_by board.now request.now kind }
{
    let Some(text) = &request.token else {
        return Err(TokenRefusal::NoToken);
    };
    let Some(shown) = entry_of(board.book.get(), text.as_slice()) else {
        return Err(TokenRefusal::UnknownToken);
    };
    if !is_kind(shown.token.kind, kind) {
        return Err(TokenRefusal::WrongKind);
    }
    Ok(shown)
}

/// The token and the snapshot of its environment, or `NotReady` if the environment has no slot or no snapshot yet.
fn with_its_version<'b>(board: &'b Board, shown: &Shown<'b>) -> Result<Ready<'b>, TokenRefusal>
    ensures { result ≡ with_its_version shown.now (snapshot_in shown.now.token.environment board.now.slots) }
{
    match board.snapshot(shown.token.environment.as_str()) {
        None => Err(TokenRefusal::NotReady),
        Some(snapshot) => Ok(Ready {
            place: shown.place,
            token: shown.token,
            snapshot,
        }),
    }
}

/// The token of a request, with the snapshot of the token's environment. The refusals are those of `shown_by`, then
/// `NotReady` if the environment has no slot or no snapshot yet.
pub(crate) fn ready_by<'b>(
    board: &'b Board,
    request: &Request,
    kind: Kind,
) -> Result<Ready<'b>, TokenRefusal>
    ensures { result ≡ ready_by board.now request.now kind }
{
    match shown_by(board, request, kind) {
        Err(unseen) => Err(unseen),
        Ok(shown) => with_its_version(board, &shown),
    }
}
