//! Tokens with an index by text.
ghost use Rattle.std.specs.Prelude.{◌≡◌, ◌↔◌, ◌<◌, ◌≤◌, [], ◌∷◌, ◌++◌, None, Some, IsTrue, IfOk, IfSome, insert, length};
ghost use Rattle.std.specs.Prelude.{option_and_then, slice_get, slice_set};
ghost use Rattle.unl_tokens.specs.Books.{place_of_text, with_token};
ghost use Rattle.unl_tokens.specs.Index.{text_at, if_text, IsPointOf, IsTextIndex};

use crate::token::Token;
use std::alloc::Global;
use std::marker::Model;
use unl_documents::{List, Memory, TryClone};

/// With up to this many tokens, `Indexed::place_of` compares the texts one by one: comparing two texts for equality is
/// cheaper than comparing their order.
const FEW: usize = 24;

/// A list of tokens, and an index for binary search: their positions in the order of their texts. In contracts the
/// value is the list of tokens.
#[derive(Debug, Drop)]
pub(crate) struct Indexed {
    tokens: List<Token>,
    places: List<usize>,
}

impl Model for Indexed {
    ghost use Rattle.std.specs.Prelude.{List};
    ghost use Rattle.unl_tokens.specs.declared.token.Token.{Token};
    ghost use Rattle.unl_tokens.specs.Index.{IsTextIndex};

    ghost Value = { List Token };

    ghost view = { λ i. i.tokens };

    ghost invariant = { λ i. IsTextIndex i.tokens i.places };
}

impl Indexed {
    /// Returns an empty list. Allocates nothing.
    pub(crate) fn new(alloc: Global) -> Indexed
        ensures { result ≡ [] }
    {
        Indexed {
            tokens: List::new(alloc),
            places: List::new(alloc),
        }
    }

    /// Returns the number of tokens. Allocates nothing.
    pub(crate) fn len(&self) -> usize
        ensures { result ≡ length self.now }
    {
        self.tokens.len()
    }

    /// Returns whether both have the same tokens in the same order. Allocates nothing.
    pub(crate) fn is_same(&self, other: &Indexed) -> bool
        ensures { IsTrue result ↔ (self.now ≡ other.now) }
    {
        self.tokens == other.tokens
    }

    /// Returns the tokens in their order. Allocates nothing.
    pub(crate) fn tokens(&self) -> &List<Token>
        ensures { result.now ≡ self.now }
    {
        &self.tokens
    }

    /// Returns the tokens in their order, without the index.
    pub(crate) fn into_tokens(self) -> List<Token>
        ensures { result ≡ self }
    {
        self.tokens
    }

    /// Returns the position of the token with this text, counted from 0, or `None` if there is none. Allocates nothing.
    pub(crate) fn place_of(&self, text: &[u8]) -> Option<usize>
        ensures place { result ≡ place_of_text text.now self.now }
        ensures below { IfSome result (λ place. place < length self.now) }
    {
        if self.tokens.len() <= FEW {
            return place_among(&self.tokens, text);
        }
        let (_at, found) = search(&self.tokens, &self.places, text);
        found
    }

    /// Puts `token` in the place of the token with the same text, or appends `token` if no token has its text.
    #[tactic(auto, unfolding(crate::specs::Books::with_token))]
    pub(crate) fn with_token(self, token: Token) -> Result<Indexed, Memory>
        ensures { IfOk result (λ all. all ≡ with_token self token) }
    {
        let text = token.text.as_str().as_bytes();
        let (at, found) = search(&self.tokens, &self.places, text);
        match found {
            Some(place) => Ok(with_other(self.tokens, self.places, place, token)),
            None => with_new(self.tokens, self.places, at, token),
        }
    }
}

impl TryClone for Indexed {
    fn copy(&self, alloc: Global) -> Result<Indexed, Memory> {
        Ok(Indexed {
            tokens: self.tokens.copy(alloc)?,
            places: List::from_slice(alloc, self.places.as_slice())?,
        })
    }
}

/// Returns the position of the token with this text, found by linear search, or `None` if there is none.
fn place_among(tokens: &List<Token>, text: &[u8]) -> Option<usize>
    ensures place { result ≡ place_of_text text.now tokens.now }
    ensures below { IfSome result (λ place. place < length tokens.now) }
{
    tokens
        .as_slice()
        .iter()
        .position(|token| token.text.as_str().as_bytes() == text)
}

/// Returns the point of a text in the index (see [`point_of`]), and the position of the token with this text, if any.
fn search(tokens: &List<Token>, places: &List<usize>, text: &[u8]) -> (usize, Option<usize>)
    requires { IsTextIndex tokens.now places.now }
    ensures point { IsPointOf tokens.now text.now places.now result.0 }
    ensures inside { result.0 ≤ length places.now }
    ensures place { result.1 ≡ place_of_text text.now tokens.now }
    ensures below { IfSome result.1 (λ place. place < length tokens.now) }
{
    let at = point_of(tokens, places, text);
    (at, place_at(tokens, places, at, text))
}

/// Returns the point in the index where the position of the token with this text is, or would be inserted.
fn point_of(tokens: &List<Token>, places: &List<usize>, text: &[u8]) -> usize
    requires { IsTextIndex tokens.now places.now }
    ensures point { IsPointOf tokens.now text.now places.now result }
    ensures inside { result ≤ length places.now }
{
    places
        .as_slice()
        .partition_point(|place| text_at(tokens, *place).cmp(&text).is_lt())
}

/// Returns the position stored at a point of the index, if the token at that position has this text.
fn place_at(tokens: &List<Token>, places: &List<usize>, at: usize, text: &[u8]) -> Option<usize>
    ensures { result ≡ option_and_then (if_text tokens.now text.now) (slice_get places.now at) }
{
    let place = *places.get(at)?;
    if text_at(tokens, place) == text {
        return Some(place);
    }
    None
}

/// Returns the text of the token at a position, or an empty text past the end.
fn text_at(tokens: &List<Token>, place: usize) -> &[u8]
    ensures { result.now ≡ text_at tokens.now place }
{
    match tokens.get(place) {
        None => &[],
        Some(token) => token.text.as_str().as_bytes(),
    }
}

/// Puts `token` in the place of the token with the same text, which is at `place`.
fn with_other(tokens: List<Token>, places: List<usize>, place: usize, token: Token) -> Indexed
    requires index { IsTextIndex tokens places }
    requires represents { place_of_text token.text tokens ≡ Some place }
    requires below { place < length tokens }
    ensures { result ≡ slice_set tokens place token }
{
    let tokens = replaced(tokens, place, token);
    Indexed { tokens, places }
}

/// Appends a token whose text is new. `at` is the point of its text in the index.
fn with_new(
    tokens: List<Token>,
    places: List<usize>,
    at: usize,
    token: Token,
) -> Result<Indexed, Memory>
    requires index { IsTextIndex tokens places }
    requires fresh { place_of_text token.text tokens ≡ None }
    requires point { IsPointOf tokens token.text places at }
    requires inside { at ≤ length places }
    ensures { IfOk result (λ all. all ≡ tokens ++ token ∷ []) }
{
    let places = inserted(places, at, tokens.len())?;
    let tokens = pushed(tokens, token)?;
    Ok(Indexed { tokens, places })
}

/// Replaces the token at a position.
fn replaced(mut tokens: List<Token>, place: usize, token: Token) -> List<Token>
    requires { place < length tokens }
    ensures { result ≡ slice_set tokens place token }
{
    *tokens.get_mut(place) = token;
    tokens
}

/// Appends a token.
fn pushed(mut tokens: List<Token>, token: Token) -> Result<List<Token>, Memory>
    ensures { IfOk result (λ new. new ≡ tokens ++ token ∷ []) }
{
    tokens.push(token)?;
    Ok(tokens)
}

/// Inserts a position into the index at a point.
fn inserted(places: List<usize>, at: usize, place: usize) -> Result<List<usize>, Memory>
    requires { at ≤ length places }
    ensures { IfOk result (λ new. new ≡ insert places at place) }
{
    let mut places = places.into_vec();
    places.insert(at, place)?;
    Ok(List::from_vec(places))
}
