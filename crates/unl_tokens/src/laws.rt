//! Laws about repeated texts. Each law is the contract of a function that does nothing.
ghost use Rattle.unl_tokens.specs.Laws.{DifferentAreKept, KnownOnce, LatestAreGathered, LatestAreRead};

/// Gathering keeps one token for each text: the last token with that text, in the position of the first. A book read
/// from a JSON value has the tokens that gathering keeps from the value's list `tokens`.
pub fn latest_are_kept()
    ensures gathered { LatestAreGathered }
    ensures read { LatestAreRead }
{}

/// The known tokens of a request are the book's tokens for the requested texts, each once, in the order in which the
/// texts first occur. A text without a token in the book is skipped.
pub fn known_once()
    ensures { KnownOnce }
{}

/// Gathering, which keeps one token for each text, keeps all tokens of a list with different texts, in the same order.
pub fn different_are_kept()
    ensures { DifferentAreKept }
{}
