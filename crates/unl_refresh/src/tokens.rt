//! Refreshes the token book (the tokens that the server knows) from a server.
ghost use Rattle.std.specs.Prelude.{◌≡◌, ◌≢◌, ◌<◌, ◌-◌, ◌^◌, List, ℕ, Some, Err, Result, IfOk, IfErr, OnErr, IsTrue, drop};
ghost use Rattle.std.specs.Prelude.{option_map};
ghost use Rattle.unl_base.specs.Doors.{next_of};
ghost use Rattle.unl_base.specs.Faults.{Rose};
ghost use Rattle.unl_http_api.specs.declared.got.BadReply.{BadReply};
ghost use Rattle.unl_http_api.specs.declared.got.Got.{Got};
ghost use Rattle.unl_http_api.specs.Received.{IsReply};
ghost use Rattle.unl_http_api.specs.RequestText.{fits_line};
ghost use Rattle.unl_refresh.specs.Exchange.{HasPeerCause, peer_view};
ghost use Rattle.unl_refresh.specs.Named.{IsNamedOutcome};
ghost use Rattle.unl_refresh.specs.Tokens.{Installs, RefreshedTokens, book_in_reply, book_read, tokens_request};

use crate::exchange::exchange;
use crate::outcome::{Bad, Outcome, RefreshFault};
use crate::texts::json_text;
use std::alloc::Global;
use unl_base::Peer;
use unl_delta::Installer;
use unl_documents::{List, Memory, Text};
use unl_http_api::{BadReply, Bytes, Got, Method, write_request};
use unl_tokens::{BadBook, Book, write_request as write_texts};

/// Asks the server `host` (`HOST:PORT`) once which of the tokens with these `texts` it knows (`POST /edge/validate`, as
/// in Unleash Edge), and keeps from the book in its reply only the tokens with these texts. If the book of the kept
/// tokens differs from the current one, it is published, and the outcome is `Published` with the new front (the number
/// of publications so far). Otherwise nothing changes, and the outcome is `Repeat` for the same book, `Refused` for a
/// status other than 200, or `BadAnswer` for a reply that can't be parsed. Before the call, the front must be below
/// 2^64 - 1. `host` must have no CR, LF or NUL.
///
/// # Errors
/// `PeerFault` if the peer can't be connected to, written to or read; `Memory` if out of memory. Nothing is applied
/// then.
pub fn refresh_tokens<I: Installer, P: Peer>(
    alloc: Global,
    to: &mut I,
    texts: &List<Text>,
    host: &str,
    peer: &mut P,
) -> Result<Outcome, RefreshFault>
    requires front { (I.installed to.old).front < 2 ^ 64 - 1 }
    requires host { IsTrue (fits_line host.now) }

    // What is applied and what is sent.
    ensures leaves { RefreshedTokens texts.now host.now (I.installed to.old)
        (peer_view (P.state peer.old) (P.Source.faults peer.old))
        result (I.installed to.new)
        (peer_view (P.state peer.new) (P.Source.faults peer.new)) }

    // If the peer's replies are observable, the reply that is applied is the next one of them.
    ensures next_reply { (list : List (List ℕ)) (reading : Result Got BadReply) → (P.state peer.old).replies ≡ Some list
        → IsReply (next_of list) reading
        → IfOk result (λ outcome. Installs (book_in_reply texts.now reading) (I.installed to.old) outcome (I.installed to.new)) }

    // Unless the peer failed or memory ran out, exactly one of the peer's replies is used up.
    ensures one_reply { ¬ (Rose (P.Source.faults peer.old) (P.Source.faults peer.new)) → result ≢ Err RefreshFault.Memory
        → (P.state peer.new).replies ≡ option_map (λ list. drop 1 list) (P.state peer.old).replies }

    // If `PeerFault` is returned, the peer's fault count rose; otherwise the count didn't change.
    ensures causes { HasPeerCause result (P.Source.faults peer.old) (P.Source.faults peer.new) }
{
    refresh(alloc, to, texts, host, peer)
}

/// Makes one request and applies the reply, as [`refresh_tokens`] does.
fn refresh<I: Installer, P: Peer>(
    alloc: Global,
    to: &mut I,
    texts: &List<Text>,
    host: &str,
    peer: &mut P,
) -> Result<Outcome, RefreshFault>
    requires front { (I.installed to.old).front < 2 ^ 64 - 1 }
    requires host { IsTrue (fits_line host.now) }
    ensures leaves { RefreshedTokens texts.now host.now (I.installed to.old)
        (peer_view (P.state peer.old) (P.Source.faults peer.old))
        result (I.installed to.new)
        (peer_view (P.state peer.new) (P.Source.faults peer.new)) }
    ensures causes { HasPeerCause result (P.Source.faults peer.old) (P.Source.faults peer.new) }
{
    let request = request_of(alloc, texts, host)?;
    let reading = exchange(alloc, peer, request.as_slice())?;
    let outcome = take_book(alloc, to, texts, reading)?;
    Ok(outcome)
}

/// Returns the text of the request that asks which of the tokens with these texts the server knows.
#[tactic(auto, unfolding(crate::specs::Tokens::tokens_request))]
fn request_of(alloc: Global, texts: &List<Text>, host: &str) -> Result<Bytes, Memory>
    requires { IsTrue (fits_line host.now) }
    ensures { IfOk result (λ text. text ≡ tokens_request texts.now host.now) }
{
    let body = write_texts(alloc, texts)?;
    let body = json_text(alloc, &body)?;
    write_request(
        alloc,
        Method::Post,
        "/edge/validate",
        host,
        None,
        None,
        body.as_bytes(),
    )
}

/// Publishes those tokens of the book in a reply that have these texts, unless they are the current book. `reading` is
/// the result of parsing the reply. If the reply has no book, nothing changes, and the outcome says why.
fn take_book<I: Installer>(
    alloc: Global,
    to: &mut I,
    texts: &List<Text>,
    reading: Result<Got, BadReply>,
) -> Result<Outcome, Memory>
    requires front { (I.installed to.old).front < 2 ^ 64 - 1 }
    requires named { IfErr reading (λ e. e ≢ BadReply.Memory) }
    ensures installs { IfOk result (λ outcome.
        Installs (book_in_reply texts.now reading) (I.installed to.old) outcome (I.installed to.new)) }
    ensures named { IfOk result IsNamedOutcome }
    ensures memory { OnErr result (I.installed to.new ≡ I.installed to.old) }
{
    match book_in_reply(alloc, texts, reading) {
        Ok(Ok(book)) => install(alloc, to, book),
        Ok(Err(outcome)) => Ok(outcome),
        Err(Memory) => Err(Memory),
    }
}

/// Publishes a book, unless it is the same as the current one.
fn install<I: Installer>(alloc: Global, to: &mut I, book: Book) -> Result<Outcome, Memory>
    requires { (I.installed to.old).front < 2 ^ 64 - 1 }
    ensures installs { IfOk result (λ outcome. Installs (Ok book) (I.installed to.old) outcome (I.installed to.new)) }
    ensures named { IfOk result IsNamedOutcome }
    ensures memory { OnErr result (I.installed to.new ≡ I.installed to.old) }
{
    match to.install_book(alloc, book) {
        Ok(Some(front)) => Ok(Outcome::Published(front)),
        Ok(None) => Ok(Outcome::Repeat),
        Err(Memory) => Err(Memory),
    }
}

/// Returns those tokens of the book in a reply that have these texts, or the outcome that says why there is no book.
/// `reading` is the result of parsing the reply.
fn book_in_reply(
    alloc: Global,
    texts: &List<Text>,
    reading: Result<Got, BadReply>,
) -> Result<Result<Book, Outcome>, Memory>
    requires { IfErr reading (λ e. e ≢ BadReply.Memory) }
    ensures read { IfOk result (λ read. read ≡ book_in_reply texts.now reading) }
    ensures named { IfOk result (λ read. IfErr read IsNamedOutcome) }
{
    match reading {
        Ok(got) if got.status != 200 => Ok(Err(Outcome::Refused(got.status))),
        Ok(got) => book_in_body(alloc, texts, got.body.as_slice()),
        Err(bad) => Ok(Err(Outcome::BadAnswer(Bad::Reply(bad)))),
    }
}

/// Returns those tokens of the book in a body that have these texts, or the outcome that says why the body has no book.
fn book_in_body(
    alloc: Global,
    texts: &List<Text>,
    body: &[u8],
) -> Result<Result<Book, Outcome>, Memory>
    ensures read { IfOk result (λ read. read ≡ book_read texts.now body.now) }
    ensures named { IfOk result (λ read. IfErr read IsNamedOutcome) }
{
    match Book::read(alloc, body) {
        Ok(book) => match book.keep(alloc, texts) {
            Ok(kept) => Ok(Ok(kept)),
            Err(Memory) => Err(Memory),
        },
        Err(BadBook::Memory) => Err(Memory),
        Err(fault) => Ok(Err(Outcome::BadAnswer(Bad::Book(fault)))),
    }
}
