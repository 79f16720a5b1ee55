//! Sends the metrics of an environment to a server.
ghost use Rattle.std.specs.Prelude.{◌≡◌, ◌≢◌, List, ℕ, Some, None, Result, Option, IfOk, IfErr, IfSome, IsTrue};
ghost use Rattle.std.specs.Prelude.{option_map, false};
ghost use Rattle.serde_json.specs.View.{view};
ghost use Rattle.serde_json.specs.Written.{has_float};
ghost use Rattle.unl_base.specs.Doors.{next_of};
ghost use Rattle.unl_base.specs.Peers.{history_of};
ghost use Rattle.unl_http_api.specs.declared.got.BadReply.{BadReply};
ghost use Rattle.unl_http_api.specs.declared.got.Got.{Got};
ghost use Rattle.unl_http_api.specs.Received.{IsReply};
ghost use Rattle.unl_http_api.specs.RequestText.{fits_line};
ghost use Rattle.unl_metrics.specs.Bulk.{bulk as bulk_of};
ghost use Rattle.unl_refresh.specs.Exchange.{HasPeerCause, peer_view};
ghost use Rattle.unl_refresh.specs.Metrics.{AsksBulk, AsksBulkAtMostOnce, IsNamedMetrics, OutcomeFromReply, SendsBulk, SentMetrics};
ghost use Rattle.unl_refresh.specs.Metrics.{book_after, metrics_request, sent_by};

use crate::exchange::exchange;
use crate::outcome::{MetricsOutcome, RefreshFault};
use crate::texts::json_text;
use serde_json::Value;
use std::alloc::Global;
use unl_base::Peer;
use unl_documents::Memory;
use unl_http_api::{BadReply, Bytes, Got, Method, write_request};
use unl_metrics::MetricsBook;

/// Sends one report of the metrics of an environment: its first keys, as many as fit into 1,048,576 bytes (a report
/// without keys if the first alone is too long). A key is a feature in an application during an hour, in an
/// environment. If the server accepts the report (status 200 or 202), these keys are dropped from the book; otherwise
/// the book is unchanged. If the environment has no keys, the peer isn't contacted. `token` and `host` must have no CR,
/// LF or NUL.
///
/// # Errors
/// `PeerFault` if the peer can't be connected to, written to or read; `Memory` if out of memory. The book is unchanged
/// then.
pub fn send_metrics<P: Peer>(
    alloc: Global,
    book: &mut MetricsBook,
    environment: &str,
    token: &str,
    host: &str,
    peer: &mut P,
) -> Result<MetricsOutcome, RefreshFault>
    requires host { IsTrue (fits_line host.now) }
    requires token { IsTrue (fits_line token.now) }

    // What is sent, and what is dropped from the book.
    ensures leaves { SentMetrics environment.now host.now token.now book.old
        (peer_view (P.state peer.old) (P.Source.faults peer.old))
        result book.new
        (peer_view (P.state peer.new) (P.Source.faults peer.new)) }

    // If the peer's replies are observable and there is something to send, the next reply determines the outcome.
    ensures next_reply { (list : List (List ℕ)) (reading : Result Got BadReply) → (P.state peer.old).replies ≡ Some list
        → IsReply (next_of list) reading
        → IfOk result (OutcomeFromReply (bulk_of environment.now book.old) reading) }

    // If there is nothing to send, the peer is unchanged.
    ensures silent { bulk_of environment.now book.old ≡ None → peer.new ≡ peer.old }

    // If `PeerFault` is returned, the peer's fault count rose; otherwise the count didn't change.
    ensures causes { HasPeerCause result (P.Source.faults peer.old) (P.Source.faults peer.new) }
{
    send(alloc, book, environment, token, host, peer)
}

/// Sends one report and drops its keys if the server accepted them, as [`send_metrics`] does.
fn send<P: Peer>(
    alloc: Global,
    book: &mut MetricsBook,
    environment: &str,
    token: &str,
    host: &str,
    peer: &mut P,
) -> Result<MetricsOutcome, RefreshFault>
    requires host { IsTrue (fits_line host.now) }
    requires token { IsTrue (fits_line token.now) }
    ensures leaves { SentMetrics environment.now host.now token.now book.old
        (peer_view (P.state peer.old) (P.Source.faults peer.old))
        result book.new
        (peer_view (P.state peer.new) (P.Source.faults peer.new)) }
    ensures silent { bulk_of environment.now book.old ≡ None → peer.new ≡ peer.old }
    ensures causes { HasPeerCause result (P.Source.faults peer.old) (P.Source.faults peer.new) }
{
    let found = book.bulk(alloc, environment)?;
    let outcome = send_found(alloc, found, token, host, peer)?;
    drop_sent(book, environment, outcome);
    Ok(outcome)
}

/// Sends the report in `found`, if there is one. The number in `found` is the count of the report's keys. The book
/// isn't changed here.
fn send_found<P: Peer>(
    alloc: Global,
    found: Option<(Value, usize)>,
    token: &str,
    host: &str,
    peer: &mut P,
) -> Result<MetricsOutcome, RefreshFault>
    requires host { IsTrue (fits_line host.now) }
    requires token { IsTrue (fits_line token.now) }
    requires whole { IfSome found (λ sent. has_float (view sent.0) ≡ false) }
    ensures sends { IfOk result (SendsBulk (option_map (λ sent. (view sent.0, sent.1)) found)
        (option_map next_of (P.state peer.old).replies)) }
    ensures named { IfOk result IsNamedMetrics }
    ensures asks { IfOk result (λ _. AsksBulk (option_map (λ sent. (view sent.0, sent.1)) found) host.now token.now
        (P.state peer.old).replies (history_of (P.state peer.old)) (P.state peer.new).replies (history_of (P.state peer.new))) }
    ensures once { AsksBulkAtMostOnce (option_map (λ sent. (view sent.0, sent.1)) found) host.now token.now
        (P.state peer.old).replies (history_of (P.state peer.old)) (P.state peer.new).replies (history_of (P.state peer.new)) }
    ensures silent { found ≡ None → peer.new ≡ peer.old }
    ensures causes { HasPeerCause result (P.Source.faults peer.old) (P.Source.faults peer.new) }
{
    let Some((report, count)) = found else {
        return Ok(MetricsOutcome::Nothing);
    };
    let request = request_of(alloc, &report, token, host)?;
    let reading = exchange(alloc, peer, request.as_slice())?;
    Ok(outcome_of(count, reading))
}

/// Returns the text of the request that carries a report. The report must not contain floating-point numbers.
#[tactic(auto, unfolding(crate::specs::Metrics::metrics_request))]
fn request_of(alloc: Global, report: &Value, token: &str, host: &str) -> Result<Bytes, Memory>
    requires host { IsTrue (fits_line host.now) }
    requires token { IsTrue (fits_line token.now) }
    requires whole { has_float (view report.now) ≡ false }
    ensures { IfOk result (λ text. text ≡ metrics_request host.now token.now (view report.now)) }
{
    let body = json_text(alloc, report)?;
    write_request(
        alloc,
        Method::Post,
        "/api/client/metrics/bulk",
        host,
        Some(token),
        None,
        body.as_bytes(),
    )
}

/// Returns the outcome of a report of `count` keys, from the reply that was read.
fn outcome_of(count: usize, reading: Result<Got, BadReply>) -> MetricsOutcome
    requires { IfErr reading (λ e. e ≢ BadReply.Memory) }
    ensures outcome { result ≡ sent_by count reading }
    ensures named { IsNamedMetrics result }
{
    match reading {
        Ok(got) if got.status == 200 || got.status == 202 => MetricsOutcome::Sent(count),
        Ok(got) => MetricsOutcome::Refused(got.status),
        Err(bad) => MetricsOutcome::BadAnswer(bad),
    }
}

/// Drops from the book the keys that the server accepted: those of the report if the outcome is `Sent`, otherwise none.
fn drop_sent(book: &mut MetricsBook, environment: &str, outcome: MetricsOutcome)
    ensures { book.new ≡ book_after environment.now outcome book.old }
{
    match outcome {
        MetricsOutcome::Sent(count) => book.acknowledged(environment, count),
        MetricsOutcome::Nothing => (),
        MetricsOutcome::Refused(_) => (),
        MetricsOutcome::BadAnswer(_) => (),
    }
}
