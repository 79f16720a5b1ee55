//! Tests of single connections: requests whose bytes are split across reads, requests that are cut off, refused or at a
//! limit, and how connections end.
ghost use Rattle.std.specs.Prelude.{◌<◌};

use std::alloc::Global;
use unl_base::{ListDraws, MemoryLink};
use unl_connection::{Served, serve_connection};
use unl_core::{Board, OneDesk};
use unl_documents::List;
use unl_http_api::End;
use unl_metrics::MetricsBook;

/// The outcome of a connection: the bytes that the server sends on it, how many requests are answered, and how it ends.
type ConnectionCase<'a> = (&'a [u8], usize, End);

/// Returns the desk of a board without tokens.
fn desk(alloc: Global) -> Option<OneDesk> {
    let board = Board::new(alloc, 0, "", &List::new(alloc)).ok()?;
    OneDesk::new(alloc, board).ok()
}

/// Serves a link over a board without tokens. Returns the number of requests answered and how the connection ended, or
/// `None` if out of memory.
fn serve(alloc: Global, link: &mut MemoryLink) -> Option<(usize, End)> {
    let mut desk = desk(alloc)?;
    let mut served = Served::new(alloc).ok()?;
    let mut book = MetricsBook::new(alloc);
    let mut draws = ListDraws::new(Vec::new(alloc));
    let end = serve_connection(alloc, &mut desk, &mut book, link, &mut draws, &mut served);
    Some((served.len(), end))
}

/// Returns a link to read these bytes from, at most `most` of them at a time, with room for 10,000 bytes of replies.
/// The link's reads and writes are numbered together from 0; those whose numbers are in `failing` fail.
fn link_of(alloc: Global, bytes: &[u8], most: usize, failing: &[u64]) -> Option<MemoryLink>
    requires { 0 < most }
{
    let bytes = bytes.to_vec(alloc).ok()?;
    let failing = failing.to_vec(alloc).ok()?;
    MemoryLink::new(alloc, bytes, most, 10_000, failing).ok()
}

/// Serves a connection on which these bytes are received, at most `most` of them at a time. Returns whether it has this
/// outcome.
fn has_outcome(alloc: Global, bytes: &[u8], most: usize, outcome: ConnectionCase) -> bool
    requires { 0 < most }
{
    fails_with(alloc, bytes, most, &[], outcome)
}

/// As `has_outcome`, but the link's reads and writes whose numbers are in `failing` fail (see `link_of`).
fn fails_with(
    alloc: Global,
    bytes: &[u8],
    most: usize,
    failing: &[u64],
    outcome: ConnectionCase,
) -> bool
    requires { 0 < most }
{
    let Some(mut link) = link_of(alloc, bytes, most, failing) else {
        return false;
    };
    match serve(alloc, &mut link) {
        Some((answered, end)) => (link.sent(), answered, end) == outcome,
        None => false,
    }
}

/// A request to the health endpoint.
const HEALTH: &[u8] = b"GET /internal-backstage/health HTTP/1.1\r\nHost: x\r\n\r\n";

const HEALTHY: ConnectionCase<'static> = (
    b"HTTP/1.1 200 OK\r\nContent-Type: application/json\r\nContent-Length: 15\r\n\r\n{\"status\":\"OK\"}",
    1,
    End::Closed,
);

/// Two requests: one whose body is the text of a health request, and then a health request.
const REQUEST_IN_A_BODY: &[u8] = b"POST /no HTTP/1.1\r\nHost: x\r\nContent-Length: 52\r\n\r\n\
    GET /internal-backstage/health HTTP/1.1\r\nHost: x\r\n\r\n\
    GET /internal-backstage/health HTTP/1.1\r\nHost: x\r\n\r\n";

const TWO_REPLIES: ConnectionCase<'static> = (
    b"HTTP/1.1 404 Not Found\r\nContent-Type: application/json\r\nContent-Length: 23\r\n\r\n{\"error\":\"NoSuchRoute\"}\
    HTTP/1.1 200 OK\r\nContent-Type: application/json\r\nContent-Length: 15\r\n\r\n{\"status\":\"OK\"}",
    2,
    End::Closed,
);

#[test]
fn requests_however_they_are_split(rt: HostRuntime) {
    for most in 1..120 {
        assert!(rt; has_outcome(rt.alloc(), HEALTH, most, HEALTHY), "{most}");
        assert!(rt;
            has_outcome(rt.alloc(), REQUEST_IN_A_BODY, most, TWO_REPLIES),
            "{most}"
        );
    }
}

const NOTHING: ConnectionCase<'static> = (b"", 0, End::Closed);

const CUT_OFF: ConnectionCase<'static> = (b"", 0, End::CutOff);

#[test]
fn a_request_cut_short(rt: HostRuntime) {
    for count in 0..HEALTH.len() {
        let start = HEALTH.get(..count).unwrap_or_default();
        let outcome = if count == 0 { NOTHING } else { CUT_OFF };
        assert!(rt; has_outcome(rt.alloc(), start, 4_096, outcome), "{count}");
    }
}

/// Two requests, whose bytes are returned by one read.
const TWO_REQUESTS: &[u8] =
    b"GET /no HTTP/1.1\r\nHost: x\r\n\r\nGET /no HTTP/1.1\r\nHost: x\r\n\r\n";

const BOTH_ANSWERED: &[u8] =
    b"HTTP/1.1 404 Not Found\r\nContent-Type: application/json\r\nContent-Length: 23\r\n\r\n{\"error\":\"NoSuchRoute\"}\
    HTTP/1.1 404 Not Found\r\nContent-Type: application/json\r\nContent-Length: 23\r\n\r\n{\"error\":\"NoSuchRoute\"}";

/// The number of the read or write that fails, and the outcome of `TWO_REQUESTS` then. The calls are a read, two writes
/// and a read. There is no call 4, so nothing fails in the last case.
const FAULTS: [(u64, ConnectionCase<'static>); 5] = [
    (0, (b"", 0, End::ReadFault)),
    (1, (b"", 1, End::WriteFault)),
    (2, (NO_ROUTE, 2, End::WriteFault)),
    (3, (BOTH_ANSWERED, 2, End::ReadFault)),
    (4, (BOTH_ANSWERED, 2, End::Closed)),
];

#[test]
fn a_link_whose_calls_fail(rt: HostRuntime) {
    for (call, outcome) in FAULTS {
        assert!(rt;
            fails_with(rt.alloc(), TWO_REQUESTS, 4_096, &[call], outcome),
            "{call}"
        );
    }
}

/// The reply to a request for `/no`, a path that the server does not know.
const NO_ROUTE: &[u8] =
    b"HTTP/1.1 404 Not Found\r\nContent-Type: application/json\r\nContent-Length: 23\r\n\r\n{\"error\":\"NoSuchRoute\"}";

/// The reply to a request for `/no` if the server closes the connection after it.
const NO_ROUTE_AND_CLOSE: &[u8] =
    b"HTTP/1.1 404 Not Found\r\nContent-Type: application/json\r\nContent-Length: 23\r\nConnection: close\r\n\r\n\
    {\"error\":\"NoSuchRoute\"}";

const LONG_HEAD: ConnectionCase<'static> = (
    b"HTTP/1.1 431 Request Header Fields Too Large\r\nContent-Length: 0\r\nConnection: close\r\n\r\n",
    0,
    End::Refused(431),
);

/// The bytes that are received on a connection, and its outcome.
const ENDS: [(&[u8], ConnectionCase<'static>); 9] = [
    (b"GET /no HTTP/1.1\r\nHost: x\r\n", CUT_OFF),
    (
        b"POST /no HTTP/1.1\r\nHost: x\r\nContent-Length: 3\r\n\r\nab",
        CUT_OFF,
    ),
    (
        b"POST /no HTTP/1.1\r\nHost: x\r\nContent-Length: 3\r\n\r\nabc",
        (NO_ROUTE, 1, End::Closed),
    ),
    (
        b"POST /no HTTP/1.1\r\nHost: x\r\nContent-Length: 3\r\n\r\nabcGET",
        (NO_ROUTE, 1, End::CutOff),
    ),
    (
        b"GET /no HTTP/1.1\r\nHost: x\r\nConnection: keep-alive, Close\r\n\r\nGET",
        (NO_ROUTE_AND_CLOSE, 1, End::Asked),
    ),
    (
        b"GET /no HTTP/1.0\r\n\r\nGET",
        (NO_ROUTE_AND_CLOSE, 1, End::Asked),
    ),
    (
        b"GET /no HTTP/1.0\r\nConnection: Keep-Alive\r\n\r\n",
        (NO_ROUTE, 1, End::Closed),
    ),
    (
        b"GET /no HTTP/1.0\r\nConnection: x\r\nConnection: keep-alive\r\n\r\n",
        (NO_ROUTE_AND_CLOSE, 1, End::Asked),
    ),
    (b"", NOTHING),
];

#[test]
fn ends(rt: HostRuntime) {
    for (bytes, outcome) in ENDS {
        assert!(rt; has_outcome(rt.alloc(), bytes, 9, outcome), "{outcome:?}");
    }
}

/// Requests that are refused: the header fields after `Host` of a request with the body `abcde`, the refusal's status
/// line without the version, and its status.
const REFUSED: [(&str, &str, u16); 10] = [
    ("Transfer-Encoding: chunked", "411 Length Required", 411),
    (
        "Content-Length: 5\r\nTransfer-Encoding: chunked",
        "411 Length Required",
        411,
    ),
    (
        "Transfer-Encoding: chunked\r\nContent-Length: 5",
        "411 Length Required",
        411,
    ),
    ("Content-Length: +5", "400 Bad Request", 400),
    ("Content-Length: 5,5", "400 Bad Request", 400),
    (
        "Content-Length: 5\r\nContent-Length: 5",
        "400 Bad Request",
        400,
    ),
    ("Content-Length: -5", "400 Bad Request", 400),
    ("Content-Length: 1048577", "413 Payload Too Large", 413),
    (
        "Content-Length: 5\r\nContent-Encoding: gzip",
        "415 Unsupported Media Type",
        415,
    ),
    (
        "Content-Length: 5\r\nExpect: 100-continue",
        "417 Expectation Failed",
        417,
    ),
];

/// Serves a connection on which a request with these header fields and the body `abcde` is received. Returns whether
/// the request is refused with this status line and status, or `None` if out of memory.
fn is_refused(alloc: Global, fields: &str, line: &str, status: u16) -> Option<bool> {
    let request = format!(in alloc; "POST /no HTTP/1.1\r\nHost: x\r\n{fields}\r\n\r\nabcde").ok()?;
    let reply = format!(in alloc;
        "HTTP/1.1 {line}\r\nContent-Length: 0\r\nConnection: close\r\n\r\n"
    ).ok()?;
    let outcome = (reply.as_bytes(), 0, End::Refused(status));
    Some(has_outcome(alloc, request.as_bytes(), 9, outcome))
}

#[test]
fn refusals(rt: HostRuntime) {
    for (fields, line, status) in REFUSED {
        let refused = is_refused(rt.alloc(), fields, line, status);
        assert!(rt; refused == Some(true), "{fields}");
    }
}

/// Returns the start of a health request, `length` bytes long. Its last header field is filled up with letters, and
/// then the bytes `end` follow.
fn head_of(alloc: Global, length: usize, end: &[u8]) -> Option<Vec<u8>> {
    let mut bytes = HEALTH.get(..HEALTH.len() - 2)?.to_vec(alloc).ok()?;
    bytes.extend_from_slice(b"X: ").ok()?;
    bytes.resize(length.saturating_sub(end.len()), b'a').ok()?;
    bytes.extend_from_slice(end).ok()?;
    Some(bytes)
}

/// The number of bytes that are received of a request's head, the bytes at their end (none if the head is not
/// complete), and the outcome. A head must end in the first 8,192 bytes.
const HEADS: [(usize, &[u8], ConnectionCase<'static>); 4] = [
    (8_191, b"", CUT_OFF),
    (8_192, b"", LONG_HEAD),
    (8_192, b"\r\n\r\n", HEALTHY),
    (8_193, b"\r\n\r\n", LONG_HEAD),
];

#[test]
fn heads_at_the_limit(rt: HostRuntime) {
    for (length, end, outcome) in HEADS {
        let head = head_of(rt.alloc(), length, end).unwrap_or(Vec::new(rt.alloc()));
        assert!(rt;
            head.len() == length && has_outcome(rt.alloc(), head.as_slice(), 4_096, outcome),
            "{length}"
        );
    }
}
