//! The status of a server's replies to each kind of request, and when it changes.
ghost use Rattle.std.specs.Prelude.{◌≡◌, ◌<◌, ◌&&◌, All, IfSome, nat_eq, replicate, take, true};
ghost use Rattle.unl_net.specs.LoggedText.{is_loggable};
ghost use Rattle.unl_net.specs.declared.status_log.ExchangeStage.TheVariants.{Fresh};
ghost use Rattle.unl_net.specs.StatusLogs.{NotesRead, NotesWritten, after_reply, after_request, class_of, digits_of, is_digit, is_news};
ghost use Rattle.unl_net.specs.StatusLogs.{next_class, nothing_known, place_of, status_of, taken_class, taken_status, logged_request};

use crate::log::{Logged, WELL};
use crate::request_kind::RequestKind;
use std::fmt;
use std::fmt::Display;

/// How many kinds of requests the log distinguishes. The program uses fewer: one to check tokens
/// (`POST /edge/validate`), and two for each of at most eight tokens.
const MOST_KINDS: usize = 32;

/// The logged status if no reply with a status came.
const NO_ANSWER: u16 = 1;

/// The logged status of a feed of flags that came with status 200 but was not taken, that is, this program did not
/// accept it: the next request for the feed has no tag (`If-None-Match`).
const NOT_TAKEN: u16 = 1_000;

/// Whether a byte is an ASCII digit.
fn is_digit(byte: u8) -> bool
    ensures { result ≡ is_digit byte }
{
    byte >= b'0' && byte <= b'9'
}

/// The number with these three ASCII digits. `None` if one of them is no digit.
fn digits_of(first: u8, second: u8, third: u8) -> Option<u16>
    ensures { result ≡ digits_of first second third }
{
    if !is_digit(first) || !is_digit(second) || !is_digit(third) {
        return None;
    }
    let hundreds = u16::from(first - b'0');
    let tens = u16::from(second - b'0');
    Some(hundreds * 100 + tens * 10 + u16::from(third - b'0'))
}

/// The status of a reply that begins with these bytes (RFC 9112, section 4). `None` if there are fewer than 12 bytes,
/// if they don't begin with `HTTP/1.`, or if the status isn't three digits.
fn status_of(reply: &[u8]) -> Option<u16>
    ensures { result ≡ status_of reply.now }
{
    if reply.len() < 12 || !reply.starts_with(b"HTTP/1.") {
        return None;
    }
    digits_of(reply[9], reply[10], reply[11])
}

/// The class of a status: 200 to 299 and 304 all mean that all is well. Any other status is its own class.
fn class_of(status: u16) -> u16
    ensures { result ≡ class_of status }
{
    if (status >= 200 && status <= 299) || status == 304 {
        WELL
    } else {
        status
    }
}

/// The status of a reply, as it is logged. It can also be `NO_ANSWER` or `NOT_TAKEN`.
#[derive(Clone, Copy)]
pub(crate) struct LoggedStatus {
    status: u16,
}

impl Display for LoggedStatus {
    ghost use Rattle.std.specs.Prelude.{Some};
    ghost use Rattle.unl_net.specs.StatusLogs.{status_text};

    ghost output = { λ logged. Some (status_text logged.status) };

    fn fmt<W: fmt::Write>(&self, f: &mut fmt::Formatter<W>) -> fmt::Result {
        let status = self.status;
        if status == NO_ANSWER {
            f.write_str("no answer")
        } else if status == NOT_TAKEN {
            f.write_str("200, but not taken")
        } else {
            write!(f, "{status}")
        }
    }
}

/// The entry of a kind of request: its key, and the class last logged for it. The key 0 means that the entry is free.
#[derive(Clone, Copy)]
struct Known {
    key: u64,
    logged: Logged,
    /// Whether the last reply to this kind of request was a feed with status 200. The next request shows whether that
    /// feed was taken.
    fed: bool,
}

/// How far the exchange on a connection has come.
#[derive(Clone, Copy, PartialEq)]
enum ExchangeStage {
    /// Nothing was written.
    Fresh,
    /// A request was written, and nothing was read.
    Asked,
    /// Something was read.
    Answered,
}

/// What was requested on a connection of a peer (this program as the client of a server), and how the server last
/// replied to each kind of request.
#[derive(Clone, Copy)]
pub(crate) struct StatusLog {
    stage: ExchangeStage,
    kind: RequestKind,
    known: [Known; MOST_KINDS],
}

impl StatusLog {
    /// The log of a peer that has sent no request yet.
    pub fn new() -> Self
        ensures stage { result.stage ≡ Fresh }
        ensures known { result.known ≡ replicate 32 nothing_known }
    {
        let none = Known {
            key: 0,
            logged: Logged::new(),
            fed: false,
        };
        StatusLog {
            stage: ExchangeStage::Fresh,
            kind: RequestKind::of(b""),
            known: [none; MOST_KINDS],
        }
    }

    /// Notes that there is a new connection.
    pub fn note_connection(&mut self)
        ensures { self.new ≡ record self.old { stage = Fresh } }
    {
        self.stage = ExchangeStage::Fresh;
    }

    /// Notes a write. Only the first write on a connection counts: it has the request's first line, its token and its
    /// tag. If the last reply to this kind of request was a feed, a tag in the request shows that the feed was taken,
    /// and no tag shows that it was not. Returns the status to log for that feed, if its class has changed.
    pub fn note_written(&mut self, piece: &[u8]) -> Option<LoggedStatus>
        ensures { NotesWritten self.old piece.now result self.new }
    {
        if self.stage != ExchangeStage::Fresh {
            return None;
        }
        self.kind = RequestKind::of(piece);
        self.stage = ExchangeStage::Asked;
        note_tag(&mut self.known, self.kind.key, self.kind.has_tag)
    }

    /// Notes a read, with no bytes if it failed. Only the first read after a request counts: it has the status of the
    /// reply. Returns the status to log, if its class has changed.
    pub fn note_read(&mut self, bytes: &[u8]) -> Option<LoggedStatus>
        ensures { NotesRead self.old bytes.now result self.new }
    {
        if self.stage != ExchangeStage::Asked {
            return None;
        }
        self.stage = ExchangeStage::Answered;
        let status = status_of(bytes).unwrap_or(NO_ANSWER);
        let fed = is_fed(self.kind.is_feed, status);
        if is_news(&mut self.known, self.kind.key, class_of(status), fed) {
            Some(LoggedStatus { status })
        } else {
            None
        }
    }

    /// The part of the current request that is logged.
    pub fn kind(&self) -> &str
        ensures exact { result.now ≡ take self.now.kind.len self.now.kind.text }
        ensures logged { All (λ byte. is_loggable byte ≡ true) result.now }
    {
        self.kind.as_str()
    }
}

/// The index of the entry for a kind of request: the first entry that is its own or free. `None` if other kinds have
/// all entries.
fn place_of(known: &[Known; MOST_KINDS], key: u64) -> Option<usize>
    ensures place { result ≡ place_of key known.now }
    ensures inside { IfSome result (λ at. at < 32) }
{
    known
        .iter()
        .position(|entry| entry.key == key || entry.key == 0)
}

/// Notes the class `now` of a reply to a kind of request, and returns whether it is to be logged. `fed`: the reply is a
/// feed. Kinds for which there is no entry are not logged.
fn is_news(known: &mut [Known; MOST_KINDS], key: u64, now: u16, fed: bool) -> bool
    ensures noted { known.new ≡ after_reply key now fed known.old }
    ensures news { result ≡ is_news key now fed known.old }
{
    match place_of(known, key) {
        Some(at) => {
            let mut logged = known[at].logged;
            let last = logged.last;
            let is_news = logged.is_news(next_class(last, now, fed));
            known[at] = Known { key, logged, fed };
            is_news
        }
        None => false,
    }
}

/// Whether a reply is a feed: a feed was requested (`is_feed`), and the status is 200.
fn is_fed(is_feed: bool, status: u16) -> bool
    ensures { result ≡ (is_feed && nat_eq status 200) }
{
    is_feed && status == 200
}

/// The class to note for a reply with the class `now`. If the last feed was not taken and this reply is a feed (`fed`),
/// the class stays: only the next request shows whether this feed was taken.
fn next_class(last: u16, now: u16, fed: bool) -> u16
    ensures { result ≡ next_class last now fed }
{
    if fed && last == NOT_TAKEN { last } else { now }
}

/// Notes a request with or without a tag. If the last reply to its kind was a feed, a tag shows that the feed was
/// taken, and no tag that it was not. Returns the status to log for the feed, if its class has changed.
fn note_tag(known: &mut [Known; MOST_KINDS], key: u64, has_tag: bool) -> Option<LoggedStatus>
    ensures noted { known.new ≡ after_request key has_tag known.old }
    ensures news { result ≡ logged_request key has_tag known.old }
{
    let at = place_of(known, key)?;
    if !known[at].fed {
        return None;
    }
    let mut logged = known[at].logged;
    let is_news = logged.is_news(taken_class(has_tag));
    known[at] = Known {
        key,
        logged,
        fed: false,
    };
    if is_news {
        Some(LoggedStatus {
            status: taken_status(has_tag),
        })
    } else {
        None
    }
}

/// The class that is noted for a feed, by whether it was taken.
fn taken_class(is_taken: bool) -> u16
    ensures { result ≡ taken_class is_taken }
{
    if is_taken { WELL } else { NOT_TAKEN }
}

/// The status that is logged for a feed, by whether it was taken.
fn taken_status(is_taken: bool) -> u16
    ensures { result ≡ taken_status is_taken }
{
    if is_taken { 200 } else { NOT_TAKEN }
}
