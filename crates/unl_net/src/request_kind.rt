//! The part of a request that is logged, and the kinds of requests that the log distinguishes.
ghost use Rattle.std.specs.Prelude.{◌≡◌, ◌≤◌, ◌&&◌, ◌||◌, All, length, nat_eq, not, take, true};
ghost use Rattle.unl_net.specs.LoggedText.{is_loggable, longest_prefix, logged_text};

use std::str;

/// The most bytes of a request that are logged.
const MOST_LOGGED: usize = 64;

/// Whether a byte may be logged: a visible ASCII character or a space, but no question mark.
fn is_loggable(byte: u8) -> bool
    ensures { result ≡ is_loggable byte }
{
    byte >= b' ' && byte <= b'~' && byte != b'?'
}

/// Whether the next byte of a request is logged too: the byte may be logged, and is no second space. `has_method`: a
/// space is among the bytes before it, so that the method has ended.
fn is_logged_next(has_method: bool, byte: u8) -> bool
    ensures { result ≡ (is_loggable byte && not (has_method && nat_eq byte 32)) }
{
    is_loggable(byte) && !(has_method && byte == b' ')
}

/// Whether the method of a request has ended after this byte.
fn has_ended(has_method: bool, byte: u8) -> bool
    ensures { result ≡ (has_method || nat_eq byte 32) }
{
    has_method || byte == b' '
}

/// How many of these bytes are logged: the length of their longest prefix that may be logged.
#[tactic(auto, using(crate::proofs::LoggedText::no_more))]
fn logged_count(prefix: &[u8]) -> usize
    ensures { result ≡ longest_prefix (length prefix.now) prefix.now }
{
    let mut has_method = false;
    for at in 0..prefix.len() {
        let byte = prefix[at];
        if !is_logged_next(has_method, byte) {
            return at;
        }
        has_method = has_ended(has_method, byte);
    }
    prefix.len()
}

/// How many bytes of a request are logged: its method and its path, up to the first byte that may not be logged and 64
/// bytes at most. Nothing of a query or a header field is logged.
#[tactic(auto, using(crate::proofs::LoggedText::cut_short, crate::proofs::LoggedText::cut_logged, crate::proofs::LoggedText::same_text))]
fn logged_len(request: &[u8]) -> usize
    ensures exact { take result request.now ≡ logged_text request.now }
    ensures inside { result ≤ length request.now }
    ensures short { result ≤ 64 }
    ensures logged { All (λ byte. is_loggable byte ≡ true) (take result request.now) }
{
    logged_count(&request[..MOST_LOGGED.min(request.len())])
}

/// A kind of request: the text that is logged for it, and a key (a hash) that distinguishes the kinds. Requests with
/// different tokens are of different kinds, since their replies may differ.
#[derive(Clone, Copy)]
pub(crate) struct RequestKind {
    text: [u8; MOST_LOGGED],
    len: usize,
    pub key: u64,
    /// Whether the request is for a feed of flags or for a delta, which counts as a feed in the log: a GET whose path
    /// begins with `/api/client/`.
    pub is_feed: bool,
    /// Whether the request has the tag of an earlier reply (`If-None-Match`).
    pub has_tag: bool,
    ghost fits: { len ≤ 64 },
    ghost logged: { All (λ byte. is_loggable byte ≡ true) (take len text) },
}

impl RequestKind {
    /// The kind of a request with these first bytes. Only header fields among them are considered.
    pub fn of(request: &[u8]) -> Self
        ensures { take result.len result.text ≡ logged_text request.now }
    {
        let len = logged_len(request);
        RequestKind {
            text: padded_prefix(request, len),
            len,
            key: key_of(&request[..len], line_of(request, b"Authorization:")),
            is_feed: request.starts_with(b"GET /api/client/"),
            has_tag: !line_of(request, b"If-None-Match:").is_empty(),
        }
    }

    /// The text that is logged for the request.
    pub fn as_str(&self) -> &str
        ensures { result.now ≡ take self.now.len self.now.text }
    {
        match str::from_utf8(&self.text[..self.len]) {
            Ok(text) => text,
            Err(_) => "",
        }
    }
}

/// The first `len` bytes, followed by zeros.
fn padded_prefix(bytes: &[u8], len: usize) -> [u8; MOST_LOGGED]
    requires inside { len ≤ length bytes.now }
    requires short { len ≤ 64 }
    ensures { take len result ≡ take len bytes.now }
{
    let mut prefix = [0; MOST_LOGGED];
    copy_prefix(bytes, &mut prefix, len);
    prefix
}

/// Copies the first `count` bytes to the beginning of `room`.
fn copy_prefix(bytes: &[u8], room: &mut [u8], count: usize)
    requires held { count ≤ length bytes.now }
    requires fits { count ≤ length room.old }
    ensures { take count room.new ≡ take count bytes.now }
{
    room[..count].copy_from_slice(&bytes[..count]);
}

/// The first line in a request to begin with `name` (case-sensitive), or no bytes if none does.
fn line_of<'a>(request: &'a [u8], name: &[u8]) -> &'a [u8] {
    for line in request.split(|byte| *byte == b'\n') {
        if line.starts_with(name) {
            return line;
        }
    }
    b""
}

/// The key of a kind of request: the FNV-1a hash of its logged text and its line with the token, with the lowest bit
/// set, so that it is never 0.
fn key_of(text: &[u8], line: &[u8]) -> u64 {
    mixed(mixed(0xcbf2_9ce4_8422_2325, text), line) | 1
}

/// A hash extended by more bytes.
fn mixed(hash: u64, bytes: &[u8]) -> u64 {
    let mut mixed = hash;
    for byte in bytes {
        mixed = (mixed ^ u64::from(*byte)).wrapping_mul(0x100_0000_01b3);
    }
    mixed
}
