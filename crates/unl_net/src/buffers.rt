//! The buffers of a connection: bytes that were received and not read yet, and bytes that are still to be sent.
ghost use Rattle.std.specs.Prelude.{◌≡◌, ◌≢◌, ◌+◌, ◌-◌, ◌==◌, ◌<◌, ◌≤◌, ◌++◌, [], OnErr, OnOk, length, drop, take, vec_capacity, vec_len};

use std::alloc::{AllocError, Global};
use unl_http_api::{Frame, request_frame};

/// Received bytes. A link (which serves the requests of the connection) may read only those that were opened: a whole
/// request, bytes that are refused (no request can begin with them), or all bytes (`open_all`).
#[derive(Drop)]
pub(crate) struct ReceiveBuffer {
    bytes: Vec<u8>,
    /// The number of bytes at the start that were read already.
    taken: usize,
    /// The number of bytes after those taken that are opened: a link may read them.
    opened: usize,
    ghost within: { taken + opened ≤ vec_len bytes },
}

impl ReceiveBuffer {
    ghost use Rattle.unl_http_api.specs.Frames.{IsFrame};
    ghost use Rattle.unl_http_api.specs.declared.frame.Frame as frame;
    ghost use Rattle.unl_net.specs.Buffers.{opened_len, unread};

    /// An empty buffer.
    pub fn new(alloc: Global) -> Self
        ensures { unread result ≡ [] }
    {
        ReceiveBuffer {
            bytes: Vec::new(alloc),
            taken: 0,
            opened: 0,
        }
    }

    /// The number of bytes that were not read yet.
    pub fn len(&self) -> usize
        ensures { result ≡ length (unread self.now) }
    {
        self.bytes.len() - self.taken
    }

    /// Whether all bytes were read.
    pub fn is_empty(&self) -> bool
        ensures { result ≡ (length (unread self.now) == 0) }
    {
        self.len() == 0
    }

    /// The number of opened bytes, which a link may read.
    pub fn opened_len(&self) -> usize
        ensures { result ≡ self.now.opened }
    {
        self.opened
    }

    /// Makes room for `more` further bytes, and drops the bytes that were read already.
    ///
    /// # Errors
    /// Out of memory.
    pub fn reserve(&mut self, more: usize) -> Result<(), AllocError>
        ensures same { unread self.new ≡ unread self.old }
        ensures room { OnOk result (vec_len self.new.bytes + more ≤ vec_capacity self.new.bytes) }
    {
        drop_prefix(&mut self.bytes, self.taken);
        self.taken = 0;
        self.bytes.reserve(more)
    }

    /// Appends received bytes, for which there is room.
    pub fn add(&mut self, bytes: &[u8])
        requires { vec_len self.old.bytes + length bytes.now ≤ vec_capacity self.old.bytes }
        ensures { unread self.new ≡ unread self.old ++ bytes.now }
    {
        self.bytes.extend_from_slice(bytes).unwrap();
    }

    /// Measures the request at the start of the unread bytes. Only a head with more than 65 fields needs an allocation;
    /// if that fails, the request counts as unfinished.
    fn first_frame(&self, alloc: Global) -> Frame
        ensures { result ≢ Frame.More → IsFrame (unread self.now) result }
    {
        match request_frame(alloc, self.unread()) {
            Ok(frame) => frame,
            Err(_) => Frame::More,
        }
    }

    /// Opens bytes, so that a link may read them: the request at the start of the unread bytes if it is whole, none if
    /// it is unfinished, or all unread bytes if they are refused. Returns which of these it is. If an allocation fails,
    /// the request counts as unfinished.
    pub fn open(&mut self, alloc: Global) -> Frame
        ensures same { unread self.new ≡ unread self.old }
        ensures frame { result ≢ Frame.More → IsFrame (unread self.new) result }
        ensures opened { self.new.opened ≡ opened_len result (unread self.new) }
    {
        let frame = self.first_frame(alloc);
        self.opened = match frame {
            Frame::Whole(count) => count,
            Frame::Bad(_) => self.len(),
            Frame::More => 0,
        };
        frame
    }

    /// Opens all unread bytes.
    pub fn open_all(&mut self)
        ensures same { unread self.new ≡ unread self.old }
        ensures opened { self.new.opened ≡ length (unread self.new) }
    {
        self.opened = self.len();
    }

    /// Reads opened bytes into `room`, as many as fit, and returns how many.
    pub fn read_opened(&mut self, room: &mut [u8]) -> usize
        ensures fits { result ≤ length room.new }
        ensures some { 0 < length room.old → 0 < self.old.opened → 0 < result }
        ensures bytes { unread self.old ≡ take result room.new ++ unread self.new }
    {
        let count = self.opened.min(room.len());
        copy_prefix(self.unread(), room, count);
        self.opened -= count;
        self.taken += count;
        count
    }

    /// The bytes that were not read yet.
    fn unread(&self) -> &[u8]
        ensures { result.now ≡ unread self.now }
    {
        &self.bytes[self.taken..]
    }

    /// Frees the memory if all bytes were read.
    pub fn shrink(&mut self, alloc: Global)
        ensures { unread self.new ≡ unread self.old }
    {
        if self.is_empty() {
            *self = ReceiveBuffer::new(alloc);
        }
    }

    /// Drops all bytes, and frees the memory.
    pub fn clear(&mut self, alloc: Global)
        ensures { unread self.new ≡ [] }
    {
        *self = ReceiveBuffer::new(alloc);
    }
}

/// Removes the first `count` bytes.
fn drop_prefix(bytes: &mut Vec<u8>, count: usize)
    requires { count ≤ vec_len bytes.old }
    ensures { bytes.new.items ≡ drop count bytes.old.items }
{
    if count == bytes.len() {
        bytes.truncate(0);
    } else {
        bytes.drain(..count);
    }
}

/// Copies the first `count` bytes to the beginning of `room`.
fn copy_prefix(bytes: &[u8], room: &mut [u8], count: usize)
    requires held { count ≤ length bytes.now }
    requires fits { count ≤ length room.old }
    ensures prefix { take count room.new ≡ take count bytes.now }
    ensures same { length room.new ≡ length room.old }
{
    room[..count].copy_from_slice(&bytes[..count]);
}

/// Bytes that are still to be sent.
#[derive(Drop)]
pub(crate) struct SendBuffer {
    bytes: Vec<u8>,
    /// The number of bytes at the start that were sent already.
    sent: usize,
    ghost within: { sent ≤ vec_len bytes },
}

impl SendBuffer {
    ghost use Rattle.unl_net.specs.Buffers.{unsent};

    /// An empty buffer.
    pub fn new(alloc: Global) -> Self
        ensures { unsent result ≡ [] }
    {
        SendBuffer {
            bytes: Vec::new(alloc),
            sent: 0,
        }
    }

    /// The number of bytes still to be sent.
    pub fn len(&self) -> usize
        ensures { result ≡ length (unsent self.now) }
    {
        self.bytes.len() - self.sent
    }

    /// Whether all bytes were sent.
    pub fn is_empty(&self) -> bool
        ensures { result ≡ (length (unsent self.now) == 0) }
    {
        self.len() == 0
    }

    /// The bytes still to be sent.
    pub fn unsent(&self) -> &[u8]
        ensures { result.now ≡ unsent self.now }
    {
        &self.bytes[self.sent..]
    }

    /// Appends bytes. It reserves no more memory than they need.
    ///
    /// # Errors
    /// Out of memory. Nothing is appended then.
    pub fn add(&mut self, bytes: &[u8]) -> Result<(), AllocError>
        ensures ok { OnOk result (unsent self.new ≡ unsent self.old ++ bytes.now) }
        ensures err { OnErr result (unsent self.new ≡ unsent self.old) }
    {
        self.bytes.reserve_exact(bytes.len())?;
        self.bytes.extend_from_slice(bytes)
    }

    /// Notes that the first `count` bytes were sent.
    pub fn note_sent(&mut self, count: usize)
        requires { count ≤ length (unsent self.old) }
        ensures { unsent self.new ≡ drop count (unsent self.old) }
    {
        self.sent += count;
    }

    /// Drops all bytes, and frees the memory.
    pub fn clear(&mut self, alloc: Global)
        ensures { unsent self.new ≡ [] }
    {
        *self = SendBuffer::new(alloc);
    }
}
