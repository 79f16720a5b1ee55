//! What a door shares with its links. A door accepts connections; a link is a connection that it handed out to be
//! served.

use crate::connection::Connection;
use mio::Waker;
use std::alloc::{AllocError, Global};
use std::collections::VecDeque;
use std::io::{Read, Write};
use std::net::OpenStream;
use std::sync::atomic::{AtomicBool, AtomicU64, Ordering};
use std::sync::{Mutex, Wait};

/// Once this many bytes of replies are kept to be sent later, for all connections together, no more are kept.
const MOST_UNSENT: u64 = 268_435_456;

/// What a door shares with its links. The door and each link own it, so it has one owner more than there are links.
#[derive(Drop)]
pub(crate) struct SharedWithLinks<S: Read + Write + OpenStream + Drop> {
    /// The connections that links returned.
    returned: Mutex<VecDeque<Connection<S>>>,
    waker: Waker,
    /// Whether the door waits for events and must be woken.
    sleeps: AtomicBool,
    /// Whether the door has accepted its maximum number of connections. Each link then serves its connection to the
    /// end, and does not return it in between.
    has_accepted_all: AtomicBool,
    /// Whether replies may be kept to be sent later.
    keeps_answers: AtomicBool,
    /// How many bytes of replies are kept to be sent later.
    unsent: AtomicU64,
    /// How many replies had a status of 500 or more since the last call of `take_server_errors`.
    server_errors: AtomicU64,
    /// How many connections were closed because an allocation failed when a link returned them, since the last call of
    /// `take_lost`.
    lost: AtomicU64,
    /// How many worker threads serve links at the same time, or 0 if the thread that accepts serves them.
    pub workers: u32,
}

impl<S: Read + Write + OpenStream + Drop> SharedWithLinks<S> {
    /// Creates the shared state of a door without connections.
    ///
    /// # Errors
    /// Out of memory.
    pub fn new(alloc: Global, waker: Waker, workers: u32) -> Result<Self, AllocError> {
        Ok(SharedWithLinks {
            returned: Mutex::new(VecDeque::with_capacity(alloc, 256)?),
            waker,
            sleeps: AtomicBool::new(false),
            has_accepted_all: AtomicBool::new(false),
            keeps_answers: AtomicBool::new(true),
            unsent: AtomicU64::new(0),
            server_errors: AtomicU64::new(0),
            lost: AtomicU64::new(0),
            workers,
        })
    }

    /// Returns a connection to the door, and wakes the door if it waits for events. If an allocation fails, the
    /// connection is closed instead, and counted.
    pub fn return_connection<R: Wait>(&self, rt: &R, connection: Connection<S>) {
        let unsent = connection.to_send.len();
        let mut returned = self.returned.lock(rt);
        let pushed = returned.push_back(connection);
        drop(returned);
        if pushed.is_err() {
            self.note_sent(unsent);
            self.lost.fetch_add(1, Ordering::SeqCst);
        }
        if self.sleeps.swap(false, Ordering::SeqCst) {
            let _ = self.waker.wake();
        }
    }

    /// Takes a connection that a link returned, if there is one.
    pub fn take_returned<R: Wait>(&self, rt: &R) -> Option<Connection<S>> {
        self.returned.lock(rt).pop_front()
    }

    /// Notes whether the door waits for events. If so, the next link that returns a connection wakes the door.
    pub fn note_sleep(&self, sleeps: bool) {
        self.sleeps.store(sleeps, Ordering::SeqCst);
    }

    /// Notes that the door has accepted its maximum number of connections.
    pub fn note_accepted_all(&self) {
        self.has_accepted_all.store(true, Ordering::SeqCst);
    }

    /// Whether the door has accepted its maximum number of connections.
    pub fn has_accepted_all(&self) -> bool {
        self.has_accepted_all.load(Ordering::SeqCst)
    }

    /// Notes that no more replies may be kept to be sent later, because the door can no longer wait until a client is
    /// ready to receive.
    pub fn keep_no_answers(&self) {
        self.keeps_answers.store(false, Ordering::SeqCst);
    }

    /// Whether `count` more bytes of replies may be kept: `keep_no_answers` was not called, and fewer than
    /// `MOST_UNSENT` bytes are kept now. If so, counts them as kept.
    pub fn may_hold(&self, count: usize) -> bool {
        if !self.keeps_answers.load(Ordering::SeqCst) {
            return false;
        }
        let before = self.unsent.fetch_add(count as u64, Ordering::SeqCst);
        if before < MOST_UNSENT {
            return true;
        }
        self.note_sent(count);
        false
    }

    /// Notes that `count` bytes are no longer kept.
    pub fn note_sent(&self, count: usize) {
        if count > 0 {
            self.unsent.fetch_sub(count as u64, Ordering::SeqCst);
        }
    }

    /// Counts a reply with a status of 500 or more.
    pub fn count_server_error(&self) {
        self.server_errors.fetch_add(1, Ordering::SeqCst);
    }

    /// How many replies had a status of 500 or more since the last call of this function.
    pub fn take_server_errors(&self) -> u64 {
        self.server_errors.swap(0, Ordering::SeqCst)
    }

    /// How many connections were closed because an allocation failed when a link returned them, since the last call of
    /// this function.
    pub fn take_lost(&self) -> u64 {
        self.lost.swap(0, Ordering::SeqCst)
    }
}
