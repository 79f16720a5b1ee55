//! What a peer (the client side of a connection) logs: whether its server can be reached, and the statuses of the
//! server's replies.

use crate::log::{Log, Logged, WELL};
use crate::status_log::{LoggedStatus, StatusLog};
use std::fmt::Display;
use std::io;
use std::net::ToSocketAddrs;

/// The logged state if the server can't be reached.
const UNREACHABLE: u16 = 1;

/// The log of a peer, the address of its server, and what was logged last.
#[derive(Drop)]
pub(crate) struct PeerLog<A: ToSocketAddrs + Display> {
    pub address: A,
    logged: Logged,
    log: Log,
    statuses: StatusLog,
}

impl<A: ToSocketAddrs + Display> PeerLog<A> {
    /// The log of a peer whose server is at this address, before anything was logged.
    pub fn new(address: A) -> Self {
        PeerLog {
            address,
            logged: Logged::new(),
            log: Log::new(),
            statuses: StatusLog::new(),
        }
    }

    /// Notes that the server was reached, and logs that it is reachable again if it was not.
    pub fn note_reached<E: Eprint>(&mut self, to: &E) {
        if self.logged.is_news(WELL) {
            let address = &self.address;
            self.log
                .line(to, format_args!("upstream {address}: reachable again"));
        }
    }

    /// Notes that the server can't be reached, and logs why, once until it is reached again.
    pub fn note_unreachable<E: Eprint>(&mut self, to: &E, fault: &io::Error) {
        if self.logged.is_news(UNREACHABLE) {
            let address = &self.address;
            self.log.line(to, format_args!("upstream {address}: unreachable: {fault}"));
        }
    }

    /// Notes that a new connection is made.
    pub fn note_connection(&mut self) {
        self.statuses.note_connection();
    }

    /// Notes that a piece of a request is written. If the last reply to this kind of request was a feed, the new
    /// request shows whether this program accepted the feed: if so, the request has the feed's tag. Logs the feed's
    /// status, if its class has changed: 200 to 299 and 304 are one class, and any other status is its own class.
    pub fn note_written<E: Eprint>(&mut self, to: &E, piece: &[u8]) {
        let status = self.statuses.note_written(piece);
        self.log_status(to, status);
    }

    /// Notes the bytes of a read (none if the read failed). Logs the status of the reply, if its class has changed.
    pub fn note_read<E: Eprint>(&mut self, to: &E, bytes: &[u8]) {
        let status = self.statuses.note_read(bytes);
        self.log_status(to, status);
    }

    /// Logs a status of the current kind of request, if there is one to be logged.
    fn log_status<E: Eprint>(&mut self, to: &E, status: Option<LoggedStatus>) {
        if let Some(status) = status {
            let address = &self.address;
            let kind = self.statuses.kind();
            self.log
                .line(to, format_args!("upstream {address}: {kind}: {status}"));
        }
    }
}
