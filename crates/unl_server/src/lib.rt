//! The server. [`serve_requests`] reads the requests of a link (a source and a sink of bytes), passes each to the
//! handler, and sends the replies in order. [`serve_door`] serves the links of a door (a listening port), one after
//! another. In this crate a connection is what one link gives and takes: what a client keeps open may be several links,
//! one after another.
#![tactic(auto)]

mod conversation;
mod door;
mod receive;
mod request_handler;
mod serving;

pub use conversation::serve_requests;
pub use door::{Server, serve_door};
pub use request_handler::{MOST_REQUESTS, RequestHandler};
