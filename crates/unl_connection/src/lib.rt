//! Serves one connection: reads its requests from a link, gets the answer to each from a desk (which answers from the
//! published environments and tokens), notes the answered requests in [`Served`], and sends the replies in order. Here
//! a connection is what one link gives and takes: what a client keeps open may be several links, one after another.
#![tactic(auto)]

mod by_desk;
mod serve;
mod served;

pub use serve::serve_connection;
pub use served::{Served, ServedOne};
