//! The network implementations of the traits of `unl_base`: a door ([`RealDoor`]) accepts connections at a port, a link
//! ([`RealLink`]) serves requests on one of them, and a peer ([`RealPeer`]) is the client side of a connection to a
//! server. One thread waits for all connections of a door. The door hands a connection out as a link once a whole
//! request was received, so that a slow client blocks no worker. An accept that fails with a temporary error is tried
//! again and counts as no fault. Each change of state (such as a server that becomes unreachable) is logged as one line
//! on the error stream. [`SystemDraws`] reads the system's clock and generates random words.
#![tactic(auto)]

mod buffers;
mod connection;
mod counts;
mod cuts;
mod door;
mod draws;
mod ending;
mod exchange;
mod limits;
mod link;
mod listener;
mod log;
mod moment;
mod peer;
mod peer_log;
mod phase;
mod reactor;
mod reports;
mod request_kind;
mod retrying;
mod served;
mod shared;
mod status_log;

pub use crate::door::RealDoor;
pub use crate::draws::SystemDraws;
pub use crate::link::RealLink;
pub use crate::log::Log;
pub use crate::peer::RealPeer;
