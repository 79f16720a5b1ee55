//! Keeps a board up to date with a server. A board has one slot for each environment. One exchange takes a batch of
//! events or a whole feed for a slot ([`refresh_once`]), takes a token book for the board ([`refresh_tokens`]), or
//! sends a bulk report of metrics ([`send_metrics`]). A [`Poller`] makes all these exchanges in each of its turns.
//! Threads hand over what they count ([`MetricsSender`]) to the poller's thread ([`MetricsReceiver`]), through a queue
//! ([`MetricsQueue`]). The contract of [`MetricsReceiver::all_counted`] says that each book that was handed over was
//! taken once or still waits.
#![tactic(auto)]

mod ask;
mod asking;
mod batches;
mod crossing;
mod exchange;
mod handover;
pub mod laws;
mod metrics;
mod metrics_queue;
mod metrics_receiver;
mod metrics_sender;
mod outcome;
mod poller;
mod refreshing;
mod slot_poller;
mod slot_pollers;
mod taking;
mod texts;
mod tokens;

pub use crate::ask::Ask;
pub use crate::crossing::metrics_ends_are_send;
pub use crate::handover::Handover;
pub use crate::metrics::send_metrics;
pub use crate::metrics_queue::{MetricsPass, MetricsQueue};
pub use crate::metrics_receiver::MetricsReceiver;
pub use crate::metrics_sender::MetricsSender;
pub use crate::outcome::{Bad, MetricsOutcome, Outcome, RefreshFault};
pub use crate::poller::Poller;
pub use crate::refreshing::refresh_once;
pub use crate::slot_poller::first_ask;
pub use crate::tokens::refresh_tokens;
