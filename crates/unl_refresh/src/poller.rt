//! The poller: in each of its turns it refreshes a board (the token book, and a slot for each environment) from an
//! upstream server, and sends metrics to that server.
ghost use Rattle.std.specs.Prelude.{◌≡◌, ◌<◌, ◌≤◌, ◌+◌, ◌-◌, ◌^◌, [], All, IfOk, IsTrue, OnOk, length};
ghost use Rattle.unl_http_api.specs.RequestText.{fits_line};
ghost use Rattle.unl_refresh.specs.Connects.{Connects};
ghost use Rattle.unl_refresh.specs.Exchange.{peer_view};
ghost use Rattle.unl_refresh.specs.MetricsQueues.{Merges};
ghost use Rattle.unl_refresh.specs.SlotParameters.{no_tags, slot_parameters};
ghost use Rattle.unl_refresh.specs.Turns.{ByResult, KeepsDuty, MakesTurn, StopsInTurn, poll_state};

use crate::MetricsReceiver;
use crate::asking::{poll_slots, refresh_book};
use crate::slot_poller::SlotPoller;
use crate::slot_pollers::slot_pollers;
use std::alloc::Global;
use std::marker::Model;
use std::sync::Wait;
use unl_base::Peer;
use unl_delta::Installer;
use unl_documents::{List, Memory, Text};
use unl_metrics::MetricsBook;

/// Keeps a board up to date with an upstream server. It has the environment and the request parameters of each slot of
/// the board, the texts of the tokens that the token book may contain, the server's `HOST:PORT`, and the metrics that
/// aren't sent yet.
#[derive(Drop)]
pub struct Poller {
    slot_pollers: Vec<SlotPoller>,
    known: List<Text>,
    upstream: Text,
    book: MetricsBook,
}

impl Model for Poller {
    ghost use Rattle.std.specs.Prelude.{IsTrue, length, map};
    ghost use Rattle.unl_http_api.specs.RequestText.{fits_line};
    ghost use Rattle.unl_refresh.specs.SlotParameters.{parameters_of, tag_of};
    ghost use Rattle.unl_refresh.specs.Turns.{Duty};

    ghost Value = { Duty };

    ghost view = { λ poller. record {
      known = poller.known;
      slots = length poller.slot_pollers.items;
      slot_pollers = map parameters_of poller.slot_pollers.items;
      upstream = poller.upstream;
      tags = map tag_of poller.slot_pollers.items;
      metrics = poller.book;
    } };

    ghost invariant = { λ poller. IsTrue (fits_line poller.upstream) };
}

impl Poller {
    /// Creates the poller of a board that has one slot for each of `upstream_tokens`. `environments` are the
    /// environments of the slots, in the same order. `upstream` is the server's `HOST:PORT`. `tokens` are the texts of
    /// the tokens that the token book may contain. With `delta` the requests are for events (changes of flags),
    /// otherwise for whole feeds (all flags). `upstream` and `upstream_tokens` must not contain CR, LF or NUL. The
    /// poller has no metrics yet.
    ///
    /// # Errors
    /// `Memory` if out of memory.
    pub fn new(
        alloc: Global,
        upstream: &Text,
        upstream_tokens: &List<Text>,
        environments: &List<Text>,
        tokens: &List<Text>,
        delta: bool,
    ) -> Result<Poller, Memory>
        requires upstream { IsTrue (fits_line upstream.now) }
        requires tokens { All (λ token. IsTrue (fits_line token)) upstream_tokens.now }
        requires environments { length environments.now ≡ length upstream_tokens.now }
        ensures { IfOk result (λ poller. poller ≡ record {
          known = tokens.now;
          slots = length upstream_tokens.now;
          slot_pollers = slot_parameters upstream.now delta upstream_tokens.now environments.now;
          upstream = upstream.now;
          tags = no_tags upstream_tokens.now;
          metrics = [];
        }) }
    {
        let slot_pollers = slot_pollers(alloc, upstream, upstream_tokens, environments, delta)?;
        let known = copies(alloc, tokens.as_slice())?;
        let upstream = Text::new(alloc, upstream.as_str())?;
        Ok(Poller {
            slot_pollers,
            known,
            upstream,
            book: MetricsBook::new(alloc),
        })
    }

    /// Makes one request for the token book and one for each slot, and publishes what is new in the replies. After each
    /// slot's request it sends one report of the metrics of the slot's environment, if there are any. A fault of the
    /// upstream doesn't end the turn. Slots that the board doesn't have are skipped. Once the number of publications is
    /// at its maximum, 2^64 - 1, only metrics are sent.
    ///
    /// # Errors
    /// `Memory` if out of memory. The turn ends then.
    pub fn turn<I: Installer, P: Peer>(
        &mut self,
        alloc: Global,
        to: &mut I,
        peer: &mut P,
    ) -> Result<(), Memory>
        // Of the poller, only the tags of the next requests and the metrics may change.
        ensures same { KeepsDuty self.old self.new }

        // If the board has all slots of the poller, and its front (the number of publications so far) stays below
        // 2^64 - 1 with one publication for the book and one for each slot: each exchange is made in order, with its
        // request and its effect, whether it got a reply or the peer failed. If memory runs out in an exchange, the
        // turn ends with that exchange.
        ensures polls { (I.installed to.old).front + self.old.slots + 1 < 2 ^ 64 - 1
            → self.old.slots ≤ length (I.installed to.old).places
            → ByResult result (MakesTurn self.old.known self.old.upstream self.old.slot_pollers)
            (StopsInTurn self.old.known self.old.upstream self.old.slot_pollers)
            (poll_state (I.installed to.old) self.old.tags self.old.metrics
            (peer_view (P.state peer.old) (P.Source.faults peer.old)))
            (poll_state (I.installed to.new) self.new.tags self.new.metrics
            (peer_view (P.state peer.new) (P.Source.faults peer.new))) }

        // So, under the same conditions, if memory did not run out and the peer did not fail, at least one connection
        // is made for each slot, and one for the book. In any case each connection uses up one reply, unless the peer
        // failed.
        ensures asks { (I.installed to.old).front + self.old.slots + 1 < 2 ^ 64 - 1
            → self.old.slots ≤ length (I.installed to.old).places → OnOk result (Connects (self.old.slots + 1)
            (P.state peer.old).replies (P.Source.faults peer.old) (P.state peer.new).replies (P.Source.faults peer.new)) }
        ensures connects { Connects 0
            (P.state peer.old).replies (P.Source.faults peer.old) (P.state peer.new).replies (P.Source.faults peer.new) }
    {
        match refresh_book(alloc, to, &self.known, &self.upstream, peer) {
            Ok(()) => poll_slots(alloc, to, &mut self.book, &mut self.slot_pollers, peer),
            Err(Memory) => Err(Memory),
        }
    }

    /// Adds the metrics book that the receiver holds, if any, and then those that wait in its queue, at most 64, to the
    /// metrics that aren't sent yet. The first book that doesn't fit, or that memory runs out for, is held by the
    /// receiver until the next call, and no further book is taken.
    pub fn take_metrics<W: Wait>(
        &mut self,
        alloc: Global,
        rt: &W,
        receiver: &mut MetricsReceiver<'_>,
    )
        ensures same { self.new ≡ record self.old { metrics = self.new.metrics } }
        ensures same_receiver { receiver.new ≡ record receiver.old { intake = receiver.new.intake } }
        ensures merges { Merges self.old.metrics receiver.old.intake self.new.metrics receiver.new.intake }
    {
        receiver.merge_into(alloc, rt, &mut self.book);
    }
}

/// Returns copies of the texts.
fn copies(alloc: Global, texts: &[Text]) -> Result<List<Text>, Memory>
    ensures { IfOk result (λ copies. copies ≡ texts.now) }
{
    let mut copies = List::new(alloc);
    for text in texts {
        copies.push(Text::new(alloc, text.as_str())?)?;
    }
    Ok(copies)
}
