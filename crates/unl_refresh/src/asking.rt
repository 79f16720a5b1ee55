//! The requests of one turn: they refresh the token book (the tokens that the server knows) and the slots, and send
//! metrics. A `slot` is the index of an environment's slot on the board. The front is the number of publications so
//! far. A fault of the peer is not an error of these functions; their only error is out of memory.
ghost use Rattle.std.specs.Prelude.{◌≡◌, ◌≢◌, ◌<◌, ◌≤◌, ◌+◌, ◌-◌, ◌^◌, ℕ, Err, IsTrue, List, OnErr, OnOk, Option, length, map, set};
ghost use Rattle.unl_delta.specs.Installing.{Installed};
ghost use Rattle.unl_http_api.specs.RequestText.{fits_line};
ghost use Rattle.unl_metrics.specs.Book.{Book};
ghost use Rattle.unl_refresh.specs.Connects.{Connects};
ghost use Rattle.unl_refresh.specs.Exchange.{peer_view};
ghost use Rattle.unl_refresh.specs.SlotParameters.{parameters_of, tag_of};
ghost use Rattle.unl_refresh.specs.Turns.{ByResult, PollsSlot, PollsSlotsFrom, PublishesAtMostOnce, SendsMetrics, TakesBook, TakesSlot};
ghost use Rattle.unl_refresh.specs.Turns.{StopsAtBook, StopsAtSlot, StopsFrom, StopsRefreshing, StopsSending, poll_state, tag_at};

use crate::slot_poller::SlotPoller;
use crate::{RefreshFault, refresh_once, refresh_tokens, send_metrics};
use std::alloc::Global;
use unl_base::Peer;
use unl_delta::Installer;
use unl_documents::{List, Memory, Text};
use unl_metrics::MetricsBook;

/// Makes one request that asks which of the tokens with these texts the server knows, and publishes the book of the
/// known ones if it differs from the current book. Makes no request if the front is at its maximum, 2^64 - 1.
pub(crate) fn refresh_book<I: Installer, P: Peer>(
    alloc: Global,
    to: &mut I,
    known: &List<Text>,
    host: &Text,
    peer: &mut P,
) -> Result<(), Memory>
    requires { IsTrue (fits_line host.now) }
    ensures publishes_at_most_once { PublishesAtMostOnce (I.installed to.old) (I.installed to.new) }
    ensures asks { (I.installed to.old).front < 2 ^ 64 - 1 → OnOk result (Connects 1
        (P.state peer.old).replies (P.Source.faults peer.old) (P.state peer.new).replies (P.Source.faults peer.new)) }
    ensures connects { Connects 0
        (P.state peer.old).replies (P.Source.faults peer.old) (P.state peer.new).replies (P.Source.faults peer.new) }
    ensures polls { (I.installed to.old).front < 2 ^ 64 - 1 → (tags : List (Option (List ℕ))) (metrics : Book)
        → ByResult result (TakesBook known.now host.now) (StopsAtBook known.now host.now)
        (poll_state (I.installed to.old) tags metrics
        (peer_view (P.state peer.old) (P.Source.faults peer.old)))
        (poll_state (I.installed to.new) tags metrics
        (peer_view (P.state peer.new) (P.Source.faults peer.new))) }
{
    if to.front() == u64::MAX {
        return Ok(());
    }
    let kept = refresh_tokens(alloc, to, known, host.as_str(), peer);
    unless_memory(kept)
}

/// Makes one request for what is new in the environment of a slot, and applies the reply. Makes no request if the front
/// is at its maximum, 2^64 - 1.
fn refresh_slot<I: Installer, P: Peer>(
    alloc: Global,
    to: &mut I,
    slot: usize,
    slot_poller: &mut SlotPoller,
    peer: &mut P,
) -> Result<(), Memory>
    requires { slot < length (I.installed to.old).places }
    ensures publishes_at_most_once { PublishesAtMostOnce (I.installed to.old) (I.installed to.new) }
    ensures asks { (I.installed to.old).front < 2 ^ 64 - 1 → OnOk result (Connects 1
        (P.state peer.old).replies (P.Source.faults peer.old) (P.state peer.new).replies (P.Source.faults peer.new)) }
    ensures connects { Connects 0
        (P.state peer.old).replies (P.Source.faults peer.old) (P.state peer.new).replies (P.Source.faults peer.new) }
    ensures polls { (I.installed to.old).front < 2 ^ 64 - 1 → (tags : List (Option (List ℕ))) (metrics : Book)
        → ByResult result (TakesSlot slot (parameters_of slot_poller.old) (tag_of slot_poller.old))
        (StopsRefreshing slot (parameters_of slot_poller.old) (tag_of slot_poller.old))
        (poll_state (I.installed to.old) tags metrics
        (peer_view (P.state peer.old) (P.Source.faults peer.old)))
        (poll_state (I.installed to.new) (set tags slot (tag_of slot_poller.new)) metrics
        (peer_view (P.state peer.new) (P.Source.faults peer.new))) }
    ensures same { parameters_of slot_poller.new ≡ parameters_of slot_poller.old }
{
    if to.front() == u64::MAX {
        return Ok(());
    }
    let refreshed = refresh_once(alloc, to, slot, &mut slot_poller.ask, peer);
    unless_memory(refreshed)
}

/// Sends one report of the metrics of a slot's environment, if there are any.
fn send_slot_metrics<P: Peer>(
    alloc: Global,
    book: &mut MetricsBook,
    slot_poller: &SlotPoller,
    peer: &mut P,
) -> Result<(), Memory>
    ensures connects { Connects 0
        (P.state peer.old).replies (P.Source.faults peer.old) (P.state peer.new).replies (P.Source.faults peer.new) }
    ensures sends { (installed : Installed) (tags : List (Option (List ℕ)))
        → ByResult result (SendsMetrics (parameters_of slot_poller.now)) (StopsSending (parameters_of slot_poller.now))
        (poll_state installed tags book.old
        (peer_view (P.state peer.old) (P.Source.faults peer.old)))
        (poll_state installed tags book.new
        (peer_view (P.state peer.new) (P.Source.faults peer.new))) }
{
    let environment = slot_poller.environment.as_str();
    let (token, host) = (
        slot_poller.ask.token.as_str(),
        slot_poller.ask.host.as_str(),
    );
    let sent = send_metrics(alloc, book, environment, token, host, peer);
    unless_memory(sent)
}

/// Calls `refresh_slot`, and unless that fails, `send_slot_metrics`.
fn poll_slot<I: Installer, P: Peer>(
    alloc: Global,
    to: &mut I,
    book: &mut MetricsBook,
    slot: usize,
    slot_poller: &mut SlotPoller,
    peer: &mut P,
) -> Result<(), Memory>
    requires { slot < length (I.installed to.old).places }
    ensures publishes_at_most_once { PublishesAtMostOnce (I.installed to.old) (I.installed to.new) }
    ensures asks { (I.installed to.old).front < 2 ^ 64 - 1 → OnOk result (Connects 1
        (P.state peer.old).replies (P.Source.faults peer.old) (P.state peer.new).replies (P.Source.faults peer.new)) }
    ensures connects { Connects 0
        (P.state peer.old).replies (P.Source.faults peer.old) (P.state peer.new).replies (P.Source.faults peer.new) }
    ensures polls { (I.installed to.old).front < 2 ^ 64 - 1 → (tags : List (Option (List ℕ)))
        → tag_at tags slot ≡ tag_of slot_poller.old
        → ByResult result (PollsSlot slot (parameters_of slot_poller.old)) (StopsAtSlot slot (parameters_of slot_poller.old))
        (poll_state (I.installed to.old) tags book.old
        (peer_view (P.state peer.old) (P.Source.faults peer.old)))
        (poll_state (I.installed to.new) (set tags slot (tag_of slot_poller.new)) book.new
        (peer_view (P.state peer.new) (P.Source.faults peer.new))) }
    ensures same { parameters_of slot_poller.new ≡ parameters_of slot_poller.old }
{
    match refresh_slot(alloc, to, slot, slot_poller, peer) {
        Ok(()) => send_slot_metrics(alloc, book, slot_poller, peer),
        Err(Memory) => Err(Memory),
    }
}

/// Calls `poll_slot` for each slot that has a poller, in order, up to the first error.
pub(crate) fn poll_slots<I: Installer, P: Peer>(
    alloc: Global,
    to: &mut I,
    book: &mut MetricsBook,
    slot_pollers: &mut [SlotPoller],
    peer: &mut P,
) -> Result<(), Memory>
    ensures asks { (I.installed to.old).front + length slot_pollers.old < 2 ^ 64 - 1
        → length slot_pollers.old ≤ length (I.installed to.old).places
        → OnOk result (Connects (length slot_pollers.old)
        (P.state peer.old).replies (P.Source.faults peer.old) (P.state peer.new).replies (P.Source.faults peer.new)) }
    ensures connects { Connects 0
        (P.state peer.old).replies (P.Source.faults peer.old) (P.state peer.new).replies (P.Source.faults peer.new) }
    ensures polls { (I.installed to.old).front + length slot_pollers.old < 2 ^ 64 - 1
        → length slot_pollers.old ≤ length (I.installed to.old).places
        → ByResult result (PollsSlotsFrom 0 (map parameters_of slot_pollers.old)) (StopsFrom 0 (map parameters_of slot_pollers.old))
        (poll_state (I.installed to.old) (map tag_of slot_pollers.old) book.old
        (peer_view (P.state peer.old) (P.Source.faults peer.old)))
        (poll_state (I.installed to.new) (map tag_of slot_pollers.new) book.new
        (peer_view (P.state peer.new) (P.Source.faults peer.new))) }
    ensures same { map parameters_of slot_pollers.new ≡ map parameters_of slot_pollers.old }
{
    let count = to.slots().min(slot_pollers.len());
    for slot in 0..count {
        match poll_slot(alloc, to, book, slot, &mut slot_pollers[slot], peer) {
            Ok(()) => {}
            Err(Memory) => return Err(Memory),
        }
    }
    Ok(())
}

/// Returns `Memory` if the exchange ran out of memory. Drops every other result, including a fault of the peer.
fn unless_memory<T: Drop>(exchange: Result<T, RefreshFault>) -> Result<(), Memory>
    ensures ok { OnOk result (exchange ≢ Err RefreshFault.Memory) }
    ensures err { OnErr result (exchange ≡ Err RefreshFault.Memory) }
{
    match exchange {
        Ok(_) => Ok(()),
        Err(RefreshFault::PeerFault) => Ok(()),
        Err(RefreshFault::Memory) => Err(Memory),
    }
}
