//! The periodic task of an edge: it polls the upstream while the workers serve links.
use std::alloc::Global;
use std::sync::Wait;
use unl_base::Peer;
use unl_edge_state::EdgeWriter;
use unl_refresh::{MetricsReceiver, Poller};
use unl_workers::PeriodicTask;

/// In each turn, polls the upstream, publishes what the replies say, and sends the workers' metrics to the upstream.
#[derive(Drop)]
pub(crate) struct RefreshTask<'u, 'e, 'p, 'r, 'a, 'w, W: Wait, P> {
    /// Makes the requests of each turn, and has the metrics that are not sent yet.
    pub poller: &'u mut Poller,
    /// Publishes what the replies say.
    pub writer: &'e mut EdgeWriter<'w, W>,
    /// The upstream server.
    pub peer: &'p mut P,
    /// Takes the metrics books of the workers from their queue.
    pub receiver: &'r mut MetricsReceiver<'a>,
    /// The runtime, with which `receiver` waits while another thread is changing the queue.
    pub rt: &'a W,
}

impl<'u, 'e, 'p, 'r, 'a, 'w, W: Wait, P: Peer> PeriodicTask
    for RefreshTask<'u, 'e, 'p, 'r, 'a, 'w, W, P> {
    ghost use Rattle.std.specs.Prelude.{◌≡◌};
    ghost use Rattle.std.proofs.Common.{◌∙◌, ap, refl};
    ghost use Rattle.unl_edge.specs.Edges.{KeepsConnects};
    ghost use Rattle.unl_edge.specs.Polling.{KeepsReceiver, LaterTurn, SameWork, refreshing};
    ghost use Rattle.unl_edge_state.specs.Writing.{installed_by};
    ghost use Rattle.unl_refresh.specs.Exchange.{peer_view};
    ghost use Rattle.unl_refresh.specs.MetricsQueues.{Receiving};
    ghost use Rattle.unl_refresh.specs.Turns.{poll_state};

    ghost turned = { λ turn after. LaterTurn turn.poller.now
        (refreshing (poll_state (installed_by turn.writer.now) turn.poller.now.tags turn.poller.now.metrics
        (peer_view (P.state turn.peer.now) (P.Source.faults turn.peer.now))) turn.receiver.now.intake)
        (refreshing (poll_state (installed_by after.writer.now) after.poller.now.tags after.poller.now.metrics
        (peer_view (P.state after.peer.now) (P.Source.faults after.peer.now))) after.receiver.now.intake)
        × SameWork turn.poller.now after.poller.now };

    ghost keeps = { λ turn after. (after.poller.ghost_name ≡ turn.poller.ghost_name)
        × (after.writer.ghost_name ≡ turn.writer.ghost_name)
        × (after.peer.ghost_name ≡ turn.peer.ghost_name)
        × KeepsConnects (P.state turn.peer.now).replies (P.Source.faults turn.peer.now)
        (P.state after.peer.now).replies (P.Source.faults after.peer.now)
        × (after.receiver.ghost_name ≡ turn.receiver.ghost_name)
        × KeepsReceiver turn.receiver.now after.receiver.now };

    /// Takes the metrics of the workers first, so that this turn can send them to the upstream. A book that memory runs
    /// out for is kept for a later turn. If memory runs out in an exchange, the turn ends early. That is not reported,
    /// and later turns are made as usual.
    fn turn(&mut self, alloc: Global) {
        self.poller.take_metrics(alloc, self.rt, self.receiver);
        let _ = self.poller.turn(alloc, self.writer, self.peer);
    }

    ghost keeps_itself = { λ turn. (refl, refl, refl, (λ first faults connects. connects), refl, refl) };

    ghost keeps_on = { λ first next last one two. (
      two.0 ∙ one.0,
      two.1 ∙ one.1,
      two.2 ∙ one.2,
      (λ replies faults connects. two.3 replies faults (one.3 replies faults connects)),
      two.4 ∙ one.4,
      two.5 ∙ ap (λ (r : Receiving). record r { intake = last.receiver.now.intake }) one.5,
    ) };
}
