//! What a connection waits for while no link serves it (reads its requests and sends the replies). Received bytes are
//! refused if no valid request begins with them, whatever follows.
ghost use Rattle.std.specs.Prelude.{◌≡◌, true, false};
ghost use Rattle.unl_net.specs.Phases.{limit_of, phase_of, waits};
ghost use Rattle.unl_net.specs.declared.phase.Phase.TheVariants.{Over, Ready};

/// What a connection waits for.
#[derive(Clone, Copy, PartialEq)]
pub(crate) enum Phase {
    /// The next request, of which nothing was received yet.
    Idle,
    /// The rest of a request.
    Receiving,
    /// A link to serve it: a whole request was received, or bytes that are refused.
    Ready,
    /// The client, to take the rest of a reply.
    Sending,
    /// The client, to shut down its side after the last reply.
    Draining,
    /// Nothing: the connection is over.
    Over,
}

/// The facts that decide what a connection waits for.
#[derive(Clone, Copy)]
pub(crate) struct Facts {
    /// A whole request was received, or bytes that are refused.
    pub asked: bool,
    /// A byte was received that no link has read.
    pub began: bool,
    /// A byte of a reply is still to be sent.
    pub owes: bool,
    /// The connection is to be closed once all bytes are sent.
    pub closing: bool,
    /// The client has shut down its side.
    pub ended: bool,
}

/// What a connection with these facts waits for.
pub(crate) fn phase_of(known: Facts) -> Phase
    ensures exact { result ≡ phase_of known }

    // No client is cut off: a connection is over only if its client has shut down its side and no reply is on its way.
    ensures over { result ≡ Over → (known.ended ≡ true) × (known.owes ≡ false) }

    // A whole request is served once the earlier replies are sent, whatever the client does after it, unless the
    // connection is to be closed.
    ensures served { known.asked ≡ true → known.owes ≡ false → known.closing ≡ false → result ≡ Ready }
{
    if known.owes {
        Phase::Sending
    } else if known.closing {
        if known.ended {
            Phase::Over
        } else {
            Phase::Draining
        }
    } else if known.asked {
        Phase::Ready
    } else if known.ended {
        Phase::Over
    } else if known.began {
        Phase::Receiving
    } else {
        Phase::Idle
    }
}

impl Phase {
    /// Whether a connection in this phase waits for its client.
    pub fn waits(self) -> bool
        ensures { result ≡ waits self }
    {
        match self {
            Phase::Ready | Phase::Over => false,
            _ => true,
        }
    }

    /// For how many seconds a connection in this phase may wait for its client (chosen by this project). The time
    /// begins again when bytes are sent. 0 if the connection doesn't wait for its client.
    pub fn limit(self) -> u64
        ensures { result ≡ limit_of self }
    {
        match self {
            Phase::Idle => 75,
            Phase::Receiving => 30,
            Phase::Sending => 30,
            Phase::Draining => 2,
            Phase::Ready => 0,
            Phase::Over => 0,
        }
    }
}
