//! A law on every input of the replay. It is the contract of a function that does nothing.
ghost use Rattle.std.specs.Prelude.{ℕ, List};
ghost use Rattle.unl_replay.specs.Delivery.{DeliversRevisions};

/// An ask is an input line with the request of a client. Each ask, up to the first line that is refused, is answered
/// from one revision of the environment of its token: the state after the changes of one epoch up to one number. The
/// law holds even if batches are lost, duplicated or out of order.
///
/// The law assumes that all batches and feeds of an environment were sent from the same histories: one history of
/// changes for each epoch, with rising epochs and with numbers that never fall within an epoch. Then at each ask,
/// every version on the board is a revision of its environment's histories, restricted to the projects that the
/// recipient of the batches sees, and the features that the ask's token sees are those of one revision.
pub fn asks_are_of_one_revision()
    ensures { (bytes : List ℕ) → DeliversRevisions bytes }
{}
