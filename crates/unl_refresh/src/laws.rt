//! A theorem about turns of a poller. The function has an empty body; its `ensures` clauses are the theorem.
ghost use Rattle.std.specs.Prelude.{ℕ, List};
ghost use Rattle.unl_refresh.specs.Delivery.{AreSlotLines, HasRevisions, SlotLines, StoppedTurnReceivesSent, TurnReceivesSent};
ghost use Rattle.unl_refresh.specs.SlotParameters.{SlotParameters};
ghost use Rattle.unl_refresh.specs.Turns.{MakesTurn, PollState, StopsInTurn};

/// A line has the history of changes of an environment in each of several rising epochs. Suppose that before a turn each
/// slot's version and each published version represents the line of its slot, and that each batch received in the turn
/// was sent from the line of the slot that it was received for. Then the same is true after the turn, also of the
/// versions that were published in it. This also holds for a turn that ended early because memory ran out.
pub fn turns_publish_revisions()
    ensures made { (lines : SlotLines) (texts : List (List ℕ)) (host : List ℕ) (parameters : List SlotParameters)
        (before after : PollState) (turn : MakesTurn texts host parameters before after) → AreSlotLines lines
        → TurnReceivesSent lines texts host parameters before after turn → HasRevisions lines before.installed
        → HasRevisions lines after.installed }
    ensures stopped { (lines : SlotLines) (texts : List (List ℕ)) (host : List ℕ) (parameters : List SlotParameters)
        (before after : PollState) (turn : StopsInTurn texts host parameters before after) → AreSlotLines lines
        → StoppedTurnReceivesSent lines texts host parameters before after turn → HasRevisions lines before.installed
        → HasRevisions lines after.installed }
{}
