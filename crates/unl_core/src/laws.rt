//! Theorems about tags, and about the revision that a token sees. Each function has an empty body; its `ensures`
//! clauses are the theorem.
ghost use Rattle.std.specs.Prelude.{◌≡◌, ℕ, Ok, Option};
ghost use Rattle.unl_core.specs.declared.board.Board.{Board};
ghost use Rattle.unl_core.specs.Histories.{AllRepresented, Histories, ShowsRevisions, both_see};
ghost use Rattle.unl_core.specs.Laws.{TagIsOfItsNumber, TagIsRead};
ghost use Rattle.unl_core.specs.Shown.{Ready, ready_by};
ghost use Rattle.unl_delta.specs.declared.batch.Batch.{Batch};
ghost use Rattle.unl_delta.specs.declared.batch.DeltaAnswer.TheVariants as answer;
ghost use Rattle.unl_delta.specs.Batch.{delta_answer};
ghost use Rattle.unl_delta.specs.History.{IsSent};
ghost use Rattle.unl_http_api.specs.declared.request.Request.{Request};
ghost use Rattle.unl_tokens.specs.declared.kind.Kind.{Kind};
ghost use Rattle.unl_tokens.specs.Names.{sees};

/// If a number is read from a tag, the tag is exactly the tag that is written for that number.
pub fn tag_is_of_its_number()
    ensures { TagIsOfItsNumber }
{}

/// A number below 2^64 is read back from the tag that is written for it.
pub fn tag_is_read()
    ensures { TagIsRead }
{}

/// An environment has a line of histories: for each epoch, the list of its changes. Assume that the version of each
/// slot is a revision of its environment's line: the state after the changes of one epoch up to some number. Then a
/// token sees one revision of that line, and each batch that the token gets is sent from that line. The revision
/// and the batch show only the projects that are visible both in the slot and to the token.
pub fn answers_show_one_revision()
    ensures state { (histories : Histories) (board : Board) → AllRepresented histories board.slots → ShowsRevisions histories board }
    ensures events { (histories : Histories) (board : Board) (q : Request) (kind : Kind) (ready : Ready) (since : Option ℕ) (batch : Batch)
        → AllRepresented histories board.slots → ready_by board q kind ≡ Ok ready
        → delta_answer ready.version since (sees ready.token.projects) ≡ answer.Batch batch
        → IsSent (histories.line ready.token.environment) (both_see histories ready) batch }
{}
