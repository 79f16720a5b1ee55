//! Laws of boards, lists of installs and readers. Each function here has a law as its contract, and does nothing at run
//! time. A caller calls the function to have the law in a proof. A reader that learns a list longer than its own
//! continues from the learned list: this list replaces the reader's own, and the list of its next look starts with it.
ghost use Rattle.std.specs.Prelude.{◌≡◌, ◌≤◌, ℕ, List, IfSome, Option, Some, length, map, take, true};
ghost use Rattle.unl_core.specs.declared.board.Board.{Board};
ghost use Rattle.unl_core.specs.declared.board.Install.{Install};
ghost use Rattle.unl_core.specs.Board.{board_after, empty_slot};
ghost use Rattle.unl_core.specs.DeskStates.{snapshot_at};
ghost use Rattle.unl_delta.specs.History.{Era, IsLine, IsNotBelow};
ghost use Rattle.unl_delta.specs.View.{Sees};
ghost use Rattle.unl_edge_state.specs.Editions.{BoardAt, edited};
ghost use Rattle.unl_edge_state.specs.Histories.{AlwaysRepresented, SeesRevisions, SlotComesFromLine, SlotRepresented};
ghost use Rattle.unl_edge_state.specs.Orderly.{IsOrderly, is_orderly};
ghost use Rattle.unl_edge_state.specs.Reading.{ContinuedFromOpening, IsOfList, IsSteady, SeesInOrder, board_of, seen_by};
ghost use Rattle.unl_edge_state.specs.Reading.{AnswersAfter, StartsReader, ContinuesFrom, continuation_of, past_of};
ghost use Rattle.unl_edge_state.specs.declared.reader.EdgeReader.{EdgeReader};
ghost use Rattle.unl_publication.specs.Looking.{StaysOrTakes};
ghost use Rattle.unl_publication.specs.declared.knowledge.Knowledge.{Knowledge};

/// `known` is what a reader knows. Suppose that the reader never continued from a learned list, or only when it knew no
/// board but the opening board (as a worker's reader does before its first look). Then the board that is known at each
/// front `k`, up to the number of known installs, is the opening board after the first `k` known installs.
pub fn boards_are_after_installs()
    ensures { (known : Knowledge BoardAt Install) (opening : BoardAt) (k : ℕ) → known.opening ≡ Some opening
        → ContinuedFromOpening opening known → k ≤ length known.installs
        → board_of known k ≡ Some (board_after opening.board (take k known.installs)) }
{}

/// Along an orderly list of installs (each version in it results from the slot's previous version, if there is one, by
/// one batch that applies), the version at a slot never becomes older, and a slot that has a version keeps one.
pub fn versions_never_fall()
    ensures { (board : Board) (list : List Install) (j k slot : ℕ) → IsOrderly board list → j ≤ k
        → IsNotBelow (snapshot_at (board_after board (take j list)).slots slot) (snapshot_at (board_after board (take k list)).slots slot) }
{}

/// Take two boards that a reader of an orderly publication knew at its last look. Suppose that `IsOfList` is true of
/// the smaller front `j`, so the board at `j` is the opening board after the first `j` installs of the list that the
/// reader last saw. Then the board at the larger front has no older version at any slot, and has a version at each slot
/// where the other board has one.
pub fn readers_see_order()
    ensures { (reader : EdgeReader) (opening : BoardAt) (j k slot : ℕ) (first later : Board) → (seen_by reader).opening ≡ Some opening
        → is_orderly (seen_by reader) ≡ true → IsOfList opening (seen_by reader) j → j ≤ k
        → board_of (seen_by reader) j ≡ Some first → board_of (seen_by reader) k ≡ Some later
        → IsNotBelow (snapshot_at first.slots slot) (snapshot_at later.slots slot) }
{}

/// Take a reader of an orderly publication that never continued from a learned list, or only when it knew no board but
/// the opening board. The list that the reader last saw is orderly. Of any two boards that the reader knew at its last
/// look, the board at the larger front has no older version at any slot, and has a version at each slot where the other
/// board has one.
pub fn steady_readers_see_in_order()
    ensures { (reader : EdgeReader) → IsSteady reader → SeesInOrder reader }
{}

/// `line` is a list of histories of an environment, `sees` says which projects are visible, and `known` is what a
/// reader knows. `SlotRepresented` is true of a board if the slot has no version, or if its version has the state of a
/// revision of `line` and the latest changes that led to that state, both without the features of projects that aren't
/// visible. Suppose that `SlotRepresented` is true of the opening board and of the board after each known install, and
/// that the reader never continued from a learned list, or only when it knew no board but the opening board. Then
/// `SlotRepresented` is true of the board that is known at each front up to the number of known installs.
pub fn boards_represent_lines()
    ensures { (line : List Era) (sees : Sees) (slot : ℕ) (known : Knowledge BoardAt Install) (opening : BoardAt) (k : ℕ)
        → known.opening ≡ Some opening → ContinuedFromOpening opening known → k ≤ length known.installs
        → AlwaysRepresented line sees slot known
        → IfSome (board_of known k) (SlotRepresented line sees slot) }
{}

/// `line` is a line of histories of an environment (`IsLine`), and `sees` says which projects are visible. Suppose that
/// each version that was installed at a slot since the opening board resulted from the slot's version before it by one
/// batch that applies and that can be sent from `line`. `SlotComesFromLine` says so, and also that `SlotRepresented` is
/// true of the opening board. Clause `always`: then `SlotRepresented` is true of the board after each known install.
/// Clause `boards`: so it is true of each board that the reader knows, if the reader never continued from a learned
/// list, or only when it knew no board but the opening board. Clause `empty`: of a board whose slots have no version
/// yet, `SlotRepresented` is true for any line.
pub fn sent_boards_represent_lines()
    ensures always { (line : List Era) (sees : Sees) (slot : ℕ) (known : Knowledge BoardAt Install) → IsLine line
        → IfSome known.opening (λ opening. SlotComesFromLine line sees slot opening known.installs)
        → AlwaysRepresented line sees slot known }
    ensures boards { (line : List Era) (sees : Sees) (slot : ℕ) (known : Knowledge BoardAt Install) (opening : BoardAt) (k : ℕ)
        → IsLine line → known.opening ≡ Some opening → ContinuedFromOpening opening known → k ≤ length known.installs
        → SlotComesFromLine line sees slot opening known.installs → IfSome (board_of known k) (SlotRepresented line sees slot) }
    ensures empty { (line : List Era) (sees : Sees) (slot : ℕ) (board : Board) (environments : List (List ℕ))
        → board.slots ≡ map empty_slot environments → SlotRepresented line sees slot board }
{}

/// `ContinuesFrom` relates an earlier state of a reader to a later one. The opening board is the same in both, and so
/// are the boards that the reader knew before it continued from a learned list. The later list of installs starts with
/// the earlier list. `past_of` (what the reader knew at its last look, if it has continued from a learned list since)
/// is the same in both, or `None` in the later state. Clause `itself`: each state is related to itself. Clause `look`:
/// if an earlier state is related to the present state, it is also related to the state after one more look, even a
/// look that failed.
pub fn looks_continue()
    ensures itself { (reader : EdgeReader) → ContinuesFrom (past_of reader) (continuation_of reader) reader }
    ensures look { (past : Option (Knowledge BoardAt Install)) (now : Knowledge BoardAt Install) (before after : EdgeReader)
        → StaysOrTakes edited (past_of before) (continuation_of before) (past_of after) (continuation_of after)
        → ContinuesFrom past now before → ContinuesFrom past now after }
{}

/// A reader learned the list `installs` when it knew no board but the opening board, and has only looked since. The
/// state of the reader was `reader` then and is `later` now. If the list that the reader last saw has at least as many
/// installs as `installs`, that list starts with `installs`. If the opening board is known, each board that the reader
/// knew at its last look, at a front of at least the number of these installs, is the opening board after a list that
/// starts with `installs`. Before its last look, the reader never continued from a learned list, or only when it knew
/// no board but the opening board.
pub fn answers_are_after_installs()
    ensures { (edition : Option BoardAt) (installs : List Install) (reader later : EdgeReader) → StartsReader edition installs reader
        → ContinuesFrom (past_of reader) (continuation_of reader) later → AnswersAfter edition installs later }
{}

/// Take a reader that learned a list when it knew no board but the opening board, and has only looked since. Suppose
/// that `SlotRepresented` is true of the opening board for a slot and a line, and that each version installed at the
/// slot since then, in the list that the reader last saw, came by a batch that can be sent from the line. Then each
/// board that the reader has seen has a revision of the line at the slot, or no version yet. If this is so for each
/// slot and the line of its environment, then each token sees one revision on each of these boards.
pub fn readers_see_revisions()
    ensures { (edition : Option BoardAt) (installs : List Install) (reader : EdgeReader) → AnswersAfter edition installs reader
        → SeesRevisions edition reader }
{}
