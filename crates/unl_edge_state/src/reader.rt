//! A desk that looks at the published board for each request, and answers from that board.
ghost use Rattle.std.specs.Prelude.{max, ◌≡◌, ◌≤◌, true, is_some, unwrap_or, option_map, IfSome};
ghost use Rattle.std.specs.Prelude.{OnErr, OnOk, Some};
ghost use Rattle.std.specs.Result.{is_ok};
ghost use Rattle.unl_core.specs.declared.board.Install.{Install};
ghost use Rattle.unl_edge_state.specs.Editions.{BoardAt};
ghost use Rattle.unl_publication.specs.declared.knowledge.Knowledge.{Knowledge};
ghost use Rattle.unl_publication.specs.Looking.{SameOrigin, continues_from, remembers};
ghost use Rattle.unl_publication.specs.Rule.{knows_nothing};
ghost use Rattle.unl_publication.specs.Seen.{next, reported_front, reported_list};

use crate::edition::Edition;
use std::alloc::Global;
use unl_base::Draw;
use unl_core::{Answer, Desk, Install, answer};
use unl_documents::Memory;
use unl_http_api::Request;
use unl_publication::{Reader, Ruled};

/// A report of the writer at one moment, which one reader takes with `learn` or `learn_all`. The report has the number
/// of published installs (changes of the board) and, if there was room, the list of these installs.
pub type Told = unl_publication::Told<Edition, Install, Ruled<Install>>;

/// A desk that answers requests from the boards that one writer publishes. It looks at the published board once for
/// each answer, and never waits.
#[derive(Drop)]
pub struct EdgeReader {
    /// The `unl_publication` reader. The field is `None` only while a call passes this reader by value.
    pub(crate) seat: Option<Reader<Edition, Install, Ruled<Install>>>,
    ghost has_opening: { is_some (unwrap_or (option_map next seat) knows_nothing).opening ≡ true },
}

impl EdgeReader {
    ghost use Rattle.unl_edge_state.specs.Reading.{continuation_of, past_of, seen_by, learned_front_of};
    ghost use Rattle.unl_edge_state.specs.Reading.{StartsReader, IsNewReader};

    /// Creates a desk from a reader that knows the opening board.
    pub(crate) fn new(seat: Reader<Edition, Install, Ruled<Install>>) -> EdgeReader
        requires { is_some (next seat).opening ≡ true }
        ensures { result.seat ≡ Some seat }
    {
        EdgeReader { seat: Some(seat) }
    }

    /// Learns from `told`, which `tell` of the reader's own writer returned. Each later answer is from a board after at
    /// least as many installs as `told` counts. What the reader saw at its last look stays known. If `told` counts more
    /// installs than the reader knows, and has a list of them, the reader continues from that list: the next list that
    /// the reader takes starts with that list. Doesn't allocate.
    pub fn learn(&mut self, told: Told)
        requires origin { IfSome (reported_list told) (λ list. SameOrigin list (continuation_of self.old)) }
        ensures origin { SameOrigin (continuation_of self.new) (continuation_of self.old) }
        ensures least { learned_front_of self.new ≡ max (learned_front_of self.old) (reported_front told) }
        ensures seen { seen_by self.new ≡ seen_by self.old }
        ensures next { continuation_of self.new ≡ continues_from (reported_front told) (reported_list told) (continuation_of self.old) }
        ensures past { past_of self.new
            ≡ remembers (reported_front told) (reported_list told) (past_of self.old) (continuation_of self.old) }
    {
        let Some(mut seat) = self.seat.take() else {
            unreachable!()
        };
        seat.learn(told);
        self.seat = Some(seat);
    }

    /// Learns from `told` as `learn` does, but fails if `told` has no list. A reader of an orderly publication that
    /// knew the opening board and no installs, and never continued from a learned list, then continues from exactly the
    /// installs of the list in `told`. Doesn't allocate.
    ///
    /// # Errors
    ///
    /// `Memory` exactly if `told` has no list. Nothing is learned then.
    pub fn learn_all(&mut self, told: Told) -> Result<(), Memory>
        requires origin { IfSome (reported_list told) (λ list. SameOrigin list (continuation_of self.old)) }
        ensures list { is_ok result ≡ is_some (reported_list told) }
        ensures same { OnErr result (self.new ≡ self.old) }
        ensures origin { SameOrigin (continuation_of self.new) (continuation_of self.old) }
        ensures least { OnOk result (learned_front_of self.new ≡ max (learned_front_of self.old) (reported_front told)) }
        ensures seen { seen_by self.new ≡ seen_by self.old }
        ensures next { OnOk result (continuation_of self.new
            ≡ continues_from (reported_front told) (reported_list told) (continuation_of self.old)) }
        ensures past { OnOk result (past_of self.new
            ≡ remembers (reported_front told) (reported_list told) (past_of self.old) (continuation_of self.old)) }
        ensures begins { IsNewReader self.old → OnOk result ((list : Knowledge BoardAt Install) × (reported_list told ≡ Some list)
            × StartsReader list.opening list.installs self.new) }
    {
        if told.has_list() {
            self.learn(told);
            return Ok(());
        }
        Err(Memory)
    }
}

impl Desk for EdgeReader {
    ghost use Rattle.std.specs.Prelude.{◌≡◌, ◌≤◌, Some, [], ◌∷◌, IfOk, IfSome, OnErr};
    ghost use Rattle.unl_core.specs.declared.board.Board.{Board};
    ghost use Rattle.unl_core.specs.Answer.{answer_of};
    ghost use Rattle.unl_core.specs.Desk.{Keeps, Enters, EntersAtMostOnce};
    ghost use Rattle.unl_edge_state.specs.Editions.{board_known, edited};
    ghost use Rattle.unl_edge_state.specs.Orderly.{KeepsOrder};
    ghost use Rattle.unl_edge_state.specs.Reading.{ContinuesFrom, board_of, continuation_of, past_of, seen_by, learned_front_of};
    ghost use Rattle.unl_edge_state.specs.Continued.{continued_itself, continued_on};
    ghost use Rattle.unl_metrics.specs.Reports.{IsReport};
    ghost use Rattle.unl_publication.specs.Looking.{SameOrigin, StaysOrTakes};
    ghost use Rattle.unl_publication.specs.Meaning.{front_seen};
    ghost use Rattle.unl_publication.specs.Rule.{StartsWith};

    ghost front = { λ reader. front_seen (seen_by reader) };

    ghost board_at = { λ reader. board_of (seen_by reader) };

    ghost fronts = { λ reader. Some (seen_by reader).fronts };

    ghost continues = { λ reader. ContinuesFrom (past_of reader) (continuation_of reader) };

    /// Looks at the published board and answers the request from it. Returns the front of that board and the answer.
    ///
    /// # Errors
    ///
    /// `Memory` if the answer runs out of memory, if `left_right` (the crate that shares the board between the writer
    /// and the readers) refuses the look (it gives no cause), or if fewer installs led to the board than the reader has
    /// learned of.
    fn answer(
        &mut self,
        alloc: Global,
        request: &Request,
        draw: &Draw,
    ) -> Result<(u64, Answer), Memory>
        ensures front { IfOk result (λ a. a.0 ≡ front_seen (seen_by self.new)) }
        ensures answer { IfOk result (λ a. (board : Board) × (board_of (seen_by self.new) a.0 ≡ Some board)
            × (a.1 ≡ answer_of board request.now draw.entry.now)) }
        ensures report { IfOk result (λ a. IfSome a.1.report IsReport) }
        ensures rises { front_seen (seen_by self.old) ≤ front_seen (seen_by self.new) }
        ensures keeps { Keeps (board_of (seen_by self.old)) (board_of (seen_by self.new)) }
        ensures continues { ContinuesFrom (past_of self.old) (continuation_of self.old) self.new }
        ensures entered { IfOk result (λ a. Enters (Some (seen_by self.old).fronts) (a.0 ∷ []) (Some (seen_by self.new).fronts)) }
        ensures unanswered { OnErr result (EntersAtMostOnce (Some (seen_by self.old).fronts) (Some (seen_by self.new).fronts)) }

        // The answer is from the opening board after all installs of the list that the reader took in this look.
        ensures over { IfOk result (λ a. a.1 ≡ answer_of (board_known (seen_by self.new)) request.now draw.entry.now) }

        // If the publication is orderly, so is the list that the reader took: each version in the list results from the
        // slot's previous version, if there is one, by one batch that applies.
        ensures orderly { IfOk result (λ _. KeepsOrder (seen_by self.new)) }

        // The list that the reader took starts with the list that it continued from, and has at least as many installs
        // as the reader has learned of. The reader then continues from the list that it took. Whether it answered or
        // not, the publication, the opening board and the number of installs that it has learned of are unchanged.
        ensures list { IfOk result (λ _. StartsWith (seen_by self.new).installs (continuation_of self.old).installs) }
        ensures at_least_learned { IfOk result (λ a. learned_front_of self.old ≤ a.0) }
        ensures next { IfOk result (λ _. continuation_of self.new ≡ seen_by self.new) }
        ensures origin { SameOrigin (continuation_of self.new) (continuation_of self.old) }
        ensures same_learned_front { learned_front_of self.new ≡ learned_front_of self.old }

        // Whether the reader answered or not, what it continues from is unchanged, or the reader took a list.
        ensures stays_or_takes { StaysOrTakes edited (past_of self.old) (continuation_of self.old)
            (past_of self.new) (continuation_of self.new) }
    {
        let Some(seat) = self.seat.take() else {
            return Err(Memory);
        };
        match seat.enter() {
            Err(seat) => {
                self.seat = Some(seat);
                Err(Memory)
            }
            Ok(guard) => {
                let front = guard.front();
                let given = answer(alloc, guard.value().board(), request, draw);
                self.seat = Some(guard.leave());
                Ok((front, given?))
            }
        }
    }

    ghost continues_itself = { λ reader. continued_itself (past_of reader) (continuation_of reader) };

    ghost continues_on = { λ first next last. continued_on (past_of first) (past_of next) (past_of last)
        (continuation_of first) (continuation_of next) (continuation_of last) };
}
