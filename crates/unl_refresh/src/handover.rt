//! Types for the contracts of a queue of metrics books; no value of them is created. They describe which books each
//! thread put into the queue and took from it, and the rule of the queue.

use crossbeam_queue::protocol::{Join, Lesson, Outcome, Protocol, Split};
use std::collections::LinkedList;
use unl_metrics::MetricsBook;

/// What a pass knows: the books that were put into a queue and taken from it with this pass. A pass is the right of one
/// thread to use a queue. This type is used only in contracts; no value of it is created.
pub struct Handover {
    /// The number of parts of this pass. All passes of a queue together have 2^64, so a pass with all of them knows
    /// every book that was put or taken. (In contracts this field is a natural number, so it can be 2^64.)
    pub parts: u64,
    /// The books that were put, in order.
    pub handed: LinkedList<MetricsBook>,
    /// The books that were taken, in order.
    pub taken: LinkedList<MetricsBook>,
}

/// The rule of a queue: the books that were put are those that were taken and those that wait, counted with
/// multiplicity.
pub struct ConservedBooks;

impl Protocol<MetricsBook, Handover> for ConservedBooks {
    ghost use Rattle.unl_refresh.specs.Conservation.{IsConserved};
    ghost use Rattle.unl_refresh.specs.Handovers.{first_handover};

    ghost holds = { IsConserved };

    ghost first = { first_handover };
}

/// The effect of putting a book: it is appended to the books that were put with the pass.
pub struct PutsBook;

impl Outcome<MetricsBook, Handover> for PutsBook {
    ghost use Rattle.std.specs.Prelude.{◌≡◌};
    ghost use Rattle.unl_refresh.specs.Handovers.{handing};

    ghost then = { λ v x w. w ≡ handing v x };
}

impl Lesson<MetricsBook, Handover> for PutsBook {
    ghost fact = { λ v items. Unit {0} };
}

/// The effect of taking a book: it is appended to the books that were taken with the pass.
pub struct TakesBook;

impl Outcome<MetricsBook, Handover> for TakesBook {
    ghost use Rattle.std.specs.Prelude.{◌≡◌};
    ghost use Rattle.unl_refresh.specs.Handovers.{taking};

    ghost then = { λ v x w. w ≡ taking v x };
}

impl Lesson<MetricsBook, Handover> for TakesBook {
    ghost fact = { λ v items. Unit {0} };
}

/// The fact about a pass with all parts: the books that were put are those that were taken and those that wait, counted
/// with multiplicity.
pub struct AllParts;

impl Lesson<MetricsBook, Handover> for AllParts {
    ghost use Rattle.std.specs.Prelude.{◌++◌};
    ghost use Rattle.unl_refresh.specs.Handovers.{SameBooks};

    ghost fact = { λ v items. SameBooks v.handed (v.taken ++ items) };
}

/// How the parts of a pass change: one part is split off as a new pass, or two passes become one.
pub struct Parts;

impl Split<Handover> for Parts {
    ghost use Rattle.unl_refresh.specs.Handovers.{less_a_part, new_handover};

    ghost left = { less_a_part };

    ghost right = { λ v. new_handover };
}

impl Join<Handover> for Parts {
    ghost use Rattle.unl_refresh.specs.Handovers.{both_handovers, empty_handover};

    ghost both = { both_handovers };

    ghost spent = { empty_handover };
}
