//! Readers of the published value. Each change of the value is one install. The library `left_right` keeps two copies
//! of the value, so that a reader never waits.
ghost use Rattle.std.specs.Prelude.{max, ◌≡◌, ◌≤◌, ◌<◌, true, IfOk, IfErr, IfSome, MatchResult, Some, None, is_some, option_map, fold};
ghost use Rattle.std.specs.Prelude.{length};
ghost use Rattle.crossbeam_utils.specs.Register.{Turns};
ghost use Rattle.left_right.specs.Sides.{view};
ghost use Rattle.unl_publication.specs.Rule.{KnowsAllowed, Enters};
ghost use Rattle.unl_publication.specs.Meaning.{known, before_of, front_seen, value_at};
ghost use Rattle.unl_publication.specs.Looking.{AreBothAllowed, IsBetweenLooks, IsLooking, SameOrigin, Shows, Takes};
ghost use Rattle.unl_publication.specs.Looking.{Follows, LooksBelow, StaysOrTakes, continues_from, remembers};

use crate::knowledge::Knowledge;
use crate::rule::{Enter, Past, Rules};
use crate::value::Counted;
use crate::writer::Told;
use left_right::reader::{Reader as Seat, Reading};
use std::marker::Brand;
use std::snapshot::Snapshot;

/// A reader that is not looking at the value.
#[derive(Drop)]
pub struct Reader<T: Counted<I> + Drop, I: Drop, P: Rules<T, I>> {
    /// The `left_right` reader. Its knowledge is the list that this reader continues from.
    pub(crate) seat: Seat<T, Knowledge<T::State, I>, P>,
    /// A ghost copy of `seat` as it was at the last look, if the reader has learned a longer list since.
    pub(crate) past: Option<Snapshot<Seat<T, Knowledge<T::State, I>, P>>>,
    /// The number of installs that the reader knows.
    pub(crate) front: u64,
    /// The largest number of installs in the reports that the reader has learned. A look shows no value with fewer.
    pub(crate) least: u64,
    ghost counted: { front ≡ length (view seat.place).installs },
    ghost between_looks: { ∥ IsBetweenLooks (option_map (λ s. view s.value.place) past) (view seat.place) ∥₁ },
    ghost allowed: { ∥ AreBothAllowed T.applied T.allows (option_map (λ s. view s.value.place) past) (view seat.place) ∥₁ },
}

/// A reader that is looking at the value. It isn't `Drop`: end the look with `leave`.
pub struct Guard<T: Counted<I> + Drop, I: Drop, P: Rules<T, I>> {
    /// The `left_right` look, which shows one copy of the value.
    pub(crate) reading: Reading<T, Knowledge<T::State, I>, P>,
    /// The number of installs that the value has absorbed.
    pub(crate) front: u64,
    /// The largest number of installs in the reports that the reader had learned when it looked.
    pub(crate) least: u64,
    ghost counted: { front ≡ length (view reading.place).installs },
    ghost shows: { ∥ Shows T.applied T.front_of (T.state reading.part.value) (view reading.place) ∥₁ },
    ghost is_looking: { ∥ IsLooking (view reading.place) ∥₁ },
    ghost allowed: { ∥ KnowsAllowed T.applied T.allows (view reading.place) ∥₁ },
}

impl<T: Counted<I> + Drop, I: Drop, P: Rules<T, I>> Reader<T, I, P> {
    ghost use Rattle.unl_publication.specs.Seen.{next, past, seen, taken, reported_front, reported_list};
    ghost use Rattle.unl_publication.specs.Seen.{learned_front, learned_front_at_look};

    /// Learns from `told`, which the writer's `tell` returned. From then on `enter` shows no value with fewer installs
    /// than `told` counts. What the reader knew stays known. If `told` counts more installs than the reader knows, and
    /// has their list, the next list that the reader takes starts with that list.
    pub fn learn(&mut self, told: Told<T, I, P>)
        requires origin { IfSome (reported_list told) (λ list. SameOrigin list (next self.old)) }
        ensures origin { SameOrigin (next self.new) (next self.old) }
        ensures least { learned_front self.new ≡ max (learned_front self.old) (reported_front told) }
        ensures seen { seen self.new ≡ seen self.old }
        ensures next { next self.new ≡ continues_from (reported_front told) (reported_list told) (next self.old) }
        ensures past { past self.new ≡ remembers (reported_front told) (reported_list told) (past self.old) (next self.old) }
    {
        let Told { seat, front } = told;
        self.least = self.least.max(front);
        if front <= self.front {
            return;
        }
        if let Some(seat) = seat {
            let past = last_look(self.past.take(), &self.seat);
            self.past = Some(past);
            self.seat = seat;
            self.front = front;
        }
    }

    /// Takes the list of installs that is published now, and looks at the value after it. Never waits.
    ///
    /// # Errors
    ///
    /// Returns the reader if `left_right` refused the look (it gives no cause), or if the value has fewer installs than
    /// the reader has learned of.
    pub fn enter(self) -> Result<Guard<T, I, P>, Reader<T, I, P>>
        ensures least { MatchResult result
            (λ guard. (learned_front self ≤ front_seen (taken guard)) × (learned_front_at_look guard ≡ learned_front self))
            (λ reader. learned_front reader ≡ learned_front self) }
        ensures origin { MatchResult result
            (λ guard. SameOrigin (taken guard) (next self))
            (λ reader. SameOrigin (next reader) (next self)) }
        ensures takes { IfOk result (λ guard. Takes T.applied (past self) (next self) (taken guard)) }
        ensures allowed { IfOk result (λ guard. KnowsAllowed T.applied T.allows (taken guard)) }
        ensures follows { MatchResult result
            (λ guard. Follows T.applied (seen self) (taken guard))
            (λ reader. Follows T.applied (seen self) (seen reader)) }
        ensures refused { IfErr result (λ reader. LooksBelow (learned_front self) (seen self) (seen reader)) }
        ensures kept { IfErr result (λ reader. StaysOrTakes T.applied (past self) (next self) (past reader) (next reader)) }
    {
        let Reader {
            seat,
            past,
            front,
            least,
        } = self;
        match enter_past::<T, I, P, Brand>(seat, &past) {
            Ok(reading) => {
                let front = reading.get().front();
                let guard = Guard {
                    reading,
                    front,
                    least,
                };
                if front < least {
                    return Err(guard.leave());
                }
                Ok(guard)
            }
            Err(seat) => Err(Reader {
                seat,
                past,
                front,
                least,
            }),
        }
    }
}

// The `left_right` reader as it was at the last look: `past` if there is one, otherwise `seat` as it is now.
fn last_look<T: Counted<I> + Drop, I: Drop, P: Rules<T, I>>(
    past: Option<Snapshot<Seat<T, Knowledge<T::State, I>, P>>>,
    seat: &Seat<T, Knowledge<T::State, I>, P>,
) -> Snapshot<Seat<T, Knowledge<T::State, I>, P>>
    ensures { view result.value.place ≡ known (option_map (λ s. view s.value.place) past) (view seat.now.place) }
{
    match past {
        Some(past) => past,
        None => Snapshot::of(seat),
    }
}

// Starts a look. Only the contract uses `past`, which says what the reader knew at its last look.
fn enter_past<T: Counted<I> + Drop, I: Drop, P: Rules<T, I>, K: Past<T::State>>(
    seat: Seat<T, Knowledge<T::State, I>, P>,
    past: &Option<Snapshot<Seat<T, Knowledge<T::State, I>, P>>>,
) -> Result<Reading<T, Knowledge<T::State, I>, P>, Seat<T, Knowledge<T::State, I>, P>>
    requires before { K.before ≡ before_of T.applied (option_map (λ s. view s.value.place) past.now) (view seat.place) }
    requires fronts { K.fronts ≡ (known (option_map (λ s. view s.value.place) past.now) (view seat.place)).fronts }
    requires rule { Turns P.holds seat.place.id (view seat.place) (λ x. x)
        (λ v x _ w. Enters T.applied T.front_of T.allows K.before K.fronts (T.state x) v w) }
    ensures { MatchResult result
        (λ r. Enters T.applied T.front_of T.allows (before_of T.applied (option_map (λ s. view s.value.place) past.now) (view seat.place))
        (known (option_map (λ s. view s.value.place) past.now) (view seat.place)).fronts
        (T.state r.part.value) (view seat.place) (view r.place))
        (λ r. view r.place ≡ view seat.place) }
{
    let _known = past;
    seat.enter_as::<Enter<K>>()
}

impl<T: Counted<I> + Drop, I: Drop, P: Rules<T, I>> Guard<T, I, P> {
    ghost use Rattle.unl_publication.specs.Seen.{next, past, taken, learned_front, learned_front_at_look};

    /// The number of installs that the value has absorbed.
    pub fn front(&self) -> u64
        ensures { result ≡ front_seen (taken self.now) }
    {
        self.front
    }

    /// The value that the look shows: the opening value after the installs of the list that was taken.
    pub fn value(&self) -> &T
        ensures list { (opening : T.State) → (taken self.now).opening ≡ Some opening
            → T.state result.now ≡ fold T.applied opening (taken self.now).installs }
        ensures value { is_some (taken self.now).opening ≡ true
            → value_at T.applied (taken self.now) (front_seen (taken self.now)) ≡ Some (T.state result.now) }
    {
        self.reading.get()
    }

    /// Ends the look. The reader still knows what it saw.
    pub fn leave(self) -> Reader<T, I, P>
        ensures past { past result ≡ None }
        ensures least { learned_front result ≡ learned_front_at_look self }
        ensures same { next result ≡ taken self }
    {
        let Guard {
            reading,
            front,
            least,
        } = self;
        Reader {
            seat: reading.leave(),
            past: None,
            front,
            least,
        }
    }
}
