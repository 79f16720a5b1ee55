//! The writer of the published value, and what it reports for a reader to learn. Each change of the value is one
//! install. The library `left_right` keeps two copies of the value: the writer changes one while readers see the other.
ghost use Rattle.std.specs.Prelude.{◌≡◌, ◌^◌, ◌<◌, false, [], ◌∷◌, ℕ, length, drop, fold};
ghost use Rattle.std.specs.Prelude.{IfOk, IfSome, IsErr, MatchResult, OnOk};
ghost use Rattle.std.specs.Prelude.{true, Some, is_some};
ghost use Rattle.crossbeam_utils.specs.Register.{Admits, Forks, TurnsAt};
ghost use Rattle.left_right.specs.Sides.{view};
ghost use Rattle.unl_publication.specs.Rule.{AreAllowed, KnowsAllowed, MayPublish, Opens, Publishes};
ghost use Rattle.unl_publication.specs.Rule.{knows_opening, shared_knowledge, with_installs};
ghost use Rattle.unl_publication.specs.Looking.{Shows};
ghost use Rattle.unl_publication.specs.Meaning.{front_seen};

use crate::knowledge::Knowledge;
use crate::rule::{AtTable, Given, Learn, Open, Publish, Rules, Tell};
use crate::value::Counted;
use crossbeam_utils::rule::Outcome;
use left_right::reader::Reader as Seat;
use left_right::writer::Writer as Sides;
use std::alloc::{AllocError, Global};
use std::marker::Brand;
use std::sync::Wait;

/// The writer of the published value. It isn't `Drop`: close it with `end`.
pub struct Writer<T: Counted<I> + Drop, I: Drop, P: Rules<T, I>> {
    /// The `left_right` writer, with both copies of the value.
    pub(crate) sides: Sides<T, I, Knowledge<T::State, I>, P>,
    /// Whether a publication failed after its install was appended to the log of `left_right`. Every later publication
    /// then fails.
    pub(crate) refused: bool,
    ghost shows: { ∥ Shows T.applied T.front_of (T.state sides.desk.shown.value) (view sides.desk.place) ∥₁ },
    ghost clear: { refused ≡ false → drop sides.behind sides.log.items ≡ [] },
    ghost begun: { is_some (view sides.desk.place).opening ≡ true },
    ghost allowed: { ∥ KnowsAllowed T.applied T.allows (view sides.desk.place) ∥₁ },
}

/// A report of the writer at one moment, for one reader to learn: the number of published installs and, if there was
/// room for it, their list.
#[derive(Drop)]
pub struct Told<T: Counted<I> + Drop, I: Drop, P: Rules<T, I>> {
    /// A reader that knows what the writer knew, if there was room for one more.
    pub(crate) seat: Option<Seat<T, Knowledge<T::State, I>, P>>,
    /// The number of installs that the writer knew.
    pub(crate) front: u64,
    ghost counted: { ∥ IfSome seat (λ r. length (view r.place).installs ≡ front) ∥₁ },
    ghost allowed: { ∥ IfSome seat (λ r. KnowsAllowed T.applied T.allows (view r.place)) ∥₁ },
}

impl<T: Counted<I> + Drop, I: Drop, P: Rules<T, I>> Told<T, I, P> {
    ghost use Rattle.unl_publication.specs.Seen.{reported_list};

    /// Whether the report has the list of installs, and not only its length.
    pub fn has_list(&self) -> bool
        ensures { result ≡ is_some (reported_list self.now) }
    {
        match &self.seat {
            Some(_) => true,
            None => false,
        }
    }
}

impl<T: Counted<I> + Drop, I: Drop, P: Rules<T, I>> Writer<T, I, P> {
    ghost use Rattle.unl_publication.specs.Seen.{is_closed, reported_front, reported_list, written};

    /// Creates a writer over two copies of the opening value, whose front is 0, with room for `readers` readers (1 to
    /// 2^32 - 1). The writer knows the opening value.
    ///
    /// # Errors
    ///
    /// Fails if it runs out of memory.
    pub fn new<W: Wait>(
        rt: &W,
        alloc: Global,
        first: T,
        second: T,
        readers: usize,
    ) -> Result<Writer<T, I, P>, AllocError>
        requires readers { (0 < readers) × (readers < 2 ^ 32) }
        requires alike { T.state first ≡ T.state second }
        requires begins { T.front_of (T.state first) ≡ 0 }
        ensures opening { IfOk result (λ writer. (table : ℕ) × (written writer ≡ knows_opening table (T.state first))) }
        ensures open { IfOk result (λ writer. is_closed writer ≡ false) }
    {
        let sides = Sides::new(alloc, first, second, readers)?;
        let (sides, opened) = open_table::<T, I, P, Brand, W>(rt, sides);
        match opened {
            Ok(()) => Ok(Writer {
                sides,
                refused: false,
            }),
            Err(e) => {
                let _last = sides.take(rt);
                Err(e)
            }
        }
    }

    /// The published value: the opening value after all installs.
    pub fn value(&self) -> &T
        ensures list { (opening : T.State) → (written self.now).opening ≡ Some opening
            → T.state result.now ≡ fold T.applied opening (written self.now).installs }
        ensures front { T.front_of (T.state result.now) ≡ front_seen (written self.now) }
    {
        self.sides.published()
    }

    /// Returns what one reader can learn now: the list of published installs and its length. Returns only the length if
    /// `left_right` can't create another reader, as when all its places for readers are in use. The contract of
    /// `left_right` gives no cause.
    pub fn tell(&mut self) -> Told<T, I, P>
        ensures same { written self.new ≡ written self.old }
        ensures closed { is_closed self.new ≡ is_closed self.old }
        ensures front { reported_front result ≡ front_seen (written self.old) }
        ensures list { IfSome (reported_list result) (λ list. list ≡ shared_knowledge (written self.old)) }
    {
        let front = self.sides.published().front();
        let Ok(seat) = fresh_seat(&mut self.sides) else {
            return Told { seat: None, front };
        };
        Told {
            seat: Some(seat),
            front,
        }
    }

    /// Publishes an install, which the published value has to allow. Returns the writer, and the number of all installs
    /// published so far. Waits for readers that still look at an older copy.
    ///
    /// # Errors
    ///
    /// Fails if it runs out of memory, or if one of the two copies of the value can't absorb the install. Nothing is
    /// published then. If the install was already appended to the log of `left_right` when the call failed, every later
    /// call fails too.
    pub fn publish<W: Wait>(self, rt: &W, what: I) -> (Writer<T, I, P>, Result<u64, AllocError>)
        requires allowed { MayPublish T.applied T.allows (written self) what }
        ensures published { MatchResult result.1
            (λ front. (written result.0 ≡ with_installs (what ∷ []) (written self)) × (front ≡ front_seen (written result.0)))
            (λ _. written result.0 ≡ written self) }
        ensures allowed { OnOk result.1 (KnowsAllowed T.applied T.allows (written result.0)) }
        ensures open { OnOk result.1 (is_closed result.0 ≡ false) }
        ensures closed { is_closed self ≡ true → (is_closed result.0 ≡ true) × IsErr result.1 }
    {
        let Writer { mut sides, refused } = self;
        if refused {
            return (Writer { sides, refused }, Err(AllocError));
        }
        if sides.append(what).is_err() {
            return (Writer { sides, refused }, Err(AllocError));
        }
        let (sides, published) = publish_given::<T, I, P, Brand, W>(rt, sides);
        match published {
            Ok(()) => {
                let front = sides.published().front();
                (
                    Writer {
                        sides,
                        refused: false,
                    },
                    Ok(front),
                )
            }
            Err(e) => (
                Writer {
                    sides,
                    refused: true,
                },
                Err(e),
            ),
        }
    }

    /// Waits for the readers that are still looking, and ends publication.
    pub fn end<W: Wait>(self, rt: &W) {
        let Writer { sides, refused: _ } = self;
        let _last = sides.take(rt);
    }
}

/// Adds a `left_right` reader that knows what the writer knows.
pub(crate) fn fresh_seat<T: Counted<I> + Drop, I: Drop, P: Rules<T, I>>(
    sides: &mut Sides<T, I, Knowledge<T::State, I>, P>,
) -> Result<Seat<T, Knowledge<T::State, I>, P>, AllocError>
    ensures same { view sides.new.desk.place ≡ view sides.old.desk.place }
    ensures shown { sides.new.desk.shown ≡ sides.old.desk.shown }
    ensures log { (sides.new.log ≡ sides.old.log) × (sides.new.behind ≡ sides.old.behind) }
    ensures seat { IfOk result (λ r. view r.place ≡ shared_knowledge (view sides.old.desk.place)) }
{
    seat_by::<T, I, P>(sides)
}

/// The body of `fresh_seat`. Its caller shows that a new reader, and what the writer tells, keep the protocol.
fn seat_by<T: Counted<I> + Drop, I: Drop, P: Rules<T, I>>(
    sides: &mut Sides<T, I, Knowledge<T::State, I>, P>,
) -> Result<Seat<T, Knowledge<T::State, I>, P>, AllocError>
    requires admits { Admits P.holds P.first }
    requires forks { Forks P.holds sides.old.desk.place.id (view sides.old.desk.place) (view sides.old.desk.place)
        (shared_knowledge (view sides.old.desk.place)) }
    ensures same { view sides.new.desk.place ≡ view sides.old.desk.place }
    ensures shown { sides.new.desk.shown ≡ sides.old.desk.shown }
    ensures log { (sides.new.log ≡ sides.old.log) × (sides.new.behind ≡ sides.old.behind) }
    ensures seat { IfOk result (λ r. view r.place ≡ shared_knowledge (view sides.old.desk.place)) }
{
    let mut seat = sides.factory().reader()?;
    seat.learn::<Learn>(sides.tell::<Tell>());
    Ok(seat)
}

/// Makes a publication without installs. It only lets the writer know, in contracts, the opening value and the name
/// `K.table` of its `atomic_table`, which identifies the publication.
fn open_table<T: Counted<I> + Drop, I: Drop, P: Rules<T, I>, K: AtTable, W: Wait>(
    rt: &W,
    sides: Sides<T, I, Knowledge<T::State, I>, P>,
) -> (
    Sides<T, I, Knowledge<T::State, I>, P>,
    Result<(), AllocError>,
)
    requires table { K.table ≡ sides.desk.place.table_id.views_name }
    requires pending { drop sides.behind sides.log.items ≡ [] }
    requires begins { T.front_of (T.state sides.desk.shown.value) ≡ 0 }
    ensures { MatchResult result.1
        (λ _. (drop result.0.behind result.0.log.items ≡ []) × (T.state result.0.desk.shown.value ≡ T.state sides.desk.shown.value)
        × Opens sides.desk.place.table_id.views_name (T.state sides.desk.shown.value) (view sides.desk.place) (view result.0.desk.place))
        (λ _. Unit {0}) }
{
    publish_by::<T, I, P, Open<K>, W>(rt, sides)
}

/// Publishes the installs that wait in the log of `left_right`. Contracts name them `K.given`.
fn publish_given<T: Counted<I> + Drop, I: Drop, P: Rules<T, I>, K: Given<I>, W: Wait>(
    rt: &W,
    sides: Sides<T, I, Knowledge<T::State, I>, P>,
) -> (
    Sides<T, I, Knowledge<T::State, I>, P>,
    Result<(), AllocError>,
)
    requires pending { drop sides.behind sides.log.items ≡ K.given }
    requires whole { T.front_of (T.state sides.desk.shown.value) ≡ length (view sides.desk.place).installs }
    requires allowed { AreAllowed T.applied T.allows (T.state sides.desk.shown.value) K.given }
    ensures known { MatchResult result.1
        (λ _. Publishes T.applied T.allows K.given (view sides.desk.place) (view result.0.desk.place))
        (λ _. view result.0.desk.place ≡ view sides.desk.place) }
    ensures pending { MatchResult result.1
        (λ _. drop result.0.behind result.0.log.items ≡ [])
        (λ _. drop result.0.behind result.0.log.items ≡ drop sides.behind sides.log.items) }
    ensures value { MatchResult result.1
        (λ _. T.state result.0.desk.shown.value ≡ fold T.applied (T.state sides.desk.shown.value) K.given)
        (λ _. result.0.desk.shown.value ≡ sides.desk.shown.value) }
{
    publish_by::<T, I, P, Publish<K>, W>(rt, sides)
}

/// Publishes what waits in the log of `left_right`. The caller shows that the step keeps the protocol.
fn publish_by<
    T: Counted<I> + Drop,
    I: Drop,
    P: Rules<T, I>,
    M: Outcome<T, Knowledge<T::State, I>>,
    W: Wait,
>(
    rt: &W,
    sides: Sides<T, I, Knowledge<T::State, I>, P>,
) -> (
    Sides<T, I, Knowledge<T::State, I>, P>,
    Result<(), AllocError>,
)
    requires rule { (next : T) → T.state next ≡ fold T.applied (T.state sides.desk.shown.value) (drop sides.behind sides.log.items)
        → TurnsAt P.holds sides.desk.place.id (view sides.desk.place) sides.desk.shown.value next M.then }
    ensures values { MatchResult result.1
        (λ _. (T.state result.0.desk.shown.value ≡ fold T.applied (T.state sides.desk.shown.value) (drop sides.behind sides.log.items))
        × (drop result.0.behind result.0.log.items ≡ []))
        (λ _. (result.0.desk.shown.value ≡ sides.desk.shown.value)
        × (drop result.0.behind result.0.log.items ≡ drop sides.behind sides.log.items)) }
    ensures rule { MatchResult result.1
        (λ _. M.then (view sides.desk.place) sides.desk.shown.value result.0.desk.shown.value (view result.0.desk.place))
        (λ _. view result.0.desk.place ≡ view sides.desk.place) }
{
    sides.publish_as::<M, W>(rt)
}
