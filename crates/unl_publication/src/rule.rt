//! The invariant that each access to the published value keeps, and what each access makes known to the writer or the
//! reader. Each change of the value is one install.
use crate::knowledge::Knowledge;
use crate::value::Counted;
use atomic_table::{Join, Split};
use crossbeam_utils::rule::{Outcome, Protocol};
use std::marker::{Brand, PhantomData};

/// A protocol (the invariant of a shared value and of what each accessor knows) whose invariant is equivalent to
/// `IsKept`, such as `Ruled`. `IsKept` says that there is one opening value and one list of installs, the value before
/// each install allows it, and the writer and each reader know a prefix of that list.
pub trait Rules<T: Counted<I>, I: Drop>: Protocol<T, Knowledge<T::State, I>> {
    ghost use Rattle.std.specs.Prelude.{◌≡◌, List};
    ghost use Rattle.unl_publication.specs.declared.knowledge.Knowledge.{Knowledge};
    ghost use Rattle.unl_publication.specs.Rule.{IsKept, knows_nothing};

    /// The protocol's `holds` implies `IsKept`.
    ghost kept: { (x : T) (views : List (Knowledge T.State I)) → Self.holds x views
        → IsKept T.applied T.front_of T.allows (T.state x) views };

    /// `IsKept` implies the protocol's `holds`.
    ghost keeps: { (x : T) (views : List (Knowledge T.State I))
        → IsKept T.applied T.front_of T.allows (T.state x) views → Self.holds x views };

    /// At first nothing is known.
    ghost begins: { Self.first ≡ knows_nothing };
}

/// The protocol with the invariant `IsKept`, for installs of type `I`.
pub struct Ruled<I> {
    of: PhantomData<I>,
}

impl<T: Counted<I>, I: Drop> Protocol<T, Knowledge<T::State, I>> for Ruled<I> {
    ghost use Rattle.unl_publication.specs.Rule.{IsKept, knows_nothing};

    ghost holds = { λ x views. IsKept T.applied T.front_of T.allows (T.state x) views };

    ghost first = { knows_nothing };
}

impl<T: Counted<I>, I: Drop> Rules<T, I> for Ruled<I> {
    ghost use Rattle.std.specs.Prelude.{refl};

    ghost kept = { λ x views h. h };

    ghost keeps = { λ x views h. h };

    ghost begins = { refl };
}

/// The installs that one publication appends. They exist only in contracts, so a call passes them as a type parameter.
pub trait Given<I> {
    ghost use Rattle.std.specs.Prelude.{List};

    ghost given: { List I };
}

/// If a call passes `Brand`, its proof chooses the installs. The value here is only a placeholder.
impl<I> Given<I> for Brand {
    ghost use Rattle.std.specs.Prelude.{[]};

    ghost given = { [] };
}

/// The name of a new writer's `atomic_table`, the table of what the writer and each reader know. The name exists only
/// in contracts, so a call passes it as a type parameter.
pub trait AtTable {
    ghost use Rattle.std.specs.Prelude.{ℕ};

    ghost table: { ℕ };
}

/// If a call passes `Brand`, its proof chooses the name. The value here is only a placeholder.
impl AtTable for Brand {
    ghost table = { 0 };
}

/// What the writer's first access makes known: its table and the opening value.
pub(crate) struct Open<K> {
    of: PhantomData<K>,
}

impl<T: Counted<I>, I: Drop, K: AtTable> Outcome<T, Knowledge<T::State, I>> for Open<K> {
    ghost use Rattle.unl_publication.specs.Rule.{Opens};

    ghost then = { λ v x _ w. Opens K.table (T.state x) v w };
}

/// What a publication makes known to the writer: its list has the new installs at the end, and each of them was
/// allowed.
pub(crate) struct Publish<K> {
    of: PhantomData<K>,
}

impl<T: Counted<I>, I: Drop, K: Given<I>> Outcome<T, Knowledge<T::State, I>> for Publish<K> {
    ghost use Rattle.unl_publication.specs.Rule.{Publishes};

    ghost then = { λ v _ _ w. Publishes T.applied T.allows K.given v w };
}

/// What a reader knew before a look, which is one read of the published value. It exists only in contracts, so a call
/// passes it as a type parameter.
pub trait Past<S> {
    ghost use Rattle.std.specs.Prelude.{List, ℕ};
    ghost use Rattle.std.specs.declared.option.Option.{Option};

    /// The values after 0, 1, 2, .. installs, as the reader knew them before it continued from a learned list (one that
    /// the writer shared with it). Empty if it never did.
    ghost before: { List (Option S) };

    /// The number of installs at each earlier look.
    ghost fronts: { List ℕ };
}

/// If a call passes `Brand`, its proof chooses these members. The values here are only placeholders.
impl<S> Past<S> for Brand {
    ghost use Rattle.std.specs.Prelude.{[]};

    ghost before = { [] };

    ghost fronts = { [] };
}

/// What a look makes known to a reader: a list that starts with the reader's old list, and the value after the new
/// list.
pub(crate) struct Enter<K> {
    of: PhantomData<K>,
}

impl<T: Counted<I>, I: Drop, K: Past<T::State>> Outcome<T, Knowledge<T::State, I>> for Enter<K> {
    ghost use Rattle.unl_publication.specs.Rule.{Enters};

    ghost then = { λ v x _ w. Enters T.applied T.front_of T.allows K.before K.fronts (T.state x) v w };
}

/// The writer shares its knowledge with a new `left_right` reader: that of a new reader, or that of a report which a
/// reader will learn. It shares the table, the opening value and the list, and keeps what it knows.
pub(crate) struct Tell;

impl<S, I> Split<Knowledge<S, I>> for Tell {
    ghost use Rattle.unl_publication.specs.Rule.{shared_knowledge};

    ghost left = { λ v. v };

    ghost right = { shared_knowledge };
}

/// A new `left_right` reader receives what the writer shared. It then knows that and nothing else.
pub(crate) struct Learn;

impl<S, I> Join<Knowledge<S, I>> for Learn {
    ghost use Rattle.unl_publication.specs.Rule.{shared_knowledge, knows_nothing};

    ghost both = { λ _ w. shared_knowledge w };

    ghost spent = { knows_nothing };
}
