//! A wrapper of a `Writer` that publishes through `&mut self`. A `Writer` itself publishes by value.
ghost use Rattle.std.specs.Prelude.{◌≡◌, true, false, [], ◌∷◌, length, fold, Some, is_some};
ghost use Rattle.std.specs.Prelude.{IfSome, IsErr, MatchResult, OnOk};
ghost use Rattle.unl_publication.specs.Meaning.{front_seen};
ghost use Rattle.unl_publication.specs.Rule.{KnowsAllowed, MayPublish, shared_knowledge, with_installs};

use crate::rule::Rules;
use crate::value::Counted;
use crate::writer::{Told, Writer};
use std::alloc::AllocError;
use std::mem::replace;
use std::sync::Wait;

/// A writer that publishes through `&mut self`. It keeps the runtime `rt`, with which it waits for readers. It isn't
/// `Drop`: close it with `end`.
pub struct Publisher<'a, W: Wait, T: Counted<I> + Drop, I: Drop, P: Rules<T, I>> {
    rt: &'a W,
    /// The writer. It is `None` only while a call passes it by value.
    pub(crate) writer: Option<Writer<T, I, P>>,
    ghost has_writer: { is_some writer ≡ true },
}

impl<'a, W: Wait, T: Counted<I> + Drop, I: Drop, P: Rules<T, I>> Publisher<'a, W, T, I, P> {
    ghost use Rattle.unl_publication.specs.Seen.{is_closed, stays_closed, published, reported_front, reported_list, written};

    /// Wraps a writer. Calls that wait for readers wait with `rt`.
    pub fn new(rt: &'a W, writer: Writer<T, I, P>) -> Publisher<'a, W, T, I, P>
        ensures published { published result ≡ written writer }
        ensures closed { stays_closed result ≡ is_closed writer }
    {
        Publisher {
            rt,
            writer: Some(writer),
        }
    }

    /// Publishes an install, which the published value has to allow. Returns the number of all installs published so
    /// far. Waits for readers that still look at an older copy.
    ///
    /// # Errors
    ///
    /// Fails if it runs out of memory, or if the install can't be applied to one of the two copies of the value that
    /// `left_right` keeps. Nothing is published then. If the install was already appended to the log of `left_right`
    /// when the call failed, every later call fails too.
    pub fn publish(&mut self, what: I) -> Result<u64, AllocError>
        requires { MayPublish T.applied T.allows (published self.old) what }
        ensures published { MatchResult result
            (λ front. (published self.new ≡ with_installs (what ∷ []) (published self.old)) × (front ≡ front_seen (published self.new)))
            (λ _. published self.new ≡ published self.old) }
        ensures allowed { OnOk result (KnowsAllowed T.applied T.allows (published self.new)) }
        ensures open { OnOk result (stays_closed self.new ≡ false) }
        ensures closed { stays_closed self.old ≡ true → (stays_closed self.new ≡ true) × IsErr result }
    {
        let Some(writer) = self.writer.take() else {
            return Err(AllocError);
        };
        let (writer, published) = writer.publish(self.rt, what);
        if let Some(other) = replace(&mut self.writer, Some(writer)) {
            other.end(self.rt);
        }
        published
    }

    /// The published value: the opening value after all installs.
    pub fn value(&self) -> &T
        ensures list { (opening : T.State) → (published self.now).opening ≡ Some opening
            → T.state result.now ≡ fold T.applied opening (published self.now).installs }
        ensures front { T.front_of (T.state result.now) ≡ front_seen (published self.now) }
    {
        let Some(writer) = &self.writer else {
            unreachable!()
        };
        writer.value()
    }

    /// Returns what one reader can learn now: the list of published installs and its length. Returns only the length if
    /// `left_right` can't create another reader, as when all its places for readers are in use. The contract of
    /// `left_right` gives no cause.
    pub fn tell(&mut self) -> Told<T, I, P>
        ensures same { published self.new ≡ published self.old }
        ensures closed { stays_closed self.new ≡ stays_closed self.old }
        ensures front { reported_front result ≡ front_seen (published self.old) }
        ensures list { IfSome (reported_list result) (λ list. list ≡ shared_knowledge (published self.old)) }
    {
        let Some(mut writer) = self.writer.take() else {
            unreachable!()
        };
        let told = writer.tell();
        if let Some(other) = replace(&mut self.writer, Some(writer)) {
            other.end(self.rt);
        }
        told
    }

    /// Waits for the readers that are still looking, and ends publication.
    pub fn end(self) {
        let Publisher { rt, writer } = self;
        if let Some(writer) = writer {
            writer.end(rt);
        }
    }
}
