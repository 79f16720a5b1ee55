//! The question that an input asks: why is a feature of a state on or off for a context, at a time and with a random
//! word?
ghost use Rattle.std.specs.Prelude.{IfOk};
ghost use Rattle.unl_documents.specs.Reading.{Gives};
ghost use Rattle.unl_explain.specs.Question.{IsValidQuestion, question_in, question_of};

use serde_json::Value;
use std::alloc::Global;
use unl_context::Context;
use unl_documents::document::{Document, Object, read_document};
use unl_documents::keys::{defaulted, required};
use unl_documents::kind::{AnyWhole, Name, Whole};
use unl_documents::parsing::read_json;
use unl_documents::{BadDocument, Field, State, StateJson, Text};
use unl_input::context_in;

/// The latest time that is accepted, in milliseconds since 1970. This limit is chosen by this project.
const LAST_MOMENT: u64 = 100_000_000_000_000;

/// The question why a feature of a state is on or off for a context, at a time and with a random word.
#[derive(Drop)]
pub(crate) struct Question {
    /// The state, which may lack the feature.
    pub(crate) state: State,
    /// The feature's name.
    pub(crate) feature: Text,
    /// The context that the feature is evaluated for.
    pub(crate) context: Context,
    /// The time of the evaluation, in milliseconds since 1970, at most `LAST_MOMENT`.
    pub(crate) now: u64,
    /// The 64-bit word from which the random numbers of the evaluation are derived.
    pub(crate) word: u64,
}

/// How a question is read from a JSON object.
struct QuestionJson;

impl Document for QuestionJson {
    type Out = Question;

    ghost reads_object = { question_of };

    ghost is_valid = { IsValidQuestion };

    #[tactic(auto, unfolding(crate::specs::Question::question_of))]
    fn read_object(alloc: Global, value: &Value) -> Result<Question, BadDocument> {
        let state = required::<Object<StateJson>>(alloc, Field::State, value)?;
        let feature = required::<Name>(alloc, Field::Feature, value)?;
        let context = context_in(alloc, value)?;
        let now = defaulted::<Whole<LAST_MOMENT>>(alloc, 0, Field::Now, value)?;
        let word = defaulted::<AnyWhole>(alloc, 0, Field::Word, value)?;
        Ok(Question {
            state,
            feature,
            context,
            now,
            word,
        })
    }
}

/// Parses a question from the bytes of an input, which are one JSON object. If the key of the context is absent or
/// null, the context is empty. If the key of the time or of the random word is absent or null, that number is 0.
///
/// # Errors
/// `NotJson` if the bytes are not JSON or the JSON value is not an object; otherwise the first fault of the object's
/// keys. `Memory` if memory ran out.
#[tactic(auto, unfolding(crate::specs::Question::question_in))]
pub(crate) fn question_in(alloc: Global, bytes: &[u8]) -> Result<Question, BadDocument>
    ensures gives { Gives result (question_in bytes.now) }
    ensures valid { IfOk result IsValidQuestion }
{
    let Some(value) = read_json(alloc, bytes)? else {
        return Err(BadDocument::NotJson);
    };
    read_document::<QuestionJson>(alloc, &value)
}
