//! Parses test files in the format of the Unleash client specification.
ghost use Rattle.std.specs.Prelude.{Result, IfOk, All};
ghost use Rattle.serde_json.specs.Data.{Data};
ghost use Rattle.serde_json.specs.View.{view};
ghost use Rattle.unl_documents.specs.declared.fault.BadDocument.{BadDocument};
ghost use Rattle.unl_documents.specs.Kinds.{always, is_object, object_of, document};
ghost use Rattle.unl_documents.specs.Limits.{Anything};
ghost use Rattle.unl_documents.specs.Reading.{Gives};
ghost use Rattle.unl_spec_runner.specs.declared.expected.Expected.{Expected};
ghost use Rattle.unl_spec_runner.specs.TestFile.{IsValidFile, expected_result, expected_variant};
ghost use Rattle.unl_spec_runner.specs.TestFile.{expected_variant_of, feature_enabled_in, file_alone, file_of, files_in, files_of};
ghost use Rattle.unl_spec_runner.specs.TestFile.{test_of};

use crate::expected::{Expected, ExpectedVariant};
use serde_json::Value;
use std::alloc::Global;
use std::marker::PhantomData;
use unl_context::Context;
use unl_documents::document::{Document, Object, read_document};
use unl_documents::items::{Item, each_item, list};
use unl_documents::keys::{defaulted, optional, required};
use unl_documents::kind::{AnyText, Boolean, Kind, Name, UpTo};
use unl_documents::parsing::read_json;
use unl_documents::{BadDocument, Field, List, PayloadJson, State, StateJson, Text};
use unl_input::context_in;

/// The largest number of tests in each list of a file. No input can have more tests, because this is also the largest
/// number of bytes in an input.
const MOST_TESTS: usize = 16_777_216;

/// A test: the evaluation of a feature for a context, with the expected result.
#[derive(Debug, Drop)]
pub struct Test {
    /// The description, of at most 65,536 bytes.
    pub description: Text,
    /// The context that the feature is evaluated for.
    pub context: Context,
    /// The feature's name.
    pub toggle: Text,
    /// The expected result of the evaluation.
    pub expected: Expected,
}

/// A state with its tests.
#[derive(Drop)]
pub struct TestFile {
    /// The state that contains the features.
    pub state: State,
    /// The tests of features.
    pub tests: List<Test>,
    /// The tests of variants, which are run after those of features.
    pub variant_tests: List<Test>,
}

/// A kind of test, which determines how its expected result is parsed.
pub trait Expects {
    // The expected result that is parsed from the JSON value of a test, or the first fault.
    ghost expected_in: { Data → Result Expected BadDocument };

    /// Parses the expected result of a test.
    ///
    /// # Errors
    /// The first fault of the value at `expectedResult`, `Missing` if the key is absent or null, or `Memory` if memory
    /// ran out.
    fn read_expected(alloc: Global, test: &Value) -> Result<Expected, BadDocument>
        ensures { Gives result (expected_in (view test.now)) };
}

/// A test that expects the feature to be on or off.
pub struct ResultTest;

impl Expects for ResultTest {
    ghost expected_in = { expected_result };

    #[tactic(auto, unfolding(crate::specs::TestFile::expected_result))]
    fn read_expected(alloc: Global, test: &Value) -> Result<Expected, BadDocument> {
        let on = required::<Boolean>(alloc, Field::ExpectedResult, test)?;
        Ok(Expected::Result(on))
    }
}

/// A test that expects a variant.
pub struct VariantTest;

impl Expects for VariantTest {
    ghost expected_in = { expected_variant };

    #[tactic(auto, unfolding(crate::specs::TestFile::expected_variant))]
    fn read_expected(alloc: Global, test: &Value) -> Result<Expected, BadDocument> {
        let variant = required::<Object<ExpectedVariantJson>>(alloc, Field::ExpectedResult, test)?;
        Ok(Expected::Variant(variant))
    }
}

/// How an expected variant is read from a JSON object.
struct ExpectedVariantJson;

impl Document for ExpectedVariantJson {
    type Out = ExpectedVariant;

    ghost reads_object = { expected_variant_of };

    ghost is_valid = { Anything };

    #[tactic(auto, unfolding(crate::specs::TestFile::expected_variant_of))]
    fn read_object(alloc: Global, value: &Value) -> Result<ExpectedVariant, BadDocument> {
        let name = required::<Name>(alloc, Field::Name, value)?;
        let enabled = required::<Boolean>(alloc, Field::Enabled, value)?;
        let payload = optional::<Object<PayloadJson>>(alloc, Field::Payload, value)?;
        let feature_enabled = feature_enabled_in(alloc, value)?;
        Ok(ExpectedVariant {
            name,
            enabled,
            payload,
            feature_enabled,
        })
    }
}

/// Parses whether the feature is expected to be on: the value at `feature_enabled`, or else at `featureEnabled`.
/// Returns `Ok(None)` if there is no value at either key, and an error if the value at either key is neither a boolean
/// nor null.
#[tactic(auto, unfolding(crate::specs::TestFile::feature_enabled_in))]
fn feature_enabled_in(alloc: Global, value: &Value) -> Result<Option<bool>, BadDocument>
    ensures { Gives result (feature_enabled_in (view value.now)) }
{
    let first = optional::<Boolean>(alloc, Field::FeatureEnabled, value)?;
    let second = optional::<Boolean>(alloc, Field::FeatureEnabledCamelCase, value)?;
    Ok(first.or(second))
}

/// Parses a test of the kind `E` from JSON.
struct TestOf<E>(PhantomData<E>);

impl<E: Expects> Kind for TestOf<E> {
    type Out = Test;

    ghost reads = { object_of (test_of E.expected_in) };

    ghost is_valid = { Anything };

    #[tactic(auto, unfolding(unl_documents::specs::Kinds::object_of))]
    fn read(alloc: Global, field: Field, value: &Value) -> Result<Test, BadDocument> {
        if !value.is_object() {
            return Err(BadDocument::WrongKind(field));
        }
        read_test::<E>(alloc, value)
    }
}

impl<E: Expects> Item for TestOf<E> {
    ghost fits = { is_object };

    ghost is_whole = { always };

    fn fits(value: &Value) -> bool {
        value.is_object()
    }

    fn is_whole(_value: &Value) -> bool {
        true
    }
}

/// Parses a test of the kind `E` from a JSON object. The description and the context are empty if their keys are absent
/// or null.
#[tactic(auto, unfolding(crate::specs::TestFile::test_of))]
fn read_test<E: Expects>(alloc: Global, value: &Value) -> Result<Test, BadDocument>
    ensures { Gives result (test_of E.expected_in (view value.now)) }
{
    let none = Text::new(alloc, "")?;
    let description = defaulted::<UpTo<65_536>>(alloc, none, Field::Description, value)?;
    let context = context_in(alloc, value)?;
    let toggle = required::<Name>(alloc, Field::ToggleName, value)?;
    let expected = E::read_expected(alloc, value)?;
    Ok(Test {
        description,
        context,
        toggle,
        expected,
    })
}

/// How a test file is read from a JSON object.
struct TestFileJson;

impl Document for TestFileJson {
    type Out = TestFile;

    ghost reads_object = { file_of };

    ghost is_valid = { IsValidFile };

    #[tactic(auto, unfolding(crate::specs::TestFile::file_of))]
    fn read_object(alloc: Global, value: &Value) -> Result<TestFile, BadDocument> {
        let none = Text::new(alloc, "")?;
        let _name = defaulted::<AnyText>(alloc, none, Field::Name, value)?;
        let state = required::<Object<StateJson>>(alloc, Field::State, value)?;
        let tests = list::<TestOf<ResultTest>>(alloc, MOST_TESTS, Field::Tests, value)?;
        let variant_tests = list::<TestOf<VariantTest>>(
            alloc,
            MOST_TESTS,
            Field::VariantTests,
            value,
        )?;
        Ok(TestFile {
            state,
            tests,
            variant_tests,
        })
    }
}

/// Parses a test file that is an item of an array. If an item isn't an object, the error is `NotJson`, as for a single
/// file.
struct WholeFile;

impl Kind for WholeFile {
    type Out = TestFile;

    ghost reads = { λ _ value. document file_of value };

    ghost is_valid = { IsValidFile };

    fn read(alloc: Global, _field: Field, value: &Value) -> Result<TestFile, BadDocument> {
        read_document::<TestFileJson>(alloc, value)
    }
}

impl Item for WholeFile {
    ghost fits = { always };

    ghost is_whole = { always };

    fn fits(_value: &Value) -> bool {
        true
    }

    fn is_whole(_value: &Value) -> bool {
        true
    }
}

/// Parses the test files in a JSON value: an array of files, or a single file.
#[tactic(auto, unfolding(crate::specs::TestFile::files_of))]
fn files_of(alloc: Global, value: &Value) -> Result<List<TestFile>, BadDocument>
    ensures gives { Gives result (files_of (view value.now)) }
    ensures valid { IfOk result (All IsValidFile) }
{
    match value.as_array() {
        Some(values) => each_item::<WholeFile>(alloc, Field::State, values),
        None => file_alone(alloc, value),
    }
}

/// Parses a single file that is the whole input. Returns a list of that file alone.
#[tactic(auto, unfolding(crate::specs::TestFile::file_alone))]
fn file_alone(alloc: Global, value: &Value) -> Result<List<TestFile>, BadDocument>
    ensures gives { Gives result (file_alone (view value.now)) }
    ensures valid { IfOk result (All IsValidFile) }
{
    let file = read_document::<TestFileJson>(alloc, value)?;
    let mut files = List::new(alloc);
    files.push(file)?;
    Ok(files)
}

/// Parses the test files in an input: a JSON array of files, or a single file. The error is the first fault, or out of
/// memory.
#[tactic(auto, unfolding(crate::specs::TestFile::files_in))]
pub fn files_in(alloc: Global, bytes: &[u8]) -> Result<List<TestFile>, BadDocument>
    ensures gives { Gives result (files_in bytes.now) }
    ensures valid { IfOk result (All IsValidFile) }
{
    let Some(value) = read_json(alloc, bytes)? else {
        return Err(BadDocument::NotJson);
    };
    files_of(alloc, &value)
}
