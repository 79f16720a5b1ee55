//! Expected and actual results of tests: their comparison and their JSON text.
ghost use Rattle.std.specs.Prelude.{◌≡◌, false, IfOk, string_bytes, option_map};
ghost use Rattle.serde_json.specs.View.{view};
ghost use Rattle.serde_json.specs.Written.{compact_text, has_float};
ghost use Rattle.unl_spec_runner.specs.Expected.{given_as, variant_given, agrees, variants_agree, payloads_agree, options_agree};
ghost use Rattle.unl_spec_runner.specs.Expected.{variant_data, expected_data, expected_text};

use serde_json::{Map, Value};
use std::alloc::Global;
use unl_dependencies::Evaluation;
use unl_documents::kind::{AnyText, Boolean};
use unl_documents::to_value::{put, put_some};
use unl_documents::{Field, Memory, Payload, PayloadJson, Text, TryClone};

/// The expected or actual result of a test.
#[derive(Debug, Drop)]
pub enum Expected {
    /// Whether the feature is on.
    Result(bool),
    /// The feature's variant.
    Variant(ExpectedVariant),
}

/// An expected or actual variant.
#[derive(Debug, Drop)]
pub struct ExpectedVariant {
    /// The variant's name. It is `disabled` in the actual result of an evaluation without a variant.
    pub name: Text,
    /// Whether there is a variant, or is expected to be one.
    pub enabled: bool,
    /// The variant's payload, if it has one.
    pub payload: Option<Payload>,
    /// Whether the feature is on, or is expected to be. `None` if the test does not compare that.
    pub feature_enabled: Option<bool>,
}

impl Expected {
    /// Returns the actual result of an evaluation, in the form of the expected result `self`: whether the feature is
    /// on, or the feature's variant. The only error is out of memory.
    #[tactic(auto, unfolding(crate::specs::Expected::given_as))]
    pub fn given_as(&self, alloc: Global, evaluation: &Evaluation) -> Result<Expected, Memory>
        ensures { IfOk result (λ given. given ≡ given_as self.now evaluation.now) }
    {
        match self {
            Expected::Result(_) => Ok(Expected::Result(evaluation.on)),
            Expected::Variant(variant) => {
                Ok(Expected::Variant(variant.given(alloc, evaluation)?))
            }
        }
    }

    /// Whether the actual result `given` equals the expected result `self`.
    #[tactic(auto, unfolding(crate::specs::Expected::agrees))]
    pub fn agrees(&self, given: &Expected) -> bool
        ensures { result ≡ agrees self.now given.now }
    {
        match (self, given) {
            (Expected::Result(on), Expected::Result(given)) => *on == *given,
            (Expected::Variant(variant), Expected::Variant(given)) => variant.agrees(given),
            _ => false,
        }
    }

    /// Returns the JSON text of the result. The only error is out of memory.
    pub fn text(&self, alloc: Global) -> Result<String, Memory>
        ensures { IfOk result (λ s. string_bytes s ≡ expected_text self.now) }
    {
        let value = self.write(alloc)?;
        plain_text(alloc, &value)
    }

    #[tactic(auto, unfolding(crate::specs::Expected::expected_data))]
    fn write(&self, alloc: Global) -> Result<Value, Memory>
        ensures written { IfOk result (λ v. view v ≡ expected_data self.now) }
    {
        match self {
            Expected::Result(on) => Ok(Value::from(*on)),
            Expected::Variant(variant) => variant.write(alloc),
        }
    }
}

impl ExpectedVariant {
    /// Returns the actual variant of an evaluation, for a test that expects the variant `self`. The actual
    /// `feature_enabled` is `None` if that of `self` is, so that the test does not compare it.
    #[tactic(auto, unfolding(crate::specs::Expected::variant_given))]
    fn given(&self, alloc: Global, evaluation: &Evaluation) -> Result<ExpectedVariant, Memory>
        ensures { IfOk result (λ given. given ≡ variant_given self.now evaluation.now) }
    {
        Ok(ExpectedVariant {
            name: evaluation.variant.name.copy(alloc)?,
            enabled: evaluation.variant.enabled,
            payload: evaluation.variant.payload.copy(alloc)?,
            feature_enabled: in_place_of(&self.feature_enabled, evaluation.on),
        })
    }

    #[tactic(auto, unfolding(crate::specs::Expected::variants_agree))]
    fn agrees(&self, given: &ExpectedVariant) -> bool
        ensures { result ≡ variants_agree self.now given.now }
    {
        self.name.as_str() == given.name.as_str()
            && self.enabled == given.enabled
            && payloads_agree(&self.payload, &given.payload)
            && self.feature_enabled == given.feature_enabled
    }

    #[tactic(auto, unfolding(crate::specs::Expected::variant_data))]
    fn write(&self, alloc: Global) -> Result<Value, Memory>
        ensures { IfOk result (λ v. view v ≡ variant_data self.now) }
    {
        let mut members = Map::new(alloc);
        put::<AnyText>(&mut members, alloc, Field::Name, &self.name)?;
        put_some::<Boolean>(
            &mut members,
            alloc,
            Field::FeatureEnabled,
            &self.feature_enabled,
        )?;
        put::<Boolean>(&mut members, alloc, Field::Enabled, &self.enabled)?;
        put_some::<PayloadJson>(&mut members, alloc, Field::Payload, &self.payload)?;
        Ok(Value::Object(members))
    }
}

/// Returns the actual value `given`, or `None` if the expected value `compared` is `None`: it is then not compared.
fn in_place_of(compared: &Option<bool>, given: bool) -> Option<bool>
    ensures { result ≡ option_map (λ _. given) compared.now }
{
    match compared {
        None => None,
        Some(_) => Some(given),
    }
}

/// Whether both payloads are absent, or both are present with the same type and the same value.
fn payloads_agree(expected: &Option<Payload>, given: &Option<Payload>) -> bool
    ensures { result ≡ options_agree payloads_agree expected.now given.now }
{
    match (expected, given) {
        (None, None) => true,
        (Some(expected), Some(given)) => {
            expected.kind.as_str() == given.kind.as_str()
                && expected.value.as_str() == given.value.as_str()
        }
        _ => false,
    }
}

/// Returns the JSON text of a value that contains no floating-point number.
fn plain_text(alloc: Global, value: &Value) -> Result<String, Memory>
    requires { has_float (view value.now) ≡ false }
    ensures { IfOk result (λ s. string_bytes s ≡ compact_text (view value.now)) }
{
    Ok(value.to_string(alloc)?)
}
