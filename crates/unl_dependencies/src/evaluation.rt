//! The results of evaluations: with a copied variant ([`Evaluation`]) or a borrowed one ([`Decision`]).
ghost use Rattle.std.specs.Prelude.{◌≡◌, IfOk, codes, option_map};
ghost use Rattle.unl_dependencies.specs.Evaluation.{off as off_evaluation, on_with as evaluation_on_with, variant_answer};
ghost use Rattle.unl_dependencies.specs.Decision.{evaluation_by};

use std::alloc::Global;
use unl_documents::{Memory, Payload, Text, TryClone, Variant};

/// The variant name of an evaluation without a variant: `disabled`.
pub(crate) fn no_variant() -> &'static str
    ensures { result.now ≡ codes "disabled" }
{
    "disabled"
}

/// The evaluation of a feature for a context at a moment.
#[derive(Debug, Drop)]
pub struct Evaluation {
    /// Whether the feature is on.
    pub on: bool,
    /// The variant that the context gets. There is none if the feature is off.
    pub variant: VariantAnswer,
}

/// The variant of an evaluation.
#[derive(Debug, Drop)]
pub struct VariantAnswer {
    /// The variant's name, or `disabled` if there is none.
    pub name: Text,
    /// Whether there is a variant.
    pub enabled: bool,
    /// The variant's payload for the application, if it has one.
    pub payload: Option<Payload>,
}

/// Like [`Evaluation`], but with a borrowed variant.
#[derive(Clone, Copy)]
pub enum Decision<'a> {
    /// The feature is off.
    Off,
    /// The feature is on, with this variant, if there is one.
    On(Option<&'a Variant>),
}

impl<'a> Decision<'a> {
    /// Converts the decision to an evaluation by copying the variant. The only error is out of memory.
    pub fn evaluation(self, alloc: Global) -> Result<Evaluation, Memory>
        ensures { IfOk result (λ e. e ≡ evaluation_by self.entry) }
    {
        match self {
            Decision::Off => Evaluation::off(alloc),
            Decision::On(variant) => Evaluation::on_with(alloc, variant),
        }
    }
}

impl Evaluation {
    /// Returns the evaluation of a feature that is off, which has no variant. The only error is out of memory.
    pub fn off(alloc: Global) -> Result<Evaluation, Memory>
        ensures { IfOk result (λ e. e ≡ off_evaluation) }
    {
        Ok(Evaluation {
            on: false,
            variant: VariantAnswer::of(alloc, None)?,
        })
    }

    /// Returns the evaluation of a feature that is on, with this variant, if there is one. The only error is out of
    /// memory.
    pub fn on_with(alloc: Global, variant: Option<&Variant>) -> Result<Evaluation, Memory>
        ensures { IfOk result (λ e. e ≡ evaluation_on_with (option_map (λ v. v.now) variant.entry)) }
    {
        Ok(Evaluation {
            on: true,
            variant: VariantAnswer::of(alloc, variant)?,
        })
    }
}

impl VariantAnswer {
    /// Copies the name and payload of a variant. Without a variant, the name is `disabled`.
    fn of(alloc: Global, variant: Option<&Variant>) -> Result<VariantAnswer, Memory>
        ensures { IfOk result (λ answer. answer ≡ variant_answer (option_map (λ v. v.now) variant.entry)) }
    {
        match variant {
            None => Ok(VariantAnswer {
                name: Text::new(alloc, no_variant())?,
                enabled: false,
                payload: None,
            }),
            Some(variant) => Ok(VariantAnswer {
                name: variant.name.copy(alloc)?,
                enabled: true,
                payload: variant.payload.copy(alloc)?,
            }),
        }
    }
}

impl TryClone for Evaluation {
    fn copy(&self, alloc: Global) -> Result<Evaluation, Memory> {
        Ok(Evaluation {
            on: self.on,
            variant: self.variant.copy(alloc)?,
        })
    }
}

impl TryClone for VariantAnswer {
    fn copy(&self, alloc: Global) -> Result<VariantAnswer, Memory> {
        Ok(VariantAnswer {
            name: self.name.copy(alloc)?,
            enabled: self.enabled,
            payload: self.payload.copy(alloc)?,
        })
    }
}
