//! Overrides, which give a variant to certain contexts whatever its weight, unless all weights are 0.
ghost use Rattle.std.specs.Prelude.{◌≡◌, position};
ghost use Rattle.std.specs.List.{list_any};
ghost use Rattle.unl_variants.specs.Variant.{is_among as among, is_meant as meant, is_overridden as overridden};

use unl_context::Context;
use unl_documents::{Override, Text, Variant};

/// Returns the index of the first variant with an override for the context, if there is one.
pub(crate) fn first_overridden(variants: &[Variant], context: &Context) -> Option<usize>
    ensures { result ≡ position (overridden context.now) variants.now }
{
    variants.iter().position(|variant| has_override(variant.overrides.as_slice(), context))
}

/// Returns whether one of the overrides matches the context.
fn has_override(overrides: &[Override], context: &Context) -> bool
    ensures { result ≡ list_any (meant context.now) overrides.now }
{
    overrides.iter().any(|one| is_meant(one, context))
}

/// Returns whether an override matches the context: the context has the override's field, and the value of this field
/// in the context is one of the override's values.
#[tactic(auto, unfolding(crate::specs::Variant::is_meant))]
fn is_meant(one: &Override, context: &Context) -> bool
    ensures { result ≡ meant context.now one.now }
{
    match context.get(one.field.as_str()) {
        Some(text) => is_among(one.values.as_slice(), text),
        None => false,
    }
}

/// Returns whether the text is one of the values.
fn is_among(values: &[Text], text: &str) -> bool
    ensures { result ≡ among values.now text.now }
{
    values.iter().any(|value| value.as_str() == text)
}
