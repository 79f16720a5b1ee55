//! Stickiness: which field of a context is hashed as the id when a variant is chosen by weight.
ghost use Rattle.std.specs.Prelude.{◌≡◌, option_map};
ghost use Rattle.unl_variants.specs.Variant.{sticky_text as sticky_text_of, stickiness_of as name_of_stickiness, own_id as own_id_of};

use unl_context::Context;
use unl_documents::{Text, Variant};

/// Returns the stickiness of the first variant, which applies to all variants. Empty if there are no variants or the
/// first variant has no stickiness.
pub(crate) fn stickiness_of(variants: &[Variant]) -> &str
    ensures { result.now ≡ name_of_stickiness variants.now }
{
    match variants.first() {
        Some(variant) => variant.stickiness.as_ref().map_or("", Text::as_str),
        None => "",
    }
}

/// Returns the text that a stickiness selects from a context. An empty stickiness or `default` selects the userId, or
/// the sessionId if there is no userId. `random` selects nothing. Any other text selects the field or property with
/// this name. Returns `None` if nothing is selected or the context lacks what is selected.
#[tactic(auto, unfolding(crate::specs::Variant::sticky_text))]
pub(crate) fn sticky_text<'a>(name: &str, context: &'a Context) -> Option<&'a str>
    ensures { option_map (λ text. text.now) result ≡ sticky_text_of name.now context.now }
{
    match name {
        "" | "default" => own_id(context),
        "random" => None,
        field => context.get(field),
    }
}

/// Returns the userId, or the sessionId if the context has no userId. `None` if it has neither.
fn own_id(context: &Context) -> Option<&str>
    ensures { option_map (λ text. text.now) result ≡ own_id_of context.now }
{
    match context.get("userId") {
        Some(id) => Some(id),
        None => context.get("sessionId"),
    }
}
