//! Lookups in the parameters of a strategy.
ghost use Rattle.std.specs.Prelude.{◌≡◌, option_map};
ghost use Rattle.unl_context.specs.Context.{filled};
ghost use Rattle.unl_strategies.specs.Strategy.{parameter as value_in, parameter_or as value_or, value_at};

use unl_documents::{List, Pair, Text};

/// Returns the value of the first parameter with the given key, or `None` if there is no such parameter or its value is
/// empty.
#[tactic(auto, unfolding(crate::specs::Strategy::parameter))]
pub fn parameter<'a>(parameters: &'a List<Pair>, key: &str) -> Option<&'a str>
    ensures { option_map (λ text. text.now) result ≡ value_in key.now parameters.now }
{
    nonempty(value_of(key, parameters.as_slice()))
}

/// Like [`parameter`], but returns `other` in place of `None`.
#[tactic(auto, unfolding(crate::specs::Strategy::parameter_or))]
pub fn parameter_or<'a>(parameters: &'a List<Pair>, key: &str, other: &'a str) -> &'a str
    ensures { result.now ≡ value_or other.now key.now parameters.now }
{
    parameter(parameters, key).unwrap_or(other)
}

fn value_of<'a>(key: &str, parameters: &'a [Pair]) -> Option<&'a Text>
    ensures { option_map (λ text. text.now) result ≡ value_at key.now parameters.now }
{
    for one in parameters {
        if one.key.as_str() == key {
            return Some(&one.value);
        }
    }
    None
}

fn nonempty(text: Option<&Text>) -> Option<&str>
    ensures { option_map (λ t. t.now) result ≡ filled (option_map (λ t. t.now) text.entry) }
{
    match text {
        Some(text) if !text.as_str().is_empty() => Some(text.as_str()),
        _ => None,
    }
}
