//! Finds the `::` of an IPv6 address, which stands for groups of zeros.
ghost use Rattle.std.specs.Prelude.{◌≡◌, option_map};
ghost use Rattle.unl_strategies.specs.Addresses.{around_gap};

/// Splits the text at its first two colons in a row. Returns the texts before and after the colons, or `None` if the
/// text has no two colons in a row.
pub(crate) fn split_at_gap(text: &str) -> Option<(&str, &str)>
    ensures { option_map (λ sides. (sides.0.now, sides.1.now)) result ≡ around_gap text.now }
{
    text.split_once("::")
}
