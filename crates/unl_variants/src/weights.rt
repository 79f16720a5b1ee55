//! Sums of the weights of variants.
ghost use Rattle.std.specs.Prelude.{◌≡◌, ◌<◌, IfSome, IfNone};
ghost use Rattle.unl_variants.specs.Variant.{AreWithinLimits, total_weight as total_weight_of, IsReached};

use unl_documents::Variant;

/// Returns the sum of the weights. There must be at most 100 variants, each with a weight of at most 1,000.
pub(crate) fn total_weight(variants: &[Variant]) -> u32
    requires limits { AreWithinLimits variants.now }
    ensures { result ≡ total_weight_of variants.now }
{
    let mut total = 0;
    for variant in variants {
        total += variant.weight;
    }
    total
}

/// Returns the index of the first variant for which the sum of the weights up to and including its own is at least
/// `target`. Returns `None` if the sum of all weights is less than `target`. `target` must not be 0, and the limits of
/// [`total_weight`] apply.
pub(crate) fn place_reached(variants: &[Variant], target: u32) -> Option<usize>
    requires limits { AreWithinLimits variants.now }
    requires some { 0 < target }
    ensures reached { IfSome result (IsReached target variants.now) }
    ensures too_far { IfNone result (total_weight_of variants.now < target) }
{
    let mut reached = 0;
    for (place, variant) in variants.iter().enumerate() {
        reached += variant.weight;
        if target <= reached {
            return Some(place);
        }
    }
    None
}
