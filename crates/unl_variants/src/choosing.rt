//! Chooses one of a list of variants for a context, as the Unleash reference on variants describes: by overrides,
//! otherwise by weights.
ghost use Rattle.std.specs.Prelude.{◌≡◌, ◌==◌, ◌<◌, ℕ, Option, length, is_none, IfSome};
ghost use Rattle.unl_variants.specs.Variant.{AreWithinLimits, IsChosen, choice_of, target_of, total_weight as total_weight_of};

use crate::overrides::first_overridden;
use crate::stickiness::{stickiness_of, sticky_text};
use crate::weights::{place_reached, total_weight};
use itoa::Buffer;
use unl_context::Context;
use unl_documents::{List, Variant};
use unl_murmur::normalized;

/// The seed of the hash by which a variant is chosen. Rollouts use seed 0. The seeds differ so that a rollout and the
/// choice of a variant hash the same id differently.
const SEED: u32 = 86_028_157;

/// Returns the index of the variant chosen for a context, counted from 0. Returns `None` if and only if the weights sum
/// to 0, even if a variant has an override. Allocates nothing. There must be at most 100 variants, each with a weight
/// of at most 1,000.
///
/// If a variant has an override for the context, the first such variant is chosen. Otherwise the choice is by weight:
/// the MurmurHash3 of `group` and the id gives a number from 1 to the sum of all weights. The first variant is chosen
/// for which the sum of the weights up to and including its own is at least this number. The id is the text that the
/// stickiness of the first variant selects from the context. If that is absent, the id is `random` in decimal.
pub fn choose(
    group: &str,
    variants: &List<Variant>,
    context: &Context,
    random: u32,
) -> Option<usize>
    requires limits { AreWithinLimits variants.now }
    ensures value { result ≡ choice_of group.now variants.now context.now random }
    ensures chosen { IsChosen group.now variants.now context.now random result }
    ensures only { (choice : Option ℕ) → IsChosen group.now variants.now context.now random choice → choice ≡ result }
    ensures none { is_none result ≡ (total_weight_of variants.now == 0) }
    ensures inside { IfSome result (λ place. place < length variants.now) }
{
    chosen_place(group, variants.as_slice(), context, random)
}

/// As [`choose`], with the result described by the relation `IsChosen`.
fn chosen_place(group: &str, variants: &[Variant], context: &Context, random: u32) -> Option<usize>
    requires limits { AreWithinLimits variants.now }
    ensures { IsChosen group.now variants.now context.now random result }
{
    let total = total_weight(variants);
    if total == 0 {
        return None;
    }
    if let Some(place) = first_overridden(variants, context) {
        return Some(place);
    }
    place_reached(variants, target(group, variants, context, random, total))
}

/// Returns the number, from 1 to the sum of the weights, that decides the choice by weight. `total` must be this sum,
/// and not 0.
#[tactic(auto, unfolding(crate::specs::Variant::target_of, crate::specs::Variant::id_of, unl_murmur::specs::Murmur3::normalized_of))]
fn target(group: &str, variants: &[Variant], context: &Context, random: u32, total: u32) -> u32
    requires some { 0 < total }
    requires all { total ≡ total_weight_of variants.now }
    ensures value { result ≡ target_of group.now variants.now context.now random }
    ensures above { 0 < result }
{
    match sticky_text(stickiness_of(variants), context) {
        Some(id) => normalized(group, id, total, SEED),
        None => normalized(group, Buffer::new().format(random), total, SEED),
    }
}
