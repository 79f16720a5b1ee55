//! The trait of a published value: it absorbs installs (changes of the value) and counts them.
ghost use Rattle.std.specs.Prelude.{◌≡◌, ℕ, ◌+◌};

use left_right::Absorb;

/// A value that counts the installs it has absorbed. This count is its front. `left_right` keeps two copies of the
/// value, and applies an install to the first of them by `absorb_first`, which has to fail when the front is 2^64 - 1.
pub trait Counted<I: Drop>: Absorb<I> {
    /// The front of a copy of the value, computed from its state in contracts.
    ghost front_of: { Self.State → ℕ };

    /// Whether an install may be applied to a value. By default every install may.
    ghost allows: { Self.State → I → Type 0 } = { λ _ _. Unit {0} };

    /// The number of installs that this copy has absorbed.
    fn front(&self) -> u64
        ensures { result ≡ front_of (Self.state self.now) };

    /// Each install increments the front.
    ghost counts: { (s : Self.State) (what : I) → front_of (Self.applied s what) ≡ front_of s + 1 };
}
