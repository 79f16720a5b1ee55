//! The random words that the input of the command `load` is generated from.
ghost use Rattle.std.specs.Prelude.{◌≡◌};
ghost use Rattle.unl_load.specs.Words.{next_word, generator, next};

use rand_pcg::Lcg64Xsh32;
use rand_pcg::rand_core::utils::NextWord;

/// Returns the generator PCG XSH RR 64/32 (O'Neill) for this seed, at stream 1.
#[tactic(auto, unfolding(crate::specs::Words::generator))]
pub(crate) fn generator(seed: u64) -> Lcg64Xsh32
    ensures { result ≡ generator seed }
{
    Lcg64Xsh32::new(seed, 1)
}

/// Takes the next word and returns it.
#[tactic(auto, unfolding(crate::specs::Words::next_word, crate::specs::Words::next))]
pub(crate) fn take(words: &mut Lcg64Xsh32) -> u32
    ensures word { result ≡ next_word words.old }
    ensures next { words.new ≡ next words.old }
{
    words.next_word()
}
