ghost use Rattle.std.specs.Prelude.{◌≡◌, ◌+◌, ◌*◌, ◌/◌, ◌^◌, ◌<◌};
ghost use Rattle.rand_core.specs.Stream.{next_u64};
ghost use Rattle.ra_guides.specs.Chances.{state_of, words_of};

use rand_core::{Rng, SeedableRng};
use rand_xoshiro::Xoshiro256PlusPlus;
use std::marker::Model;

/// Words by chance, the same for the same seed. Contracts see the state of the generator.
#[derive(Drop)]
pub struct Chance {
    generator: Xoshiro256PlusPlus,
}

impl Model for Chance {
    ghost use Rattle.std.specs.Prelude.{ℕ, List};

    ghost Value = { List ℕ };

    ghost view = { λ c. c.generator };
}

impl Chance {
    /// The words of a seed, from the first on.
    pub fn from_seed(seed: u64) -> Chance
        ensures { result ≡ state_of seed }
    {
        Chance {
            generator: Xoshiro256PlusPlus::seed_from_u64(seed),
        }
    }

    /// The next word.
    #[inline(always)]
    pub fn word(&mut self) -> u64
        ensures value { result ≡ (next_u64 (words_of self.old)).0 }
        ensures left { words_of self.new ≡ (next_u64 (words_of self.old)).1 }
    {
        self.generator.next_u64()
    }

    /// A number below `n` by the next word, or 0 if `n` is 0.
    #[inline(always)]
    pub fn below(&mut self, n: u32) -> u32
        ensures value { result ≡ (next_u64 (words_of self.old)).0 / 2 ^ 32 * n / 2 ^ 32 }
        ensures below { 0 < n → result < n }
        ensures left { words_of self.new ≡ (next_u64 (words_of self.old)).1 }
    {
        (((self.word() >> 32) * u64::from(n)) >> 32) as u32
    }
}
