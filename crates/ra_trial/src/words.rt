ghost use Rattle.std.specs.Prelude.{◌≡◌, ◌<◌, [], length, IfOk};
ghost use Rattle.ra_draws.specs.Words.{stream_word};
ghost use Rattle.ra_trial.specs.Lines.{listed};
ghost use Rattle.ra_trial.specs.Numbers.{trial_word};

use ra_base::{Fixed, NoMemory};
use rand_core::{Rng, SeedableRng};
use rand_xoshiro::Xoshiro256PlusPlus;
use std::alloc::Global;

/// How many words the numbers of an instance are made from.
const WORDS: usize = 5_650;

/// The words that the instance of a number is made from: the first of the generator that the number seeds.
#[derive(Drop)]
pub(crate) struct Words {
    number: u64,
    drawn: Fixed<u64>,
    pub ghost first: { drawn.items ≡ listed 5650 (trial_word number) },
}

impl Words {
    /// The words of a number.
    pub(crate) fn of(alloc: Global, number: u64) -> Result<Words, NoMemory>
        ensures { IfOk result (λ words. words.number ≡ number) }
    {
        let mut drawn = Fixed::make(alloc, WORDS)?;
        let mut rng = Xoshiro256PlusPlus::seed_from_u64(number);
        fill(&mut drawn, &mut rng);
        Ok(Words { number, drawn })
    }

    /// Word `i`.
    pub(crate) fn get(&self, i: u32) -> u64
        requires { i < 5650 }
        ensures { result ≡ trial_word self.now.number i }
    {
        self.drawn.get(i as usize)
    }
}

/// Draws the first words.
fn fill<R: Rng>(drawn: &mut Fixed<u64>, rng: &mut R)
    requires none { drawn.old.items ≡ [] }
    requires room { drawn.old.room ≡ 5650 }
    ensures { drawn.new.items ≡ listed 5650 (stream_word (R.stream rng.old)) }
{
    for _i in 0..WORDS {
        drawn.push(rng.next_u64());
    }
}
