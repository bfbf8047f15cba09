ghost use Rattle.std.specs.Prelude.{◌≡◌, ◌*◌, ◌/◌, ◌-◌, ◌^◌, ◌<◌, ◌≤◌, min};

/// The most heat that there is.
const MOST: u128 = 1 << 110;

/// How much a move may cost, on average, in parts of 2^-16 of a unit of cost.
#[derive(Clone, Copy)]
pub struct Heat {
    fine: u128,
    pub ghost bounded: { fine ≤ 2 ^ 110 },
}

impl Heat {
    ghost use Rattle.ra_guides.specs.Heats.{fine_of};

    /// A heat of so many units of cost.
    pub fn of(units: u64) -> Heat
        ensures { fine_of result ≡ 2 ^ 16 * units }
    {
        Heat {
            fine: u128::from(units) * 65536,
        }
    }

    /// The heat of this many parts.
    pub(crate) fn of_fine(fine: u128) -> Heat
        requires { fine ≤ 2 ^ 110 }
        ensures { fine_of result ≡ fine }
    {
        Heat { fine }
    }

    /// Its parts.
    pub(crate) fn fine(self) -> u128
        ensures value { result ≡ fine_of self }
        ensures bounded { result ≤ 2 ^ 110 }
    {
        self.fine
    }

    /// The whole units of cost, or the greatest number of 64 bits if there are more.
    pub fn units(self) -> u64
        ensures { result ≡ min (fine_of self / 2 ^ 16) (2 ^ 64 - 1) }
    {
        (self.fine / 65536).min(u128::from(u64::MAX)) as u64
    }

    /// Half of it.
    pub fn half(self) -> Heat
        ensures { fine_of result ≡ fine_of self / 2 }
    {
        Heat {
            fine: self.fine / 2,
        }
    }

    /// Twice as much, but at most 2^110 parts.
    pub fn doubled(self) -> Heat
        ensures { fine_of result ≡ min (2 * fine_of self) (2 ^ 110) }
    {
        Heat {
            fine: (2 * self.fine).min(MOST),
        }
    }

    /// By how many units of cost a move may raise the cost, by chance: nothing at no heat, else the heat on average,
    /// more than twice of it once in seven words, and never more than 46 times of it.
    #[inline(always)]
    pub fn rise(self, word: u64) -> u128
        ensures within { 2 ^ 16 * result ≤ 46 * fine_of self }
        ensures below { result < 2 ^ 100 }
    {
        let logarithm = halvings(word) * 45426 / 65536;
        self.fine * u128::from(logarithm) >> 28
    }
}

/// How often a word can be halved, in parts of 2^-12 of a halving, counted from 2^64: about the logarithm of 2^64 / word.
/// It is read from the place of the first bit that is set and from the twelve bits after it.
#[inline(always)]
fn halvings(word: u64) -> u64
    ensures { result ≤ 266239 }
{
    let zeros = u64::from(word.leading_zeros());
    let after = ((word << (zeros % 64)) << 1) >> 52;
    zeros * 4096 + (4095 - after)
}
