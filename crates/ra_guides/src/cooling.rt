ghost use Rattle.std.specs.Prelude.{◌≡◌, ◌^◌, ◌<◌, ◌≤◌, min, max};
ghost use Rattle.ra_guides.specs.Heats.{fine_of, high_of, low_of};

use crate::heat::Heat;

/// How heat goes from a first one to a last one, as the tries go by. Its fourth root changes evenly, so it falls fast at
/// first and slowly in the end.
#[derive(Clone, Copy)]
pub struct Cooling {
    high: Heat,
    low: Heat,
    high_root: u64,
    low_root: u64,
}

impl Cooling {
    /// The way from one heat to another.
    pub fn between(high: Heat, low: Heat) -> Cooling
        ensures high { high_of result ≡ high }
        ensures low { low_of result ≡ low }
    {
        Cooling {
            high,
            low,
            high_root: fourth_root(high.fine()),
            low_root: fourth_root(low.fine()),
        }
    }

    /// The heat after `n` of `total` tries: the first one before any try, the last one after all of them.
    pub fn at(&self, n: u64, total: u64) -> Heat
        ensures begins { n ≡ 0 → 0 < total → result ≡ high_of self.now }
        ensures ends { total ≤ n → result ≡ low_of self.now }
        ensures above { min (fine_of (high_of self.now)) (fine_of (low_of self.now)) ≤ fine_of result }
        ensures below { fine_of result ≤ max (fine_of (high_of self.now)) (fine_of (low_of self.now)) }
    {
        if total <= n {
            return self.low;
        }
        if n == 0 {
            return self.high;
        }
        let share = (u128::from(n) << 64) / u128::from(total);
        let fine = fourth_power(part_way(self.high_root, self.low_root, share as u64));
        let (one, other) = (self.high.fine(), self.low.fine());
        Heat::of_fine(fine.clamp(one.min(other), one.max(other)))
    }
}

/// The fourth root of a heat's parts, in units of 2^-36.
fn fourth_root(fine: u128) -> u64
    requires { fine ≤ 2 ^ 110 }
{
    let square = (fine << 16).isqrt();
    (square << 64).isqrt() as u64
}

/// The fourth power of a root, in a heat's parts.
fn fourth_power(root: u64) -> u128 {
    let square = (u128::from(root) * u128::from(root)) >> 64;
    (square * square) >> 16
}

/// The number that is a share of the way from one number to another, in units of 2^-64.
fn part_way(from: u64, to: u64, share: u64) -> u64 {
    if from <= to {
        from + ((u128::from(to - from) * u128::from(share)) >> 64) as u64
    } else {
        from - ((u128::from(from - to) * u128::from(share)) >> 64) as u64
    }
}
