ghost use Rattle.std.specs.Prelude.{◌≡◌, ◌^◌, ◌<◌, ◌≤◌, pos, ◌-ℤ◌, FitsSigned};
ghost use Rattle.std.specs.Int.{w128};
ghost use Rattle.ra_base.specs.Sums.{one_if};

/// What is added, less what is taken away.
#[inline(always)]
pub fn difference(added: u128, taken: u128) -> i128
    requires added { added < 2 ^ 127 }
    requires taken { taken < 2 ^ 127 }
    ensures value { result ≡ pos added -ℤ pos taken }
    ensures fits { FitsSigned w128 result }
{
    added as i128 - taken as i128
}

/// 1 if a test holds, and else 0.
#[inline(always)]
pub fn one_when(test: bool) -> u32
    ensures value { result ≡ one_if test }
    ensures few { result ≤ 1 }
{
    if test { 1 } else { 0 }
}
