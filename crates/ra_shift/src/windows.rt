ghost use Rattle.std.specs.Prelude.{◌≡◌, ℕ, ◌-◌, ◌^◌, ◌<◌, ◌≤◌, IfSome, min, length, slice_index};
ghost use Rattle.ra_model.specs.Numbers.{machine_count};
ghost use Rattle.ra_shift.specs.Lanes.{AreAsked, AreSums, HaveWays};

use crate::shift::Shift;
use crate::terms::Asks;
use crate::{add_up, add_ways, marks_of, ring_part};
use ra_base::Machine;
use ra_model::Instance;

/// How much a way may cost with its weight, so that the sums fit into lanes.
const MOST: u64 = 1 << 30;

impl Shift<'_, '_> {
    /// What each of sixty-four machines from one on adds for the process, if that is at most a limit. The answer has a
    /// bit for each such machine; there is no answer if the numbers are too great for lanes. Most windows have no such
    /// machine even if all ways were free, and then no way is read.
    pub(crate) fn sums_from(
        &self,
        asks: &Asks,
        first: u32,
        limit: u32,
        sums: &mut [u32; 64],
    ) -> Option<u64>
        requires asks { AreAsked self.now.world.now.tables self.now.process.0 asks.now }
        requires first { first < machine_count self.now.world.now.tables }
        ensures { IfSome result (λ marks.
            AreSums self.now.world.now self.now.process.0 first limit marks sums.new) }
    {
        if !asks.are_small {
            return None;
        }
        add_up(
            self.world.filter_rows(),
            asks.terms.as_slice(),
            first as usize,
            limit,
            sums,
        );
        if marks_of(sums, limit) == 0 {
            return Some(0);
        }
        with_ways(self.world.instance(), self.home, first, limit, sums)
    }
}

/// Adds to sixty-four sums what the ways to their machines cost, unless that is too much for lanes. The answer has a bit
/// for each sum that is then at most a limit.
fn with_ways(
    inst: &Instance,
    home: Machine,
    first: u32,
    limit: u32,
    sums: &mut [u32; 64],
) -> Option<u64>
    requires home { home.0 < machine_count inst.now.tables }
    requires first { first < machine_count inst.now.tables }
    requires small { (k : ℕ) → k < 64 → slice_index sums.old k ≤ 2 ^ 30 }
    ensures { IfSome result (λ marks.
        HaveWays inst.now.tables home.0 first limit sums.old marks sums.new) }
{
    let weight = inst.machine_weight();
    let mut copy = [0; 64];
    let ways = ring_part(inst.ways_from(home), first as usize, &mut copy);
    let most = greatest_of(ways);
    if u64::from(weight) * u64::from(most) > MOST {
        return None;
    }
    add_ways(ways, weight, sums);
    Some(marks_of(sums, limit))
}

/// A number that is at least each number of a list.
#[inline(always)]
fn greatest_of(numbers: &[u32]) -> u32
    ensures { (k : ℕ) → k < length numbers.now → slice_index numbers.now k ≤ result }
{
    let mut most = 0;
    for number in numbers {
        most = greater(most, *number);
    }
    most
}

/// A number that is at least each of two.
#[inline(always)]
fn greater(left: u32, right: u32) -> u32
    ensures left { left ≤ result }
    ensures right { right ≤ result }
{
    if left < right { right } else { left }
}

/// A bound as a limit of sums, which are all below 2^32.
#[inline(always)]
pub(crate) fn limit_below(room: u128) -> u32
    requires { 0 < room }
    ensures { result ≡ min (room - 1) (2 ^ 32 - 1) }
{
    (room - 1).min(u128::from(u32::MAX)) as u32
}
