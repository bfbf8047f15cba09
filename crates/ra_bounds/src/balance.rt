ghost use Rattle.std.specs.Prelude.{◌≡◌, ◌*◌, ◌^◌, ◌<◌, ◌≤◌, pos, ◌-ℤ◌, ◌*ℤ◌, unsigned_abs};
ghost use Rattle.ra_base.specs.Whole.{above_zero};
ghost use Rattle.ra_model.specs.Numbers.{resource_count, balance_count, balance_weight_of};
ghost use Rattle.ra_bounds.specs.Bounds.{spare, lack, balance_bound};
ghost use Rattle.ra_bounds.specs.Totals.{AreRequirementSums, AreCapacities};

use crate::sums::MOST_RESOURCES;
use ra_base::Resource;
use ra_model::Instance;

/// The balance part of the bound.
#[tactic(auto, using(ra_base::proofs::Sums::sums), unfolding(crate::specs::Bounds::balance_bound))]
pub(crate) fn balance_bound(
    inst: &Instance,
    required: &[u64; MOST_RESOURCES],
    capacity: &[u64; MOST_RESOURCES],
) -> u128
    requires required { AreRequirementSums inst.now.tables required.now }
    requires capacity { AreCapacities inst.now.tables capacity.now }
    ensures value { result ≡ balance_bound inst.now.tables }
    ensures fits { result ≤ 10 * 2 ^ 114 }
{
    let mut cost: u128 = 0;
    for b in 0..inst.balances() {
        cost += weighed_lack(inst, required, capacity, b);
    }
    cost
}

/// The weight of an objective times its shortfall over all machines together.
#[tactic(auto, unfolding(ra_model::specs::Numbers::balance_weight_of))]
fn weighed_lack(
    inst: &Instance,
    required: &[u64; MOST_RESOURCES],
    capacity: &[u64; MOST_RESOURCES],
    b: u32,
) -> u128
    requires objective { b < balance_count inst.now.tables }
    requires required { AreRequirementSums inst.now.tables required.now }
    requires capacity { AreCapacities inst.now.tables capacity.now }
    ensures value { result ≡ balance_weight_of inst.now.tables b * lack inst.now.tables b }
    ensures fits { result ≤ 2 ^ 114 }
{
    let lack = lack(inst, required, capacity, b);
    u128::from(inst.balance(b).weight) * lack
}

/// The shortfall of all machines together: by how much the available amount of the second resource is below the target
/// times that of the first.
fn lack(
    inst: &Instance,
    required: &[u64; MOST_RESOURCES],
    capacity: &[u64; MOST_RESOURCES],
    b: u32,
) -> u128
    requires objective { b < balance_count inst.now.tables }
    requires required { AreRequirementSums inst.now.tables required.now }
    requires capacity { AreCapacities inst.now.tables capacity.now }
    ensures value { result ≡ lack inst.now.tables b }
    ensures fits { result ≤ 2 ^ 82 }
{
    let objective = inst.balance(b);
    let first = spare(inst, required, capacity, objective.first);
    let second = spare(inst, required, capacity, objective.second);
    shortage(objective.target, first, second)
}

/// By how much `second` is below the target times `first`, and zero if it isn't below. Either may be negative.
fn shortage(target: u32, first: i128, second: i128) -> u128
    requires first { unsigned_abs first ≤ 2 ^ 48 }
    requires second { unsigned_abs second ≤ 2 ^ 48 }
    ensures value { result ≡ above_zero (pos target *ℤ first -ℤ second) }
    ensures fits { result ≤ 2 ^ 82 }
{
    let short = i128::from(target) * first - second;
    if short > 0 { short as u128 } else { 0 }
}

/// The capacity of all machines for a resource minus what all processes require of it, which may be negative.
fn spare(
    inst: &Instance,
    required: &[u64; MOST_RESOURCES],
    capacity: &[u64; MOST_RESOURCES],
    r: Resource,
) -> i128
    requires resource { r.0 < resource_count inst.now.tables }
    requires required { AreRequirementSums inst.now.tables required.now }
    requires capacity { AreCapacities inst.now.tables capacity.now }
    ensures value { result ≡ spare inst.now.tables r.0 }
    ensures near { unsigned_abs result ≤ 2 ^ 48 }
{
    i128::from(capacity[r.0 as usize]) - i128::from(required[r.0 as usize])
}
