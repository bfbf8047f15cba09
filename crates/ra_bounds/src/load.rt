ghost use Rattle.std.specs.Prelude.{◌≡◌, ◌*◌, ◌^◌, ◌<◌, ◌≤◌};
ghost use Rattle.ra_model.specs.Numbers.{resource_count, load_weight_of};
ghost use Rattle.ra_bounds.specs.Bounds.{overload, load_bound};
ghost use Rattle.ra_bounds.specs.Totals.{AreRequirementSums, AreSafeties};

use crate::sums::MOST_RESOURCES;
use ra_base::Resource;
use ra_model::Instance;

/// The load part of the bound.
#[tactic(auto, using(ra_base::proofs::Sums::sums), unfolding(crate::specs::Bounds::load_bound))]
pub(crate) fn load_bound(
    inst: &Instance,
    required: &[u64; MOST_RESOURCES],
    safety: &[u64; MOST_RESOURCES],
) -> u128
    requires required { AreRequirementSums inst.now.tables required.now }
    requires safety { AreSafeties inst.now.tables safety.now }
    ensures value { result ≡ load_bound inst.now.tables }
    ensures fits { result ≤ 20 * 2 ^ 96 }
{
    let mut cost: u128 = 0;
    for r in 0..inst.resources() {
        cost += weighed_overload(inst, required, safety, Resource(r));
    }
    cost
}

/// The weight of a resource times what is required of it above the safety capacities.
fn weighed_overload(
    inst: &Instance,
    required: &[u64; MOST_RESOURCES],
    safety: &[u64; MOST_RESOURCES],
    r: Resource,
) -> u128
    requires resource { r.0 < resource_count inst.now.tables }
    requires required { AreRequirementSums inst.now.tables required.now }
    requires safety { AreSafeties inst.now.tables safety.now }
    ensures value { result ≡ load_weight_of inst.now.tables r.0 * overload inst.now.tables r.0 }
    ensures fits { result ≤ 2 ^ 96 }
{
    let overload = required[r.0 as usize].saturating_sub(safety[r.0 as usize]);
    u128::from(inst.load_weight(r)) * u128::from(overload)
}
