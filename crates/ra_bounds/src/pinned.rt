ghost use Rattle.std.specs.Prelude.{◌≡◌, ◌*◌, ◌^◌, ◌<◌, ◌≤◌, List};
ghost use Rattle.ra_base.specs.Sums.{total};
ghost use Rattle.ra_base.specs.declared.ids.Machine.{Machine};
ghost use Rattle.ra_model.specs.Numbers.{resource_count, machine_count, load_weight_of};
ghost use Rattle.ra_model.specs.Assignments.{IsAssignment};
ghost use Rattle.ra_model.specs.Feasible.{Feasible};
ghost use Rattle.ra_model.specs.Costs.{objective};
ghost use Rattle.ra_pins.specs.Pins.{ArePins, ArePinsOf};
ghost use Rattle.ra_bounds.specs.Bounds.{bound_of};
ghost use Rattle.ra_bounds.specs.PinnedBounds.{pinned_excess, pinned_overload, pinned_load_bound, pinned_bound_of};
ghost use Rattle.ra_bounds.specs.Totals.{AreRequirementSums, AreSafeties};

use crate::balance::balance_bound;
use crate::costs::Bound;
use crate::sums::{MOST_RESOURCES, capacity_sums, required_sums, safety_sums};
use ra_base::{Machine, Resource};
use ra_model::Instance;
use ra_pins::Pins;
use std::marker::Brand;
use std::sync::ledger::Blank;

/// The lower bound of an instance and a start, given the pins of both: the balance cost as if all machines were one,
/// and for each resource the greater of the load cost as if all machines were one and that of the pinned processes
/// alone. No assignment that is feasible with respect to the start costs less.
pub fn pinned_bound(inst: &Instance, pins: &Pins) -> Bound
    requires pins { ArePinsOf pins.now inst.now.tables }
    ensures value { (a0 : List Machine) → ArePins pins.now inst.now.tables a0 →
        result ≡ pinned_bound_of inst.now.tables a0 }
    ensures at_least { (bound_of inst.now.tables).total ≤ result.total }
    ensures below { (a0 a : List Machine) → ArePins pins.now inst.now.tables a0 →
        IsAssignment inst.now.tables a → Feasible inst.now.tables a0 a →
        result.total ≤ objective inst.now.tables a0 a }
{
    let required = required_sums::<Brand>(inst, Blank::new(1));
    let safety = safety_sums(inst);
    let capacity = capacity_sums(inst);
    let load = pinned_load_bound(inst, pins, &required, &safety);
    let balance = balance_bound(inst, &required, &capacity);
    Bound {
        load,
        balance,
        total: load + balance,
    }
}

/// The load part of the bound.
fn pinned_load_bound(
    inst: &Instance,
    pins: &Pins,
    required: &[u64; MOST_RESOURCES],
    safety: &[u64; MOST_RESOURCES],
) -> u128
    requires pins { ArePinsOf pins.now inst.now.tables }
    requires required { AreRequirementSums inst.now.tables required.now }
    requires safety { AreSafeties inst.now.tables safety.now }
    ensures value { (a0 : List Machine) → ArePins pins.now inst.now.tables a0 →
        result ≡ pinned_load_bound inst.now.tables a0 }
    ensures fits { result ≤ 20 * 2 ^ 96 }
{
    let mut cost: u128 = 0;
    for r in 0..inst.resources() {
        cost += weighed_overload(inst, pins, required, safety, Resource(r));
    }
    cost
}

/// The weight of a resource times what is required of it above the safety capacities, of all machines together or by the
/// pinned processes alone.
fn weighed_overload(
    inst: &Instance,
    pins: &Pins,
    required: &[u64; MOST_RESOURCES],
    safety: &[u64; MOST_RESOURCES],
    r: Resource,
) -> u128
    requires pins { ArePinsOf pins.now inst.now.tables }
    requires resource { r.0 < resource_count inst.now.tables }
    requires required { AreRequirementSums inst.now.tables required.now }
    requires safety { AreSafeties inst.now.tables safety.now }
    ensures value { (a0 : List Machine) → ArePins pins.now inst.now.tables a0 →
        result ≡ load_weight_of inst.now.tables r.0 * pinned_overload inst.now.tables a0 r.0 }
    ensures fits { result ≤ 2 ^ 96 }
{
    let together = required[r.0 as usize].saturating_sub(safety[r.0 as usize]);
    let pinned = excess_sum(inst, pins, r);
    u128::from(inst.load_weight(r)) * u128::from(together.max(pinned))
}

/// What the pinned processes use of a resource above the safety capacities of their machines.
fn excess_sum(inst: &Instance, pins: &Pins, r: Resource) -> u64
    requires pins { ArePinsOf pins.now inst.now.tables }
    requires resource { r.0 < resource_count inst.now.tables }
    ensures value { (a0 : List Machine) → ArePins pins.now inst.now.tables a0 →
        result ≡ total (machine_count inst.now.tables) (pinned_excess inst.now.tables a0 r.0) }
    ensures fits { result ≤ 5000 * 2 ^ 48 }
{
    let mut sum: u64 = 0;
    for m in 0..inst.machines() {
        sum += excess(inst, pins, Machine(m), r);
    }
    sum
}

/// What the pinned processes use of a resource above the safety capacity of one machine.
#[tactic(auto, unfolding(crate::specs::PinnedBounds::pinned_excess))]
fn excess(inst: &Instance, pins: &Pins, m: Machine, r: Resource) -> u64
    requires pins { ArePinsOf pins.now inst.now.tables }
    requires machine { m.0 < machine_count inst.now.tables }
    requires resource { r.0 < resource_count inst.now.tables }
    ensures value { (a0 : List Machine) → ArePins pins.now inst.now.tables a0 →
        result ≡ pinned_excess inst.now.tables a0 r.0 m.0 }
    ensures fits { result < 2 ^ 48 }
{
    let load = pins.load(m, r);
    load.saturating_sub(u64::from(inst.safety(m, r)))
}
