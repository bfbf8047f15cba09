ghost use Rattle.std.specs.Prelude.{◌≡◌, ◌<◌, ◌≤◌, length};
ghost use Rattle.ra_model.specs.Numbers.{resource_count, balance_count};

use crate::change::Change;
use ra_model::Instance;

/// The load and balance cost of a machine, and the balance cost in it. Both may have wrapped.
#[derive(Clone, Copy)]
pub(crate) struct MachineCost {
    pub(crate) all: u64,
    pub(crate) balance: u64,
}

/// The cost of a machine after a change. If less than its reserve is left of a resource, that costs.
#[inline(always)]
pub(crate) fn cost_after(
    inst: &Instance,
    weights: &[u32],
    reserves: &[u32],
    change: &Change<'_>,
) -> MachineCost
    requires reserves { length weights.now ≤ length reserves.now }
    requires weights { length weights.now ≤ length change.now.free.now }
    requires width { resource_count inst.now.tables ≤ length change.now.free.now }
{
    let balance = balance_cost(inst, change);
    MachineCost {
        all: load_cost(weights, reserves, change).wrapping_add(balance),
        balance,
    }
}

/// The load cost of a machine after a change.
#[inline(always)]
fn load_cost(weights: &[u32], reserves: &[u32], change: &Change<'_>) -> u64
    requires reserves { length weights.now ≤ length reserves.now }
    requires weights { length weights.now ≤ length change.now.free.now }
{
    let mut sum = 0u64;
    for r in 0..weights.len() {
        let above = reserves[r].saturating_sub(change.left(r));
        sum = sum.wrapping_add(u64::from(weights[r]).wrapping_mul(u64::from(above)));
    }
    sum
}

/// The balance cost of a machine after a change.
#[inline(always)]
fn balance_cost(inst: &Instance, change: &Change<'_>) -> u64
    requires { resource_count inst.now.tables ≤ length change.now.free.now }
{
    let mut sum = 0u64;
    for b in 0..inst.balances() {
        sum = sum.wrapping_add(objective_cost(inst, b, change));
    }
    sum
}

/// The cost of one balance objective on a machine after a change.
#[inline(always)]
#[tactic(auto, using(ra_world::proofs::CostLaws::first_within, ra_world::proofs::CostLaws::second_within))]
fn objective_cost(inst: &Instance, b: u32, change: &Change<'_>) -> u64
    requires objective { b < balance_count inst.now.tables }
    requires width { resource_count inst.now.tables ≤ length change.now.free.now }
{
    let objective = inst.balance(b);
    let first = change.left(objective.first.0 as usize);
    let second = change.left(objective.second.0 as usize);
    let wanted = u64::from(objective.target).wrapping_mul(u64::from(first));
    u64::from(objective.weight).wrapping_mul(wanted.saturating_sub(u64::from(second)))
}
