ghost use Rattle.std.specs.Prelude.{◌≡◌, ◌-◌, ◌*◌, ◌^◌, ◌<◌, ◌≤◌, length, slice_index};
ghost use Rattle.ra_model.specs.Numbers.{resource_count, machine_count, balance_count};
ghost use Rattle.ra_model.specs.MachineCosts.{load_share, row_load, row_left, balance_share, row_balance};

use ra_base::{Machine, Resource};
use ra_model::Instance;

/// The load cost of a machine with this use, a number for each resource.
#[tactic(auto, using(ra_base::proofs::Sums::sums), unfolding(ra_model::specs::MachineCosts::row_load))]
pub fn row_load(inst: &Instance, m: Machine, row: &[u64]) -> u128
    requires machine { m.0 < machine_count inst.now.tables }
    requires width { length row.now ≡ resource_count inst.now.tables }
    ensures value { result ≡ row_load inst.now.tables m.0 (slice_index row.now) }
    ensures bound { result ≤ 20 * 2 ^ 96 }
{
    let mut cost: u128 = 0;
    for r in 0..inst.resources() {
        cost += load_share(inst, m, row, Resource(r));
    }
    cost
}

/// The load cost of one resource of a machine.
#[tactic(auto, using(crate::proofs::CostLaws::product_below), unfolding(ra_model::specs::MachineCosts::load_share))]
fn load_share(inst: &Instance, m: Machine, row: &[u64], r: Resource) -> u128
    requires machine { m.0 < machine_count inst.now.tables }
    requires resource { r.0 < resource_count inst.now.tables }
    requires width { length row.now ≡ resource_count inst.now.tables }
    ensures value { result ≡ load_share inst.now.tables m.0 (slice_index row.now) r.0 }
    ensures bound { result ≤ 2 ^ 96 }
{
    let excess = row[r.0 as usize].saturating_sub(u64::from(inst.safety(m, r)));
    u128::from(inst.load_weight(r)) * u128::from(excess)
}

/// The balance cost of a machine with this use, a number for each resource.
#[tactic(auto, using(ra_base::proofs::Sums::sums), unfolding(ra_model::specs::MachineCosts::row_balance))]
pub fn row_balance(inst: &Instance, m: Machine, row: &[u64]) -> u128
    requires machine { m.0 < machine_count inst.now.tables }
    requires width { length row.now ≡ resource_count inst.now.tables }
    ensures value { result ≡ row_balance inst.now.tables m.0 (slice_index row.now) }
    ensures bound { result ≤ 10 * 2 ^ 96 }
{
    let mut cost: u128 = 0;
    for b in 0..inst.balances() {
        cost += balance_share(inst, m, row, b);
    }
    cost
}

/// The balance cost of one objective on a machine.
#[tactic(auto, using(crate::proofs::CostLaws::product_below), unfolding(ra_model::specs::MachineCosts::balance_share))]
fn balance_share(inst: &Instance, m: Machine, row: &[u64], b: u32) -> u128
    requires machine { m.0 < machine_count inst.now.tables }
    requires objective { b < balance_count inst.now.tables }
    requires width { length row.now ≡ resource_count inst.now.tables }
    ensures value { result ≡ balance_share inst.now.tables m.0 (slice_index row.now) b }
    ensures bound { result ≤ 2 ^ 96 }
{
    let objective = inst.balance(b);
    let first = row_left(inst, m, row, objective.first);
    let second = row_left(inst, m, row, objective.second);
    let wanted = u64::from(objective.target) * first;
    let lack = wanted.saturating_sub(second);
    u128::from(objective.weight) * u128::from(lack)
}

/// What is left of one resource of a machine.
#[tactic(auto, unfolding(ra_model::specs::MachineCosts::row_left))]
pub(crate) fn row_left(inst: &Instance, m: Machine, row: &[u64], r: Resource) -> u64
    requires machine { m.0 < machine_count inst.now.tables }
    requires resource { r.0 < resource_count inst.now.tables }
    requires width { length row.now ≡ resource_count inst.now.tables }
    ensures value { result ≡ row_left inst.now.tables m.0 (slice_index row.now) r.0 }
    ensures bound { result < 2 ^ 32 }
{
    u64::from(inst.capacity(m, r)).saturating_sub(row[r.0 as usize])
}
