ghost use Rattle.std.specs.Prelude.{◌≡◌, ◌*◌, ◌^◌, ◌<◌, ◌≤◌, List};
ghost use Rattle.ra_base.specs.Sums.{total};
ghost use Rattle.ra_base.specs.declared.ids.Machine.{Machine};
ghost use Rattle.ra_model.specs.Numbers.{resource_count, machine_count};
ghost use Rattle.ra_model.specs.Costs.{excess_on, load_part, load_cost};
ghost use Rattle.ra_check.specs.Stands.{IsUsage};
ghost use Rattle.ra_check.specs.Made.{IsGrid};

use ra_base::{Fixed, Machine, Resource, read_cell};
use ra_model::Instance;

/// The load cost of the assignment whose use the table has.
#[tactic(auto, using(ra_base::proofs::Sums::sums), unfolding(ra_model::specs::Costs::load_cost))]
pub(crate) fn load_cost(inst: &Instance, used: &Fixed<u64>) -> u128
    requires { IsGrid inst.now.tables used.now.items }
    ensures value { (a : List Machine) → IsUsage inst.now.tables a used.now.items →
        result ≡ load_cost inst.now.tables a }
    ensures bound { result ≤ 20 * 2 ^ 110 }
{
    let mut cost: u128 = 0;
    for r in 0..inst.resources() {
        cost += load_part(inst, used, Resource(r));
    }
    cost
}

/// The load cost of one resource.
#[tactic(auto, using(crate::proofs::CostLaws::times_below), unfolding(ra_model::specs::Costs::load_part))]
fn load_part(inst: &Instance, used: &Fixed<u64>, r: Resource) -> u128
    requires resource { r.0 < resource_count inst.now.tables }
    requires grid { IsGrid inst.now.tables used.now.items }
    ensures value { (a : List Machine) → IsUsage inst.now.tables a used.now.items →
        result ≡ load_part inst.now.tables a r.0 }
    ensures bound { result ≤ 2 ^ 110 }
{
    let excess = excess(inst, used, r);
    u128::from(inst.load_weight(r)) * excess
}

/// The sum over the machines of the use above the safety capacity.
#[tactic(auto, using(ra_base::proofs::Sums::sums))]
fn excess(inst: &Instance, used: &Fixed<u64>, r: Resource) -> u128
    requires resource { r.0 < resource_count inst.now.tables }
    requires grid { IsGrid inst.now.tables used.now.items }
    ensures value { (a : List Machine) → IsUsage inst.now.tables a used.now.items →
        result ≡ total (machine_count inst.now.tables) (excess_on inst.now.tables a r.0) }
    ensures bound { result ≤ 5000 * 2 ^ 64 }
{
    let mut sum: u128 = 0;
    for m in 0..inst.machines() {
        sum += u128::from(excess_on(inst, used, r, Machine(m)));
    }
    sum
}

/// The use of a resource of a machine above its safety capacity.
fn excess_on(inst: &Instance, used: &Fixed<u64>, r: Resource, m: Machine) -> u64
    requires machine { m.0 < machine_count inst.now.tables }
    requires resource { r.0 < resource_count inst.now.tables }
    requires grid { IsGrid inst.now.tables used.now.items }
    ensures { (a : List Machine) → IsUsage inst.now.tables a used.now.items →
        result ≡ excess_on inst.now.tables a r.0 m.0 }
{
    let used = read_cell(used, inst.resources(), m.0, r.0);
    used.saturating_sub(u64::from(inst.safety(m, r)))
}
