ghost use Rattle.std.specs.Prelude.{◌≡◌, ◌*◌, ◌^◌, ◌<◌, ◌≤◌, List};
ghost use Rattle.ra_base.specs.Sums.{total};
ghost use Rattle.ra_base.specs.declared.ids.Machine.{Machine};
ghost use Rattle.ra_model.specs.Numbers.{resource_count, machine_count, balance_count};
ghost use Rattle.ra_model.specs.Costs.{available, shortfall, balance_part, balance_cost};
ghost use Rattle.ra_check.specs.Stands.{IsUsage};
ghost use Rattle.ra_check.specs.Made.{IsGrid};

use ra_base::{Fixed, Machine, Resource, read_cell};
use ra_model::Instance;

/// The balance cost of the assignment whose use the table has.
#[tactic(auto, using(ra_base::proofs::Sums::sums), unfolding(ra_model::specs::Costs::balance_cost))]
pub(crate) fn balance_cost(inst: &Instance, used: &Fixed<u64>) -> u128
    requires { IsGrid inst.now.tables used.now.items }
    ensures value { (a : List Machine) → IsUsage inst.now.tables a used.now.items →
        result ≡ balance_cost inst.now.tables a }
    ensures bound { result ≤ 10 * 2 ^ 110 }
{
    let mut cost: u128 = 0;
    for b in 0..inst.balances() {
        cost += balance_part(inst, used, b);
    }
    cost
}

/// The balance cost of one objective.
#[tactic(auto, using(crate::proofs::CostLaws::times_below), unfolding(ra_model::specs::Costs::balance_part, ra_model::specs::Numbers::balance_weight_of))]
fn balance_part(inst: &Instance, used: &Fixed<u64>, b: u32) -> u128
    requires objective { b < balance_count inst.now.tables }
    requires grid { IsGrid inst.now.tables used.now.items }
    ensures value { (a : List Machine) → IsUsage inst.now.tables a used.now.items →
        result ≡ balance_part inst.now.tables a b }
    ensures bound { result ≤ 2 ^ 110 }
{
    let missing = missing(inst, used, b);
    u128::from(inst.balance(b).weight) * missing
}

/// The sum over the machines of their shortfalls of the second resource of an objective.
#[tactic(auto, using(ra_base::proofs::Sums::sums))]
fn missing(inst: &Instance, used: &Fixed<u64>, b: u32) -> u128
    requires objective { b < balance_count inst.now.tables }
    requires grid { IsGrid inst.now.tables used.now.items }
    ensures value { (a : List Machine) → IsUsage inst.now.tables a used.now.items →
        result ≡ total (machine_count inst.now.tables) (shortfall inst.now.tables a b) }
    ensures bound { result ≤ 5000 * 2 ^ 64 }
{
    let mut sum: u128 = 0;
    for m in 0..inst.machines() {
        sum += u128::from(shortfall(inst, used, b, Machine(m)));
    }
    sum
}

/// By how much one machine's available amount of the second resource of an objective is below the target times that of
/// the first.
fn shortfall(inst: &Instance, used: &Fixed<u64>, b: u32, m: Machine) -> u64
    requires objective { b < balance_count inst.now.tables }
    requires machine { m.0 < machine_count inst.now.tables }
    requires grid { IsGrid inst.now.tables used.now.items }
    ensures { (a : List Machine) → IsUsage inst.now.tables a used.now.items →
        result ≡ shortfall inst.now.tables a b m.0 }
{
    let objective = inst.balance(b);
    let first = available(inst, used, m, objective.first);
    let second = available(inst, used, m, objective.second);
    let wanted = u64::from(objective.target) * first;
    wanted.saturating_sub(second)
}

/// The available amount of a resource of a machine.
fn available(inst: &Instance, used: &Fixed<u64>, m: Machine, r: Resource) -> u64
    requires machine { m.0 < machine_count inst.now.tables }
    requires resource { r.0 < resource_count inst.now.tables }
    requires grid { IsGrid inst.now.tables used.now.items }
    ensures value { (a : List Machine) → IsUsage inst.now.tables a used.now.items →
        result ≡ available inst.now.tables a m.0 r.0 }
    ensures bound { result < 2 ^ 32 }
{
    let used = read_cell(used, inst.resources(), m.0, r.0);
    u64::from(inst.capacity(m, r)).saturating_sub(used)
}
