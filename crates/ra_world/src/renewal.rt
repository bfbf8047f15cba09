ghost use Rattle.std.specs.Prelude.{◌≡◌, ◌+◌, ◌*◌, ◌^◌, ◌<◌, ◌≤◌, List, length, slice_index, slice_set, IfOk};
ghost use Rattle.ra_base.specs.Sums.{total};
ghost use Rattle.ra_base.specs.declared.ids.Machine.{Machine};
ghost use Rattle.ra_model.specs.Numbers.{machine_count};
ghost use Rattle.ra_model.specs.MachineCosts.{machine_load, machine_balance};
ghost use Rattle.ra_rows.specs.Rows.{StandFor};
ghost use Rattle.ra_world.specs.Costs.{AreCosts, AreStays};

use crate::costs::{row_balance, row_load};
use ra_base::{Fixed, Machine, NoMemory};
use ra_model::Instance;
use ra_moves::Step;
use ra_rows::Rows;
use std::alloc::Global;

/// The load cost of a machine, for the assignment that the rows represent.
pub(crate) fn load_of(inst: &Instance, rows: &Rows<'_>, m: Machine) -> u128
    requires machine { m.0 < machine_count inst.now.tables }
    requires instance { rows.now.tables ≡ inst.now.tables }
    ensures value { (a : List Machine) → StandFor rows.now a →
        result ≡ machine_load inst.now.tables a m.0 }
    ensures bound { result ≤ 20 * 2 ^ 96 }
{
    row_load(inst, m, rows.usage_row(m))
}

/// The balance cost of a machine, for the assignment that the rows represent.
pub(crate) fn balance_of(inst: &Instance, rows: &Rows<'_>, m: Machine) -> u128
    requires machine { m.0 < machine_count inst.now.tables }
    requires instance { rows.now.tables ≡ inst.now.tables }
    ensures value { (a : List Machine) → StandFor rows.now a →
        result ≡ machine_balance inst.now.tables a m.0 }
    ensures bound { result ≤ 20 * 2 ^ 96 }
{
    row_balance(inst, m, rows.usage_row(m))
}

/// What the way from each machine to itself costs.
pub(crate) fn stays_of(alloc: Global, inst: &Instance) -> Result<Fixed<u32>, NoMemory>
    ensures { IfOk result (λ stays. AreStays inst.now.tables stays.items) }
{
    let mut stays = Fixed::make(alloc, inst.machines() as usize)?;
    for m in 0..inst.machines() {
        stays.push(inst.move_cost(Machine(m), Machine(m)));
    }
    Ok(stays)
}

/// The load cost of each machine.
pub(crate) fn loads_of(
    alloc: Global,
    inst: &Instance,
    rows: &Rows<'_>,
) -> Result<Fixed<u128>, NoMemory>
    requires { rows.now.tables ≡ inst.now.tables }
    ensures { IfOk result (λ costs. (a : List Machine) → StandFor rows.now a →
        AreCosts costs.items (machine_count inst.now.tables) (machine_load inst.now.tables a)) }
{
    let mut costs = Fixed::make(alloc, inst.machines() as usize)?;
    for m in 0..inst.machines() {
        costs.push(load_of(inst, rows, Machine(m)));
    }
    Ok(costs)
}

/// The balance cost of each machine.
pub(crate) fn balances_of(
    alloc: Global,
    inst: &Instance,
    rows: &Rows<'_>,
) -> Result<Fixed<u128>, NoMemory>
    requires { rows.now.tables ≡ inst.now.tables }
    ensures { IfOk result (λ costs. (a : List Machine) → StandFor rows.now a →
        AreCosts costs.items (machine_count inst.now.tables) (machine_balance inst.now.tables a)) }
{
    let mut costs = Fixed::make(alloc, inst.machines() as usize)?;
    for m in 0..inst.machines() {
        costs.push(balance_of(inst, rows, Machine(m)));
    }
    Ok(costs)
}

/// Computes the load costs of all machines again.
pub(crate) fn renew_all_loads(inst: &Instance, rows: &Rows<'_>, loads: &mut Fixed<u128>)
    requires instance { rows.now.tables ≡ inst.now.tables }
    requires one_each { length loads.old.items ≡ machine_count inst.now.tables }
    ensures { (a : List Machine) → StandFor rows.now a → AreCosts loads.new.items
        (machine_count inst.now.tables) (machine_load inst.now.tables a) }
{
    for m in 0..inst.machines() {
        loads.set(m as usize, load_of(inst, rows, Machine(m)));
    }
}

/// Computes the balance costs of all machines again.
pub(crate) fn renew_all_balances(inst: &Instance, rows: &Rows<'_>, balances: &mut Fixed<u128>)
    requires instance { rows.now.tables ≡ inst.now.tables }
    requires one_each { length balances.old.items ≡ machine_count inst.now.tables }
    ensures { (a : List Machine) → StandFor rows.now a → AreCosts balances.new.items
        (machine_count inst.now.tables) (machine_balance inst.now.tables a) }
{
    for m in 0..inst.machines() {
        balances.set(m as usize, balance_of(inst, rows, Machine(m)));
    }
}

/// Replaces the cost of one machine, and gives the new sum of all costs.
#[tactic(auto, using(crate::proofs::RenewalLaws::replaced))]
pub(crate) fn replace_cost(costs: &mut Fixed<u128>, sum: u128, m: Machine, cost: u128) -> u128
    requires machine { m.0 < length costs.old.items }
    requires sum { sum ≡ total (length costs.old.items) (slice_index costs.old.items) }
    requires sum_fits { sum < 2 ^ 127 }
    requires cost_fits { cost < 2 ^ 127 }
    ensures costs { costs.new.items ≡ slice_set costs.old.items m.0 cost }
    ensures sum { result ≡ total (length costs.old.items) (slice_index costs.new.items) }
    ensures bound { result ≤ sum + cost }
{
    let old = costs.get(m.0 as usize);
    costs.set(m.0 as usize, cost);
    sum - old + cost
}

/// Computes the load costs of the two machines of a step again, and gives the new sum of all.
pub(crate) fn renew_loads(
    inst: &Instance,
    rows: &Rows<'_>,
    loads: &mut Fixed<u128>,
    step: Step,
    before: u128,
) -> u128
    requires from { step.from.0 < machine_count inst.now.tables }
    requires to { step.to.0 < machine_count inst.now.tables }
    requires instance { rows.now.tables ≡ inst.now.tables }
    requires one_each { length loads.old.items ≡ machine_count inst.now.tables }
    requires sum { before ≡ total (length loads.old.items) (slice_index loads.old.items) }
    requires fits { before < 2 ^ 120 }
    ensures costs { (a : List Machine) → StandFor rows.now a → loads.new.items
        ≡ slice_set (slice_set loads.old.items step.from.0
        (machine_load inst.now.tables a step.from.0)) step.to.0
        (machine_load inst.now.tables a step.to.0) }
    ensures sum { result ≡ total (length loads.old.items) (slice_index loads.new.items) }
{
    let load = replace_cost(loads, before, step.from, load_of(inst, rows, step.from));
    replace_cost(loads, load, step.to, load_of(inst, rows, step.to))
}

/// Computes the balance costs of the two machines of a step again, and gives the new sum of all.
pub(crate) fn renew_balances(
    inst: &Instance,
    rows: &Rows<'_>,
    balances: &mut Fixed<u128>,
    step: Step,
    before: u128,
) -> u128
    requires from { step.from.0 < machine_count inst.now.tables }
    requires to { step.to.0 < machine_count inst.now.tables }
    requires instance { rows.now.tables ≡ inst.now.tables }
    requires one_each { length balances.old.items ≡ machine_count inst.now.tables }
    requires sum { before ≡ total (length balances.old.items) (slice_index balances.old.items) }
    requires fits { before < 2 ^ 120 }
    ensures costs { (a : List Machine) → StandFor rows.now a → balances.new.items
        ≡ slice_set (slice_set balances.old.items step.from.0
        (machine_balance inst.now.tables a step.from.0)) step.to.0
        (machine_balance inst.now.tables a step.to.0) }
    ensures sum { result ≡ total (length balances.old.items) (slice_index balances.new.items) }
{
    let balance = replace_cost(
        balances,
        before,
        step.from,
        balance_of(inst, rows, step.from),
    );
    replace_cost(balances, balance, step.to, balance_of(inst, rows, step.to))
}
