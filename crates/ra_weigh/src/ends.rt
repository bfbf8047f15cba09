ghost use Rattle.std.specs.Prelude.{◌≡◌, ◌+◌, ◌*◌, ◌^◌, ◌<◌, ◌≤◌, List, length};
ghost use Rattle.ra_base.specs.Sums.{is_named, fresh};
ghost use Rattle.ra_base.specs.declared.ids.Machine.{Machine};
ghost use Rattle.ra_model.specs.Numbers.{resource_count, machine_count};
ghost use Rattle.ra_rows.specs.Rows.{IsUsageRow};
ghost use Rattle.ra_moves.specs.Replacing.{applied};
ghost use Rattle.ra_moves.specs.Values.{end_count, end_in};
ghost use Rattle.ra_moves.specs.Moving.{MayMove};
ghost use Rattle.ra_world.specs.Required.{AreRequiredRows};
ghost use Rattle.ra_weigh.specs.PlaceCosts.{row_cost};
ghost use Rattle.ra_weigh.specs.EndCosts.{IsChangeAtEnds};
ghost use Rattle.ra_weigh.specs.Exchanges.{IsExchange, IsExchangedAt};

use crate::amounts::Change;
use crate::exchanges::is_exchange;
use crate::rows::{exchange_row, required_row, row_after};
use ra_base::Machine;
use ra_model::Instance;
use ra_moves::Move;
use ra_world::{World, row_balance, row_load};

/// The change of the sum of load and balance cost: what the machines of the move cost after it, and what they cost now,
/// each machine once.
#[inline(always)]
#[tactic(auto, unfolding(ra_moves::specs::Values::end_count))]
pub(crate) fn change_at_ends(world: &World<'_>, mv: &Move, required: &[u32; 60]) -> Change
    requires moves { MayMove world.now mv.now.steps }
    requires required { AreRequiredRows world.now.tables mv.now.steps
        (length mv.now.steps) required.now }
    ensures { IsChangeAtEnds world.now mv.now.steps result }
{
    if is_exchange(mv) {
        return change_at_exchange(world, mv, required);
    }
    let mut change = Change { added: 0, taken: 0 };
    for j in 0..2 * mv.steps() {
        let here = change_at(world, mv, required, j);
        change.added += here.added;
        change.taken += here.taken;
    }
    change
}

/// The change of load and balance cost by an exchange, which changes only its two machines.
#[inline(always)]
fn change_at_exchange(world: &World<'_>, mv: &Move, required: &[u32; 60]) -> Change
    requires moves { MayMove world.now mv.now.steps }
    requires required { AreRequiredRows world.now.tables mv.now.steps
        (length mv.now.steps) required.now }
    requires exchange { IsExchange mv.now.steps }
    ensures { IsChangeAtEnds world.now mv.now.steps result }
{
    let step = mv.step(0);
    let first = cost_exchanged(world, mv, required, step.from, 1, 0);
    let second = cost_exchanged(world, mv, required, step.to, 0, 1);
    Change {
        added: first + second,
        taken: cost_now(world, step.from) + cost_now(world, step.to),
    }
}

/// What one of the two machines costs after the process of one step has come to it and that of the other step has gone.
#[inline(always)]
fn cost_exchanged(
    world: &World<'_>,
    mv: &Move,
    required: &[u32; 60],
    m: Machine,
    comes: u32,
    goes: u32,
) -> u128
    requires moves { MayMove world.now mv.now.steps }
    requires required { AreRequiredRows world.now.tables mv.now.steps
        (length mv.now.steps) required.now }
    requires machine { m.0 < machine_count world.now.tables }
    requires exchanged { IsExchangedAt mv.now.steps m.0 comes goes }
    ensures value { result ≡
        row_cost world.now.tables (applied world.now.here mv.now.steps) m.0 }
    ensures few { result ≤ 2 ^ 106 }
{
    let inst = world.instance();
    let width = inst.resources();
    let mut numbers = [0u64; 20];
    let row = &mut numbers[..width as usize];
    let used = world.rows().usage_row(m);
    let come = required_row(required, comes, width);
    let gone = required_row(required, goes, width);
    exchange_row(used, come, gone, row);
    cost_of_row(inst, m, row)
}

/// What the machine of one end adds to this change; nothing if an end before it has the same machine.
#[inline(always)]
#[tactic(auto, using(ra_base::proofs::Named::names, crate::proofs::MoveLemmas::end_known))]
fn change_at(world: &World<'_>, mv: &Move, required: &[u32; 60], j: u32) -> Change
    requires moves { MayMove world.now mv.now.steps }
    requires required { AreRequiredRows world.now.tables mv.now.steps
        (length mv.now.steps) required.now }
    requires end { j < end_count mv.now.steps }
    ensures added { result.added ≡ fresh (end_in mv.now.steps)
        (row_cost world.now.tables (applied world.now.here mv.now.steps)) j }
    ensures taken { result.taken ≡
        fresh (end_in mv.now.steps) (row_cost world.now.tables world.now.here) j }
    ensures added_few { result.added ≤ 2 ^ 106 }
    ensures taken_few { result.taken ≤ 2 ^ 106 }
{
    let m = end_of(mv, j);
    if is_named_before(mv, j, m) {
        return Change { added: 0, taken: 0 };
    }
    Change {
        added: cost_after(world, mv, required, m),
        taken: cost_now(world, m),
    }
}

/// The machine of an end: first the machines that the steps leave, then those that they enter.
#[inline(always)]
fn end_of(mv: &Move, j: u32) -> Machine
    requires { j < end_count mv.now.steps }
    ensures { result.0 ≡ end_in mv.now.steps j }
{
    let n = mv.steps();
    if j < n {
        mv.step(j).from
    } else {
        mv.step(j - n).to
    }
}

/// Whether an end before this one is of this machine.
#[inline(always)]
#[tactic(auto, using(ra_base::proofs::Named::names))]
fn is_named_before(mv: &Move, j: u32, m: Machine) -> bool
    requires { j < end_count mv.now.steps }
    ensures { result ≡ is_named j (end_in mv.now.steps) m.0 }
{
    for k in 0..j {
        if end_of(mv, k).0 == m.0 {
            return true;
        }
    }
    false
}

/// What a machine costs after the move.
#[inline(always)]
fn cost_after(world: &World<'_>, mv: &Move, required: &[u32; 60], m: Machine) -> u128
    requires moves { MayMove world.now mv.now.steps }
    requires required { AreRequiredRows world.now.tables mv.now.steps
        (length mv.now.steps) required.now }
    requires machine { m.0 < machine_count world.now.tables }
    ensures value { result ≡
        row_cost world.now.tables (applied world.now.here mv.now.steps) m.0 }
    ensures few { result ≤ 2 ^ 106 }
{
    let inst = world.instance();
    let mut numbers = [0u64; 20];
    let row = &mut numbers[..inst.resources() as usize];
    row_after(world, mv, required, m, row);
    cost_of_row(inst, m, row)
}

/// The load and balance cost of a machine with this use.
#[inline(always)]
fn cost_of_row(inst: &Instance, m: Machine, row: &[u64]) -> u128
    requires machine { m.0 < machine_count inst.now.tables }
    requires width { length row.now ≡ resource_count inst.now.tables }
    ensures value { (a : List Machine) → IsUsageRow inst.now.tables a m.0 row.now →
        result ≡ row_cost inst.now.tables a m.0 }
    ensures few { result ≤ 2 ^ 106 }
{
    row_load(inst, m, row) + row_balance(inst, m, row)
}

/// What a machine costs now.
#[inline(always)]
pub(crate) fn cost_now(world: &World<'_>, m: Machine) -> u128
    requires machine { m.0 < machine_count world.now.tables }
    ensures value { result ≡ row_cost world.now.tables world.now.here m.0 }
    ensures few { result ≤ 2 ^ 106 }
{
    world.machine_load(m) + world.machine_balance(m)
}
