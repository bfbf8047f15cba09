//! What the lists cost after an edit, computed from what the edit touches.
ghost use Rattle.std.specs.Prelude.{◌≡◌, ◌+◌, ◌*◌, ◌^◌, ◌<◌, ◌≤◌, length};
ghost use Rattle.ra_model.specs.Assignments.{machine_at};
ghost use Rattle.ra_model.specs.Costs.{process_share};
ghost use Rattle.ra_model.specs.Numbers.{resource_count, machine_count, way_cost_of, process_weight_of, machine_weight_of};
ghost use Rattle.ra_edit.specs.Drafts.{Drafted};
ghost use Rattle.ra_edit.specs.Loads.{AreLoadsOf, IsUseRow};
ghost use Rattle.ra_edit.specs.Keeping.{drafted, tables_with, IsKeptDraft, IsSoundDraft};
ghost use Rattle.ra_edit.specs.MachineCosts.{AreCostsOn, AreCostsWith};

use crate::lists::{Lists, machine_of};
use crate::loads::Loads;
use crate::scanning::small;
use ra_base::{Machine, Parts, Process};
use ra_model::Instance;
use ra_world::{row_balance, row_load};

/// The load cost and the balance cost of a machine.
#[derive(Clone, Copy)]
pub(crate) struct MachineCosts {
    pub(crate) load: u128,
    pub(crate) balance: u128,
}

/// What a machine with this use costs.
fn costs_on(inst: &Instance, m: Machine, row: &[u64]) -> MachineCosts
    requires machine { m.0 < machine_count inst.now.tables }
    requires one_each { length row.now ≡ resource_count inst.now.tables }
    ensures costs { (e : Drafted) → e.origin ≡ inst.now.tables → IsUseRow e m.0 row.now →
        AreCostsOn e m.0 result }
    ensures load_small { result.load ≤ 20 * 2 ^ 96 }
    ensures balance_small { result.balance ≤ 10 * 2 ^ 96 }
{
    MachineCosts {
        load: row_load(inst, m, row),
        balance: row_balance(inst, m, row),
    }
}

/// The load cost and the balance cost of all machines, if one machine has this use instead.
pub(crate) fn costs_with(
    inst: &Instance,
    lists: &Lists,
    loads: &Loads,
    cost: Parts,
    m: Machine,
    row: &[u64],
) -> MachineCosts
    requires kept { IsKeptDraft (drafted inst.now.tables lists.now) cost }
    requires loads { AreLoadsOf (drafted inst.now.tables lists.now) loads.now }
    requires machine { m.0 < machine_count inst.now.tables }
    requires one_each { length row.now ≡ resource_count inst.now.tables }
    ensures costs { (e : Drafted) → e.origin ≡ inst.now.tables → IsUseRow e m.0 row.now →
        AreCostsWith (drafted inst.now.tables lists.now) e m.0 cost result }
    ensures load_small { result.load < 2 ^ 120 }
    ensures balance_small { result.balance < 2 ^ 120 }
{
    small(inst, lists);
    let before = costs_on(inst, m, loads.use_row(inst, m));
    let after = costs_on(inst, m, row);
    MachineCosts {
        load: replaced(cost.load, before.load, after.load),
        balance: replaced(cost.balance, before.balance, after.balance),
    }
}

/// What a process adds to the process cost.
pub(crate) fn moved_share(inst: &Instance, lists: &Lists, p: Process) -> u128
    requires sound { IsSoundDraft (drafted inst.now.tables lists.now) }
    requires process { p.0 < length lists.now.rows.items }
    ensures { result ≡ process_weight_of inst.now.tables *
        process_share (tables_with inst.now.tables lists.now) lists.now.initial.items p.0
        (machine_at lists.now.current.items p.0) }
{
    if machine_of(&lists.current, p).0 == machine_of(&lists.initial, p).0 {
        return 0;
    }
    let row = lists.rows.get(p.0 as usize);
    u128::from(inst.process_weight()) * u128::from(row.move_cost)
}

/// What a process adds to the machine cost.
pub(crate) fn way_share(inst: &Instance, lists: &Lists, p: Process) -> u128
    requires sound { IsSoundDraft (drafted inst.now.tables lists.now) }
    requires process { p.0 < length lists.now.rows.items }
    ensures { result ≡ machine_weight_of inst.now.tables *
        way_cost_of inst.now.tables (machine_at lists.now.initial.items p.0)
        (machine_at lists.now.current.items p.0) }
{
    let way = inst.move_cost(machine_of(&lists.initial, p), machine_of(&lists.current, p));
    u128::from(inst.machine_weight()) * u128::from(way)
}

/// A sum with one term replaced.
fn replaced(sum: u128, before: u128, after: u128) -> u128
    requires counted { before ≤ sum }
    requires fits { sum + after < 2 ^ 128 }
    ensures { result + before ≡ sum + after }
{
    sum - before + after
}
