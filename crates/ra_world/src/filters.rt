ghost use Rattle.std.specs.Prelude.{◌≡◌, ◌≢◌, ℕ, ◌+◌, ◌-◌, ◌*◌, ◌%◌, ◌^◌, ◌<◌, ◌≤◌, min, List, length, slice_index, IfOk};
ghost use Rattle.ra_base.specs.declared.ids.Machine.{Machine};
ghost use Rattle.ra_model.specs.Numbers.{resource_count, machine_count, balance_count};
ghost use Rattle.ra_rows.specs.Rows.{StandFor, IsUsageRow};
ghost use Rattle.ra_rows.specs.FilterRows.{load_row, first_row, second_row};
ghost use Rattle.ra_world.specs.FilterTables.{filter_row_count, filter_width, capped_row, AreAlikeElsewhere, IsRowTable, IsColumnSet, ArePlacesSet};

use crate::costs::row_left;
use ra_base::{Fixed, Machine, NoMemory, Resource};
use ra_model::{Instance, copies};
use ra_moves::Step;
use ra_rows::Rows;
use std::alloc::Global;

/// A greater number of a filter row counts as this one.
const CAP: u64 = 1 << 30;

/// A weight times the amount by which one number exceeds another, capped.
fn capped_excess(weight: u32, more: u64, less: u64) -> u32
    ensures { result ≡ min (weight * (more - less)) (2 ^ 30) }
{
    let excess = more.saturating_sub(less).min(CAP);
    (u64::from(weight) * excess).min(CAP) as u32
}

/// What a machine has in the row of a resource.
#[tactic(auto, unfolding(ra_rows::specs::FilterRows::load_row))]
fn load_number(inst: &Instance, m: Machine, row: &[u64], r: Resource) -> u32
    requires machine { m.0 < machine_count inst.now.tables }
    requires resource { r.0 < resource_count inst.now.tables }
    requires width { length row.now ≡ resource_count inst.now.tables }
    ensures { (a : List Machine) → IsUsageRow inst.now.tables a m.0 row.now →
        result ≡ min (load_row inst.now.tables a m.0 r.0) (2 ^ 30) }
{
    let safety = u64::from(inst.safety(m, r));
    capped_excess(inst.load_weight(r), safety, row[r.0 as usize])
}

/// What a machine has in the first row of an objective.
fn first_number(inst: &Instance, m: Machine, row: &[u64], b: u32) -> u32
    requires machine { m.0 < machine_count inst.now.tables }
    requires objective { b < balance_count inst.now.tables }
    requires width { length row.now ≡ resource_count inst.now.tables }
    ensures { (a : List Machine) → IsUsageRow inst.now.tables a m.0 row.now →
        result ≡ min (first_row inst.now.tables a m.0 b) (2 ^ 30) }
{
    let objective = inst.balance(b);
    let first = row_left(inst, m, row, objective.first);
    let second = row_left(inst, m, row, objective.second);
    capped_excess(
        objective.weight,
        u64::from(objective.target) * first,
        second,
    )
}

/// What a machine has in the second row of an objective.
fn second_number(inst: &Instance, m: Machine, row: &[u64], b: u32) -> u32
    requires machine { m.0 < machine_count inst.now.tables }
    requires objective { b < balance_count inst.now.tables }
    requires width { length row.now ≡ resource_count inst.now.tables }
    ensures { (a : List Machine) → IsUsageRow inst.now.tables a m.0 row.now →
        result ≡ min (second_row inst.now.tables a m.0 b) (2 ^ 30) }
{
    let objective = inst.balance(b);
    let first = row_left(inst, m, row, objective.first);
    let second = row_left(inst, m, row, objective.second);
    capped_excess(
        objective.weight,
        second,
        u64::from(objective.target) * first,
    )
}

/// What a machine has in a row.
#[tactic(auto, unfolding(crate::specs::FilterTables::filter_row))]
fn number_of(inst: &Instance, m: Machine, row: &[u64], j: u32) -> u32
    requires machine { m.0 < machine_count inst.now.tables }
    requires row { j < filter_row_count inst.now.tables }
    requires width { length row.now ≡ resource_count inst.now.tables }
    ensures { (a : List Machine) → IsUsageRow inst.now.tables a m.0 row.now →
        result ≡ capped_row inst.now.tables a m.0 j }
{
    let resources = inst.resources();
    let balances = inst.balances();
    if j < resources {
        return load_number(inst, m, row, Resource(j));
    }
    if j < resources + balances {
        return first_number(inst, m, row, j - resources);
    }
    second_number(inst, m, row, j - resources - balances)
}

/// Writes a number at the places of a machine in a row.
fn set_places(inst: &Instance, table: &mut Fixed<u32>, m: Machine, j: u32, number: u32)
    requires machine { m.0 < machine_count inst.now.tables }
    requires row { j < filter_row_count inst.now.tables }
    requires grid { length table.old.items ≡
        filter_row_count inst.now.tables * filter_width inst.now.tables }
    ensures { ArePlacesSet inst.now.tables m.0 j (filter_width inst.now.tables) number
        table.old.items table.new.items }
{
    let machines = inst.machines() as usize;
    let width = machines + 63;
    let mut place = m.0 as usize;
    while place < width {
        table.set(j as usize * width + place, number);
        place += machines;
    }
}

/// Computes the numbers of a machine in all rows again, from its row of use.
fn set_column(inst: &Instance, table: &mut Fixed<u32>, m: Machine, row: &[u64])
    requires machine { m.0 < machine_count inst.now.tables }
    requires width { length row.now ≡ resource_count inst.now.tables }
    requires grid { length table.old.items ≡
        filter_row_count inst.now.tables * filter_width inst.now.tables }
    ensures many { length table.new.items ≡ length table.old.items }
    ensures column { (a : List Machine) → IsUsageRow inst.now.tables a m.0 row.now →
        IsColumnSet inst.now.tables m.0 (filter_row_count inst.now.tables)
        (capped_row inst.now.tables a m.0) table.old.items table.new.items }
{
    let many = inst.resources() + inst.balances() + inst.balances();
    for j in 0..many {
        let number = number_of(inst, m, row, j);
        set_places(inst, table, m, j, number);
    }
}

/// Computes the numbers of a machine in all rows again, for the assignment that the rows of use represent.
fn renew_column(inst: &Instance, rows: &Rows<'_>, table: &mut Fixed<u32>, m: Machine)
    requires machine { m.0 < machine_count inst.now.tables }
    requires instance { rows.now.tables ≡ inst.now.tables }
    requires grid { length table.old.items ≡
        filter_row_count inst.now.tables * filter_width inst.now.tables }
    ensures many { length table.new.items ≡ length table.old.items }
    ensures column { (a : List Machine) → StandFor rows.now a →
        IsColumnSet inst.now.tables m.0 (filter_row_count inst.now.tables)
        (capped_row inst.now.tables a m.0) table.old.items table.new.items }
{
    set_column(inst, table, m, rows.usage_row(m));
}

/// The filter rows of all machines.
pub(crate) fn filters_of(
    alloc: Global,
    inst: &Instance,
    rows: &Rows<'_>,
) -> Result<Fixed<u32>, NoMemory>
    requires { rows.now.tables ≡ inst.now.tables }
    ensures { IfOk result (λ table. (a : List Machine) → StandFor rows.now a →
        IsRowTable inst.now.tables a table.items) }
{
    let many = inst.resources() + inst.balances() + inst.balances();
    let width = inst.machines() as usize + 63;
    let mut table = copies(alloc, many as usize * width, 0u32)?;
    renew_all_filters(inst, rows, &mut table);
    Ok(table)
}

/// Computes the filter rows of all machines again.
pub(crate) fn renew_all_filters(inst: &Instance, rows: &Rows<'_>, table: &mut Fixed<u32>)
    requires instance { rows.now.tables ≡ inst.now.tables }
    requires grid { length table.old.items ≡
        filter_row_count inst.now.tables * filter_width inst.now.tables }
    ensures { (a : List Machine) → StandFor rows.now a →
        IsRowTable inst.now.tables a table.new.items }
{
    for m in 0..inst.machines() {
        renew_column(inst, rows, table, Machine(m));
    }
}

/// Computes the filter rows of the two machines of a step again.
pub(crate) fn renew_filters(inst: &Instance, rows: &Rows<'_>, table: &mut Fixed<u32>, step: Step)
    requires from { step.from.0 < machine_count inst.now.tables }
    requires to { step.to.0 < machine_count inst.now.tables }
    requires instance { rows.now.tables ≡ inst.now.tables }
    requires grid { length table.old.items ≡
        filter_row_count inst.now.tables * filter_width inst.now.tables }
    ensures { (a b : List Machine) → StandFor rows.now b →
        AreAlikeElsewhere inst.now.tables a b step.from.0 step.to.0 →
        IsRowTable inst.now.tables a table.old.items →
        IsRowTable inst.now.tables b table.new.items }
{
    renew_column(inst, rows, table, step.from);
    renew_column(inst, rows, table, step.to);
}
