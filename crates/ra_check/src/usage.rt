ghost use Rattle.std.specs.Prelude.{◌≡◌, ◌^◌, ◌<◌, List, length};
ghost use Rattle.ra_base.specs.declared.ids.Machine.{Machine};
ghost use Rattle.ra_model.specs.Numbers.{resource_count, machine_count, process_count};
ghost use Rattle.ra_model.specs.Assignments.{IsAssignment, machine_at};
ghost use Rattle.ra_model.specs.Usage.{use_share, transient_share};
ghost use Rattle.ra_check.specs.Stands.{IsUsage, IsTransientUse, AddsShare, IsBelow};
ghost use Rattle.ra_check.specs.Made.{IsGrid};

use crate::scratch::fill;
use ra_base::{Assignment, Fixed, Machine, Process, Resource, Steps, add_to_cell};
use ra_model::{Instance, machine_of};
use std::sync::ledger::{Blank, Ledger};

/// Overwrites a table with the use of each machine's resources.
pub(crate) fn sum_usage<L: Ledger>(
    inst: &Instance,
    a: &Assignment,
    table: &mut Fixed<u64>,
    blank: Blank,
)
    requires name { blank.name ≡ L.name }
    requires parts { blank.parts ≡ L.parts }
    requires some { 0 < blank.parts }
    requires fits { IsAssignment inst.now.tables a.now.items }
    requires grid { IsGrid inst.now.tables table.old.items }
    ensures sums { IsUsage inst.now.tables a.now.items table.new.items }
    ensures grid { IsGrid inst.now.tables table.new.items }
{
    let mut steps = Steps::<L>::make(blank);
    let cells = table.len();
    fill(table, cells, 0);
    for p in 0..inst.processes() {
        let at = machine_of(a, Process(p));
        add_row(inst, Process(p), at, table, &mut steps);
    }
}

/// Overwrites a table with the transient use of each machine's resources.
pub(crate) fn sum_transient<L: Ledger>(
    inst: &Instance,
    a0: &Assignment,
    a: &Assignment,
    table: &mut Fixed<u64>,
    blank: Blank,
)
    requires name { blank.name ≡ L.name }
    requires parts { blank.parts ≡ L.parts }
    requires some { 0 < blank.parts }
    requires a0_fits { IsAssignment inst.now.tables a0.now.items }
    requires fits { IsAssignment inst.now.tables a.now.items }
    requires grid { IsGrid inst.now.tables table.old.items }
    ensures sums { IsTransientUse inst.now.tables a0.now.items a.now.items table.new.items }
    ensures grid { IsGrid inst.now.tables table.new.items }
{
    let mut steps = Steps::<L>::make(blank);
    let cells = table.len();
    fill(table, cells, 0);
    for p in 0..inst.processes() {
        let from = machine_of(a0, Process(p));
        let at = machine_of(a, Process(p));
        add_rows(inst, Process(p), from, at, table, &mut steps);
    }
}

/// Adds the requirements of a process to the row of the machine that it leaves and to that of the machine that it
/// enters, or once if the process stays.
fn add_rows<L: Ledger>(
    inst: &Instance,
    p: Process,
    from: Machine,
    at: Machine,
    table: &mut Fixed<u64>,
    steps: &mut Steps<L>,
)
    requires process { p.0 < process_count inst.now.tables }
    requires from { from.0 < machine_count inst.now.tables }
    requires at { at.0 < machine_count inst.now.tables }
    requires grid { IsGrid inst.now.tables table.old.items }
    requires below { IsBelow (resource_count inst.now.tables) (2 ^ 62) table.old.items }
    ensures adds { (a0 : List Machine) → machine_at a0 p.0 ≡ from.0 →
        AddsShare (resource_count inst.now.tables)
        (transient_share inst.now.tables a0) p.0 at.0 table.old.items table.new.items }
    ensures grid { length table.new.items ≡ length table.old.items }
{
    add_row(inst, p, from, table, steps);
    if from != at {
        add_row(inst, p, at, table, steps);
    }
}

/// Adds the requirements of a process to the row of a machine.
fn add_row<L: Ledger>(
    inst: &Instance,
    p: Process,
    at: Machine,
    table: &mut Fixed<u64>,
    steps: &mut Steps<L>,
)
    requires process { p.0 < process_count inst.now.tables }
    requires at { at.0 < machine_count inst.now.tables }
    requires grid { IsGrid inst.now.tables table.old.items }
    requires below { IsBelow (resource_count inst.now.tables) (2 ^ 63) table.old.items }
    ensures adds { AddsShare (resource_count inst.now.tables)
        (use_share inst.now.tables) p.0 at.0 table.old.items table.new.items }
    ensures grid { length table.new.items ≡ length table.old.items }
{
    for r in 0..inst.resources() {
        let amount = inst.requirement(p, Resource(r), steps);
        add_to_cell(table, inst.resources(), at.0, r, amount);
    }
}
