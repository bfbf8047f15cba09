ghost use Rattle.std.specs.Prelude.{◌≡◌, ◌*◌, ◌^◌, ◌<◌, length, replicate};
ghost use Rattle.ra_model.specs.Numbers.{resource_count, machine_count, process_count};
ghost use Rattle.ra_model.specs.Assignments.{IsAssignment};
ghost use Rattle.ra_model.specs.Usage.{use_share};
ghost use Rattle.ra_rows.specs.Rows.{IsBelow};
ghost use Rattle.ra_rows.specs.Changes.{IsTally, Adds};

use crate::cells::add_to_cell;
use ra_base::{Assignment, Fixed, Machine, Process, Resource, Steps};
use ra_model::{Instance, machine_of};
use std::sync::ledger::{Blank, Ledger};

/// Adds up the use of each machine's resources, in a table that starts with zeros.
pub(crate) fn sum_usage<L: Ledger>(
    inst: &Instance,
    a: &Assignment,
    table: &mut Fixed<u64>,
    blank: Blank,
)
    requires name { blank.name ≡ L.name }
    requires parts { blank.parts ≡ L.parts }
    requires some { 0 < blank.parts }
    requires fits { IsAssignment inst.now.tables a.now.items }
    requires zeros { table.old.items ≡
        replicate (machine_count inst.now.tables * resource_count inst.now.tables) 0 }
    ensures sums { IsTally (resource_count inst.now.tables) (process_count inst.now.tables)
        (use_share inst.now.tables) a.now.items table.new.items }
    ensures grid { length table.new.items ≡
        machine_count inst.now.tables * resource_count inst.now.tables }
{
    let mut steps = Steps::<L>::make(blank);
    for p in 0..inst.processes() {
        let at = machine_of(a, Process(p));
        add_row(inst, Process(p), at, table, &mut steps);
    }
}

/// Adds what a process requires to the row of a machine.
fn add_row<L: Ledger>(
    inst: &Instance,
    p: Process,
    at: Machine,
    table: &mut Fixed<u64>,
    steps: &mut Steps<L>,
)
    requires process { p.0 < process_count inst.now.tables }
    requires at { at.0 < machine_count inst.now.tables }
    requires grid { length table.old.items ≡
        machine_count inst.now.tables * resource_count inst.now.tables }
    requires below { IsBelow (resource_count inst.now.tables) (2 ^ 48) table.old.items }
    ensures { Adds (resource_count inst.now.tables)
        (use_share inst.now.tables) p.0 at.0 table.old.items table.new.items }
{
    let width = inst.resources();
    for r in 0..width {
        let amount = inst.requirement(p, Resource(r), steps);
        add_to_cell(table, width, at.0, r, amount);
    }
}
