ghost use Rattle.std.specs.Prelude.{◌≡◌, ◌*◌, ◌^◌, ◌<◌, length};
ghost use Rattle.ra_model.specs.Numbers.{resource_count, machine_count, process_count};
ghost use Rattle.ra_pins.specs.Loads.{takes, amount_in, AddsRow, IsBelow};

use ra_base::{Fixed, Machine, Process, Resource, Steps, add_to_cell};
use ra_model::Instance;
use std::sync::ledger::Ledger;

/// Which resources count.
#[derive(Clone, Copy)]
pub(crate) enum Columns {
    All,
    Transient,
    Others,
}

/// Whether a resource counts.
#[tactic(auto, unfolding(crate::specs::Loads::takes))]
fn takes(columns: Columns, transient: bool) -> bool
    ensures { result ≡ takes columns transient }
{
    match columns {
        Columns::All => true,
        Columns::Transient => transient,
        Columns::Others => !transient,
    }
}

/// What a process requires of a resource if the resource counts, else 0.
#[tactic(auto, unfolding(crate::specs::Loads::amount_in))]
fn amount_in<L: Ledger>(
    inst: &Instance,
    p: Process,
    r: Resource,
    columns: Columns,
    steps: &mut Steps<L>,
) -> u32
    requires process { p.0 < process_count inst.now.tables }
    requires resource { r.0 < resource_count inst.now.tables }
    ensures { result ≡ amount_in inst.now.tables columns p.0 r.0 }
{
    if takes(columns, inst.transient(r)) {
        inst.requirement(p, r, steps)
    } else {
        0
    }
}

/// Adds what a process requires of the resources that count to the row of a machine.
pub(crate) fn add_row<L: Ledger>(
    inst: &Instance,
    p: Process,
    at: Machine,
    columns: Columns,
    table: &mut Fixed<u64>,
    steps: &mut Steps<L>,
)
    requires process { p.0 < process_count inst.now.tables }
    requires at { at.0 < machine_count inst.now.tables }
    requires grid { length table.old.items ≡
        machine_count inst.now.tables * resource_count inst.now.tables }
    requires below { IsBelow inst.now.tables (2 ^ 62) table.old.items }
    ensures { AddsRow inst.now.tables columns p.0 at.0 table.old.items table.new.items }
{
    let width = inst.resources();
    for r in 0..width {
        let amount = amount_in(inst, p, Resource(r), columns, steps);
        add_to_cell(table, width, at.0, r, amount);
    }
}
