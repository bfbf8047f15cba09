ghost use Rattle.std.specs.Prelude.{◌≡◌, ◌*◌, ◌<◌, false, IfOk, replicate};
ghost use Rattle.ra_model.specs.Numbers.{resource_count, machine_count, process_count};
ghost use Rattle.ra_model.specs.Assignments.{IsAssignment};
ghost use Rattle.ra_pins.specs.Loads.{IsTallyTable, row_share};
ghost use Rattle.ra_pins.specs.Searches.{IsBetweenPasses};
ghost use Rattle.ra_pins.specs.declared.tables.Columns.TheVariants as columns;

use crate::tables::{Columns, add_row};
use ra_base::{Assignment, Fixed, NoMemory, Process, Steps};
use ra_model::{Instance, copies, machine_of};
use std::alloc::Global;
use std::marker::Brand;
use std::sync::ledger::{Blank, Ledger};

/// What the search for the pinned processes knows so far.
pub(crate) struct Search {
    /// For each process whether it is flagged, which means that it is known to stay.
    pub(crate) flags: Fixed<bool>,
    /// By machine, then resource: what is used at all times. If the resource is transient, all processes that start
    /// there count, else the flagged ones.
    pub(crate) kept: Fixed<u64>,
    /// For each process how many places after its own machine it has come, in the circle of all machines: it is blocked
    /// from each machine before that.
    pub(crate) places: Fixed<u32>,
    /// For each machine the last pass that flagged a process that starts there.
    pub(crate) fuller: Fixed<u32>,
    /// For each service whether one of its processes is flagged.
    pub(crate) touched: Fixed<bool>,
    /// For each machine the number, plus one, of a service of which a flagged process starts there.
    pub(crate) marks: Fixed<u32>,
}

/// Frees all lists in one call, so that the end of an owner is short to prove.
impl Drop for Search {
    fn drop(self) {
        let Search {
            flags: _,
            kept: _,
            places: _,
            fuller: _,
            touched: _,
            marks: _,
        } = self;
    }
}

impl Search {
    /// The search at its start: nothing is flagged, and each process looks at the next machine.
    pub(crate) fn make(alloc: Global, inst: &Instance, a0: &Assignment) -> Result<Search, NoMemory>
        requires fits { IsAssignment inst.now.tables a0.now.items }
        ensures { IfOk result (λ s. IsBetweenPasses inst.now.tables a0.now.items s 0) }
    {
        let processes = inst.processes() as usize;
        let machines = inst.machines() as usize;
        let kept = kept_at_start(alloc, inst, a0)?;
        let flags = copies(alloc, processes, false)?;
        let places = copies(alloc, processes, 1u32)?;
        let fuller = copies(alloc, machines, 0u32)?;
        let touched = copies(alloc, inst.services() as usize, false)?;
        let marks = copies(alloc, machines, 0u32)?;
        Ok(Search {
            flags,
            kept,
            places,
            fuller,
            touched,
            marks,
        })
    }

    /// The flags.
    pub(crate) fn into_flags(self) -> Fixed<bool>
        ensures { result ≡ self.flags }
    {
        let Search {
            flags,
            kept: _,
            places: _,
            fuller: _,
            touched: _,
            marks: _,
        } = self;
        flags
    }
}

/// What is kept at the start: what all processes require of the transient resources of their machines.
fn kept_at_start(alloc: Global, inst: &Instance, a0: &Assignment) -> Result<Fixed<u64>, NoMemory>
    requires { IsAssignment inst.now.tables a0.now.items }
    ensures { IfOk result (λ kept. IsTallyTable inst.now.tables (process_count inst.now.tables)
        (row_share inst.now.tables columns.Transient) a0.now.items kept.items) }
{
    let mut kept = copies(
        alloc,
        inst.machines() as usize * inst.resources() as usize,
        0u64,
    )?;
    keep_between::<Brand>(inst, a0, &mut kept, Blank::new(1));
    Ok(kept)
}

/// Adds to a table of zeros what all processes require of the transient resources of their machines.
fn keep_between<L: Ledger>(inst: &Instance, a0: &Assignment, table: &mut Fixed<u64>, blank: Blank)
    requires name { blank.name ≡ L.name }
    requires parts { blank.parts ≡ L.parts }
    requires some { 0 < blank.parts }
    requires fits { IsAssignment inst.now.tables a0.now.items }
    requires zeros { table.old.items ≡
        replicate (machine_count inst.now.tables * resource_count inst.now.tables) 0 }
    ensures { IsTallyTable inst.now.tables (process_count inst.now.tables)
        (row_share inst.now.tables columns.Transient) a0.now.items table.new.items }
{
    let mut steps = Steps::<L>::make(blank);
    for p in 0..inst.processes() {
        let at = machine_of(a0, Process(p));
        add_row(inst, Process(p), at, Columns::Transient, table, &mut steps);
    }
}
