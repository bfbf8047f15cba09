//! The processes of an instance, copied from its accessors.
ghost use Rattle.std.specs.Prelude.{◌≡◌, ◌<◌, IfOk};

use ra_base::{Fixed, NoMemory, Process, Resource, Steps};
use ra_model::{Instance, ProcessRow};
use std::alloc::Global;
use std::sync::ledger::{Blank, Ledger};

/// The processes.
#[tactic(auto, using(crate::proofs::CopyLaws::processes))]
pub(crate) fn processes_of(alloc: Global, inst: &Instance) -> Result<Fixed<ProcessRow>, NoMemory>
    ensures { IfOk result (λ rows. rows.items ≡ inst.now.tables.raw.processes.items) }
{
    let mut rows = Fixed::make(alloc, inst.processes() as usize)?;
    for p in 0..inst.processes() {
        rows.push(ProcessRow {
            service: inst.service_of(Process(p)),
            move_cost: inst.process_cost(Process(p)),
        });
    }
    Ok(rows)
}

/// What the processes require, by process, then resource.
#[tactic(auto, using(crate::proofs::CopyLaws::requirements))]
pub(crate) fn requirements_of<L: Ledger>(
    alloc: Global,
    inst: &Instance,
    blank: Blank,
) -> Result<Fixed<u32>, NoMemory>
    requires name { blank.name ≡ L.name }
    requires parts { blank.parts ≡ L.parts }
    requires some { 0 < blank.parts }
    ensures { IfOk result (λ table. table.items ≡ inst.now.tables.raw.requirements.items) }
{
    let mut steps = Steps::<L>::make(blank);
    let width = inst.resources();
    let size = inst.processes() * width;
    let mut table = Fixed::make(alloc, size as usize)?;
    for k in 0..size {
        table.push(inst.requirement(Process(k / width), Resource(k % width), &mut steps));
    }
    Ok(table)
}
