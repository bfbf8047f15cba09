//! Cells beside the assignment that they represent.
ghost use Rattle.std.specs.Prelude.{◌≡◌, ◌<◌, IfOk};
ghost use Rattle.ra_model.specs.Numbers.{machine_count, service_count, process_count};
ghost use Rattle.ra_model.specs.Assignments.{IsAssignment};
ghost use Rattle.ra_cells.specs.Stands.{StandFor};

use ra_base::{Assignment, Fixed, Machine, NoMemory, Process};
use ra_cells::Cells;
use ra_model::Instance;
use std::alloc::Global;

/// Cells and the assignment that they represent.
#[derive(Drop)]
pub(super) struct Mirror<'a> {
    pub(super) inst: &'a Instance,
    pub(super) start: &'a Assignment,
    pub(super) now: Fixed<Machine>,
    pub(super) cells: Cells<'a>,
    pub ghost stand: { StandFor cells inst.now.tables start.now.items now.items },
}

impl<'a> Mirror<'a> {
    /// The cells of an initial assignment, and a copy of it.
    pub(super) fn make(
        alloc: Global,
        inst: &'a Instance,
        start: &'a Assignment,
    ) -> Result<Mirror<'a>, NoMemory>
        requires { IsAssignment inst.now.tables start.now.items }
    {
        let mut now = Fixed::make(alloc, start.len())?;
        now.extend_from_slice(start.as_slice());
        let cells = Cells::make(alloc, inst, start)?;
        Ok(Mirror {
            inst,
            start,
            now,
            cells,
        })
    }

    /// Moves process `p` to machine `to`; both numbers are taken modulo how many there are.
    #[tactic(auto, using(ra_cells::proofs::CellLemmas::standing))]
    pub(super) fn put(&mut self, p: u32, to: u32) {
        let p = Process(p % self.inst.processes());
        let to = Machine(to % self.inst.machines());
        let from = self.now.get(p.0 as usize);
        if from.0 != to.0 {
            self.cells.change(p, from, to);
            self.now.set(p.0 as usize, to);
        }
    }
}
