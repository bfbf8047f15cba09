ghost use Rattle.std.specs.Prelude.{◌≡◌, ℕ, ◌+◌, ◌*◌, ◌<◌, ◌≤◌, length, None, IfOk};
ghost use Rattle.ra_model.specs.Numbers.{resource_count, machine_count, process_count, way_cost_of};
ghost use Rattle.ra_model.specs.Assignments.{IsAssignment};
ghost use Rattle.ra_model.specs.Costs.{parts_of};
ghost use Rattle.ra_model.specs.MachineCosts.{machine_load, machine_balance};
ghost use Rattle.ra_model.specs.Situations.{situation, parts_at, IsSound};
ghost use Rattle.ra_topology.specs.Fits.{IsTopologyOf};
ghost use Rattle.ra_topology.specs.Starts.{IsFeasibleStart};
ghost use Rattle.ra_moves.specs.Steps.{StandsAt, from_in, to_in};
ghost use Rattle.ra_moves.specs.Replacing.{after_move};
ghost use Rattle.ra_moves.specs.Judging.{broken_by};
ghost use Rattle.ra_rows.specs.Rows as rows;
ghost use Rattle.ra_cells.specs.Stands as cells;
ghost use Rattle.ra_world.specs.FilterTables.{IsRowTable};
ghost use Rattle.ra_world.specs.Keeping.{Keeps};
ghost use Rattle.ra_world.specs.Differing.{differing};

use crate::filters::filters_of;
use crate::following::follow;
use crate::kept::Kept;
use crate::renewal::{balances_of, loads_of, stays_of};
use crate::standing::stand_at;
use ra_base::{Assignment, Fixed, Machine, NoMemory, Parts, Steps};
use ra_cells::Cells;
use ra_model::{Instance, copied};
use ra_moves::{Divisors, Move};
use ra_rows::Rows;
use ra_topology::Topology;
use std::alloc::Global;
use std::marker::Model;
use std::sync::ledger::Ledger;

/// The replica of a feasible assignment of an instance, reached from an initial one: the assignment itself, its use and
/// its counters, the cost of each machine and the parts of its cost. `apply` changes all of them by a move. At all
/// times a world gives what the definitions say of its situation. Only `make` takes memory.
#[derive(Drop)]
pub struct World<'a> {
    inst: &'a Instance,
    topo: &'a Topology,
    start: &'a Assignment,
    /// What the way from each machine to itself costs.
    stays: Fixed<u32>,
    /// What the words of a proposal are divided by.
    divisors: Divisors,
    kept: Kept<'a>,
}

impl<'a> Model for World<'a> {
    ghost use Rattle.ra_model.specs.Situations.{Situation, situation};
    ghost use Rattle.ra_world.specs.Keeping.{IsWorld};

    ghost Value = { Situation };

    ghost view = { λ w. situation w.inst.now.tables w.start.now.items w.kept.assignment.items };

    ghost invariant = { λ w. IsWorld w.inst.now.tables w.start.now.items w.topo.now
        w.stays.items w.divisors w.kept };
}

impl<'a> World<'a> {
    /// The world of an initial assignment that is feasible, whose cost has these parts.
    pub fn make(
        alloc: Global,
        inst: &'a Instance,
        topo: &'a Topology,
        a0: &'a Assignment,
        start: Parts,
    ) -> Result<World<'a>, NoMemory>
        requires { IsFeasibleStart inst.now.tables topo.now a0.now.items start }
        ensures { IfOk result (λ world. world ≡
            situation inst.now.tables a0.now.items a0.now.items) }
    {
        let stays = stays_of(alloc, inst)?;
        let kept = kept_of(alloc, inst, a0, start)?;
        Ok(World {
            inst,
            topo,
            start: a0,
            stays,
            divisors: Divisors::of(inst.processes(), inst.machines()),
            kept,
        })
    }

    /// The assignment that the world represents.
    pub fn assignment(&self) -> &Assignment
        ensures value { result.now.items ≡ self.now.here }
        ensures fits { IsAssignment self.now.tables result.now.items }
        ensures sound { IsSound self.now }
    {
        &self.kept.assignment
    }

    /// The parts of its cost.
    pub fn parts(&self) -> Parts
        ensures value { result ≡ parts_at self.now }
        ensures sound { IsSound self.now }
    {
        self.kept.parts
    }

    /// The initial assignment.
    pub fn initial(&self) -> &'a Assignment
        ensures value { result.now.items ≡ self.now.start }
        ensures sound { IsSound self.now }
    {
        self.start
    }

    /// The rows of its use and of its transient use.
    pub fn rows(&self) -> &Rows<'a>
        ensures instance { result.now.tables ≡ self.now.tables }
        ensures initial { result.now.start ≡ self.now.start }
        ensures stand { rows.StandFor result.now self.now.here }
        ensures sound { IsSound self.now }
    {
        &self.kept.rows
    }

    /// The counters of its services.
    pub fn cells(&self) -> &Cells<'a>
        ensures instance { result.now.inst.now.tables ≡ self.now.tables }
        ensures stand { cells.StandFor result.now self.now.tables self.now.start self.now.here }
        ensures sound { IsSound self.now }
    {
        &self.kept.cells
    }

    /// The instance.
    pub fn instance(&self) -> &'a Instance
        ensures value { result.now.tables ≡ self.now.tables }
        ensures sound { IsSound self.now }
    {
        self.inst
    }

    /// What the words of a proposal are divided by: the number of processes and that of machines.
    #[inline(always)]
    pub fn divisors(&self) -> &Divisors
        ensures processes { result.now.processes.number ≡ process_count self.now.tables }
        ensures machines { result.now.machines.number ≡ machine_count self.now.tables }
        ensures sound { IsSound self.now }
    {
        &self.divisors
    }

    /// The topology of the instance.
    pub fn topology(&self) -> &'a Topology
        ensures fits { IsTopologyOf result.now self.now.tables }
        ensures sound { IsSound self.now }
    {
        self.topo
    }

    /// What the way from a machine to another costs, before the weight. Most processes are on their initial machines, and
    /// the ways of these machines to themselves stand in a short list, since the list of all ways is far too long for the
    /// processor's cache.
    #[inline(always)]
    pub fn way(&self, from: Machine, to: Machine) -> u32
        requires from { from.0 < machine_count self.now.tables }
        requires to { to.0 < machine_count self.now.tables }
        ensures { result ≡ way_cost_of self.now.tables from.0 to.0 }
    {
        if from.0 == to.0 {
            return self.stays.get(from.0 as usize);
        }
        self.inst.move_cost(from, to)
    }

    /// What a machine adds to the load cost.
    pub fn machine_load(&self, m: Machine) -> u128
        requires { m.0 < machine_count self.now.tables }
        ensures value { result ≡ machine_load self.now.tables self.now.here m.0 }
        ensures sound { IsSound self.now }
    {
        self.kept.loads.get(m.0 as usize)
    }

    /// What a machine adds to the balance cost.
    pub fn machine_balance(&self, m: Machine) -> u128
        requires { m.0 < machine_count self.now.tables }
        ensures value { result ≡ machine_balance self.now.tables self.now.here m.0 }
        ensures sound { IsSound self.now }
    {
        self.kept.balances.get(m.0 as usize)
    }

    /// The filter rows of all machines, row after row: how much a machine has of each resource and for each balance
    /// objective before the cost rises with a process that comes.
    pub fn filter_rows(&self) -> &[u32]
        ensures rows { IsRowTable self.now.tables self.now.here result.now }
        ensures sound { IsSound self.now }
    {
        self.kept.filters.as_slice()
    }

    /// Follows a move that the judge refuses for no cause other than Rise. It reads the requirements of the move's
    /// processes, each once, and takes no time for the other processes.
    pub fn apply<L: Ledger>(&mut self, mv: &Move, steps: &mut Steps<L>)
        requires at_from { StandsAt from_in mv.now.steps self.old.here }
        requires to { (j : ℕ) → j < length mv.now.steps →
            to_in mv.now.steps j < machine_count self.old.tables }
        requires unbroken { broken_by self.old mv.now.steps ≡ None }
        ensures moved { self.new ≡ after_move self.old mv.now.steps }
        ensures counted { steps.new ≡
            steps.old + length mv.now.steps * resource_count self.old.tables }
        ensures at_most { steps.new ≤ steps.old + 3 * resource_count self.old.tables }
    {
        let inst = self.inst;
        let start = self.start;
        follow(inst, start, &mut self.kept, mv, steps);
    }

    /// Stands at another feasible list of the same instance and initial list, whose cost has these parts. It takes no
    /// memory. It compares each process once, reads the requirements of each that moves, and renews one row a machine.
    pub fn stand_at<L: Ledger>(&mut self, list: &Assignment, parts: Parts, steps: &mut Steps<L>)
        requires sound { IsSound (record self.old { here = list.now.items }) }
        requires parts { parts ≡ parts_at (record self.old { here = list.now.items }) }
        ensures stands { self.new ≡ record self.old { here = list.now.items } }
        ensures counted { steps.new ≡ steps.old +
            differing (process_count self.old.tables) self.old.here list.now.items
            * resource_count self.old.tables }
        ensures at_most { steps.new ≤
            steps.old + process_count self.old.tables * resource_count self.old.tables }
    {
        let inst = self.inst;
        stand_at(inst, &mut self.kept, list, parts, steps);
    }
}

/// All that is kept for an initial assignment whose cost has these parts.
fn kept_of<'a>(
    alloc: Global,
    inst: &'a Instance,
    a0: &'a Assignment,
    parts: Parts,
) -> Result<Kept<'a>, NoMemory>
    requires fits { IsAssignment inst.now.tables a0.now.items }
    requires parts { parts ≡ parts_of inst.now.tables a0.now.items a0.now.items }
    ensures keeps { IfOk result (λ kept. Keeps kept inst.now.tables a0.now.items) }
    ensures assignment { IfOk result (λ kept. kept.assignment.items ≡ a0.now.items) }
{
    let assignment = copied(alloc, a0)?;
    let rows = Rows::make(alloc, inst, a0)?;
    let cells = Cells::make(alloc, inst, a0)?;
    let loads = loads_of(alloc, inst, &rows)?;
    let balances = balances_of(alloc, inst, &rows)?;
    let filters = filters_of(alloc, inst, &rows)?;
    Ok(Kept {
        assignment,
        rows,
        cells,
        loads,
        balances,
        filters,
        parts,
    })
}
