ghost use Rattle.std.specs.Prelude.{◌≡◌, ◌<◌, [], ◌∷◌, length, IfOk};
ghost use Rattle.ra_draws.specs.Lots.{IsLots};
ghost use Rattle.ra_model.specs.Assignments.{IsAssignment};
ghost use Rattle.ra_topology.specs.Fits.{IsTopologyOf};
ghost use Rattle.ra_repair.specs.Keeping.{KeepsPenalty, StandsForKept};
ghost use Rattle.ra_repair.specs.Penalty.{penalty};

use crate::kept::Kept;
use crate::sums::penalty_now;
use crate::tries::Try;
use crate::trying::make_tries;
use ra_base::{Assignment, Fixed, NoMemory};
use ra_cells::Cells;
use ra_draws::Lot;
use ra_model::{Instance, copied};
use ra_rows::Rows;
use ra_topology::Topology;
use std::alloc::Global;
use std::marker::Brand;
use std::sync::ledger::Blank;

/// A repair of an initial assignment, which may break constraints: tries of moves, until the assignment is feasible or
/// the budget of the lot is used. Only `make` takes memory.
#[derive(Drop)]
pub struct Repair<'a> {
    inst: &'a Instance,
    topo: &'a Topology,
    start: &'a Assignment,
    lot: &'a Lot,
    kept: Kept<'a>,
    tries: Fixed<Try>,
    pub ghost fits: { IsAssignment inst.now.tables start.now.items },
    pub ghost topology: { IsTopologyOf topo.now inst.now.tables },
    pub ghost lot_fits: { IsLots (lot.now ∷ []) },
    pub ghost keeps: { KeepsPenalty kept inst.now.tables start.now.items },
    pub ghost room: { tries.room ≡ lot.now.budget },
}

impl<'a> Repair<'a> {
    ghost use Rattle.ra_repair.specs.Repairs.{IsFresh, IsRepaired, try_in};

    /// The repair of an initial assignment by the proposals of a lot, before the first try. It has room for one try for
    /// each proposal.
    pub fn make(
        alloc: Global,
        inst: &'a Instance,
        topo: &'a Topology,
        a0: &'a Assignment,
        lot: &'a Lot,
    ) -> Result<Repair<'a>, NoMemory>
        requires fits { IsAssignment inst.now.tables a0.now.items }
        requires topology { IsTopologyOf topo.now inst.now.tables }
        requires lot { IsLots (lot.now ∷ []) }
        ensures instance { IfOk result (λ repair. repair.inst.now ≡ inst.now) }
        ensures topology { IfOk result (λ repair. repair.topo.now ≡ topo.now) }
        ensures initial { IfOk result (λ repair. repair.start.now ≡ a0.now) }
        ensures lot { IfOk result (λ repair. repair.lot.now ≡ lot.now) }
        ensures fresh { IfOk result IsFresh }
    {
        let tries = Fixed::make(alloc, lot.budget as usize)?;
        let kept = kept_of(alloc, inst, topo, a0)?;
        Ok(Repair {
            inst,
            topo,
            start: a0,
            lot,
            kept,
            tries,
        })
    }

    /// Makes the tries, in turn, until the penalty is 0 or the budget of the lot is used.
    pub fn run(&mut self)
        requires { IsFresh self.old }
        ensures run { IsRepaired self.new }
        ensures instance { self.new.inst.now ≡ self.old.inst.now }
        ensures topology { self.new.topo.now ≡ self.old.topo.now }
        ensures initial { self.new.start.now ≡ self.old.start.now }
        ensures lot { self.new.lot.now ≡ self.old.lot.now }
    {
        let (inst, topo, start, lot) = (self.inst, self.topo, self.start, self.lot);
        make_tries::<Brand>(
            inst,
            topo,
            start,
            lot,
            &mut self.kept,
            &mut self.tries,
            Blank::new(1),
        );
    }

    /// How many tries were made.
    pub fn tries(&self) -> u64
        ensures { result ≡ length self.now.tries.items }
    {
        self.tries.len() as u64
    }

    /// A try, counted from 0.
    pub fn entry(&self, i: u64) -> Try
        requires { i < length self.now.tries.items }
        ensures { result ≡ try_in self.now.tries.items i }
    {
        self.tries.get(i as usize)
    }

    /// The assignment after the tries so far.
    pub fn assignment(&self) -> &Assignment
        ensures value { result.now ≡ self.now.kept.assignment }
        ensures fits { IsAssignment self.now.inst.now.tables result.now.items }
    {
        &self.kept.assignment
    }

    /// Its penalty, which is 0 exactly if it is feasible.
    pub fn penalty(&self) -> u128
        ensures { result ≡ penalty self.now.inst.now.tables self.now.start.now.items
            self.now.kept.assignment.items }
    {
        self.kept.penalty
    }
}

/// What is kept for an initial assignment.
fn kept_of<'a>(
    alloc: Global,
    inst: &'a Instance,
    topo: &Topology,
    a0: &'a Assignment,
) -> Result<Kept<'a>, NoMemory>
    requires fits { IsAssignment inst.now.tables a0.now.items }
    requires topology { IsTopologyOf topo.now inst.now.tables }
    ensures keeps { IfOk result (λ kept. KeepsPenalty kept inst.now.tables a0.now.items) }
    ensures assignment { IfOk result (λ kept. kept.assignment.items ≡ a0.now.items) }
{
    let mut kept = standing(alloc, inst, a0)?;
    kept.penalty = penalty_now(inst, topo, a0, &kept);
    Ok(kept)
}

/// A copy of an initial assignment with its rows and counters, before its penalty is summed up.
fn standing<'a>(alloc: Global, inst: &'a Instance, a0: &'a Assignment) -> Result<Kept<'a>, NoMemory>
    requires { IsAssignment inst.now.tables a0.now.items }
    ensures stands { IfOk result (λ kept. StandsForKept kept inst.now.tables a0.now.items) }
    ensures assignment { IfOk result (λ kept. kept.assignment.items ≡ a0.now.items) }
{
    let assignment = copied(alloc, a0)?;
    let rows = Rows::make(alloc, inst, a0)?;
    let cells = Cells::make(alloc, inst, a0)?;
    Ok(Kept {
        assignment,
        rows,
        cells,
        penalty: 0,
    })
}
