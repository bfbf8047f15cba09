ghost use Rattle.std.specs.Prelude.{◌≡◌, ◌≢◌, ◌<◌, ◌≤◌, length, slice_set};
ghost use Rattle.ra_model.specs.Numbers.{machine_count, process_count};
ghost use Rattle.ra_model.specs.Assignments.{IsAssignment, machine_at};
ghost use Rattle.ra_moves.specs.Replacing.{applied, turned};
ghost use Rattle.ra_topology.specs.Fits.{IsTopologyOf};
ghost use Rattle.ra_repair.specs.Following.{AreSteps, AreMade};
ghost use Rattle.ra_repair.specs.Keeping.{StandsForKept, KeepsPenalty};

use crate::kept::Kept;
use crate::touched::touched;
use ra_base::{Assignment, Machine, Process, Steps};
use ra_model::Instance;
use ra_moves::{Move, Step};
use ra_topology::Topology;
use std::sync::ledger::Ledger;

/// Follows the steps of a move, one after another.
pub(crate) fn follow<L: Ledger>(
    inst: &Instance,
    topo: &Topology,
    start: &Assignment,
    kept: &mut Kept<'_>,
    mv: &Move,
    steps: &mut Steps<L>,
)
    requires start { IsAssignment inst.now.tables start.now.items }
    requires topology { IsTopologyOf topo.now inst.now.tables }
    requires keeps { KeepsPenalty kept.old inst.now.tables start.now.items }
    requires moves { AreSteps inst.now.tables kept.old.assignment.items mv.now.steps }
    ensures keeps { KeepsPenalty kept.new inst.now.tables start.now.items }
    ensures assignment { kept.new.assignment.items ≡
        applied kept.old.assignment.items mv.now.steps }
{
    for j in 0..mv.steps() {
        follow_step(inst, topo, start, kept, mv.step(j), steps);
    }
}

/// Follows one step. The penalty changes by the difference, before and after, of those parts that the step's process
/// can change.
pub(crate) fn follow_step<L: Ledger>(
    inst: &Instance,
    topo: &Topology,
    start: &Assignment,
    kept: &mut Kept<'_>,
    step: Step,
    steps: &mut Steps<L>,
)
    requires start { IsAssignment inst.now.tables start.now.items }
    requires topology { IsTopologyOf topo.now inst.now.tables }
    requires keeps { KeepsPenalty kept.old inst.now.tables start.now.items }
    requires process { step.process.0 < process_count inst.now.tables }
    requires to { step.to.0 < machine_count inst.now.tables }
    requires apart { step.from.0 ≢ step.to.0 }
    requires at_from { machine_at kept.old.assignment.items step.process.0 ≡ step.from.0 }
    ensures keeps { KeepsPenalty kept.new inst.now.tables start.now.items }
    ensures assignment { kept.new.assignment.items ≡
        slice_set kept.old.assignment.items step.process.0 step.to }
{
    let before = touched(inst, topo, start, kept, step);
    put(inst, start, kept, step.process, step.from, step.to, steps);
    let after = touched(inst, topo, start, kept, step);
    kept.penalty = kept.penalty + u128::from(after) - u128::from(before);
}

/// Takes the steps of a move back, one after another. The kept penalty stays as it is.
pub(crate) fn go_back<L: Ledger>(
    inst: &Instance,
    start: &Assignment,
    kept: &mut Kept<'_>,
    mv: &Move,
    steps: &mut Steps<L>,
)
    requires stands { StandsForKept kept.old inst.now.tables start.now.items }
    requires made { AreMade inst.now.tables kept.old.assignment.items mv.now.steps }
    ensures stands { StandsForKept kept.new inst.now.tables start.now.items }
    ensures assignment { kept.new.assignment.items ≡
        applied kept.old.assignment.items (turned mv.now.steps) }
    ensures penalty { kept.new.penalty ≡ kept.old.penalty }
{
    for j in 0..mv.steps() {
        let step = mv.step(j);
        put(inst, start, kept, step.process, step.to, step.from, steps);
    }
}

/// Moves a process to another machine. The kept penalty stays as it is.
fn put<L: Ledger>(
    inst: &Instance,
    start: &Assignment,
    kept: &mut Kept<'_>,
    p: Process,
    from: Machine,
    to: Machine,
    steps: &mut Steps<L>,
)
    requires stands { StandsForKept kept.old inst.now.tables start.now.items }
    requires process { p.0 < process_count inst.now.tables }
    requires to { to.0 < machine_count inst.now.tables }
    requires apart { from.0 ≢ to.0 }
    requires at_from { machine_at kept.old.assignment.items p.0 ≡ from.0 }
    ensures stands { StandsForKept kept.new inst.now.tables start.now.items }
    ensures assignment { kept.new.assignment.items ≡
        slice_set kept.old.assignment.items p.0 to }
    ensures penalty { kept.new.penalty ≡ kept.old.penalty }
{
    kept.rows.shift(p, from, to, steps);
    kept.cells.change(p, from, to);
    kept.assignment.set(p.0 as usize, to);
}
