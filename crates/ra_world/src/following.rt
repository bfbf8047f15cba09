ghost use Rattle.std.specs.Prelude.{◌≡◌, ◌≢◌, ℕ, ◌+◌, ◌*◌, ◌<◌, ◌≤◌, length, slice_set};
ghost use Rattle.ra_model.specs.Numbers.{resource_count, machine_count, process_count};
ghost use Rattle.ra_model.specs.Assignments.{IsAssignment, machine_at};
ghost use Rattle.ra_moves.specs.Replacing.{applied};
ghost use Rattle.ra_world.specs.Keeping.{Keeps};
ghost use Rattle.ra_world.specs.Following.{AreSteps};

use crate::changes::{machine_after, process_after, service_cost};
use crate::filters::renew_filters;
use crate::kept::Kept;
use crate::renewal::{renew_balances, renew_loads};
use crate::standing::put;
use ra_base::{Assignment, Parts, Steps};
use ra_model::Instance;
use ra_moves::{Move, Step};
use std::sync::ledger::Ledger;

/// Follows the steps of a move, one after another.
pub(crate) fn follow<L: Ledger>(
    inst: &Instance,
    start: &Assignment,
    kept: &mut Kept<'_>,
    mv: &Move,
    steps: &mut Steps<L>,
)
    requires start { IsAssignment inst.now.tables start.now.items }
    requires keeps { Keeps kept.old inst.now.tables start.now.items }
    requires moves { AreSteps inst.now.tables kept.old.assignment.items mv.now.steps }
    ensures keeps { Keeps kept.new inst.now.tables start.now.items }
    ensures assignment { kept.new.assignment.items ≡
        applied kept.old.assignment.items mv.now.steps }
    ensures counted { steps.new ≡ steps.old + length mv.now.steps * resource_count inst.now.tables }
    ensures few { length mv.now.steps ≤ 3 }
{
    for j in 0..mv.steps() {
        follow_step(inst, start, kept, mv.step(j), steps);
    }
}

/// Follows one step, after which all that is kept is that of the new assignment.
fn follow_step<L: Ledger>(
    inst: &Instance,
    start: &Assignment,
    kept: &mut Kept<'_>,
    step: Step,
    steps: &mut Steps<L>,
)
    requires start { IsAssignment inst.now.tables start.now.items }
    requires keeps { Keeps kept.old inst.now.tables start.now.items }
    requires process { step.process.0 < process_count inst.now.tables }
    requires to { step.to.0 < machine_count inst.now.tables }
    requires apart { step.from.0 ≢ step.to.0 }
    requires at_from { machine_at kept.old.assignment.items step.process.0 ≡ step.from.0 }
    ensures keeps { Keeps kept.new inst.now.tables start.now.items }
    ensures assignment { kept.new.assignment.items ≡
        slice_set kept.old.assignment.items step.process.0 step.to }
    ensures counted { steps.new ≡ steps.old + resource_count inst.now.tables }
{
    put(kept, step, steps);
    let load = renew_loads(inst, &kept.rows, &mut kept.loads, step, kept.parts.load);
    let balance = renew_balances(
        inst,
        &kept.rows,
        &mut kept.balances,
        step,
        kept.parts.balance,
    );
    renew_filters(inst, &kept.rows, &mut kept.filters, step);
    let process = process_after(inst, start, step, kept.parts.process);
    let service = service_cost(inst, &kept.cells);
    let machine = machine_after(inst, start, step, kept.parts.machine);
    kept.parts = Parts::summed(load, balance, process, service, machine);
}
