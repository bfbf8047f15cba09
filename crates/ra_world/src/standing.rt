ghost use Rattle.std.specs.Prelude.{◌≡◌, ◌≢◌, ◌+◌, ◌*◌, ◌<◌, ◌≤◌, length, slice_set};
ghost use Rattle.ra_model.specs.Numbers.{resource_count, machine_count, process_count};
ghost use Rattle.ra_model.specs.Assignments.{IsAssignment, machine_at};
ghost use Rattle.ra_model.specs.Costs.{parts_of};
ghost use Rattle.ra_world.specs.Keeping.{Stand, Keeps};
ghost use Rattle.ra_world.specs.Differing.{one_apart, differing};
ghost use Rattle.ra_world.specs.Standing.{OnlyMoves};

use crate::filters::renew_all_filters;
use crate::kept::Kept;
use crate::renewal::{renew_all_balances, renew_all_loads};
use ra_base::{Assignment, Machine, Parts, Process, Steps};
use ra_model::{Instance, machine_of};
use ra_moves::Step;
use std::sync::ledger::Ledger;

/// Stands at another assignment, whose cost has these parts. Only the processes that move are read.
pub(crate) fn stand_at<L: Ledger>(
    inst: &Instance,
    kept: &mut Kept<'_>,
    list: &Assignment,
    parts: Parts,
    steps: &mut Steps<L>,
)
    requires keeps { Keeps kept.old inst.now.tables kept.old.rows.start }
    requires fits { IsAssignment inst.now.tables list.now.items }
    requires parts { parts ≡ parts_of inst.now.tables kept.old.rows.start list.now.items }
    ensures keeps { Keeps kept.new inst.now.tables kept.old.rows.start }
    ensures assignment { kept.new.assignment.items ≡ list.now.items }
    ensures counted { steps.new ≡ steps.old +
        differing (process_count inst.now.tables) kept.old.assignment.items list.now.items
        * resource_count inst.now.tables }
{
    put_all(inst, kept, list, steps);
    renew_all_loads(inst, &kept.rows, &mut kept.loads);
    renew_all_balances(inst, &kept.rows, &mut kept.balances);
    renew_all_filters(inst, &kept.rows, &mut kept.filters);
    kept.parts = parts;
}

/// Puts every process on its machine in a list. The costs are those of the old assignment until they are computed again.
fn put_all<L: Ledger>(inst: &Instance, kept: &mut Kept<'_>, list: &Assignment, steps: &mut Steps<L>)
    requires stand { Stand kept.old inst.now.tables kept.old.rows.start kept.old.assignment.items }
    requires fits { IsAssignment inst.now.tables list.now.items }
    ensures moves { OnlyMoves kept.old kept.new }
    ensures assignment { kept.new.assignment.items ≡ list.now.items }
    ensures counted { steps.new ≡ steps.old +
        differing (process_count inst.now.tables) kept.old.assignment.items list.now.items
        * resource_count inst.now.tables }
{
    for p in 0..inst.processes() {
        let to = machine_of(list, Process(p));
        put_unless_there(kept, Process(p), to, steps);
    }
}

/// Puts a process on a machine, unless it is there already.
fn put_unless_there<L: Ledger>(kept: &mut Kept<'_>, p: Process, to: Machine, steps: &mut Steps<L>)
    requires stand { Stand kept.old kept.old.rows.tables kept.old.rows.start kept.old.assignment.items }
    requires process { p.0 < process_count kept.old.rows.tables }
    requires to { to.0 < machine_count kept.old.rows.tables }
    ensures moves { OnlyMoves kept.old kept.new }
    ensures assignment { kept.new.assignment.items ≡ slice_set kept.old.assignment.items p.0 to }
    ensures counted { steps.new ≡ steps.old +
        one_apart (machine_at kept.old.assignment.items p.0) to.0
        * resource_count kept.old.rows.tables }
{
    let from = machine_of(&kept.assignment, p);
    if from.0 != to.0 {
        let step = Step {
            process: p,
            from,
            to,
        };
        put(kept, step, steps);
    }
}

/// Puts a process on another machine. The costs are those of the old assignment until they are computed again.
#[inline(always)]
pub(crate) fn put<L: Ledger>(kept: &mut Kept<'_>, step: Step, steps: &mut Steps<L>)
    requires stand { Stand kept.old kept.old.rows.tables kept.old.rows.start kept.old.assignment.items }
    requires process { step.process.0 < process_count kept.old.rows.tables }
    requires to { step.to.0 < machine_count kept.old.rows.tables }
    requires apart { step.from.0 ≢ step.to.0 }
    requires at_from { machine_at kept.old.assignment.items step.process.0 ≡ step.from.0 }
    ensures moves { OnlyMoves kept.old kept.new }
    ensures assignment { kept.new.assignment.items ≡
        slice_set kept.old.assignment.items step.process.0 step.to }
    ensures counted { steps.new ≡ steps.old + resource_count kept.old.rows.tables }
{
    kept.rows.shift(step.process, step.from, step.to, steps);
    kept.cells.change(step.process, step.from, step.to);
    kept.assignment.set(step.process.0 as usize, step.to);
}
