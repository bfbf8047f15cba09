ghost use Rattle.std.specs.Prelude.{◌≡◌, None, IfOk, IfErr};
ghost use Rattle.ra_model.specs.Assignments.{IsAssignment};
ghost use Rattle.ra_check.specs.Made.{IsMadeFor};
ghost use Rattle.ra_model.specs.Broken.{first_broken};
ghost use Rattle.ra_model.specs.Feasible.{Feasible};
ghost use Rattle.ra_jobs.specs.Stages.{Judged, JudgeReason, StartReason};

use crate::refusals::{Refusal, Role};
use ra_base::{Assignment, Parts};
use ra_check::{Scratch, first_broken, parts};
use ra_model::Instance;
use std::alloc::Global;

/// The parts of the cost of the new list, if both lists are feasible. Else the refusal names the list that breaks a
/// constraint, the initial one first, and what it breaks; or the system refused memory.
pub fn judge(
    alloc: Global,
    inst: &Instance,
    initial: &Assignment,
    changed: &Assignment,
) -> Result<Parts, Refusal>
    requires initial { IsAssignment inst.now.tables initial.now.items }
    requires changed { IsAssignment inst.now.tables changed.now.items }
    ensures passes { IfOk result (Judged inst.now.tables initial.now.items changed.now.items) }
    ensures refused { IfErr result (JudgeReason inst.now.tables initial.now.items
        changed.now.items ⊥) }
{
    let mut scratch = judge_start(alloc, inst, initial)?;
    match first_broken(inst, initial, changed, &mut scratch) {
        Some(cause) => Err(Refusal::Broken(Role::Changed, cause)),
        None => Ok(parts(inst, initial, changed, &mut scratch)),
    }
}

/// Tables to check with, if the initial list is feasible.
pub fn judge_start(alloc: Global, inst: &Instance, initial: &Assignment) -> Result<Scratch, Refusal>
    requires { IsAssignment inst.now.tables initial.now.items }
    ensures feasible { IfOk result (λ _.
        Feasible inst.now.tables initial.now.items initial.now.items) }
    ensures unbroken { IfOk result (λ _.
        first_broken inst.now.tables initial.now.items initial.now.items ≡ None) }
    ensures made { IfOk result (λ scratch. IsMadeFor scratch inst.now.tables) }
    ensures refused { IfErr result (StartReason inst.now.tables initial.now.items ⊥) }
{
    let mut scratch = Scratch::make(alloc, inst)?;
    match first_broken(inst, initial, initial, &mut scratch) {
        Some(cause) => Err(Refusal::Broken(Role::Initial, cause)),
        None => Ok(scratch),
    }
}
