ghost use Rattle.std.specs.Prelude.{◌≡◌, ◌↔◌, ◌<◌, true};
ghost use Rattle.ra_model.specs.Numbers.{process_count};
ghost use Rattle.ra_moves.specs.Touched.{touches_machine};
ghost use Rattle.ra_guards.specs.Guards.{AreKnown, meets_step};
ghost use Rattle.ra_guards.specs.Versions.{Apart};

use crate::services::guards_service;
use ra_base::Machine;
use ra_model::Instance;
use ra_moves::{Move, Step};

/// Whether another move writes no guard of a move: no step of the other one leaves or enters a machine that the move
/// leaves or enters, and none moves a process of a service that the move moves or that is joined with such a service by
/// a dependency.
#[tactic(auto, using(crate::proofs::GuardLemmas::known, crate::proofs::GuardLemmas::meetings))]
pub fn keeps_apart(inst: &Instance, mv: &Move, other: &Move) -> bool
    requires known { AreKnown inst.now.tables mv.now.steps }
    requires other_known { AreKnown inst.now.tables other.now.steps }
    ensures { (result ≡ true) ↔ Apart inst.now.tables mv.now.steps other.now.steps }
{
    for k in 0..other.steps() {
        if meets_step(inst, mv, other.step(k)) {
            return false;
        }
    }
    true
}

/// Whether a step writes a guard of a move.
#[tactic(auto, unfolding(crate::specs::Guards::meets_step))]
fn meets_step(inst: &Instance, mv: &Move, step: Step) -> bool
    requires known { AreKnown inst.now.tables mv.now.steps }
    requires there { step.process.0 < process_count inst.now.tables }
    ensures { result ≡ meets_step inst.now.tables mv.now.steps step }
{
    ends_at(mv, step.from)
        || ends_at(mv, step.to)
        || guards_service(inst, mv, inst.service_of(step.process))
}

/// Whether a move leaves or enters a machine.
#[tactic(auto, using(crate::proofs::GuardLemmas::ends))]
pub(crate) fn ends_at(mv: &Move, machine: Machine) -> bool
    ensures { result ≡ touches_machine mv.now.steps machine.0 }
{
    for j in 0..mv.steps() {
        let step = mv.step(j);
        if step.from.0 == machine.0 || step.to.0 == machine.0 {
            return true;
        }
    }
    false
}
