ghost use Rattle.std.specs.Prelude.{◌≡◌, ◌<◌};
ghost use Rattle.ra_model.specs.Numbers.{process_count};
ghost use Rattle.ra_model.specs.Assignments.{IsAssignment};
ghost use Rattle.ra_model.specs.Broken.{closed_test, broken_closed};

use ra_base::{Assignment, Cause, Process};
use ra_model::{Instance, machine_of};

/// The first process that is put on a closed machine.
#[tactic(auto, using(ra_base::proofs::Searches::searches), unfolding(ra_model::specs::Broken::broken_closed))]
pub(crate) fn broken_closed(inst: &Instance, a0: &Assignment, a: &Assignment) -> Option<Cause>
    requires a0_fits { IsAssignment inst.now.tables a0.now.items }
    requires fits { IsAssignment inst.now.tables a.now.items }
    ensures { result ≡ broken_closed inst.now.tables a0.now.items a.now.items }
{
    for p in 0..inst.processes() {
        if let Some(cause) = closed_test(inst, a0, a, Process(p)) {
            return Some(cause);
        }
    }
    None
}

/// One process, if it is put on a closed machine.
fn closed_test(inst: &Instance, a0: &Assignment, a: &Assignment, p: Process) -> Option<Cause>
    requires process { p.0 < process_count inst.now.tables }
    requires a0_fits { IsAssignment inst.now.tables a0.now.items }
    requires fits { IsAssignment inst.now.tables a.now.items }
    ensures { result ≡ closed_test inst.now.tables a0.now.items a.now.items p.0 }
{
    let at = machine_of(a, p);
    if inst.closed(at) && machine_of(a0, p) != at {
        Some(Cause::Closed {
            process: p,
            machine: at,
        })
    } else {
        None
    }
}
