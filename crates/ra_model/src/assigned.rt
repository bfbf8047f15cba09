ghost use Rattle.std.specs.Prelude.{◌≡◌, ◌<◌, length};
ghost use Rattle.ra_model.specs.Assignments.{machine_at};

use ra_base::{Assignment, Machine, Process};

/// The machine of a process.
#[tactic(auto, using(crate::proofs::TallyLemmas::machine_at_read))]
#[inline(always)]
pub fn machine_of(a: &Assignment, p: Process) -> Machine
    requires { p.0 < length a.now.items }
    ensures { result.0 ≡ machine_at a.now.items p.0 }
{
    let _count = a.len();
    a.get(p.0 as usize)
}
