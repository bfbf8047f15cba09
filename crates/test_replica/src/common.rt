//! What several of the tests make.
ghost use Rattle.std.specs.Prelude.{◌≡◌};
ghost use Rattle.ra_model.specs.Assignments.{IsAssignment};

use ra_base::{Assignment, Machine, Process};
use ra_model::Instance;
use ra_moves::Step;
use std::alloc::Global;
use std::fmt::Debug;
use std::process::Abort;
use test_samples::{assignment, list};

/// Demands that what was found is what is expected. An `assert_eq!` here, and not in a function that owns lists, adds
/// no exit to that function, so its proof is short.
pub(crate) fn same<T: Copy + Debug + PartialEq>(rt: &impl Abort, found: T, want: T) {
    assert_eq!(rt; found, want);
}

/// The assignment to these machines, which has to fit the instance.
pub(crate) fn fitting(
    rt: &impl Abort,
    alloc: Global,
    inst: &Instance,
    machines: &[u32],
) -> Assignment
    ensures { IsAssignment inst.now.tables result.items }
{
    let a = assignment(alloc, machines).expect(rt, "no memory");
    assert!(rt; inst.is_assignment(&a));
    a
}

/// The instance with these machines closed.
pub(crate) fn closing(rt: &impl Abort, alloc: Global, inst: Instance, flags: &[bool]) -> Instance {
    let flags = list(alloc, flags).expect(rt, "no memory");
    assert!(rt; flags.len() == inst.machines() as usize);
    inst.closing(flags)
}

/// Process `process` from one machine to another.
pub(crate) fn step(process: u32, from: u32, to: u32) -> Step
    ensures process { result.process.0 ≡ process }
    ensures from { result.from.0 ≡ from }
{
    Step {
        process: Process(process),
        from: Machine(from),
        to: Machine(to),
    }
}
