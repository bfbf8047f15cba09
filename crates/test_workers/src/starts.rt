//! The assignments of the tests, and the demands on them.
ghost use Rattle.ra_model.specs.Assignments.{IsAssignment};

use ra_base::Assignment;
use ra_model::Instance;
use std::alloc::Global;
use std::process::Abort;
use test_samples::assignment;

/// The assignment of an instance to these machines.
pub(super) fn start_of(
    rt: &impl Abort,
    alloc: Global,
    inst: &Instance,
    machines: &[u32],
) -> Assignment
    ensures { IsAssignment inst.now.tables result.items }
{
    let start = assignment(alloc, machines).expect(rt, "no memory");
    assert!(rt; inst.is_assignment(&start));
    start
}

/// Demands that two assignments are equal.
pub(super) fn same_machines(rt: &impl Abort, found: &Assignment, want: &Assignment) {
    assert!(rt; found.as_slice() == want.as_slice());
}

/// Demands that this holds.
pub(super) fn demand(rt: &impl Abort, holds: bool) {
    assert!(rt; holds);
}
