//! The judgement of an assignment from a start that no command takes. All others are cases of the conformance suite.
use crate::common::{fitting, same};
use ra_base::{Cause, Machine, Resource};
use ra_check::{Scratch, first_broken};
use ra_model::Instance;
use std::alloc::Global;
use std::process::Abort;
use test_samples::sample;

/// The first constraint that an assignment breaks, reached from an initial one.
fn broken(
    rt: &impl Abort,
    alloc: Global,
    inst: &Instance,
    start: &[u32],
    new: &[u32],
) -> Option<Cause> {
    let a0 = fitting(rt, alloc, inst, start);
    let a = fitting(rt, alloc, inst, new);
    let mut scratch = Scratch::make(alloc, inst).expect(rt, "no memory");
    first_broken(inst, &a0, &a, &mut scratch)
}

/// Processes 0 and 1 need 22 of machine 3 while they change places. The end is the sample's start,
/// where all uses are within the capacities.
#[test]
fn a_transient_use_above_a_capacity_is_named(rt: HostRuntime) {
    let inst = sample(rt.alloc()).expect(&rt, "no instance");
    let found = broken(&rt, rt.alloc(), &inst, &[3, 0, 0], &[0, 3, 0]);
    drop(inst);
    let between = Cause::Transient {
        machine: Machine(3),
        resource: Resource(0),
        used: 22,
        cap: 10,
    };
    same(&rt, found, Some(between));
}
