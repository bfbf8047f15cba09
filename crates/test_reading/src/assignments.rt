//! The text of an assignment.
use super::found::same;
use ra_assign::assignment_text;
use std::alloc::Global;
use std::process::Abort;
use test_samples::assignment;

/// Demands this text of the assignment to these machines.
fn demand(rt: &impl Abort, alloc: Global, machines: &[u32], want: &[u8]) {
    let machines = assignment(alloc, machines).expect(rt, "no memory");
    let text = assignment_text(alloc, &machines).expect(rt, "no memory");
    drop(machines);
    same(rt, text.as_slice(), want);
    drop(text);
}

#[test]
fn a_text_has_the_machines_in_order(rt: HostRuntime) {
    demand(&rt, rt.alloc(), &[0, 3, 0], b"0 3 0\n");
}

#[test]
fn a_text_of_no_machine_is_a_line(rt: HostRuntime) {
    demand(&rt, rt.alloc(), &[], b"\n");
}
