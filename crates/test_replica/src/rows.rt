//! Rows that follow a process, and rows of the greatest numbers.
ghost use Rattle.std.specs.Prelude.{◌≡◌, ◌≢◌, ◌<◌};
ghost use Rattle.ra_model.specs.Numbers.{resource_count, machine_count, process_count};
ghost use Rattle.ra_model.specs.Assignments.{IsAssignment, machine_at};
ghost use Rattle.ra_rows.specs.Rows.{HasAt};

use crate::common::{fitting, same};
use ra_base::{Assignment, Machine, Process, Resource, Steps};
use ra_model::{Instance, machine_of};
use ra_rows::Rows;
use std::alloc::Global;
use std::marker::Brand;
use std::process::Abort;
use std::sync::ledger::{Blank, Ledger};
use test_samples::{pair_at_limits, sample};

/// Compares the use of both resources of a machine, and the transient use, with the expected numbers.
fn compare_machine(rt: &impl Abort, rows: &Rows<'_>, m: Machine, used: [u64; 2], between: [u64; 2])
    requires machine { m.0 < machine_count rows.now.tables }
    requires resources { resource_count rows.now.tables ≡ 2 }
{
    let (first, second) = (Resource(0), Resource(1));
    same(rt, [rows.usage(m, first), rows.usage(m, second)], used);
    same(
        rt,
        [rows.transient_use(m, first), rows.transient_use(m, second)],
        between,
    );
    same(rt, rows.usage_row(m), used.as_slice());
    same(rt, rows.transient_row(m), between.as_slice());
}

/// Moves a process to another machine, with a counter of its own.
fn shift_once<L: Ledger>(rows: &mut Rows<'_>, p: Process, from: Machine, to: Machine, blank: Blank)
    requires name { blank.name ≡ L.name }
    requires parts { blank.parts ≡ L.parts }
    requires some { 0 < blank.parts }
    requires process { p.0 < process_count rows.old.tables }
    requires to { to.0 < machine_count rows.old.tables }
    requires moves { from.0 ≢ to.0 }
    requires stands { HasAt rows.old p.0 from.0 }
    ensures stands { HasAt rows.new p.0 to.0 }
    ensures tables { rows.new.tables ≡ rows.old.tables }
{
    let mut steps = Steps::<L>::make(blank);
    rows.shift(p, from, to, &mut steps);
}

/// Process 1 goes from machine 3, its initial one, to machine 2.
fn go(rt: &impl Abort, rows: &mut Rows<'_>)
    requires machines { machine_count rows.old.tables ≡ 4 }
    requires resources { resource_count rows.old.tables ≡ 2 }
    requires processes { process_count rows.old.tables ≡ 3 }
    requires stands { HasAt rows.old 1 3 }
    ensures stands { HasAt rows.new 1 2 }
    ensures tables { rows.new.tables ≡ rows.old.tables }
{
    shift_once::<Brand>(rows, Process(1), Machine(3), Machine(2), Blank::new(1));
    compare_machine(rt, rows, Machine(2), [10, 20], [10, 20]);
    compare_machine(rt, rows, Machine(3), [0, 0], [10, 20]);
}

/// Process 1 goes home again.
fn come_home(rt: &impl Abort, rows: &mut Rows<'_>)
    requires machines { machine_count rows.old.tables ≡ 4 }
    requires resources { resource_count rows.old.tables ≡ 2 }
    requires processes { process_count rows.old.tables ≡ 3 }
    requires stands { HasAt rows.old 1 2 }
{
    shift_once::<Brand>(rows, Process(1), Machine(2), Machine(3), Blank::new(1));
    compare_machine(rt, rows, Machine(2), [0, 0], [0, 0]);
    compare_machine(rt, rows, Machine(3), [10, 20], [10, 20]);
}

/// The rows of a start that has process 1 on machine 3.
fn rows_at_start<'a>(
    rt: &impl Abort,
    alloc: Global,
    inst: &'a Instance,
    a0: &'a Assignment,
) -> Rows<'a>
    requires fits { IsAssignment inst.now.tables a0.now.items }
    requires at { machine_at a0.now.items 1 ≡ 3 }
    ensures stands { HasAt result 1 3 }
    ensures tables { result.tables ≡ inst.now.tables }
{
    Rows::make(alloc, inst, a0).expect(rt, "no memory")
}

/// The rows at the start, and while process 1 goes and comes.
fn follow_sample(rt: &impl Abort, alloc: Global, inst: &Instance) {
    assert!(rt; inst.resources() == 2);
    assert!(rt; inst.machines() == 4);
    assert!(rt; inst.processes() == 3);
    let a0 = fitting(rt, alloc, inst, &[0, 3, 0]);
    assert!(rt; machine_of(&a0, Process(1)).0 == 3);
    let mut rows = rows_at_start(rt, alloc, inst, &a0);
    compare_machine(rt, &rows, Machine(0), [18, 210], [18, 210]);
    go(rt, &mut rows);
    come_home(rt, &mut rows);
}

fn compare_at_limits(rt: &impl Abort, alloc: Global, inst: &Instance) {
    assert!(rt; inst.resources() == 2);
    assert!(rt; inst.machines() == 2);
    let a0 = fitting(rt, alloc, inst, &[0, 1]);
    let rows = Rows::make(alloc, inst, &a0).expect(rt, "no memory");
    compare_machine(rt, &rows, Machine(0), [4294967295, 0], [4294967295, 0]);
    compare_machine(rt, &rows, Machine(1), [4294967295, 0], [4294967295, 0]);
}

#[test]
fn rows_follow_a_process(rt: HostRuntime) {
    let inst = sample(rt.alloc()).expect(&rt, "no instance");
    follow_sample(&rt, rt.alloc(), &inst);
    drop(inst);
}

#[test]
fn rows_of_numbers_at_their_limits(rt: HostRuntime) {
    let inst = pair_at_limits(rt.alloc()).expect(&rt, "no instance");
    compare_at_limits(&rt, rt.alloc(), &inst);
    drop(inst);
}
