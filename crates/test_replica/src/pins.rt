//! Pinned processes and their load.
use crate::common::{closing, fitting, same};
use ra_base::{Machine, Process, Resource};
use ra_model::{Instance, ResourceRow};
use ra_pins::Pins;
use std::alloc::Global;
use std::process::Abort;
use test_samples::{Lists, NotMade, instance, machine, process, resource, service, tight_pair};

/// Two machines of capacity 10 and two processes of different services, of 6 and of 5.
fn six_and_five(alloc: Global) -> Result<Instance, NotMade> {
    let resources: &[ResourceRow] = &[resource(false, 1)];
    instance(
        alloc,
        &Lists {
            resources,
            machines: &[machine(0, 0), machine(0, 1)],
            capacities: &[10, 10],
            safeties: &[4, 20],
            move_costs: &[0, 0, 0, 0],
            services: &[service(1, 0), service(1, 0)],
            dependencies: &[],
            processes: &[process(0, 1), process(1, 1)],
            requirements: &[6, 5],
            balances: &[],
            weights: [1, 1, 1],
        },
    )
}

/// Which of two processes are pinned, and the load of each of two machines.
fn pins_of(rt: &impl Abort, alloc: Global, inst: &Instance) -> ([bool; 2], [u64; 2]) {
    assert!(rt; inst.processes() == 2);
    assert!(rt; inst.machines() == 2);
    assert!(rt; inst.resources() == 1);
    let a0 = fitting(rt, alloc, inst, &[0, 1]);
    let pins = Pins::make(alloc, inst, &a0).expect(rt, "no memory");
    (
        [pins.pinned(Process(0)), pins.pinned(Process(1))],
        [
            pins.load(Machine(0), Resource(0)),
            pins.load(Machine(1), Resource(0)),
        ],
    )
}

#[test]
fn a_pinned_process_pins_another(rt: HostRuntime) {
    let inst = six_and_five(rt.alloc()).expect(&rt, "no instance");
    let open = pins_of(&rt, rt.alloc(), &inst);
    let inst = closing(&rt, rt.alloc(), inst, &[true, false]);
    let closed = pins_of(&rt, rt.alloc(), &inst);
    drop(inst);
    same(&rt, open, ([false, false], [0, 0]));
    same(&rt, closed, ([true, true], [6, 5]));
}

#[test]
fn transient_use_pins(rt: HostRuntime) {
    let inst = tight_pair(rt.alloc()).expect(&rt, "no instance");
    let tight = pins_of(&rt, rt.alloc(), &inst);
    drop(inst);
    same(&rt, tight, ([true, true], [6, 6]));
}
