//! An instance gives back what it was made of, and lists that don't fit one another are not an instance.
ghost use Rattle.std.specs.Prelude.{◌≡◌, ◌<◌};

use crate::common::{closing, same};
use ra_base::{Machine, Process, Resource, Service, Steps};
use ra_model::{Instance, Members, Places};
use std::alloc::Global;
use std::marker::Brand;
use std::process::Abort;
use std::sync::ledger::{Blank, Ledger};
use test_samples::{
    Lists, NotMade, assignment, balance, instance, machine, process, resource, sample, service,
    seven_processes,
};

fn counts(inst: &Instance) -> [u32; 5] {
    [
        inst.resources(),
        inst.machines(),
        inst.services(),
        inst.processes(),
        inst.balances(),
    ]
}

fn weights(inst: &Instance) -> [u32; 3] {
    [
        inst.process_weight(),
        inst.service_weight(),
        inst.machine_weight(),
    ]
}

fn of_machine(inst: &Instance, m: Machine, r: Resource) -> [u32; 6] {
    if m.0 >= inst.machines() || r.0 >= inst.resources() {
        return [0; 6];
    }
    [
        inst.neighbourhood(m),
        inst.location(m),
        inst.capacity(m, r),
        inst.safety(m, r),
        inst.load_weight(r),
        inst.move_cost(Machine(0), m),
    ]
}

fn of_process<L: Ledger>(blank: Blank, inst: &Instance, p: Process, r: Resource) -> [u32; 3]
    requires name { blank.name ≡ L.name }
    requires parts { blank.parts ≡ L.parts }
    requires some { 0 < blank.parts }
{
    let mut steps = Steps::<L>::make(blank);
    if p.0 >= inst.processes() || r.0 >= inst.resources() {
        return [0; 3];
    }
    [
        inst.service_of(p).0,
        inst.process_cost(p),
        inst.requirement(p, r, &mut steps),
    ]
}

fn of_service(inst: &Instance, s: Service) -> [usize; 2] {
    if s.0 >= inst.services() {
        return [0; 2];
    }
    [inst.spread_min(s) as usize, inst.depends(s).len()]
}

fn is_closed(inst: &Instance, m: Machine) -> bool {
    m.0 < inst.machines() && inst.closed(m)
}

fn is_transient(inst: &Instance, r: Resource) -> bool {
    r.0 < inst.resources() && inst.transient(r)
}

fn target(inst: &Instance, b: u32) -> u32 {
    if b >= inst.balances() {
        return 0;
    }
    inst.balance(b).target
}

fn rows_are_read_back(rt: &impl Abort, inst: &Instance) {
    same(rt, counts(inst), [2, 4, 2, 3, 1]);
    same(rt, weights(inst), [1, 10, 100]);
    let last = of_machine(inst, Machine(3), Resource(1));
    same(rt, last, [1, 2, 100, 80, 10, 5]);
    let services = [of_service(inst, Service(0)), of_service(inst, Service(1))];
    same(rt, services, [[2, 0], [1, 1]]);
    same(rt, target(inst, 0), 20);
    same(rt, is_transient(inst, Resource(0)), true);
}

#[test]
fn the_sample_is_read_back(rt: HostRuntime) {
    let inst = sample(rt.alloc()).expect(&rt, "no instance");
    rows_are_read_back(&rt, &inst);
    let last = of_process::<Brand>(Blank::new(1), &inst, Process(2), Resource(1));
    drop(inst);
    same(&rt, last, [1, 1, 200]);
}

/// Whether the third and the fourth machine are closed.
fn are_closed(inst: &Instance) -> [bool; 2] {
    [is_closed(inst, Machine(2)), is_closed(inst, Machine(3))]
}

#[test]
fn closed_machines_are_those_flagged(rt: HostRuntime) {
    let inst = sample(rt.alloc()).expect(&rt, "no instance");
    let before = are_closed(&inst);
    let inst = closing(&rt, rt.alloc(), inst, &[false, false, true, false]);
    let after = are_closed(&inst);
    drop(inst);
    same(&rt, [before, after], [[false, false], [true, false]]);
}

/// Lengths of lists and tables, and what is named in them.
#[derive(Clone, Copy)]
struct Shape {
    capacities: &'static [u32],
    safeties: &'static [u32],
    move_costs: &'static [u32],
    requirements: &'static [u32],
    first_end: u32,
    second_end: u32,
    needs: u32,
    service: u32,
    second_resource: u32,
}

/// The shape of the sample.
const SAMPLE: Shape = Shape {
    capacities: &[0; 8],
    safeties: &[0; 8],
    move_costs: &[0; 16],
    requirements: &[0; 6],
    first_end: 0,
    second_end: 1,
    needs: 0,
    service: 1,
    second_resource: 1,
};

/// The sample with such a shape.
fn shaped(alloc: Global, shape: &Shape) -> Result<Instance, NotMade> {
    instance(
        alloc,
        &Lists {
            resources: &[resource(true, 100), resource(false, 10)],
            machines: &[machine(0, 0), machine(0, 0), machine(1, 1), machine(1, 2)],
            capacities: shape.capacities,
            safeties: shape.safeties,
            move_costs: shape.move_costs,
            services: &[service(2, shape.first_end), service(1, shape.second_end)],
            dependencies: &[Service(shape.needs)],
            processes: &[process(shape.service, 1); 3],
            requirements: shape.requirements,
            balances: &[balance(0, shape.second_resource, 20, 10)],
            weights: [1, 10, 100],
        },
    )
}

/// Why the lists of a shape are not an instance, if they aren't.
fn refusal(alloc: Global, shape: &Shape) -> Option<NotMade> {
    match shaped(alloc, shape) {
        Ok(inst) => {
            drop(inst);
            None
        }
        Err(why) => Some(why),
    }
}

#[test]
fn lists_that_fit_one_another_are_an_instance(rt: HostRuntime) {
    same(&rt, refusal(rt.alloc(), &SAMPLE), None);
    let misshapen: &[Shape] = &[
        Shape {
            capacities: &[0; 7],
            ..SAMPLE
        },
        Shape {
            safeties: &[0; 9],
            ..SAMPLE
        },
        Shape {
            move_costs: &[0; 12],
            ..SAMPLE
        },
        Shape {
            requirements: &[0; 5],
            ..SAMPLE
        },
        Shape {
            first_end: 2,
            ..SAMPLE
        },
        Shape {
            second_end: 0,
            ..SAMPLE
        },
        Shape {
            second_end: 2,
            ..SAMPLE
        },
        Shape { needs: 2, ..SAMPLE },
        Shape {
            service: 2,
            ..SAMPLE
        },
        Shape {
            second_resource: 2,
            ..SAMPLE
        },
    ];
    for shape in misshapen {
        same(&rt, refusal(rt.alloc(), shape), Some(NotMade::NoInstance));
    }
}

/// Whether an instance takes a list of machines as an assignment.
fn takes(rt: &impl Abort, alloc: Global, inst: &Instance, machines: &[u32]) -> bool {
    let a = assignment(alloc, machines).expect(rt, "no memory");
    inst.is_assignment(&a)
}

fn fitting_lists_are_taken(rt: &impl Abort, alloc: Global, inst: &Instance) {
    same(rt, takes(rt, alloc, inst, &[0, 3, 0]), true);
    same(rt, takes(rt, alloc, inst, &[0, 4, 0]), false);
    same(rt, takes(rt, alloc, inst, &[0, 3]), false);
    same(rt, takes(rt, alloc, inst, &[0, 3, 0, 0]), false);
}

#[test]
fn each_process_has_one_machine_of_the_instance(rt: HostRuntime) {
    let inst = sample(rt.alloc()).expect(&rt, "no instance");
    fitting_lists_are_taken(&rt, rt.alloc(), &inst);
    drop(inst);
}

/// The processes of the first service, and how many the third has, which is zero.
fn compare_members(rt: &impl Abort, alloc: Global, inst: &Instance) {
    assert!(rt; inst.services() == 4);
    let members = Members::make(alloc, inst).expect(rt, "no memory");
    let first = [Process(1), Process(3), Process(5), Process(6)];
    same(rt, members.of(Service(0)), first.as_slice());
    same(rt, members.of(Service(2)).len(), 0);
}

/// Machine 2 has the location of machine 0, and no other machine's neighbourhood; machine 4 has that
/// of machine 3.
fn compare_places(rt: &impl Abort, alloc: Global, inst: &Instance) {
    assert!(rt; inst.machines() == 5);
    let places = Places::make(alloc, inst).expect(rt, "no memory");
    same(rt, places.location(Machine(2)), Machine(0));
    same(rt, places.neighbourhood(Machine(2)), Machine(2));
    same(rt, places.neighbourhood(Machine(4)), Machine(3));
}

#[test]
fn members_and_places_of_seven_processes(rt: HostRuntime) {
    let inst = seven_processes(rt.alloc()).expect(&rt, "no instance");
    compare_members(&rt, rt.alloc(), &inst);
    compare_places(&rt, rt.alloc(), &inst);
    drop(inst);
}
