//! Two workers plan at the start, each its first proposal, and then hand in their plans one after the other.
ghost use Rattle.std.specs.Prelude.{◌≡◌, ◌<◌, None};
ghost use Rattle.ra_model.specs.Assignments.{IsAssignment};
ghost use Rattle.ra_model.specs.Broken.{first_broken};
ghost use Rattle.ra_model.specs.Costs.{parts_of};
ghost use Rattle.ra_topology.specs.Fits.{IsTopologyOf};
ghost use Rattle.ra_journal.specs.Openings.{opening};
ghost use Rattle.test_workers.specs.FirstPlans.{IsFirstPlan};

mod first;
mod passes;
mod turns;

use first::{first_plan, hand_in, start_parts};
use ra_base::{Assignment, Cause, Guard, Machine, Parts, Process, Service, Steps};
use ra_draws::Lots;
use ra_journal::{Journal, Reply};
use ra_model::Instance;
use ra_moves::{Plan, Verdict};
use ra_topology::Topology;
use ra_world::World;
use std::alloc::Global;
use std::marker::Brand;
use std::process::Abort;
use std::sync::ledger::{Blank, Ledger};
use test_samples::{assignment, eight_machines, sample, two_lots};

/// The first plans of both workers, at the start.
fn first_plans<L: Ledger>(
    rt: &impl Abort,
    alloc: Global,
    inst: &Instance,
    topo: &Topology,
    a0: &Assignment,
    start: Parts,
    lots: &Lots,
    blank: Blank,
) -> (Plan, Plan)
    requires fits { IsAssignment inst.now.tables a0.now.items }
    requires topology { IsTopologyOf topo.now inst.now.tables }
    requires unbroken { first_broken inst.now.tables a0.now.items a0.now.items ≡ None }
    requires start { start ≡ parts_of inst.now.tables a0.now.items a0.now.items }
    requires name { blank.name ≡ L.name }
    requires parts { blank.parts ≡ L.parts }
    requires some { 0 < blank.parts }
    ensures first { IsFirstPlan (opening inst.now.tables a0.now.items lots.now) 0 result.0 }
    ensures second { IsFirstPlan (opening inst.now.tables a0.now.items lots.now) 1 result.1 }
{
    let mut steps = Steps::<L>::make(blank);
    let world = World::make(alloc, inst, topo, a0, start).expect(rt, "no memory");
    let first = first_plan(rt, &world, lots, 0, &mut steps);
    let second = first_plan(rt, &world, lots, 1, &mut steps);
    (first, second)
}

/// The answers to the two workers.
fn replies_on(
    rt: &impl Abort,
    alloc: Global,
    inst: &Instance,
    start: &[u32],
    lots: &Lots,
) -> [Reply; 2] {
    let a0 = assignment(alloc, start).expect(rt, "no memory");
    assert!(rt; inst.is_assignment(&a0));
    let topo = Topology::make(alloc, inst).expect(rt, "no memory");
    let costs = start_parts(rt, alloc, inst, &a0);
    let (first, second) = first_plans::<Brand>(
        rt,
        alloc,
        inst,
        &topo,
        &a0,
        costs,
        lots,
        Blank::new(1),
    );
    let mut journal = Journal::make(alloc, inst, &topo, &a0, costs, lots).expect(rt, "no memory");
    let one = hand_in(&mut journal, 0, &first).expect(rt, "no first plan");
    let two = hand_in(&mut journal, 1, &second).expect(rt, "no first plan");
    [one, two]
}

/// The words of a shift of a process, of which all four options go to the same machine.
fn shift(p: u64, m: u64) -> [u64; 8] {
    [0, p, m, m, m, m, 0, 0]
}

fn done(at: u64, cost: u128) -> Reply {
    let verdict = Verdict::Done { cost };
    Reply::Recorded { at, verdict }
}

fn stale(guard: Guard) -> Reply {
    Reply::Stale { guard, at: 0 }
}

/// Process 1 goes from machine 3 to 2. Of the machines 2, 1, 0 and 3 that is the only one that neither breaks a
/// constraint nor is its own.
const AWAY: [u64; 8] = [0, 1, 2, 1, 0, 3, 0, 0];

/// The answers to two workers on the sample.
fn replies_on_sample(
    rt: &impl Abort,
    alloc: Global,
    inst: &Instance,
    first: &[u64; 8],
    second: &[u64; 8],
) -> [Reply; 2] {
    let lots = two_lots(alloc, 0, 1, first, second).expect(rt, "no memory");
    replies_on(rt, alloc, inst, &[0, 3, 0], &lots)
}

/// By hand: with process 1 on machine 2, load 1500, balance 1700, process 100, service 10 and way 200 cost 3510. With
/// process 2 on machine 1, load 600, balance 2400, process 1, service 10 and way 100 cost 3111. The start costs 4200.
/// Processes 0 and 1 are of service 0, and process 2 is of service 1, which depends on it. The first newer guard is
/// told, machines before services.
fn each_guard_makes_a_plan_stale(rt: &impl Abort, alloc: Global, inst: &Instance) {
    let rows: &[([u64; 8], [u64; 8], u128, Guard)] = &[
        // Process 2 would enter the machine that process 1 entered, and the one that it left.
        (AWAY, shift(2, 2), 3510, Guard::Machine(Machine(2))),
        (AWAY, shift(2, 3), 3510, Guard::Machine(Machine(3))),
        // Process 0, from machine 0 to 1, is of the service of process 1.
        (AWAY, shift(0, 1), 3510, Guard::Service(Service(0))),
        // Process 2, from machine 0 to 1, needs that service.
        (AWAY, shift(2, 1), 3510, Guard::Service(Service(0))),
        // Process 2 goes from machine 0 to 1. Process 1, from machine 3 to 2, is of the service that it needs; process
        // 0 would leave the machine that it left.
        (shift(2, 1), AWAY, 3111, Guard::Service(Service(1))),
        (shift(2, 1), shift(0, 2), 3111, Guard::Machine(Machine(0))),
    ];
    for (first, second, cost, guard) in rows {
        let replies = replies_on_sample(rt, alloc, inst, first, second);
        assert_eq!(rt; replies, [done(0, *cost), stale(*guard)]);
    }
}

/// The first worker's process would stay where it is, which is refused. So the second worker's plan, made at the start
/// too, still holds: the costs are those above.
fn a_refused_entry_touches_nothing(rt: &impl Abort, alloc: Global, inst: &Instance) {
    let rows: &[(Process, u64, [u64; 8], u128)] = &[
        (Process(1), 3, shift(2, 1), 3111),
        (Process(2), 0, AWAY, 3510),
    ];
    for (process, machine, second, cost) in rows {
        let first = shift(u64::from(process.0), *machine);
        let replies = replies_on_sample(rt, alloc, inst, &first, second);
        let cause = Cause::Same { process: *process };
        let verdict = Verdict::Refused { cause };
        assert_eq!(rt;
            replies,
            [Reply::Recorded { at: 0, verdict }, done(1, *cost)]
        );
    }
}

#[test]
fn two_workers_on_the_sample(rt: HostRuntime) {
    let inst = sample(rt.alloc()).expect(&rt, "no instance");
    each_guard_makes_a_plan_stale(&rt, rt.alloc(), &inst);
    a_refused_entry_touches_nothing(&rt, rt.alloc(), &inst);
    drop(inst);
}

/// By hand: nothing costs at the start. A process that is moved costs 1, and so does the greatest moved count, so the
/// first move costs 2 and both cost 3; each may raise the cost by 4, half of 8. Processes 0 and 3 are of the services 0
/// and 2, and of these neither depends on the other.
fn moves_that_share_nothing_are_recorded(rt: &impl Abort, alloc: Global, inst: &Instance) {
    let first = [0, 0, 6, 6, 6, 6, 0, 0, 0, 0, 6, 6, 6, 6, 0, 0];
    let second = [0, 3, 7, 7, 7, 7, 0, 0, 0, 3, 7, 7, 7, 7, 0, 0];
    let lots = two_lots(alloc, 8, 2, &first, &second).expect(rt, "no memory");
    let replies = replies_on(rt, alloc, inst, &[0, 1, 2, 3, 4, 5], &lots);
    assert_eq!(rt; replies, [done(0, 2), done(1, 3)]);
}

#[test]
fn two_workers_on_eight_machines(rt: HostRuntime) {
    let inst = eight_machines(rt.alloc()).expect(&rt, "no instance");
    moves_that_share_nothing_are_recorded(&rt, rt.alloc(), &inst);
    drop(inst);
}
