//! What guides a search: words, heats, near machines, and the processes on each machine. The numbers come from the
//! formulas, rewritten in Python.
ghost use Rattle.std.specs.Prelude.{◌≡◌, ◌<◌, ◌≤◌, length};
ghost use Rattle.ra_model.specs.Numbers.{machine_count, process_count};
ghost use Rattle.ra_model.specs.Assignments.{IsAssignment};

use crate::common::{fitting, same};
use ra_base::{Assignment, Machine, Process};
use ra_guides::{Chance, Cooling, Heat, Nearby, Residents};
use ra_model::{Instance, machine_of};
use std::alloc::Global;
use std::process::Abort;
use test_samples::{Lists, NotMade, instance, machine, process, resource, service, single};

#[test]
fn words_are_those_of_the_seed(rt: HostRuntime) {
    let mut chance = Chance::from_seed(1);
    same(&rt, chance.word(), 0xcfc5d07f6f03c29b);
    same(&rt, chance.below(10), 7);
    same(&rt, chance.below(1_000_000), 100_150);
    same(&rt, chance.below(0), 0);
    same(&rt, chance.word(), 0x2f47184b86186fa4);
}

#[test]
fn heats_are_halved_and_doubled(rt: HostRuntime) {
    let heat = Heat::of(3);
    same(&rt, heat.units(), 3);
    same(&rt, heat.half().units(), 1);
    same(&rt, heat.half().doubled().units(), 3);
    same(&rt, Heat::of(u64::MAX).units(), u64::MAX);
    same(&rt, Heat::of(u64::MAX).doubled().units(), u64::MAX);
    same(&rt, Heat::of(u64::MAX).doubled().half().units(), u64::MAX);
}

/// By how much a move may raise the cost at a heat of a thousand units, for some words.
const RISES: [(u64, u128); 6] = [
    (u64::MAX, 0),
    (0xc000_0000_0000_0000, 346),
    (0x8000_0000_0000_0000, 692),
    (0x4000_0000_0000_0000, 1_385),
    (1, 44_361),
    (0, 45_054),
];

#[test]
fn a_rise_follows_the_word(rt: HostRuntime) {
    for (word, rise) in RISES {
        same(&rt, Heat::of(1_000).rise(word), rise);
    }
    same(&rt, Heat::of(0).rise(0), 0);
    same(&rt, Heat::of(u64::MAX).rise(0), 831_103_282_434_206_072_786);
}

#[test]
fn heat_falls_with_the_fourth_power(rt: HostRuntime) {
    let cooling = Cooling::between(Heat::of(10_000), Heat::of(0));
    same(&rt, cooling.at(0, 100).units(), 10_000);
    same(&rt, cooling.at(50, 100).units(), 625);
    same(&rt, cooling.at(75, 100).units(), 39);
    same(&rt, cooling.at(100, 100).units(), 0);
    same(&rt, cooling.at(101, 100).units(), 0);
}

#[test]
fn heat_goes_from_one_to_another(rt: HostRuntime) {
    let falling = Cooling::between(Heat::of(10_000), Heat::of(625));
    same(&rt, falling.at(50, 100).units(), 3_164);
    let rising = Cooling::between(Heat::of(625), Heat::of(10_000));
    same(&rt, rising.at(50, 100).units(), 3_164);
    same(&rt, rising.at(7, 0).units(), 10_000);
}

/// From machine 0 the ways to 1 and to 2 are shortest, and so they are from 3; the mix puts first what is two numbers
/// ahead. The words of seed 1 pick place 1 of 3, and then place 0 five times.
fn pick_near(rt: &impl Abort, alloc: Global, inst: &Instance) {
    assert!(rt; inst.machines() == 4);
    let mut nearby = Nearby::make(alloc, inst).expect(rt, "no memory");
    let mut chance = Chance::from_seed(1);
    let home = Machine(0);
    same(rt, nearby.width(), 3);
    same(rt, nearby.pick(home, 64, &mut chance), (1, Machine(1)));
    same(rt, nearby.pick(home, 64, &mut chance), (0, Machine(2)));
    same(rt, nearby.pick(home, 1, &mut chance), (0, Machine(2)));
    same(rt, nearby.pick(home, 0, &mut chance), (0, home));
    same(rt, chance.word(), 0xbf08119f05cd56d6);
    same(rt, nearby.pick(Machine(3), 3, &mut chance), (0, Machine(1)));
}

#[test]
fn near_machines_are_picked(rt: HostRuntime) {
    let inst = single(rt.alloc()).expect(&rt, "no instance");
    pick_near(&rt, rt.alloc(), &inst);
    drop(inst);
}

/// Two machines and ten processes.
fn crowded(alloc: Global) -> Result<Instance, NotMade> {
    instance(
        alloc,
        &Lists {
            resources: &[resource(false, 1)],
            machines: &[machine(0, 0), machine(0, 0)],
            capacities: &[100; 2],
            safeties: &[100; 2],
            move_costs: &[0; 4],
            services: &[service(0, 0)],
            dependencies: &[],
            processes: &[process(0, 1); 10],
            requirements: &[1; 10],
            balances: &[],
            weights: [1, 1, 1],
        },
    )
}

/// Demands that the list of a machine has this many processes, all of them there, and that their numbers have this sum.
fn compare_list(
    rt: &impl Abort,
    residents: &Residents<'_>,
    here: &Assignment,
    m: Machine,
    want: (u32, u64),
)
    requires machine { m.0 < machine_count residents.now.tables }
    requires here { IsAssignment residents.now.tables here.now.items }
{
    let count = residents.count(m);
    let mut sum = 0u64;
    for place in 0..count {
        let p = residents.at(m, place);
        same(rt, machine_of(here, p), m);
        sum = sum.wrapping_add(u64::from(p.0));
    }
    same(rt, (count, sum), want);
}

/// Nine processes go from the first machine to the second, one by one. The second has room for eight at first, so the
/// ninth finds its list full.
fn move_nine(residents: &mut Residents<'_>, here: &Assignment)
    requires machines { machine_count residents.old.tables ≡ 2 }
    requires processes { process_count residents.old.tables ≡ 10 }
    requires here { IsAssignment residents.old.tables here.now.items }
    ensures { residents.new.tables ≡ residents.old.tables }
{
    for p in 0..9 {
        residents.moved(Process(p), Machine(0), Machine(1), here);
    }
}

/// The lists at first, after nine moves, after one of them again, and when they are made anew.
fn follow_all(rt: &impl Abort, alloc: Global, inst: &Instance) {
    assert!(rt; inst.machines() == 2);
    assert!(rt; inst.processes() == 10);
    let start = fitting(rt, alloc, inst, &[0; 10]);
    let nine = fitting(rt, alloc, inst, &[1, 1, 1, 1, 1, 1, 1, 1, 1, 0]);
    let mut residents = Residents::make(alloc, inst, &start).expect(rt, "no memory");
    let (first, second) = (Machine(0), Machine(1));
    compare_list(rt, &residents, &start, first, (10, 45));
    compare_list(rt, &residents, &start, second, (0, 0));
    move_nine(&mut residents, &nine);
    compare_list(rt, &residents, &nine, first, (1, 9));
    compare_list(rt, &residents, &nine, second, (9, 36));
    residents.moved(Process(0), first, second, &nine);
    compare_list(rt, &residents, &nine, second, (9, 36));
    residents.renew(&start);
    compare_list(rt, &residents, &start, first, (10, 45));
}

#[test]
fn residents_follow_their_processes(rt: HostRuntime) {
    let inst = crowded(rt.alloc()).expect(&rt, "no instance");
    follow_all(&rt, rt.alloc(), &inst);
    drop(inst);
}
