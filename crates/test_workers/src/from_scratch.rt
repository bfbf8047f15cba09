mod plans;

use super::starts::{demand, same_machines, start_of};
use super::verdicts::{done, refused};
use plain::judge_plainly;
use ra_base::{Cause, Drawing, Fixed, Machine, Process, Resource, Service};
use ra_check::{Scratch, parts};
use ra_model::Instance;
use ra_moves::{Verdict, options, resolve};
use std::alloc::Global;
use std::process::Abort;
use test_samples::{crossed_pair, list, sample, tight_pair};

/// The words of a shift: the process, and the machine.
fn shift(p: u64, m: u64) -> [u64; 8] {
    [0, p, m, 0, 0, 0, 0, 0]
}

/// The words of a swap of two processes.
fn swap(p: u64, q: u64) -> [u64; 8] {
    [5, p, q, 0, 0, 0, 0, 0]
}

/// The verdict on the first move that words name, at an assignment that is reached from a start.
fn judged(
    rt: &impl Abort,
    alloc: Global,
    inst: &Instance,
    start: &[u32],
    now: &[u32],
    words: &[u64; 8],
    allowed: u64,
) -> Verdict {
    let a0 = start_of(rt, alloc, inst, start);
    let mut a = start_of(rt, alloc, inst, now);
    let same = start_of(rt, alloc, inst, now);
    let mut scratch = Scratch::make(alloc, inst).expect(rt, "no memory");
    let before = parts(inst, &a0, &a, &mut scratch).total;
    let _some = options(words, inst.machines(), Drawing::One);
    let mv = resolve(&a, words, inst.machines(), Drawing::One, 0);
    let verdict = judge_plainly(inst, &a0, &mut a, &mut scratch, before, &mv, allowed);
    same_machines(rt, &a, &same);
    verdict
}

/// Judges the first move that words name at the start of the sample, which costs 4200.
fn judged_at_start(rt: &impl Abort, alloc: Global, inst: &Instance, words: &[u64; 8]) -> Verdict {
    judged(rt, alloc, inst, &[0, 3, 0], &[0, 3, 0], words, 0)
}

/// Load 1500, balance 1700, process 100, service 10, machine 200.
fn a_move_is_done(rt: &impl Abort, alloc: Global, inst: &Instance) {
    demand(
        rt,
        judged_at_start(rt, alloc, inst, &shift(1, 2)) == done(3510),
    );
}

/// Process 0 is named by the first two steps, and stays where it is, or by both of a swap; process 1 is named by the
/// first and the third step of a chain.
fn a_process_is_named_again(rt: &impl Abort, alloc: Global, inst: &Instance) {
    let rows = [
        ([7, 0, 0, 2, 1, 0, 0, 0], 0),
        (swap(0, 0), 0),
        ([7, 1, 0, 1, 0, 0, 0, 0], 1),
    ];
    for (words, process) in rows {
        let cause = Cause::Repeat {
            process: Process(process),
        };
        demand(
            rt,
            judged_at_start(rt, alloc, inst, &words) == refused(cause),
        );
    }
}

/// Process 1 is shifted to where it is; in a chain it goes from 3 to 0, and process 2 from 0 to 0.
fn a_process_stays(rt: &impl Abort, alloc: Global, inst: &Instance) {
    let rows = [(shift(1, 3), 1), ([7, 1, 2, 0, 3, 0, 0, 0], 2)];
    for (words, process) in rows {
        let cause = Cause::Same {
            process: Process(process),
        };
        demand(
            rt,
            judged_at_start(rt, alloc, inst, &words) == refused(cause),
        );
    }
}

/// The first process requires 12 of the 10 of machine 1. Process 1 would come to where its service is, and to machine
/// 1, which is in the location of machine 0 while service 0 needs two. Process 2 would stay alone in neighbourhood 0.
fn a_move_breaks_a_constraint(rt: &impl Abort, alloc: Global, inst: &Instance) {
    let capacity = Cause::Capacity {
        machine: Machine(1),
        resource: Resource(0),
        used: 12,
        cap: 10,
    };
    let conflict = Cause::Conflict {
        service: Service(0),
        machine: Machine(0),
    };
    let spread = Cause::Spread {
        service: Service(0),
        has: 1,
        wants: 2,
    };
    let dependency = Cause::Dependency {
        service: Service(1),
        needs: Service(0),
        neighbourhood: 0,
    };
    let rows = [
        (shift(0, 1), capacity),
        (shift(1, 0), conflict),
        (shift(1, 1), spread),
        (shift(0, 2), dependency),
    ];
    for (words, cause) in rows {
        demand(
            rt,
            judged_at_start(rt, alloc, inst, &words) == refused(cause),
        );
    }
}

/// The way back, from a cost of 3510 to one of 4200.
fn the_cost_may_rise_by_what_is_allowed(rt: &impl Abort, alloc: Global, inst: &Instance) {
    let rise = Cause::Rise {
        before: 3510,
        after: 4200,
        allowed: 689,
    };
    let rows = [(689, refused(rise)), (690, done(4200))];
    for (allowed, verdict) in rows {
        let found = judged(
            rt,
            alloc,
            inst,
            &[0, 3, 0],
            &[0, 2, 0],
            &shift(1, 3),
            allowed,
        );
        demand(rt, found == verdict);
    }
}

#[test]
fn moves_on_the_sample(rt: HostRuntime) {
    let inst = sample(rt.alloc()).expect(&rt, "no instance");
    a_move_is_done(&rt, rt.alloc(), &inst);
    a_process_is_named_again(&rt, rt.alloc(), &inst);
    a_process_stays(&rt, rt.alloc(), &inst);
    a_move_breaks_a_constraint(&rt, rt.alloc(), &inst);
    the_cost_may_rise_by_what_is_allowed(&rt, rt.alloc(), &inst);
    drop(inst);
}

/// The instance with these machines closed.
fn closing(rt: &impl Abort, inst: Instance, flags: Fixed<bool>) -> Instance {
    assert!(rt; flags.len() == inst.machines() as usize);
    inst.closing(flags)
}

fn nothing_moves_there(rt: &impl Abort, alloc: Global, inst: &Instance) {
    let cause = Cause::Closed {
        process: Process(1),
        machine: Machine(2),
    };
    demand(
        rt,
        judged_at_start(rt, alloc, inst, &shift(1, 2)) == refused(cause),
    );
}

#[test]
fn a_move_enters_a_closed_machine(rt: HostRuntime) {
    let inst = sample(rt.alloc()).expect(&rt, "no instance");
    let flags = list(rt.alloc(), &[false, false, true, false]).expect(&rt, "no memory");
    let closed = closing(&rt, inst, flags);
    nothing_moves_there(&rt, rt.alloc(), &closed);
    drop(closed);
}

/// The verdict on a swap of the two processes of a pair, at its start.
fn swapped(rt: &impl Abort, alloc: Global, inst: &Instance) -> Verdict {
    judged(rt, alloc, inst, &[0, 1], &[0, 1], &swap(0, 1), 0)
}

/// The load of 10 * 4 goes; process 2, service 1, machine 2 come.
#[test]
fn a_swap_is_done(rt: HostRuntime) {
    let inst = crossed_pair(rt.alloc()).expect(&rt, "no instance");
    let verdict = swapped(&rt, rt.alloc(), &inst);
    drop(inst);
    demand(&rt, verdict == done(5));
}

/// Two processes of 6 need 12 of the 10 of machine 0 while they change places.
#[test]
fn a_move_breaks_a_capacity_on_the_way(rt: HostRuntime) {
    let cause = Cause::Transient {
        machine: Machine(0),
        resource: Resource(0),
        used: 12,
        cap: 10,
    };
    let inst = tight_pair(rt.alloc()).expect(&rt, "no instance");
    let verdict = swapped(&rt, rt.alloc(), &inst);
    drop(inst);
    demand(&rt, verdict == refused(cause));
}
