//! What proposals name, and which move is judged and chosen.
use super::super::starts::{demand, same_machines, start_of};
use super::super::verdicts::{done, refused};
use plain::{Planned, plan_plainly};
use ra_base::{Cause, Drawing, Machine, Process, Resource, Service};
use ra_check::{Scratch, parts};
use ra_model::Instance;
use ra_moves::{Move, Step, Verdict};
use std::alloc::Global;
use std::process::Abort;
use test_samples::{crossed_pair, list, sample, single, tight_pair};

/// The words of a proposal with the drawing, and by how much the cost may rise.
#[derive(Clone, Copy)]
struct Proposal {
    words: [u64; 8],
    drawing: Drawing,
    allowed: u64,
}

fn ask(words: [u64; 8], drawing: Drawing, allowed: u64) -> Proposal {
    Proposal {
        words,
        drawing,
        allowed,
    }
}

/// The plan of a proposal at an assignment that is reached from a start.
fn planned(
    rt: &impl Abort,
    alloc: Global,
    inst: &Instance,
    start: &[u32],
    now: &[u32],
    asked: &Proposal,
) -> Planned {
    let a0 = start_of(rt, alloc, inst, start);
    let a = start_of(rt, alloc, inst, now);
    let mut other = list(alloc, a.as_slice()).expect(rt, "no memory");
    let mut scratch = Scratch::make(alloc, inst).expect(rt, "no memory");
    let before = parts(inst, &a0, &a, &mut scratch).total;
    let planned = plan_plainly(
        inst,
        &a0,
        &a,
        &mut other,
        &mut scratch,
        before,
        &asked.words,
        asked.drawing,
        asked.allowed,
    );
    same_machines(rt, &other, &a);
    planned
}

fn step(process: u32, from: u32, to: u32) -> Step {
    Step {
        process: Process(process),
        from: Machine(from),
        to: Machine(to),
    }
}

/// A shift of a process, with the verdict on it.
fn shift(process: u32, from: u32, to: u32, verdict: Verdict) -> Planned {
    Planned {
        mv: Move::shift(step(process, from, to)),
        verdict,
    }
}

/// The plan of a proposal at the start of the sample.
fn planned_at_start(rt: &impl Abort, alloc: Global, inst: &Instance, asked: &Proposal) -> Planned {
    planned(rt, alloc, inst, &[0, 3, 0], &[0, 3, 0], asked)
}

/// The machines 2, 1, 0 and 3; then 0, 3, 1 and 2; then a window from machine 3 that goes on from machine 0. Machine 2
/// is done, 1 breaks the spread, 0 the conflict, and 3 is where the process is.
fn the_only_option_that_is_done_is_planned(rt: &impl Abort, alloc: Global, inst: &Instance) {
    let proposals = [
        ask([0, 1, 2, 1, 0, 3, 0, 0], Drawing::One, 0),
        ask([4, 4, 0, 3, 1, 2, 0, 0], Drawing::One, 0),
        ask([0, 1, 3, 0, 0, 0, 0, 0], Drawing::Two, 0),
    ];
    for asked in proposals {
        let found = planned_at_start(rt, alloc, inst, &asked);
        demand(rt, found == shift(1, 3, 2, done(3510)));
    }
}

fn option_0_is_planned_where_none_is_done(rt: &impl Abort, alloc: Global, inst: &Instance) {
    let spread = Cause::Spread {
        service: Service(0),
        has: 1,
        wants: 2,
    };
    let same = Cause::Same {
        process: Process(1),
    };
    let rows = [
        ([0, 1, 1, 0, 3, 1, 0, 0], shift(1, 3, 1, refused(spread))),
        ([0, 1, 3, 0, 0, 0, 0, 0], shift(1, 3, 3, refused(same))),
    ];
    for (words, want) in rows {
        let asked = ask(words, Drawing::One, 0);
        demand(rt, planned_at_start(rt, alloc, inst, &asked) == want);
    }
}

fn a_chain_is_planned(rt: &impl Abort, alloc: Global, inst: &Instance) {
    let asked = ask([7, 0, 0, 2, 1, 0, 0, 0], Drawing::One, 0);
    let mv = Move::chain(step(0, 0, 0), step(0, 0, 0), step(2, 0, 1));
    let verdict = refused(Cause::Repeat {
        process: Process(0),
    });
    let found = planned_at_start(rt, alloc, inst, &asked);
    demand(rt, found == Planned { mv, verdict });
}

#[test]
fn plans_on_the_sample(rt: HostRuntime) {
    let inst = sample(rt.alloc()).expect(&rt, "no instance");
    the_only_option_that_is_done_is_planned(&rt, rt.alloc(), &inst);
    option_0_is_planned_where_none_is_done(&rt, rt.alloc(), &inst);
    a_chain_is_planned(&rt, rt.alloc(), &inst);
    drop(inst);
}

/// A move costs 1, and 1 for the service. With the way it is 4 at machines 1 and 2, and 7 at machine 3. The last row is
/// from machine 1, whose cost is 4, back to the start.
fn the_first_option_of_least_cost_is_planned(rt: &impl Abort, alloc: Global, inst: &Instance) {
    let rise = Cause::Rise {
        before: 0,
        after: 7,
        allowed: 3,
    };
    let first = ask([0, 0, 3, 2, 1, 0, 0, 0], Drawing::One, 7);
    let other_way_round = ask([0, 0, 3, 1, 2, 0, 0, 0], Drawing::One, 4);
    let window = ask([0, 0, 7, 0, 0, 0, 0, 0], Drawing::Two, 7);
    let less = ask([0, 0, 3, 2, 1, 0, 0, 0], Drawing::One, 3);
    let back = ask([0, 0, 2, 0, 3, 1, 0, 0], Drawing::One, 3);
    let table = [
        (0, first, shift(0, 0, 2, done(4))),
        (0, other_way_round, shift(0, 0, 1, done(4))),
        (0, window, shift(0, 0, 1, done(4))),
        (0, less, shift(0, 0, 3, refused(rise))),
        (1, back, shift(0, 1, 0, done(0))),
    ];
    for (now, asked, want) in table {
        let found = planned(rt, alloc, inst, &[0], &[now], &asked);
        demand(rt, found == want);
    }
}

#[test]
fn plans_for_a_single_process(rt: HostRuntime) {
    let inst = single(rt.alloc()).expect(&rt, "no instance");
    the_first_option_of_least_cost_is_planned(&rt, rt.alloc(), &inst);
    drop(inst);
}

/// The swap of a pair's processes is planned, with this verdict.
fn a_swap_is_planned(rt: &impl Abort, alloc: Global, inst: &Instance, verdict: Verdict) {
    let asked = ask([5, 0, 1, 1, 1, 1, 0, 0], Drawing::Two, 0);
    let mv = Move::swap(step(0, 0, 1), step(1, 1, 0));
    let found = planned(rt, alloc, inst, &[0, 1], &[0, 1], &asked);
    demand(rt, found == Planned { mv, verdict });
}

#[test]
fn plans_for_pairs(rt: HostRuntime) {
    let inst = crossed_pair(rt.alloc()).expect(&rt, "no instance");
    a_swap_is_planned(&rt, rt.alloc(), &inst, done(5));
    drop(inst);
    let tight = refused(Cause::Transient {
        machine: Machine(0),
        resource: Resource(0),
        used: 12,
        cap: 10,
    });
    let inst = tight_pair(rt.alloc()).expect(&rt, "no instance");
    a_swap_is_planned(&rt, rt.alloc(), &inst, tight);
    drop(inst);
}
