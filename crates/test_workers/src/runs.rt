mod alone;
mod running;

use alone::run_alone;
use ra_base::{Cause, Machine, Process, Resource, Service};
use ra_io::{NoGate, PairGate};
use ra_journal::Entry;
use ra_model::Instance;
use ra_moves::{Move, Step, Verdict};
use running::{Made, run_words};
use std::alloc::Global;
use std::marker::Sync;
use std::process::Abort;
use std::sync::Wait;
use std::thread::Threads;
use test_samples::{crossed_pair, sample};

/// A worker's first proposal, planned at a place: a shift, and its verdict.
fn first_of(worker: u32, q: u64, process: u32, from: u32, to: u32, verdict: Verdict) -> Entry {
    let step = Step {
        process: Process(process),
        from: Machine(from),
        to: Machine(to),
    };
    let mv = Move::shift(step);
    Entry {
        worker,
        k: 0,
        q,
        mv,
        verdict,
    }
}

fn refused(cause: Cause) -> Verdict {
    Verdict::Refused { cause }
}

/// Machine 2 would use more of a resource than it has.
fn too_much(resource: u32, used: u64, cap: u32) -> Verdict {
    refused(Cause::Capacity {
        machine: Machine(2),
        resource: Resource(resource),
        used,
        cap,
    })
}

/// Worker 0 would put process 1 on machine 2, and worker 1 process 2. The cost is then 3510, and the second finds less
/// room if it comes after the first.
const FIRST_TAKES_ROOM: &[&str] = &[
    "solve",
    "m",
    "i",
    "--draws",
    "1",
    "w:0,1,2,1,0,3,0,0",
    "w:0,2,2,2,2,2,0,0",
];

/// How this may go: worker 1 comes second, and was stale or not yet planned; or it comes first, and worker 0 has
/// planned before or after it.
fn is_one_way(made: &Made) -> bool {
    let cost = Verdict::Done { cost: 3510 };
    let late = [
        first_of(0, 0, 1, 3, 2, cost),
        first_of(1, 1, 2, 0, 2, too_much(0, 16, 15)),
    ];
    let before = [
        first_of(1, 0, 2, 0, 2, too_much(1, 200, 100)),
        first_of(0, 0, 1, 3, 2, cost),
    ];
    let behind = [
        first_of(1, 0, 2, 0, 2, too_much(1, 200, 100)),
        first_of(0, 1, 1, 3, 2, cost),
    ];
    let entries = made.entries.as_slice();
    if entries == late.as_slice() {
        return made.best_at == 1;
    }
    made.best_at == 2 && (entries == before.as_slice() || entries == behind.as_slice())
}

fn two_workers_go_one_of_three_ways<R: Abort + Threads + Wait + Sync>(
    rt: &R,
    alloc: Global,
    inst: &Instance,
) {
    for _ in 0..20 {
        let made = run_words(rt, alloc, inst, &[0, 3, 0], FIRST_TAKES_ROOM, &NoGate);
        assert!(rt; is_one_way(&made));
        assert!(rt; made.legal && made.total == 3510);
    }
}

/// Each of two workers waits at the gate for the other, with a plan that it made at the start.
fn two_workers_meet<R: Abort + Threads + Wait + Sync>(
    rt: &R,
    alloc: Global,
    inst: &Instance,
    start: &[u32],
    words: &[&str],
    zero: Verdict,
    one: Verdict,
) {
    let gate = PairGate::make();
    let made = run_words(rt, alloc, inst, start, words, &gate);
    assert!(rt; gate.met());
    assert!(rt; made.legal && made.best_at == 0);
    assert_eq!(rt; made.entries.len(), 2);
    for entry in made.entries.as_slice() {
        let wanted = if entry.worker == 0 { zero } else { one };
        assert!(rt; entry.q == 0 && entry.verdict == wanted);
    }
}

fn sixteen_workers_are_legal<R: Abort + Threads + Wait + Sync>(
    rt: &R,
    alloc: Global,
    inst: &Instance,
) {
    let words = [
        "solve", "m", "i", "--slack", "500", "1:62", "2:62", "3:62", "4:62", "5:62", "6:62",
        "7:62", "8:62", "9:62", "10:62", "11:62", "12:62", "13:62", "14:62", "15:62", "16:70",
    ];
    for _ in 0..3 {
        let made = run_words(rt, alloc, inst, &[0, 3, 0], words.as_slice(), &NoGate);
        assert!(rt; made.legal);
        assert_eq!(rt; made.entries.len(), 1000);
    }
}

/// By hand: process 1 goes from machine 3 to 2, back, and there again. The start costs 4200, and with process 1 on
/// machine 2 it is 3510. Of 3 proposals with slack 2070 the second may raise the cost by 690, a third of that.
const THERE_AND_BACK: &[&str] = &[
    "solve",
    "m",
    "i",
    "--slack",
    "2070",
    "--draws",
    "1",
    "w:0,1,2,1,0,3,0,0,0,1,3,3,3,3,0,0,0,1,2,2,2,2,0,0",
];

/// What one worker makes of `THERE_AND_BACK`.
fn there_and_back() -> [Entry; 3] {
    let there = Verdict::Done { cost: 3510 };
    let first = first_of(0, 0, 1, 3, 2, there);
    let mut second = first_of(0, 1, 1, 2, 3, Verdict::Done { cost: 4200 });
    second.k = 1;
    let mut third = first_of(0, 2, 1, 3, 2, there);
    third.k = 2;
    [first, second, third]
}

/// A worker whose run is called by itself makes the entries that it makes if the program runs it.
fn one_worker_makes_the_same_alone<R: Abort + Threads + Wait + Sync>(
    rt: &R,
    alloc: Global,
    inst: &Instance,
) {
    let alone = run_alone(rt, alloc, inst, &[0, 3, 0], THERE_AND_BACK);
    let made = run_words(rt, alloc, inst, &[0, 3, 0], THERE_AND_BACK, &NoGate);
    let wanted = there_and_back();
    assert_eq!(rt; alone.entries.as_slice(), wanted.as_slice());
    assert_eq!(rt; made.entries.as_slice(), wanted.as_slice());
    assert!(rt; alone.best_at == 1 && alone.best_cost == 3510);
    assert!(rt; made.legal && made.best_at == 1 && made.total == 3510);
}

#[test]
fn runs_on_the_sample(rt: HostRuntime) {
    let inst = sample(rt.alloc()).expect(&rt, "no instance");
    one_worker_makes_the_same_alone(&rt, rt.alloc(), &inst);
    two_workers_go_one_of_three_ways(&rt, rt.alloc(), &inst);
    let spread = refused(Cause::Spread {
        service: Service(0),
        has: 1,
        wants: 2,
    });
    let words = [
        "solve",
        "m",
        "i",
        "--draws",
        "1",
        "w:0,1,1,0,3,1,0,0",
        "w:0,2,2,2,2,2,0,0",
    ];
    two_workers_meet(
        &rt,
        rt.alloc(),
        &inst,
        &[0, 3, 0],
        words.as_slice(),
        spread,
        too_much(1, 200, 100),
    );
    sixteen_workers_are_legal(&rt, rt.alloc(), &inst);
    drop(inst);
}

#[test]
fn two_workers_meet_on_a_pair_of_machines(rt: HostRuntime) {
    let inst = crossed_pair(rt.alloc()).expect(&rt, "no instance");
    let words = [
        "solve",
        "m",
        "i",
        "--draws",
        "1",
        "w:0,0,0,0,0,0,0,0",
        "w:0,1,1,1,1,1,0,0",
    ];
    let stays = |p| refused(Cause::Same {
        process: Process(p),
    });
    two_workers_meet(
        &rt,
        rt.alloc(),
        &inst,
        &[0, 1],
        words.as_slice(),
        stays(0),
        stays(1),
    );
    drop(inst);
}
