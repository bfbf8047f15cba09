//! Cells beside plain counts.
mod mirror;
mod samples;

use crate::common::same;
use mirror::Mirror;
use ra_base::{Assignment, Machine, Service};
use ra_model::Instance;
use samples::{crowd, large, mixed};
use std::alloc::Global;
use std::process::Abort;
use test_samples::counts::{in_location, in_neighbourhood, locations, moved, on_machine};
use test_samples::{assignment, sample};

/// Compares all that the cells tell of a service with a plain count.
#[tactic(auto, using(ra_cells::proofs::CellLemmas::standing))]
fn compare_service(rt: &impl Abort, mirror: &Mirror<'_>, s: u32) {
    let inst = mirror.inst;
    if s >= inst.services() {
        return;
    }
    let service = Service(s);
    let cells = &mirror.cells;
    for m in 0..inst.machines() {
        let machine = Machine(m);
        let (hood, place) = (inst.neighbourhood(machine), inst.location(machine));
        let now = &mirror.now;
        let counted = [
            on_machine(inst, now, s, m),
            in_location(inst, now, s, place),
            in_neighbourhood(inst, now, s, hood),
        ];
        let told = [
            cells.on_machine(service, machine),
            cells.in_location(service, place),
            cells.in_neighbourhood(service, hood),
        ];
        same(rt, told, counted);
    }
    let counted = [
        0,
        0,
        locations(inst, &mirror.now, s),
        moved(inst, mirror.start, &mirror.now, s),
    ];
    let told = [
        cells.in_location(service, 77),
        cells.in_neighbourhood(service, 77),
        cells.locations(service),
        cells.moved(service),
    ];
    same(rt, told, counted);
}

/// Compares all that the cells tell with plain counts.
fn compare(rt: &impl Abort, mirror: &Mirror<'_>) {
    let mut most = 0;
    for s in 0..mirror.inst.services() {
        compare_service(rt, mirror, s);
        most = most.max(moved(mirror.inst, mirror.start, &mirror.now, s));
    }
    same(rt, mirror.cells.greatest().greatest(), most);
}

/// Cells beside a start, which has to fit the instance.
fn mirror_of<'a>(
    rt: &impl Abort,
    alloc: Global,
    inst: &'a Instance,
    start: &'a Assignment,
) -> Mirror<'a> {
    assert!(rt; inst.is_assignment(start));
    Mirror::make(alloc, inst, start).expect(rt, "no memory")
}

/// Changes the machines of processes, each by a few words that look like drawn ones, and compares
/// after some changes.
fn walk(rt: &impl Abort, mirror: &mut Mirror<'_>, rounds: u32, each: u32) {
    compare(rt, mirror);
    let mut word = 1u32;
    for round in 0..rounds {
        word = word.wrapping_mul(1664525).wrapping_add(1013904223);
        mirror.put(word >> 16, word >> 8);
        if each == 0 || round % each == 0 {
            compare(rt, mirror);
        }
    }
    compare(rt, mirror);
}

/// Walks from a start.
fn walk_from(
    rt: &impl Abort,
    alloc: Global,
    inst: &Instance,
    start: &Assignment,
    rounds: u32,
    each: u32,
) {
    let mut mirror = mirror_of(rt, alloc, inst, start);
    walk(rt, &mut mirror, rounds, each);
}

/// The locations and moved processes of the sample's first service, and the greatest moved count.
#[tactic(auto, using(ra_cells::proofs::CellLemmas::standing))]
fn told(mirror: &Mirror<'_>) -> Option<(u32, u32, u32)> {
    if mirror.inst.services() == 0 {
        return None;
    }
    let cells = &mirror.cells;
    let first = Service(0);
    Some((
        cells.locations(first),
        cells.moved(first),
        cells.greatest().greatest(),
    ))
}

/// These three numbers after a process went to a machine.
fn put(mirror: &mut Mirror<'_>, p: u32, to: u32) -> Option<(u32, u32, u32)> {
    mirror.put(p, to);
    told(mirror)
}

/// These three numbers at the start, and after process 1 went to machine 2, to machine 1 and home again.
fn shift_and_back(rt: &impl Abort, mirror: &mut Mirror<'_>) {
    same(rt, told(mirror), Some((2, 0, 0)));
    same(rt, put(mirror, 1, 2), Some((2, 1, 1)));
    same(rt, put(mirror, 1, 1), Some((1, 1, 1)));
    same(rt, put(mirror, 1, 3), Some((2, 0, 0)));
}

#[test]
fn a_process_of_the_sample_leaves_and_comes_home(rt: HostRuntime) {
    let inst = sample(rt.alloc()).expect(&rt, "no instance");
    let start = assignment(rt.alloc(), &[0, 3, 0]).expect(&rt, "no memory");
    let mut mirror = mirror_of(&rt, rt.alloc(), &inst, &start);
    shift_and_back(&rt, &mut mirror);
    drop(mirror);
    drop(start);
    drop(inst);
}

#[test]
fn cells_tell_what_plain_counts_do(rt: HostRuntime) {
    let inst = mixed(rt.alloc()).expect(&rt, "no instance");
    let start = assignment(rt.alloc(), &[0, 1, 2, 3, 4, 0, 0, 2]).expect(&rt, "no memory");
    walk_from(&rt, rt.alloc(), &inst, &start, 400, 1);
    drop(start);
    drop(inst);
}

#[test]
fn cells_of_thousands_of_processes_tell_it_too(rt: HostRuntime) {
    let inst = large(rt.alloc()).expect(&rt, "no instance");
    let start = crowd(rt.alloc()).expect(&rt, "no memory");
    walk_from(&rt, rt.alloc(), &inst, &start, 4000, 1000);
    drop(start);
    drop(inst);
}
