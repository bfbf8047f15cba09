//! Moves on an instance of eight machines, four services and six processes.
ghost use Rattle.std.specs.Prelude.{◌≡◌, IsTrue};
ghost use Rattle.ra_guards.specs.Guards.{AreWithin};

mod newest;

use crate::common::{same, step};
use ra_guards::keeps_apart;
use ra_model::Instance;
use ra_moves::Move;
use std::process::Abort;
use test_samples::eight_machines;

/// Whether each step of a move is of a process and of machines of the instance.
#[tactic(auto, using(ra_guards::proofs::GuardLemmas::knowing))]
fn are_within(inst: &Instance, mv: &Move) -> bool
    ensures { IsTrue result → AreWithin inst.now.tables mv.now.steps }
{
    for j in 0..mv.steps() {
        let step = mv.step(j);
        if step.process.0 >= inst.processes() {
            return false;
        }
        if step.from.0 >= inst.machines() {
            return false;
        }
        if step.to.0 >= inst.machines() {
            return false;
        }
    }
    true
}

/// Whether two moves are apart, if the instance has what they name.
#[tactic(auto, using(ra_guards::proofs::GuardLemmas::within_known))]
fn answer(inst: &Instance, mv: &Move, other: &Move) -> Option<bool> {
    if are_within(inst, mv) && are_within(inst, other) {
        Some(keeps_apart(inst, mv, other))
    } else {
        None
    }
}

fn shift(process: u32, from: u32, to: u32) -> Move {
    Move::shift(step(process, from, to))
}

/// Whether a move is apart from a shift of process 0, of the first service, from machine 0 to machine 1.
fn from_first(inst: &Instance, other: &Move) -> Option<bool> {
    answer(inst, &shift(0, 0, 1), other)
}

/// Whether that shift is apart from a move, asked the other way round.
fn to_first(inst: &Instance, mv: &Move) -> Option<bool> {
    answer(inst, mv, &shift(0, 0, 1))
}

fn moves_meet_at_machines(rt: &impl Abort, inst: &Instance) {
    let table: &[(u32, u32, u32, bool)] = &[
        (4, 2, 3, true),
        (4, 1, 3, false),
        (4, 0, 3, false),
        (4, 2, 0, false),
        (4, 2, 1, false),
    ];
    for row in table {
        let (process, from, to, apart) = *row;
        let other = shift(process, from, to);
        let both = [from_first(inst, &other), to_first(inst, &other)];
        same(rt, (*row, both), (*row, [Some(apart); 2]));
    }
}

/// The second service needs the first, the third itself, and the fourth the second.
fn moves_meet_at_services(rt: &impl Abort, inst: &Instance) {
    let table: &[(u32, bool)] = &[
        (0, false),
        (1, false),
        (2, false),
        (3, true),
        (4, true),
        (5, true),
    ];
    for row in table {
        let (process, apart) = *row;
        let other = shift(process, 2, 3);
        let both = [from_first(inst, &other), to_first(inst, &other)];
        same(rt, (*row, both), (*row, [Some(apart); 2]));
    }
}

fn each_step_counts(rt: &impl Abort, inst: &Instance) {
    let swap = Move::swap(step(3, 2, 3), step(4, 3, 2));
    let far = Move::chain(step(3, 2, 3), step(4, 3, 4), step(5, 4, 5));
    let near = Move::chain(step(3, 2, 3), step(4, 3, 4), step(5, 4, 0));
    let joined = Move::swap(step(3, 2, 3), step(2, 3, 2));
    let apart = [from_first(inst, &swap), to_first(inst, &far)];
    same(rt, apart, [Some(true), Some(true)]);
    let meeting = [
        from_first(inst, &near),
        to_first(inst, &near),
        from_first(inst, &joined),
        to_first(inst, &joined),
    ];
    same(rt, meeting, [Some(false); 4]);
}

#[test]
fn moves_that_are_apart(rt: HostRuntime) {
    let inst = eight_machines(rt.alloc()).expect(&rt, "no instance");
    moves_meet_at_machines(&rt, &inst);
    moves_meet_at_services(&rt, &inst);
    each_step_counts(&rt, &inst);
    drop(inst);
}
