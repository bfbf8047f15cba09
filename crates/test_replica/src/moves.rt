//! Moves: what words ask for, their effect on an assignment, and the verdict on a weighed one.
ghost use Rattle.std.specs.Prelude.{◌≡◌, [], ◌∷◌};
ghost use Rattle.ra_moves.specs.Steps.{StandsAt, Distinct, from_in};

use crate::common::{same, step};
use ra_base::{Assignment, Cause, Drawing, Fixed, Machine, Service};
use ra_moves::{Move, MoveKind, Verdict, Weighed, apply, options, resolve, settle, undo};
use std::alloc::Global;
use std::process::Abort;

/// Three processes on these machines.
fn three(rt: &impl Abort, alloc: Global, first: u32, second: u32, third: u32) -> Assignment
    ensures { result.items
        ≡ record { 0 = first } ∷ record { 0 = second } ∷ record { 0 = third } ∷ [] }
{
    let mut a = Fixed::make(alloc, 3).expect(rt, "no memory");
    a.push(Machine(first));
    a.push(Machine(second));
    a.push(Machine(third));
    a
}

/// The first word of eight, how many machines there are, the drawing, and how many options that
/// makes.
const WINDOWS: &[(u64, u32, Drawing, u32)] = &[
    (0, 1, Drawing::Two, 1),
    (1, 63, Drawing::Two, 63),
    (4, 64, Drawing::Two, 64),
    (8, 65, Drawing::Two, 64),
    (0, 1, Drawing::One, 4),
    (2, 65, Drawing::One, 4),
    (5, 65, Drawing::Two, 4),
    (6, 1, Drawing::One, 4),
    (7, 65, Drawing::Two, 1),
    (15, 65, Drawing::One, 1),
];

#[test]
fn a_window_has_64_machines_or_all(rt: HostRuntime) {
    for row in WINDOWS {
        let (first, machines, drawing, _) = *row;
        assert!(rt; 1 <= machines);
        let count = options(&[first, 0, 0, 0, 0, 0, 0, 0], machines, drawing);
        same(&rt, (first, machines, drawing, count), *row);
    }
}

/// The move of one process from one machine to another.
fn shift(process: u32, from: u32, to: u32) -> Move {
    Move::shift(step(process, from, to))
}

/// The move of an option of eight words, if there is such an option.
fn named(
    rt: &impl Abort,
    a: &Assignment,
    words: &[u64; 8],
    machines: u32,
    drawing: Drawing,
    option: u32,
) -> Move {
    assert!(rt; 1 <= machines);
    assert!(rt; a.len() == 3);
    assert!(rt; option < options(words, machines, drawing));
    resolve(a, words, machines, drawing, option)
}

/// Process 10 mod 3 is 1. The fourth of the machines named is 69 mod 65.
fn words_name_a_shift(rt: &impl Abort, a: &Assignment) {
    let words = [8, 10, 7, 9, 11, 69, 0, 0];
    same(
        rt,
        named(rt, a, &words, 65, Drawing::One, 3),
        shift(1, 3, 4),
    );
    let words = [0, 0, 5, 9, 9, 9, 0, 0];
    same(rt, named(rt, a, &words, 1, Drawing::Two, 0), shift(0, 4, 0));
}

/// The window from machine 63 of 65 goes on at machine 0.
fn words_name_a_window(rt: &impl Abort, a: &Assignment) {
    let words = [0, 1, 63, 9, 9, 9, 0, 0];
    same(
        rt,
        named(rt, a, &words, 65, Drawing::Two, 1),
        shift(1, 3, 64),
    );
    same(
        rt,
        named(rt, a, &words, 65, Drawing::Two, 2),
        shift(1, 3, 0),
    );
    same(
        rt,
        named(rt, a, &words, 65, Drawing::Two, 63),
        shift(1, 3, 61),
    );
}

fn words_name_swaps_and_a_chain(rt: &impl Abort, a: &Assignment) {
    let words = [5, 0, 9, 5, 9, 9, 0, 0];
    let swap = Move::swap(step(0, 4, 2), step(2, 2, 4));
    same(rt, named(rt, a, &words, 65, Drawing::Two, 1), swap);
    let words = [6, 1, 1, 9, 9, 9, 0, 0];
    let swap = Move::swap(step(1, 3, 3), step(1, 3, 3));
    same(rt, named(rt, a, &words, 65, Drawing::One, 0), swap);
    let words = [7, 0, 1, 2, 66, 9, 0, 0];
    let chain = Move::chain(step(0, 4, 3), step(1, 3, 2), step(2, 2, 1));
    same(rt, named(rt, a, &words, 65, Drawing::Two, 0), chain);
}

#[test]
fn the_words_name_the_steps(rt: HostRuntime) {
    let a = three(&rt, rt.alloc(), 4, 3, 2);
    words_name_a_shift(&rt, &a);
    words_name_a_window(&rt, &a);
    words_name_swaps_and_a_chain(&rt, &a);
}

#[test]
fn a_move_has_its_kind_and_its_steps(rt: HostRuntime) {
    let swap = Move::swap(step(0, 4, 2), step(2, 2, 4));
    same(&rt, swap.kind(), MoveKind::Swap);
    assert!(rt; swap.steps() == 2);
    same(&rt, swap.step(1), step(2, 2, 4));
    let chain = Move::chain(step(0, 1, 1), step(0, 1, 1), step(0, 1, 1));
    same(&rt, chain.steps(), 3);
}

/// Applies a move, looks at the machines, and takes it back.
fn there_and_back(rt: &impl Abort, a: &mut Assignment, mv: &Move, want: &[Machine])
    requires distinct { Distinct mv.now.steps }
    requires at_from { StandsAt from_in mv.now.steps a.old.items }
    ensures { a.new.items ≡ a.old.items }
{
    apply(a, mv);
    same(rt, a.as_slice(), want);
    undo(a, mv);
}

#[test]
fn a_move_is_applied_and_undone(rt: HostRuntime) {
    let mut a = three(&rt, rt.alloc(), 0, 3, 0);
    let mv = Move::shift(step(1, 3, 2));
    there_and_back(&rt, &mut a, &mv, &[Machine(0), Machine(2), Machine(0)]);
    let home = [Machine(0), Machine(3), Machine(0)];
    same(&rt, a.as_slice(), home.as_slice());
}

/// A weighing with this broken cause and this local change.
fn weighed(broken: Option<Cause>, local: i128) -> Weighed
    ensures { result.local ≡ local }
{
    Weighed {
        broken,
        local,
        first: None,
        second: None,
        third: None,
    }
}

#[test]
#[tactic(auto, unfolding(ra_moves::specs::Settling::settled_cost))]
fn a_weighed_move_is_done_or_refused(rt: HostRuntime) {
    let done = |cost| Verdict::Done { cost };
    let found = [
        settle(3510, 1, 1, 10, &weighed(None, -1099), 0),
        settle(3510, 1, 0, 10, &weighed(None, 700), 690),
        settle(3510, 0, 2, 10, &weighed(None, 0), 20),
    ];
    same(&rt, found, [done(2411), done(4200), done(3530)]);
    let cause = Cause::Rise {
        before: 3510,
        after: 4200,
        allowed: 689,
    };
    let rise = settle(3510, 1, 0, 10, &weighed(None, 700), 689);
    same(&rt, rise, Verdict::Refused { cause });
    let cause = Cause::Conflict {
        service: Service(0),
        machine: Machine(1),
    };
    let conflict = settle(3510, 1, 1, 10, &weighed(Some(cause), 0), 0);
    same(&rt, conflict, Verdict::Refused { cause });
}
