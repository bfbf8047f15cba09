//! What a world tells, after many moves, beside what the plain checker and plain loops tell of the same assignment.
ghost use Rattle.std.specs.Prelude.{◌<◌};

mod comparing;
mod costs;

use super::plans::{is_done, is_done_at};
use super::walking::words_from;
use crate::Beside;
use comparing::agrees;
use ra_base::{Machine, Parts, Resource, Service, Steps};
use ra_world::World;
use std::sync::ledger::Ledger;

/// The kind of move that words ask for: 0 a shift, 1 a swap, 2 a chain.
fn kind_in(words: &[u64; 8]) -> usize
    ensures { result < 3 }
{
    match words[0] % 8 {
        0..=4 => 0,
        5 | 6 => 1,
        _ => 2,
    }
}

/// Proposes two thousand moves. Whether the world tells what a check from scratch does after each that is followed, and
/// some hundred are, of each kind more than ten.
pub(super) fn tells_plainly<L: Ledger>(beside: &mut Beside<'_>, steps: &mut Steps<L>) -> bool {
    let mut seed = 1u64;
    let mut followed = [0u32; 3];
    for _ in 0..2000 {
        let words = words_from(&mut seed);
        if is_done(&beside.propose(&words, steps)) {
            let kind = kind_in(&words);
            followed[kind] = followed[kind].saturating_add(1);
            if !agrees(beside, steps) {
                return false;
            }
        }
    }
    let [shifts, swaps, chains] = followed;
    shifts > 100 && swaps > 10 && chains > 10
}

/// The words of a shift of process 1 of the sample to a machine.
fn shift_to(m: u64) -> [u64; 8] {
    [0, 1, m, 0, 0, 0, 0, 0]
}

/// Five parts, in the order of the fields, and their total.
fn parts_are(five: [u128; 5], total: u128) -> Parts {
    Parts {
        load: five[0],
        balance: five[1],
        process: five[2],
        service: five[3],
        machine: five[4],
        total,
    }
}

/// Whether each of four machines costs this: its load and its balance.
fn costs_are(world: &World<'_>, costs: [(u128, u128); 4]) -> bool {
    if world.instance().machines() != 4 {
        return false;
    }
    for m in 0..4u32 {
        let (load, balance) = costs[m as usize];
        if world.machine_load(Machine(m)) != load || world.machine_balance(Machine(m)) != balance {
            return false;
        }
    }
    true
}

/// Whether this is the use of two resources on machine 0, and the transient use of the first on machines 2 and 3.
fn uses_are(world: &World<'_>, uses: [u64; 2], between: [u64; 2]) -> bool {
    if world.instance().machines() != 4 || world.instance().resources() != 2 {
        return false;
    }
    let rows = world.rows();
    rows.usage(Machine(0), Resource(0)) == uses[0]
        && rows.usage(Machine(0), Resource(1)) == uses[1]
        && rows.transient_use(Machine(2), Resource(0)) == between[0]
        && rows.transient_use(Machine(3), Resource(0)) == between[1]
}

/// Whether these are the locations of service 0, how many of its processes are moved, and the greatest moved count.
fn counts_are(world: &World<'_>, locations: u32, moved: u32, greatest: u32) -> bool {
    if world.instance().services() != 2 {
        return false;
    }
    let cells = world.cells();
    cells.locations(Service(0)) == locations
        && cells.moved(Service(0)) == moved
        && cells.greatest().greatest() == greatest
}

/// Whether the world of the sample tells this at its start.
fn is_at_start(world: &World<'_>) -> bool {
    world.parts() == parts_are([1700, 2500, 0, 0, 0], 4200)
        && costs_are(world, [(1500, 500), (0, 0), (0, 2000), (200, 0)])
        && uses_are(world, [18, 210], [0, 10])
        && counts_are(world, 2, 0, 0)
}

/// Whether it tells this after process 1 has gone from machine 3 to machine 2.
fn is_away(world: &World<'_>) -> bool {
    world.parts() == parts_are([1500, 1700, 100, 10, 200], 3510)
        && costs_are(world, [(1500, 500), (0, 0), (0, 200), (0, 1000)])
        && uses_are(world, [18, 210], [10, 10])
        && counts_are(world, 2, 1, 1)
}

/// Process 1 of the sample goes from machine 3 to machine 2, and back. Whether this is told of it.
pub(super) fn comes_home<L: Ledger>(beside: &mut Beside<'_>, steps: &mut Steps<L>) -> bool {
    if !is_at_start(beside.world()) {
        return false;
    }
    if !is_done_at(&beside.propose(&shift_to(2), steps), 3510) {
        return false;
    }
    if !is_away(beside.world()) {
        return false;
    }
    if !is_done_at(&beside.propose(&shift_to(3), steps), 4200) {
        return false;
    }
    is_at_start(beside.world())
}
