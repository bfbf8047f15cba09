//! Each chain and each swap that there is.
use super::plans::compare;
use super::walking::words_from;
use crate::Beside;
use ra_base::{Drawing, Steps};
use ra_world::World;
use std::alloc::Global;
use std::process::Abort;
use std::sync::ledger::Ledger;

/// How often all are tried, and how many moves are asked for before the next time.
const ROUNDS: u32 = 3;

const MOVES: u32 = 30;

/// Compares the plans of each chain and of each swap at the start of a walk and at two more places of it. Whether all
/// are equal.
pub(super) fn each_agrees<L: Ledger>(
    rt: &impl Abort,
    alloc: Global,
    beside: &mut Beside<'_>,
    steps: &mut Steps<L>,
) -> bool {
    let mut seed = 1u64;
    for _ in 0..ROUNDS {
        if !all_agree(rt, alloc, beside.world(), steps) {
            return false;
        }
        for _ in 0..MOVES {
            let words = words_from(&mut seed);
            let _verdict = beside.propose(&words, steps);
        }
    }
    true
}

/// Compares the plans of each chain and of each swap at one assignment. Whether all are equal.
fn all_agree<L: Ledger>(
    rt: &impl Abort,
    alloc: Global,
    world: &World<'_>,
    steps: &mut Steps<L>,
) -> bool {
    let processes = u64::from(world.instance().processes());
    for first in 0..processes {
        for second in 0..processes {
            if !swap_agrees(rt, alloc, world, first, second, steps) {
                return false;
            }
            if !chains_agree(rt, alloc, world, first, second, steps) {
                return false;
            }
        }
    }
    true
}

/// Compares the plans of the swap of two processes, with no rise allowed and with any.
fn swap_agrees<L: Ledger>(
    rt: &impl Abort,
    alloc: Global,
    world: &World<'_>,
    first: u64,
    second: u64,
    steps: &mut Steps<L>,
) -> bool {
    let words = [5, first, second, second, second, second, 0, 0];
    if compare(rt, alloc, world, &words, Drawing::One, 0, steps).is_none() {
        return false;
    }
    compare(rt, alloc, world, &words, Drawing::One, u64::MAX, steps).is_some()
}

/// Compares the plans of the chains that begin with two processes: those that go round, those that enter one machine
/// twice, and the others.
fn chains_agree<L: Ledger>(
    rt: &impl Abort,
    alloc: Global,
    world: &World<'_>,
    first: u64,
    second: u64,
    steps: &mut Steps<L>,
) -> bool {
    let processes = u64::from(world.instance().processes());
    let machines = u64::from(world.instance().machines());
    for third in 0..processes {
        for to in 0..machines {
            let words = [7, first, second, third, to, 0, 0, 0];
            if compare(rt, alloc, world, &words, Drawing::One, u64::MAX, steps).is_none() {
                return false;
            }
        }
    }
    true
}
