//! A weighing at a world that has taken in a move.
ghost use Rattle.ra_moves.specs.Moving.{IsOffered};

use super::plans::is_done_at;
use crate::Beside;
use ra_base::{Drawing, MovedCount, Service, Steps};
use ra_moves::{Move, Weighed, options, resolve};
use ra_plan::{verdict, weigh};
use ra_world::World;
use std::sync::ledger::Ledger;

/// The words of a shift of a process to a machine.
fn shift_to(p: u64, m: u64) -> [u64; 8] {
    [0, p, m, 0, 0, 0, 0, 0]
}

/// The first option of words, at a world.
fn offered(world: &World<'_>, words: &[u64; 8]) -> Move
    ensures { IsOffered world.now.tables world.now.here result.steps }
{
    let machines = world.instance().machines();
    let _some = options(words, machines, Drawing::One);
    let mv = resolve(world.assignment(), words, machines, Drawing::One, 0);
    let _few = mv.steps();
    mv
}

/// Process 1 of the sample goes to machine 2, and then process 2 is weighed on its way to machine 1. Whether this is
/// told of it.
pub(super) fn weighs_shift<L: Ledger>(beside: &mut Beside<'_>, steps: &mut Steps<L>) -> bool {
    if !is_done_at(&beside.propose(&shift_to(1, 2), steps), 3510) {
        return false;
    }
    let world = beside.world();
    let away = offered(world, &shift_to(2, 1));
    let weighed = weigh(world, &away, steps);
    if weighed != expected() {
        return false;
    }
    is_done_at(&verdict(world, &weighed, 0), 2411)
}

/// Nothing is broken, the local change is -1099, and service 1 has one process that moves.
fn expected() -> Weighed {
    Weighed {
        broken: None,
        local: -1099,
        first: Some(MovedCount {
            service: Service(1),
            before: 0,
            after: 1,
        }),
        second: None,
        third: None,
    }
}
