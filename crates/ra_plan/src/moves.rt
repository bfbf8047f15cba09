ghost use Rattle.std.specs.Prelude.{◌+◌, ◌*◌, ◌≤◌, length};
ghost use Rattle.ra_model.specs.Numbers.{resource_count, machine_count};
ghost use Rattle.ra_moves.specs.MoveSteps.{step_count};
ghost use Rattle.ra_moves.specs.Options.{kind_of, option_count};
ghost use Rattle.ra_moves.specs.Moving.{IsOffered};
ghost use Rattle.ra_plan.specs.Choosing.{IsBest};
ghost use Rattle.ra_moves.specs.Judging.{IsMoveBelow};

use crate::best::Best;
use crate::flaws::flaw_of;
use ra_base::{Drawing, Steps};
use ra_moves::{Move, options, resolve_by};
use ra_weigh::{change_of_ways, cost_after_move, is_dear_by_ways, is_unbroken};
use ra_world::{World, requirements};
use std::sync::ledger::Ledger;

/// The best of all options of a swap or a chain, from the first of them, which has been judged.
pub(crate) fn best_move<L: Ledger>(
    world: &World<'_>,
    words: &[u64; 8],
    drawing: Drawing,
    allowed: u64,
    first: Best,
    steps: &mut Steps<L>,
) -> Best
    requires first { IsBest world.now words.now drawing allowed 1 first }
    ensures best { IsBest world.now words.now drawing allowed
        (option_count words.now (machine_count world.now.tables) drawing) result }
    ensures counted { steps.new + 2 * (step_count (kind_of words.now) * resource_count
        world.now.tables)
        ≤ steps.old + option_count words.now (machine_count world.now.tables) drawing
        * (2 * (step_count (kind_of words.now) * resource_count world.now.tables)) }
{
    let by = world.divisors();
    let count = options(words, by.machines.number, drawing);
    let most = world.parts().total + u128::from(allowed) + 1;
    let mut best = first;
    for option in 1..count {
        let mv = resolve_by(world.assignment(), words, by, drawing, option);
        let found = cost_below(world, &mv, best.bound(most), steps);
        best = best.or_found(option, found);
    }
    best
}

/// The cost after a move, if it breaks nothing and costs less than a bound. Its ways are tested first, since they refuse
/// most exchanges in the least time, then its cost; the constraints are tested only for a move that can still win.
#[inline(always)]
pub fn cost_below<L: Ledger>(
    world: &World<'_>,
    mv: &Move,
    bound: u128,
    steps: &mut Steps<L>,
) -> Option<u128>
    requires offered { IsOffered world.now.tables world.now.here mv.now.steps }
    ensures below { IsMoveBelow world.now mv.now.steps bound result }
    ensures counted { steps.new ≤ steps.old
        + 2 * (length mv.now.steps * resource_count world.now.tables) }
{
    if let Some(_cause) = flaw_of(mv) {
        return None;
    }
    let ways = change_of_ways(world, mv);
    if is_dear_by_ways(world, mv, &ways, bound) {
        return None;
    }
    let mut required = [0; 60];
    requirements(world.instance(), mv, &mut required, steps);
    let cost = cost_after_move(world, mv, &required, &ways, bound)?;
    if !is_unbroken(world, mv, &required) {
        return None;
    }
    Some(cost)
}
