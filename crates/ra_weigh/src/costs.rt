ghost use Rattle.std.specs.Prelude.{◌≡◌, ◌↔◌, ◌+◌, ◌^◌, ◌<◌, ◌≤◌, true, length};
ghost use Rattle.ra_world.specs.Required.{AreRequiredRows};
ghost use Rattle.ra_weigh.specs.Below.{IsIfBelow};
ghost use Rattle.ra_weigh.specs.WayCosts.{IsChangeOfWays};
ghost use Rattle.ra_model.specs.Situations.{cost_at, service_cost_at};
ghost use Rattle.ra_moves.specs.Replacing.{after_move};
ghost use Rattle.ra_moves.specs.Moving.{MayMove};

use crate::amounts::Change;
use crate::counts::counts_of;
use crate::ends::{change_at_ends, cost_now};
use crate::exchanges::is_exchange;
use ra_moves::Move;
use ra_world::World;

/// The cost after a move, whatever it breaks, if it is below a bound, from what its processes require. The service cost
/// is computed last, since it takes the most time, and before it the costs of the processes on the machines that they
/// enter: most moves cost too much without. The time grows only with the number of resources, and no memory is taken.
pub fn cost_after_move(
    world: &World<'_>,
    mv: &Move,
    required: &[u32; 60],
    ways: &Change,
    bound: u128,
) -> Option<u128>
    requires moves { MayMove world.now mv.now.steps }
    requires required { AreRequiredRows world.now.tables mv.now.steps
        (length mv.now.steps) required.now }
    requires ways { IsChangeOfWays world.now mv.now.steps ways.now }
    ensures { IsIfBelow bound (cost_at (after_move world.now mv.now.steps)) result }
{
    let parts = world.parts();
    let ends = change_at_ends(world, mv, required);
    let rows = parts.total + ends.added;
    let taken = ends.taken + parts.service + ways.taken;
    if is_high(bound, rows, taken) {
        return None;
    }
    let added = rows + ways.added;
    if is_high(bound, added, taken) {
        return None;
    }
    let cost = added + service_after(world, mv) - taken;
    if cost >= bound {
        return None;
    }
    Some(cost)
}

/// Whether an exchange costs at least a bound by its ways alone, even if its machines cost nothing after it. Most
/// exchanges do, and what their processes require need not be read to find it out.
#[inline(always)]
pub fn is_dear_by_ways(world: &World<'_>, mv: &Move, ways: &Change, bound: u128) -> bool
    requires moves { MayMove world.now mv.now.steps }
    requires ways { IsChangeOfWays world.now mv.now.steps ways.now }
    ensures { result ≡ true → bound ≤ cost_at (after_move world.now mv.now.steps) }
{
    if !is_exchange(mv) {
        return false;
    }
    let parts = world.parts();
    let step = mv.step(0);
    let machines = cost_now(world, step.from) + cost_now(world, step.to);
    let taken = machines + parts.service + ways.taken;
    is_high(bound, parts.total + ways.added, taken)
}

/// Whether what is added, minus what is taken away, is at least a bound.
#[inline(always)]
fn is_high(bound: u128, added: u128, taken: u128) -> bool
    requires { added < 2 ^ 127 }
    ensures { (result ≡ true) ↔ (bound + taken ≤ added) }
{
    bound.saturating_add(taken) <= added
}

/// The service cost after the move.
fn service_after(world: &World<'_>, mv: &Move) -> u128
    requires { MayMove world.now mv.now.steps }
    ensures value { result ≡ service_cost_at (after_move world.now mv.now.steps) }
    ensures few { result < 2 ^ 48 }
{
    let counts = counts_of(world, mv);
    let greatest = world.cells().greatest();
    let after = greatest.greatest_after(counts[0], counts[1], counts[2]);
    u128::from(world.instance().service_weight()) * u128::from(after)
}
