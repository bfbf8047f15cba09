ghost use Rattle.std.specs.Prelude.{◌≡◌, ◌+◌, ◌*◌, ◌^◌, ◌<◌, ◌≤◌, length};
ghost use Rattle.ra_base.specs.Sums.{total};
ghost use Rattle.ra_model.specs.Numbers.{machine_count, process_count};
ghost use Rattle.ra_moves.specs.Values.{gone, come};
ghost use Rattle.ra_moves.specs.Moving.{MayMove};
ghost use Rattle.ra_weigh.specs.PlaceCosts.{place_cost};
ghost use Rattle.ra_weigh.specs.WayCosts.{IsChangeOfWays};

use crate::amounts::Change;
use ra_base::{Machine, Process};
use ra_model::machine_of;
use ra_moves::Move;
use ra_world::World;

/// The change of the sum of process and machine cost by a move. The time grows with the number of its steps.
#[inline(always)]
pub fn change_of_ways(world: &World<'_>, mv: &Move) -> Change
    requires { MayMove world.now mv.now.steps }
    ensures { IsChangeOfWays world.now mv.now.steps result }
{
    Change {
        added: cost_entered(world, mv),
        taken: cost_left(world, mv),
    }
}

/// What the processes of the move cost on the machines that they enter: their process and machine cost.
#[inline(always)]
#[tactic(auto, using(ra_base::proofs::Sums::sums))]
fn cost_entered(world: &World<'_>, mv: &Move) -> u128
    requires { MayMove world.now mv.now.steps }
    ensures value { result ≡ total (length mv.now.steps)
        (come (place_cost world.now.tables world.now.start) mv.now.steps) }
    ensures few { result ≤ 2 ^ 110 }
{
    let mut cost = 0;
    for j in 0..mv.steps() {
        let step = mv.step(j);
        cost += place_cost(world, step.process, step.to);
    }
    cost
}

/// What the processes of the move cost on the machines that they leave: their process and machine cost.
#[inline(always)]
#[tactic(auto, using(ra_base::proofs::Sums::sums))]
fn cost_left(world: &World<'_>, mv: &Move) -> u128
    requires { MayMove world.now mv.now.steps }
    ensures value { result ≡ total (length mv.now.steps)
        (gone (place_cost world.now.tables world.now.start) mv.now.steps) }
    ensures few { result ≤ 2 ^ 110 }
{
    let mut cost = 0;
    for j in 0..mv.steps() {
        let step = mv.step(j);
        cost += place_cost(world, step.process, step.from);
    }
    cost
}

/// What a process on a machine adds to the process cost and to the machine cost.
#[inline(always)]
#[tactic(auto, using(ra_world::proofs::CostLaws::product_small), unfolding(crate::specs::PlaceCosts::place_cost, ra_model::specs::Costs::process_share, ra_model::specs::Costs::way_share))]
fn place_cost(world: &World<'_>, p: Process, at: Machine) -> u128
    requires process { p.0 < process_count world.now.tables }
    requires machine { at.0 < machine_count world.now.tables }
    ensures value { result ≡ place_cost world.now.tables world.now.start p.0 at.0 }
    ensures few { result ≤ 2 ^ 100 }
{
    let inst = world.instance();
    let home = machine_of(world.initial(), p);
    let moved = if at.0 == home.0 {
        0
    } else {
        inst.process_cost(p)
    };
    let process = u128::from(inst.process_weight()) * u128::from(moved);
    process + u128::from(inst.machine_weight()) * u128::from(world.way(home, at))
}
