ghost use Rattle.std.specs.Prelude.{◌≡◌, List};
ghost use Rattle.ra_moves.specs.declared.steps.Step.{Step};
ghost use Rattle.ra_moves.specs.Judging.{judge};
ghost use Rattle.ra_moves.specs.Moving.{IsOffered};
ghost use Rattle.ra_moves.specs.Weighing.{weighed_of};
ghost use Rattle.ra_plan.specs.Weighings.{IsWeighing};

use ra_moves::{Verdict, Weighed, settle_now};
use ra_world::World;

/// The verdict on a move that was weighed at this world: its broken cause, or else Rise or Done by the cost after it.
/// `allowed` is how much the cost may rise.
pub fn verdict(world: &World<'_>, weighed: &Weighed, allowed: u64) -> Verdict
    requires some { IsWeighing world.now weighed.now }
    ensures { (steps : List Step) → IsOffered world.now.tables world.now.here steps →
        weighed.now ≡ weighed_of world.now steps → result ≡ judge world.now steps allowed }
{
    let greatest = world.cells().greatest();
    settle_now(
        world.instance(),
        greatest,
        world.parts().total,
        weighed,
        allowed,
    )
}
