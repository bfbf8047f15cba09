ghost use Rattle.std.specs.Prelude.{◌≡◌, length, None};
ghost use Rattle.ra_moves.specs.Judging.{broken_by};
ghost use Rattle.ra_moves.specs.Weighing.{weighed_of};
ghost use Rattle.ra_moves.specs.Moving.{MayMove};
ghost use Rattle.ra_world.specs.Required.{AreRequiredRows};

use crate::counts::counts_of;
use crate::ends::change_at_ends;
use crate::ways::change_of_ways;
use ra_base::difference;
use ra_moves::{Move, Weighed};
use ra_world::World;

/// The weighing of a move that breaks nothing, from what its processes require: the change of the sum of load, balance,
/// process and machine cost, and the moved counts of its different services in the order of its steps. It takes no
/// memory.
pub fn changed_by(world: &World<'_>, mv: &Move, required: &[u32; 60]) -> Weighed
    requires moves { MayMove world.now mv.now.steps }
    requires required { AreRequiredRows world.now.tables mv.now.steps
        (length mv.now.steps) required.now }
    requires unbroken { broken_by world.now mv.now.steps ≡ None }
    ensures { result ≡ weighed_of world.now mv.now.steps }
{
    // What is known of every world.
    let _known = world.instance();
    let ends = change_at_ends(world, mv, required);
    let ways = change_of_ways(world, mv);
    let counts = counts_of(world, mv);
    Weighed {
        broken: None,
        local: difference(ends.added + ways.added, ends.taken + ways.taken),
        first: counts[0],
        second: counts[1],
        third: counts[2],
    }
}
