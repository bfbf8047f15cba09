ghost use Rattle.std.specs.Prelude.{◌≡◌, ◌+◌, ◌*◌, ◌≤◌, pos, Some, None};
ghost use Rattle.ra_model.specs.Numbers.{resource_count};
ghost use Rattle.ra_moves.specs.Moving.{IsOffered};
ghost use Rattle.ra_moves.specs.Weighing.{weighed_of};

use crate::flaws::flaw_of;
use ra_base::{Cause, Steps};
use ra_moves::{Move, Weighed};
use ra_weigh::{changed_by, first_broken};
use ra_world::{World, requirements};
use std::sync::ledger::Ledger;

/// The weighing of a move: the cause other than a rise for which it is refused, and nothing else; or the change of the
/// sum of load, balance, process and machine cost, with the moved counts of its different services in the order of its
/// steps. It reads at most six requirements for each resource, and takes no memory.
pub fn weigh<L: Ledger>(world: &World<'_>, mv: &Move, steps: &mut Steps<L>) -> Weighed
    requires { IsOffered world.now.tables world.now.here mv.now.steps }
    ensures value { result ≡ weighed_of world.now mv.now.steps }
    ensures counted { steps.new ≤ steps.old + 6 * resource_count world.now.tables }
{
    if let Some(cause) = flaw_of(mv) {
        return bare(cause);
    }
    let mut required = [0; 60];
    requirements(world.instance(), mv, &mut required, steps);
    match first_broken(world, mv, &required) {
        Some(cause) => bare(cause),
        None => changed_by(world, mv, &required),
    }
}

/// The weighing of a move that is refused for a cause.
pub(crate) fn bare(cause: Cause) -> Weighed
    ensures { result ≡
        record { broken = Some cause; local = pos 0; first = None; second = None; third = None } }
{
    Weighed {
        broken: Some(cause),
        local: 0,
        first: None,
        second: None,
        third: None,
    }
}
