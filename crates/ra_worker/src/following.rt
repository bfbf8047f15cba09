ghost use Rattle.std.specs.Prelude.{◌≡◌, ◌+◌, ◌*◌, ◌≤◌};
ghost use Rattle.ra_model.specs.Numbers.{resource_count};
ghost use Rattle.ra_journal.specs.Entries.{steps_made};
ghost use Rattle.ra_journal.specs.States.{after_made};
ghost use Rattle.ra_worker.specs.Following.{IsJudged};

use ra_base::Steps;
use ra_moves::{Move, Verdict};
use ra_world::World;
use std::sync::ledger::Ledger;

/// Takes an entry into a world: follows its move if it is done. It reads the requirements of the move's processes alone.
pub(crate) fn follow<L: Ledger>(
    world: &mut World<'_>,
    mv: &Move,
    verdict: &Verdict,
    steps: &mut Steps<L>,
)
    requires judged { IsJudged world.old mv.now.steps verdict.now }
    ensures world { world.new ≡ record world.old {
      here = after_made world.old.here (steps_made verdict.now mv.now.steps);
    } }
    ensures counted { steps.new ≤ steps.old + 3 * resource_count world.old.tables }
{
    match verdict {
        Verdict::Done { .. } => world.apply(mv, steps),
        Verdict::Refused { .. } => {}
    }
}
