ghost use Rattle.std.specs.Prelude.{◌≡◌};
ghost use Rattle.ra_moves.specs.Steps.{StandsAt, from_in};
ghost use Rattle.ra_journal.specs.Entries.{steps_made};
ghost use Rattle.ra_guards.specs.Made.{after_made};
ghost use Rattle.ra_journal.specs.States.{IsDistinctIfDone};

use ra_base::Assignment;
use ra_moves::{Move, Verdict, apply};

/// Takes an entry into a state: applies its move if its verdict is done.
#[tactic(auto, unfolding(ra_guards::specs::Made::after_made, crate::specs::Entries::steps_made))]
pub fn advance(state: &mut Assignment, mv: &Move, verdict: &Verdict)
    requires stands { StandsAt from_in mv.now.steps state.old.items }
    requires distinct { IsDistinctIfDone mv.now.steps verdict.now }
    ensures items { state.new.items ≡
        after_made state.old.items (steps_made verdict.now mv.now.steps) }
    ensures room { state.new.room ≡ state.old.room }
{
    match verdict {
        Verdict::Done { .. } => apply(state, mv),
        Verdict::Refused { .. } => {}
    }
}
