ghost use Rattle.std.specs.Prelude.{◌≡◌, ◌+◌, ◌<◌, ◌≤◌, length};
ghost use Rattle.ra_model.specs.Situations.{situation};
ghost use Rattle.ra_journal.specs.Journals.{opening_in};
ghost use Rattle.ra_journal.specs.States.{state, state_at};

use crate::following::follow;
use ra_base::Steps;
use ra_journal::Journal;
use ra_world::World;
use std::sync::ledger::Ledger;

/// Brings a world of the initial assignment of a journal to the state at a place of the journal.
pub fn replay<'a, L: Ledger>(
    journal: &Journal<'a>,
    upto: u64,
    world: &mut World<'a>,
    steps: &mut Steps<L>,
)
    requires at_start { world.old ≡
        situation journal.now.instance.tables journal.now.initial.items journal.now.initial.items }
    requires within { upto ≤ length journal.now.entries }
    ensures { world.new ≡ record world.old {
      here = state journal.now.initial.items journal.now.entries upto;
    } }
{
    for at in 0..upto {
        replay_entry(journal, at, world, steps);
    }
}

/// Brings the state at a place to the next place.
fn replay_entry<L: Ledger>(
    journal: &Journal<'_>,
    at: u64,
    world: &mut World<'_>,
    steps: &mut Steps<L>,
)
    requires here { world.old ≡ state_at (opening_in journal.now) journal.now.entries at }
    requires within { at < length journal.now.entries }
    ensures { world.new ≡ record world.old {
      here = state journal.now.initial.items journal.now.entries (at + 1);
    } }
{
    let entry = journal.entry(at);
    follow(world, &entry.mv, &entry.verdict, steps);
}
