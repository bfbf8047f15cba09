ghost use Rattle.std.specs.Prelude.{◌≡◌, ◌+◌, ◌<◌, ◌≤◌, length};
ghost use Rattle.ra_journal.specs.States.{state};

use ra_base::Assignment;
use ra_journal::Journal;
use ra_moves::{Verdict, apply};

/// Brings an assignment from the initial one of a journal to the state at a place of the journal. It does what `replay`
/// does, without a world.
pub fn restore(journal: &Journal<'_>, upto: u64, best: &mut Assignment)
    requires at_start { best.old.items ≡ journal.now.initial.items }
    requires within { upto ≤ length journal.now.entries }
    ensures items { best.new.items ≡
        state journal.now.initial.items journal.now.entries upto }
    ensures room { best.new.room ≡ best.old.room }
{
    for at in 0..upto {
        restore_entry(journal, at, best);
    }
}

/// Brings the state at a place to the next place.
fn restore_entry(journal: &Journal<'_>, at: u64, best: &mut Assignment)
    requires here { best.old.items ≡
        state journal.now.initial.items journal.now.entries at }
    requires within { at < length journal.now.entries }
    ensures items { best.new.items ≡
        state journal.now.initial.items journal.now.entries (at + 1) }
    ensures room { best.new.room ≡ best.old.room }
{
    let entry = journal.entry(at);
    match entry.verdict {
        Verdict::Done { .. } => apply(best, &entry.mv),
        Verdict::Refused { .. } => {}
    }
}
