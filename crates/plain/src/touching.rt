ghost use Rattle.std.specs.Prelude.{◌≡◌, ◌↔◌, ℕ, ◌<◌, ◌≤◌, true, length};
ghost use Rattle.ra_guards.specs.Guards.{AreKnown};
ghost use Rattle.ra_guards.specs.Versions.{Untouched};
ghost use Rattle.ra_journal.specs.Entries.{entry_at, made_by, made_in};
ghost use Rattle.plain.specs.Touching.{IsApartFrom};

use crate::places::entry;
use ra_guards::keeps_apart;
use ra_journal::Entry;
use ra_model::Instance;
use ra_moves::{Move, Verdict};

/// Whether no entry from the place where an entry for place `j` was planned, and before place `j`, touches a guard of
/// its move.
pub(crate) fn is_untouched(inst: &Instance, entries: &[Entry], j: usize, e: &Entry) -> bool
    requires there { j ≤ length entries.now }
    requires place { e.now.q ≤ j }
    requires known { AreKnown inst.now.tables e.now.mv.steps }
    requires all_known { (n : ℕ) → n < j →
        AreKnown inst.now.tables (entry_at entries.now n).mv.steps }
    ensures { (result ≡ true) ↔ Untouched inst.now.tables
        (made_in entries.now) e.now.q j e.now.mv.steps }
{
    for p in e.q as usize..j {
        if !is_apart(inst, &e.mv, entry(entries, p)) {
            return false;
        }
    }
    true
}

/// Whether an entry touches no guard of a move: it was refused, or its move is apart.
fn is_apart(inst: &Instance, mv: &Move, other: &Entry) -> bool
    requires known { AreKnown inst.now.tables mv.now.steps }
    requires other_known { AreKnown inst.now.tables other.now.mv.steps }
    ensures { (result ≡ true) ↔ IsApartFrom inst.now.tables mv.now.steps (made_by other.now) }
{
    match &other.verdict {
        Verdict::Done { .. } => keeps_apart(inst, mv, &other.mv),
        Verdict::Refused { .. } => true,
    }
}
