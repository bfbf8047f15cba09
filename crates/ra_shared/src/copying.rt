ghost use Rattle.std.specs.Prelude.{◌≡◌, ℕ, ◌≤◌, List, length};
ghost use Rattle.ra_journal.specs.declared.entries.Entry.{Entry};
ghost use Rattle.ra_shared.specs.Copies.{CopiesUnlessQuiet};

use ra_journal::{Batch, Journal};

/// What a worker copies of the journal in the turn that answers its plan.
pub(crate) trait Copying {
    /// It is a copy of these entries, from a place on.
    ghost copied: { Self → List Entry → ℕ → Type 0 };

    /// Copies the entries from a place on.
    fn copy(&mut self, journal: &Journal<'_>, place: u64)
        requires { place ≤ length journal.now.entries }
        ensures { copied self.new journal.now.entries place };
}

/// A batch takes the entries from the place on, or none if all of them are refused.
impl Copying for Batch {
    ghost copied = { λ batch seen place. CopiesUnlessQuiet place seen batch };

    fn copy(&mut self, journal: &Journal<'_>, place: u64) {
        if journal.is_quiet_from(place) {
            self.clear();
        } else {
            journal.copy_from(place, self);
        }
    }
}

/// The choice of a worker that copies nothing.
#[derive(Drop)]
pub(crate) struct Nothing;

impl Copying for Nothing {
    ghost copied = { λ _ _ _. Unit {0} };

    fn copy(&mut self, _journal: &Journal<'_>, _place: u64) {}
}
