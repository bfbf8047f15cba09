ghost use Rattle.std.specs.Prelude.{◌≡◌};
ghost use Rattle.ra_model.specs.Costs.{parts_of};

use ra_base::{Assignment, Parts};
use ra_journal::Journal;

/// A run that has ended: its journal, and the first of its states of least cost.
#[derive(Drop)]
pub struct Solved<'a> {
    pub(crate) journal: Journal<'a>,
    pub(crate) best: Assignment,
    pub(crate) parts: Parts,
    pub ghost told: { parts ≡ parts_of journal.instance.tables journal.initial.items best.items },
}

impl<'a> Solved<'a> {
    /// The journal, with one entry for each proposal.
    pub fn journal(&self) -> &Journal<'a>
        ensures { result.now ≡ self.now.journal }
    {
        &self.journal
    }

    /// The best state.
    pub fn best(&self) -> &Assignment
        ensures { result.now ≡ self.now.best }
    {
        &self.best
    }

    /// The parts of its cost.
    pub fn parts(&self) -> Parts
        ensures { result ≡ parts_of self.now.journal.instance.tables self.now.journal.initial.items
            self.now.best.items }
    {
        self.parts
    }
}
