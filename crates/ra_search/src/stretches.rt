ghost use Rattle.ra_search.specs.Moving.{Reaches};

use crate::searcher::Searcher;
use ra_base::Steps;
use ra_guides::Cooling;
use std::sync::ledger::Ledger;

/// A part of a search: so many tries, at the heats of a cooling from some place of it on.
#[derive(Clone, Copy)]
pub(crate) struct Stretch {
    pub(crate) cooling: Cooling,
    /// How many tries of the cooling were made before, and how many it has in all.
    pub(crate) begun: u64,
    pub(crate) whole: u64,
    /// How many tries to make.
    pub(crate) tries: u64,
    /// Whether processes are visited by chance, and not machine by machine.
    pub(crate) by_process: bool,
}

/// How many times the search chooses whom to visit before it looks at the heat again.
const CHOICES: u32 = 8;

impl<'a> Searcher<'a> {
    /// Makes the tries of a stretch, or a few more. It ends early if there is no room for more moves.
    pub(crate) fn search<L: Ledger>(&mut self, stretch: &Stretch, steps: &mut Steps<L>)
        ensures { Reaches self.old.world self.new.world }
    {
        let mut left = stretch.tries;
        'tries: while left > 0 {
            if self.is_full() {
                return;
            }
            let at = stretch.begun.saturating_add(stretch.tries - left);
            let heat = stretch.cooling.at(at, stretch.whole);
            let before = self.told.tries;
            for _ in 0..CHOICES {
                if self.told.tries.wrapping_sub(before) < left {
                    self.visit_some(stretch.by_process, heat, steps);
                }
            }
            let spent = self.told.tries.wrapping_sub(before).max(1);
            left = left.saturating_sub(spent);
        }
    }
}
