ghost use Rattle.std.specs.Prelude.{◌≡◌, ◌≤◌, List};
ghost use Rattle.ra_base.specs.declared.ids.Machine.{Machine};
ghost use Rattle.ra_model.specs.Costs.{objective};
ghost use Rattle.ra_search.specs.Kept.{IsKept};

use crate::concerned::Concerned;
use crate::desk::Desk;
use crate::found::{Found, Told};
use crate::kept::Kept;
use crate::orders::{Part, Task};
use crate::schedule::Schedule;
use crate::searcher::Searcher;
use crate::stretches::Stretch;
use ra_base::Steps;
use ra_descent::descend;
use ra_guides::{Cooling, Heat};
use std::sync::Wait;
use std::sync::ledger::Ledger;

/// In how many parts a cooling is cut; after each the list is kept, if it is the best so far.
const PARTS: u64 = 32;

/// In how many turns all searchers settle before the lead does.
const TURNS: u32 = 2;

/// The least and the most tries of a slice.
const LEAST_SLICE: u64 = 2_000;

const MOST_SLICE: u64 = 200_000;

/// The search of one worker or of several: the searcher that is promised, and the best list so far.
pub(crate) struct Hunt<'a> {
    pub(crate) lead: Searcher<'a>,
    pub(crate) best: Kept,
    /// The list at which the lead stood before it settled.
    pub(crate) last: Kept,
    /// Whom the moves concern that were made since then.
    pub(crate) concerned: Concerned,
    pub(crate) schedule: Schedule,
    /// Whether there are enough tries to visit processes by chance.
    pub(crate) by_process: bool,
    /// How many tries each searcher makes in the next slice.
    pub(crate) slice: u64,
    /// How many tries were made, and from which heat the search cooled down. They are told alone.
    pub(crate) tries: u64,
    pub(crate) heat: u64,
    pub ghost best_kept: { IsKept lead.world best },
    pub ghost last_kept: { IsKept lead.world last },
}

/// Frees all lists in one call, so that the end of an owner is short to prove.
impl Drop for Hunt<'_> {
    fn drop(self) {
        let Hunt {
            lead: _,
            best: _,
            last: _,
            concerned: _,
            schedule: _,
            by_process: _,
            slice: _,
            tries: _,
            heat: _,
        } = self;
    }
}

impl<'a> Hunt<'a> {
    ghost use Rattle.ra_search.specs.Found.{IsFound};
    ghost use Rattle.ra_search.specs.Hunting.{HasHunted};

    /// Makes all tries of the schedule, at its heats, or at heats that it chooses.
    pub(crate) fn run<R: Wait, L: Ledger>(&mut self, rt: &R, desk: &Desk<'a>, steps: &mut Steps<L>)
        ensures { HasHunted self.old self.new }
    {
        let (high, low) = match self.schedule.heat {
            Some((high, low)) => (Heat::of(high), Heat::of(low)),
            None => (self.choose_heat(rt, desk, steps), Heat::of(0)),
        };
        self.heat = high.units();
        let left = self.schedule.tries.saturating_sub(self.tries);
        self.cool(rt, desk, Cooling::between(high, low), left, steps);
        self.keep_last();
        if desk.seats.len() > 0 && self.tries > 0 {
            self.settle_by_all(rt, desk, steps);
        }
    }

    /// Keeps the list at which the lead stands as the last one.
    fn keep_last(&mut self)
        ensures { HasHunted self.old self.new }
    {
        let lead = &self.lead;
        let last = &mut self.last;
        last.keep(&lead.world);
    }

    /// Settles: all searchers first, each with a part of the processes, then the lead, then all again, so that hardly
    /// anything is left for the descent.
    fn settle_by_all<R: Wait, L: Ledger>(&mut self, rt: &R, desk: &Desk<'a>, steps: &mut Steps<L>)
        ensures { HasHunted self.old self.new }
    {
        for _ in 0..TURNS {
            self.settle_turn(rt, desk, steps);
        }
        self.settle_alone(steps);
        self.settle_turn(rt, desk, steps);
    }

    /// Has the lead settle, by itself.
    fn settle_alone<L: Ledger>(&mut self, steps: &mut Steps<L>)
        ensures { HasHunted self.old self.new }
    {
        let lead = &mut self.lead;
        let concerned = &mut self.concerned;
        lead.settle(concerned, steps);
    }

    /// Has all searchers move the processes of their parts to cheaper machines.
    fn settle_turn<R: Wait, L: Ledger>(&mut self, rt: &R, desk: &Desk<'a>, steps: &mut Steps<L>)
        ensures { HasHunted self.old self.new }
    {
        let parts = desk.seats.len().saturating_add(1);
        self.give(rt, desk, Task::Settle(parts));
        self.lead.settle_part(&Part { number: 0, parts }, steps);
        desk.carry_out(rt, steps);
        let _merged = self.take_all(rt, desk, Heat::of(0), steps);
        self.note_concerned();
        self.concerned.begin_turn();
    }

    /// Notes whom the moves concern that the lead has made since the last order.
    fn note_concerned(&mut self)
        ensures { HasHunted self.old self.new }
    {
        let lead = &self.lead;
        let concerned = &mut self.concerned;
        for k in 0..lead.made.len() {
            lead.concern(&lead.made.get(k).mv, concerned);
        }
    }

    /// Searches while the heat falls, and keeps the best list.
    pub(crate) fn cool<R: Wait, L: Ledger>(
        &mut self,
        rt: &R,
        desk: &Desk<'a>,
        cooling: Cooling,
        tries: u64,
        steps: &mut Steps<L>,
    )
        ensures { HasHunted self.old self.new }
    {
        let part = tries / PARTS;
        let mut begun = 0;
        for j in 0..PARTS {
            let tries_now = if j + 1 == PARTS {
                tries.saturating_sub(begun)
            } else {
                part
            };
            let stretch = Stretch {
                cooling,
                begun,
                whole: tries,
                tries: tries_now,
                by_process: self.by_process,
            };
            self.search(rt, desk, &stretch, steps);
            self.keep_best();
            begun = begun.saturating_add(part);
        }
    }

    /// Keeps the list at which the lead stands, if it costs less than the best so far.
    fn keep_best(&mut self)
        ensures { HasHunted self.old self.new }
    {
        let lead = &self.lead;
        let best = &mut self.best;
        if lead.world.parts().total < best.parts.total {
            best.keep(&lead.world);
        }
    }

    /// Makes the tries of a stretch: by itself, or by all searchers at the desk, slice by slice.
    pub(crate) fn search<R: Wait, L: Ledger>(
        &mut self,
        rt: &R,
        desk: &Desk<'a>,
        stretch: &Stretch,
        steps: &mut Steps<L>,
    )
        ensures { HasHunted self.old self.new }
    {
        let searchers = desk.seats.len() as u64 + 1;
        if searchers == 1 {
            self.lead.search(stretch, steps);
            self.tries = self.tries.wrapping_add(self.lead.take_tries());
            return;
        }
        let mut left = stretch.tries;
        'slices: while left > 0 {
            let begun = stretch.begun.saturating_add(stretch.tries - left);
            let part = Stretch {
                begun,
                tries: self.slice.min((left / searchers).max(1)),
                ..*stretch
            };
            let spent = self.search_slice(rt, desk, &part, steps);
            left = left.saturating_sub(spent.max(1));
        }
    }

    /// Has all searchers search a slice, and the lead too, and takes their moves. Tells how many moves were tried.
    fn search_slice<R: Wait, L: Ledger>(
        &mut self,
        rt: &R,
        desk: &Desk<'a>,
        part: &Stretch,
        steps: &mut Steps<L>,
    ) -> u64
        ensures { HasHunted self.old self.new }
    {
        self.give(rt, desk, Task::Search(*part));
        self.lead.search(part, steps);
        desk.carry_out(rt, steps);
        let heat = part.cooling.at(part.begun, part.whole);
        let mut merged = self.take_all(rt, desk, heat, steps);
        merged.tries = merged.tries.saturating_add(self.lead.take_tries());
        self.tries = self.tries.wrapping_add(merged.tries);
        self.fit_slice(&merged);
        merged.tries
    }

    /// Takes the moves of all searchers at the desk, searcher by searcher, as far as they can still be made.
    fn take_all<R: Wait, L: Ledger>(
        &mut self,
        rt: &R,
        desk: &Desk<'a>,
        heat: Heat,
        steps: &mut Steps<L>,
    ) -> Merged
        ensures { HasHunted self.old self.new }
    {
        let mut merged = Merged {
            tries: 0,
            taken: 0,
            lost: 0,
        };
        for k in 0..desk.seats.len() {
            let mut guard = desk.seats[k].searcher.lock(rt);
            let seat = &mut *guard;
            self.take_moves(seat, heat, &mut merged, steps);
            merged.tries = merged.tries.saturating_add(seat.take_tries());
        }
        merged
    }

    /// Takes the moves of a searcher that can still be made: those that cost no more than they did there, or than a new
    /// allowance.
    fn take_moves<L: Ledger>(
        &mut self,
        seat: &Searcher<'_>,
        heat: Heat,
        merged: &mut Merged,
        steps: &mut Steps<L>,
    )
        ensures { HasHunted self.old self.new }
    {
        for k in 0..seat.made.len() {
            let one = seat.made.get(k);
            if self.lead.take_move(&one, heat, steps) {
                merged.taken = merged.taken.saturating_add(1);
            } else {
                merged.lost = merged.lost.saturating_add(1);
            }
        }
    }

    /// Makes the slices shorter if many moves were lost, and longer if few were.
    fn fit_slice(&mut self, merged: &Merged)
        ensures { HasHunted self.old self.new }
    {
        let all = merged.taken.saturating_add(merged.lost);
        if merged.lost > all / 2 {
            self.slice = (self.slice / 2).max(LEAST_SLICE);
        } else if all == 0 || merged.lost < all / 4 {
            self.slice = self.slice.saturating_mul(2).min(MOST_SLICE);
        }
    }

    /// Has all searchers at the desk do a task.
    pub(crate) fn order<R: Wait, L: Ledger>(
        &mut self,
        rt: &R,
        desk: &Desk<'a>,
        task: Task,
        steps: &mut Steps<L>,
    )
        ensures { HasHunted self.old self.new }
    {
        self.give(rt, desk, task);
        desk.carry_out(rt, steps);
    }

    /// Gives all searchers at the desk a task, to be done where the lead stands.
    fn give<R: Wait>(&mut self, rt: &R, desk: &Desk<'a>, task: Task)
        ensures { HasHunted self.old self.new }
    {
        let lead = &mut self.lead;
        desk.give(rt, task, lead.world.assignment(), &mut lead.made);
    }

    /// What a search that has run has found, after a descent from its best list.
    pub(crate) fn ended<L: Ledger>(self, steps: &mut Steps<L>) -> Found
        ensures { (from : List Machine) → self.entry.best.parts.total ≤ objective
            self.entry.lead.world.tables self.entry.lead.world.start from →
            IsFound self.entry.lead.world.tables self.entry.lead.world.start from result }
    {
        let Hunt {
            mut lead,
            mut best,
            last,
            mut concerned,
            schedule: _,
            by_process: _,
            slice: _,
            tries,
            heat,
        } = self;
        let is_best = lead.stand_at_better(&best, steps);
        let is_last = lead.stand_at_better(&last, steps);
        if is_best || is_last {
            concerned.begin_anew();
        }
        lead.settle(&mut concerned, steps);
        let _moves = descend(&mut lead.world, steps);
        best.keep(&lead.world);
        Found {
            best: best.list,
            parts: best.parts,
            last: last.list,
            told: Told {
                heat,
                tries,
                done: lead.told.done,
            },
        }
    }
}

/// What came of the moves of all searchers.
#[derive(Clone, Copy)]
pub(crate) struct Merged {
    tries: u64,
    taken: u64,
    lost: u64,
}
