ghost use Rattle.std.specs.Prelude.{◌≡◌, ◌^◌, ◌<◌, ◌≤◌, ◌↔◌, true, length, IfOk};
ghost use Rattle.ra_check.specs.Made.{IsMadeFor};
ghost use Rattle.ra_model.specs.Numbers.{machine_count, process_count};
ghost use Rattle.ra_model.specs.Situations.{cost_at};
ghost use Rattle.ra_moves.specs.Judging.{broken_by};
ghost use Rattle.ra_moves.specs.Moving.{MayMove};
ghost use Rattle.ra_moves.specs.Replacing.{after_move};
ghost use Rattle.ra_search.specs.Kept.{IsKept, kept_at};
ghost use Rattle.ra_search.specs.Moving.{HasTried, Reaches, Stands, StepStands};

use crate::guides::Guides;
use crate::kept::Kept;
use ra_base::{Assignment, Fixed, NoMemory, Steps};
use ra_check::{Scratch, first_broken, parts};
use ra_model::machine_of;
use ra_moves::{Move, Step};
use ra_plan::cost_below;
use ra_world::World;
use std::alloc::Global;
use std::sync::ledger::Ledger;

/// A move that was made, and by how much it raised the cost.
#[derive(Clone, Copy)]
pub(crate) struct Made {
    pub(crate) mv: Move,
    pub(crate) rise: u128,
}

/// A replica with what guides a search from it.
pub(crate) struct Searcher<'a> {
    /// Where it stands.
    pub(crate) world: World<'a>,
    pub(crate) guides: Guides<'a>,
    /// Two lists to which it may return.
    base: Kept,
    chosen: Kept,
    /// Where lists are judged.
    scratch: Scratch,
    /// The moves that it made since they were last taken, as far as there is room.
    pub(crate) made: Fixed<Made>,
    /// What it did.
    pub(crate) told: Counts,
    pub ghost guided: { guides.inst.now.tables ≡ world.tables },
    pub ghost scratched: { IsMadeFor scratch world.tables },
    pub ghost base_kept: { IsKept world base },
    pub ghost chosen_kept: { IsKept world chosen },
}

/// Counts of what a searcher did: how many moves it tried and made, how many of them raised the cost, and by how much in
/// all. They are told alone, and may wrap.
#[derive(Clone, Copy)]
pub(crate) struct Counts {
    pub(crate) tries: u64,
    pub(crate) done: u64,
    pub(crate) rises: u64,
    pub(crate) risen: u128,
}

/// Frees all lists in one call, so that the end of an owner is short to prove.
impl Drop for Searcher<'_> {
    fn drop(self) {
        let Searcher {
            world: _,
            guides: _,
            base: _,
            chosen: _,
            scratch: _,
            made: _,
            told: _,
        } = self;
    }
}

impl<'a> Searcher<'a> {
    /// A searcher that stands where a world stands, with the words of a seed and room for so many moves. All its memory
    /// is taken here.
    pub(crate) fn make(
        alloc: Global,
        world: World<'a>,
        seed: u64,
        room: usize,
    ) -> Result<Searcher<'a>, NoMemory>
        ensures { IfOk result (λ searcher. searcher.world ≡ world.entry) }
    {
        let guides = Guides::make(alloc, &world, seed)?;
        let base = Kept::make(alloc, &world)?;
        let chosen = Kept::make(alloc, &world)?;
        let scratch = Scratch::make(alloc, world.instance())?;
        let made = Fixed::make(alloc, room)?;
        Ok(Searcher {
            world,
            guides,
            base,
            chosen,
            scratch,
            made,
            told: Counts {
                tries: 0,
                done: 0,
                rises: 0,
                risen: 0,
            },
        })
    }

    /// Makes a move, if it is one of the present list and the judge calls it done with an allowance.
    pub(crate) fn try_move<L: Ledger>(
        &mut self,
        mv: &Move,
        allowed: u128,
        steps: &mut Steps<L>,
    ) -> bool
        requires { allowed < 2 ^ 126 }
        ensures tried { HasTried self.old.world self.new.world mv.now.steps allowed result }
        ensures made { self.new.made ≡ self.old.made }
    {
        let bound = self.world.parts().total + allowed + 1;
        if !stands(&self.world, mv) {
            return false;
        }
        match cost_below(&self.world, mv, bound, steps) {
            None => false,
            Some(_after) => {
                self.world.apply(mv, steps);
                self.guides.follow(&self.world, mv);
                true
            }
        }
    }

    /// Makes a move as `try_move` does, and notes it, if there is room.
    pub(crate) fn make_move<L: Ledger>(
        &mut self,
        mv: &Move,
        allowed: u128,
        steps: &mut Steps<L>,
    ) -> bool
        requires { allowed < 2 ^ 126 }
        ensures { HasTried self.old.world self.new.world mv.now.steps allowed result }
    {
        let before = self.world.parts().total;
        if !self.try_move(mv, allowed, steps) {
            return false;
        }
        let rise = self.world.parts().total.saturating_sub(before);
        self.note(mv, rise);
        true
    }

    /// Counts a move that was made, and keeps it.
    fn note(&mut self, mv: &Move, rise: u128)
        ensures { self.new.world ≡ self.old.world }
    {
        self.told.done = self.told.done.wrapping_add(1);
        if rise > 0 {
            self.told.rises = self.told.rises.wrapping_add(1);
            self.told.risen = self.told.risen.wrapping_add(rise);
        }
        self.keep_move(mv, rise);
    }

    /// Keeps a move that was made, for the lead or from it, if there is room.
    pub(crate) fn keep_move(&mut self, mv: &Move, rise: u128)
        ensures { self.new.world ≡ self.old.world }
    {
        if self.made.len() < self.made.room() {
            self.made.push(Made { mv: *mv, rise });
        }
    }

    /// How many moves it tried since this was last asked.
    pub(crate) fn take_tries(&mut self) -> u64
        ensures { self.new.world ≡ self.old.world }
    {
        let tries = self.told.tries;
        self.told.tries = 0;
        tries
    }

    /// Whether there was room for moves, and is none now.
    pub(crate) fn is_full(&self) -> bool {
        self.made.room() > 0 && self.made.len() == self.made.room()
    }

    /// Keeps where it stands, to return there.
    pub(crate) fn keep_base(&mut self)
        ensures { self.new.world ≡ self.old.world }
    {
        self.base.keep(&self.world);
    }

    /// Keeps where it stands as the place that was chosen.
    pub(crate) fn keep_chosen(&mut self)
        ensures { self.new.world ≡ self.old.world }
    {
        self.chosen.keep(&self.world);
    }

    /// Stands at a list that is kept.
    pub(crate) fn stand_at<L: Ledger>(&mut self, kept: &Kept, steps: &mut Steps<L>)
        requires { IsKept self.old.world kept.now }
        ensures { self.new.world ≡ kept_at self.old.world kept.now }
    {
        self.world.stand_at(&kept.list, kept.parts, steps);
        self.guides.renew(&self.world);
    }

    /// Stands at a list that is kept, if that costs less, and tells whether it does.
    pub(crate) fn stand_at_better<L: Ledger>(&mut self, kept: &Kept, steps: &mut Steps<L>) -> bool
        requires { IsKept self.old.world kept.now }
        ensures reaches { Reaches self.old.world self.new.world }
        ensures no_dearer { cost_at self.new.world ≤ cost_at self.old.world }
        ensures below { cost_at self.new.world ≤ kept.now.parts.total }
    {
        if kept.parts.total < self.world.parts().total {
            self.stand_at(kept, steps);
            return true;
        }
        false
    }

    /// Stands at a list, if it is one of the instance and breaks no constraint, and tells whether it does. The time grows
    /// with the size of the instance, and not with what moves.
    pub(crate) fn take_list<L: Ledger>(&mut self, list: &Assignment, steps: &mut Steps<L>) -> bool
        ensures reaches { Reaches self.old.world self.new.world }
        ensures made { self.new.made ≡ self.old.made }
    {
        let inst = self.world.instance();
        let initial = self.world.initial();
        if !inst.is_assignment(list) {
            return false;
        }
        if first_broken(inst, initial, list, &mut self.scratch).is_some() {
            return false;
        }
        let parts = parts(inst, initial, list, &mut self.scratch);
        self.world.stand_at(list, parts, steps);
        self.guides.renew(&self.world);
        true
    }

    /// Returns to the base.
    pub(crate) fn return_to_base<L: Ledger>(&mut self, steps: &mut Steps<L>)
        ensures { Reaches self.old.world self.new.world }
    {
        self.world.stand_at(&self.base.list, self.base.parts, steps);
        self.guides.renew(&self.world);
    }

    /// Returns to the place that was chosen.
    pub(crate) fn return_to_chosen<L: Ledger>(&mut self, steps: &mut Steps<L>)
        ensures { Reaches self.old.world self.new.world }
    {
        self.world
            .stand_at(&self.chosen.list, self.chosen.parts, steps);
        self.guides.renew(&self.world);
    }
}

/// Whether each step of a move names a process that is on the machine that it leaves, and a machine that exists.
fn stands(world: &World<'_>, mv: &Move) -> bool
    ensures stands { (result ≡ true) ↔ Stands world.now mv.now.steps }
    ensures few { length mv.now.steps ≤ 3 }
{
    for j in 0..mv.steps() {
        if !step_stands(world, mv.step(j)) {
            return false;
        }
    }
    true
}

/// Whether a step names a process that is on the machine that it leaves, and a machine that exists.
fn step_stands(world: &World<'_>, step: Step) -> bool
    ensures { (result ≡ true) ↔ StepStands world.now step }
{
    let inst = world.instance();
    if step.process.0 >= inst.processes() {
        return false;
    }
    if step.to.0 >= inst.machines() {
        return false;
    }
    machine_of(world.assignment(), step.process).0 == step.from.0
}
