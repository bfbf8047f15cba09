ghost use Rattle.std.specs.Prelude.{◌<◌};
ghost use Rattle.ra_model.specs.Numbers.{process_count};
ghost use Rattle.ra_sketch.specs.Leavers.{IsLeaverOf};
ghost use Rattle.ra_search.specs.Moving.{HasSettled, Reaches};

use crate::concerned::Concerned;
use crate::orders::Part;
use crate::searcher::Searcher;
use ra_base::{Machine, Process, Steps};
use ra_descent::improve;
use ra_model::machine_of;
use ra_moves::{Move, Step};
use ra_sketch::Leaving;
use std::sync::ledger::Ledger;

/// The most turns over all processes.
const MOST_TURNS: u32 = 256;

/// Added to a rough cost that may wrap, it asks for one that is lower by 1.
const LOWER: u64 = u64::MAX;

impl<'a> Searcher<'a> {
    /// Moves processes to cheaper machines, in turns over all of them, until hardly any finds one. After the first turn
    /// only those are looked at whom the moves of the turn before concern.
    pub(crate) fn settle<L: Ledger>(&mut self, concerned: &mut Concerned, steps: &mut Steps<L>)
        ensures { HasSettled self.old.world self.new.world }
    {
        for _ in 0..MOST_TURNS {
            if !self.turn(concerned, steps) {
                return;
            }
            concerned.begin_turn();
        }
    }

    /// Moves each process that a move concerns to its cheapest machine, and tells whether any was moved.
    fn turn<L: Ledger>(&mut self, concerned: &mut Concerned, steps: &mut Steps<L>) -> bool
        ensures { HasSettled self.old.world self.new.world }
    {
        let mut moved = false;
        for p in 0..self.guides.inst.processes() {
            let p = Process(p);
            if concerned.takes(p) || self.is_attracted(p, concerned, steps) {
                moved |= self.settle_process(p, concerned, steps);
            }
        }
        moved
    }

    /// Whether a machine that was left in the turn before may be cheaper for a process, by its rough cost.
    fn is_attracted<L: Ledger>(
        &self,
        p: Process,
        concerned: &Concerned,
        steps: &mut Steps<L>,
    ) -> bool
        requires { p.0 < process_count self.now.world.tables }
    {
        let guides = &self.guides;
        let required = guides.inst.requirements_of(p, steps);
        let leaving = guides.sketch.leaving(&self.world, p, required);
        let left = concerned.left();
        for k in 0..left.len() {
            if self.attracts(left[k], &leaving) {
                return true;
            }
        }
        false
    }

    /// Whether a machine may be cheaper for a process, by its rough cost. Most would not be even if the way to them were
    /// free, and then no way is read.
    #[inline(always)]
    fn attracts(&self, m: Machine, leaving: &Leaving<'_>) -> bool
        requires { IsLeaverOf self.now.world.tables leaving.now }
    {
        let guides = &self.guides;
        if m.0 == leaving.from.0 || m.0 >= guides.inst.machines() {
            return false;
        }
        if m.0 == leaving.home.0 {
            return guides.sketch.may_return(&self.world, leaving, LOWER);
        }
        if !guides.sketch.may_shift(leaving, m, 0, LOWER) {
            return false;
        }
        let way = guides.sketch.way_to(&self.world, leaving, m);
        guides.sketch.may_shift(leaving, m, way, LOWER)
    }

    /// Moves each process of a part to its cheapest machine, as long as there is room for moves.
    pub(crate) fn settle_part<L: Ledger>(&mut self, part: &Part, steps: &mut Steps<L>)
        ensures { Reaches self.old.world self.new.world }
    {
        for p in 0..self.guides.inst.processes() {
            if p as usize % part.parts.max(1) == part.number && !self.is_full() {
                if let Some(mv) = self.improve(Process(p), steps) {
                    self.keep_move(&mv, 0);
                }
            }
        }
    }

    /// Moves a process to its cheapest machine, if that makes the list cheaper, and tells its move.
    fn improve<L: Ledger>(&mut self, p: Process, steps: &mut Steps<L>) -> Option<Move>
        requires { p.0 < process_count self.old.world.tables }
        ensures { HasSettled self.old.world self.new.world }
    {
        let from = machine_of(self.world.assignment(), p);
        if !improve(&mut self.world, p, steps) {
            return None;
        }
        let to = machine_of(self.world.assignment(), p);
        let mv = Move::shift(Step {
            process: p,
            from,
            to,
        });
        self.guides.follow(&self.world, &mv);
        Some(mv)
    }

    /// Notes whom a move concerns that was made.
    pub(crate) fn concern(&self, mv: &Move, concerned: &mut Concerned) {
        for j in 0..mv.steps() {
            let step = mv.step(j);
            concerned.leave(step.from);
            if step.to.0 < self.guides.inst.machines() {
                for place in 0..self.guides.residents.count(step.to) {
                    concerned.wake(self.guides.residents.at(step.to, place));
                }
            }
        }
    }

    /// Moves a process to its cheapest machine, if that makes the list cheaper, and notes whom it concerns.
    fn settle_process<L: Ledger>(
        &mut self,
        p: Process,
        concerned: &mut Concerned,
        steps: &mut Steps<L>,
    ) -> bool
        requires { p.0 < process_count self.old.world.tables }
        ensures { HasSettled self.old.world self.new.world }
    {
        match self.improve(p, steps) {
            Some(mv) => {
                self.keep_move(&mv, 0);
                self.concern(&mv, concerned);
                true
            }
            None => false,
        }
    }
}
