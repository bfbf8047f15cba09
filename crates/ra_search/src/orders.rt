ghost use Rattle.ra_search.specs.Moving.{Reaches};

use crate::searcher::{Made, Searcher};
use crate::stretches::Stretch;
use ra_base::{Assignment, Fixed, Steps};
use ra_guides::Heat;
use ra_moves::{Move, Step};
use std::sync::ledger::Ledger;

/// What all searchers have to do next.
#[derive(Clone, Copy)]
pub(crate) enum Task {
    /// Search on.
    Search(Stretch),
    /// Keep the present list as the base, or as the one that was chosen.
    KeepBase,
    KeepChosen,
    /// Return to a list that was kept.
    ReturnToBase,
    ReturnToChosen,
    /// Move processes to cheaper machines, each searcher those of its part, of so many parts.
    Settle(usize),
    /// End.
    Stop,
}

/// A part of all processes: those whose number leaves this one if it is divided by the number of parts.
#[derive(Clone, Copy)]
pub(crate) struct Part {
    pub(crate) number: usize,
    pub(crate) parts: usize,
}

/// An order to all searchers: first each stands where the lead stands.
#[derive(Drop)]
pub(crate) struct Order {
    pub(crate) task: Task,
    /// The moves that the lead made since the last order, and the list at which it stands after them.
    pub(crate) taken: Fixed<Made>,
    pub(crate) list: Assignment,
}

/// It takes as long to judge a list with so many processes as to make a move, if there are few machines. If there are
/// more, it takes longer than the moves of a slice.
const PROCESSES_A_MOVE: usize = 16;

const FEW_MACHINES: u32 = 500;

/// A move made again is allowed whatever it costs.
const ANY_RISE: u128 = 1 << 125;

impl<'a> Searcher<'a> {
    /// Does what an order says, as the searcher of this number.
    pub(crate) fn obey<L: Ledger>(&mut self, number: usize, order: &Order, steps: &mut Steps<L>)
        ensures { Reaches self.old.world self.new.world }
    {
        self.join(order, steps);
        self.made.clear();
        match &order.task {
            Task::Search(stretch) => self.search(stretch, steps),
            Task::KeepBase => self.keep_base(),
            Task::KeepChosen => self.keep_chosen(),
            Task::ReturnToBase => self.return_to_base(steps),
            Task::ReturnToChosen => self.return_to_chosen(steps),
            Task::Settle(parts) => {
                let part = Part {
                    number,
                    parts: *parts,
                };
                self.settle_part(&part, steps);
            }
            Task::Stop => {}
        }
    }

    /// Makes a move that another searcher made, if it costs no more than it did there, or than a new allowance.
    pub(crate) fn take_move<L: Ledger>(
        &mut self,
        one: &Made,
        heat: Heat,
        steps: &mut Steps<L>,
    ) -> bool
        ensures { Reaches self.old.world self.new.world }
    {
        let allowed = self.guides.allowance(heat).max(one.rise).min(ANY_RISE);
        !self.is_full() && self.make_move(&one.mv, allowed, steps)
    }

    /// Stands where the lead stands: at its list, or, if there are few moves, by those.
    fn join<L: Ledger>(&mut self, order: &Order, steps: &mut Steps<L>)
        ensures { Reaches self.old.world self.new.world }
    {
        let moves = self.made.len().saturating_add(order.taken.len());
        if moves >= self.many_moves() && self.take_list(&order.list, steps) {
            return;
        }
        self.take_back(steps);
        self.follow(&order.taken, steps);
    }

    /// So many moves take longer than it takes to judge a list.
    fn many_moves(&self) -> usize {
        let inst = self.guides.inst;
        if inst.machines() > FEW_MACHINES {
            return usize::MAX;
        }
        inst.processes() as usize / PROCESSES_A_MOVE
    }

    /// Takes back the moves that it made, the last one first.
    fn take_back<L: Ledger>(&mut self, steps: &mut Steps<L>)
        ensures { Reaches self.old.world self.new.world }
    {
        let mut left = self.made.len();
        'moves: while left > 0 {
            left -= 1;
            let back = turned(&self.made.get(left).mv);
            let _back = self.try_move(&back, ANY_RISE, steps);
        }
    }

    /// Makes the moves of another searcher that stood at the same list.
    fn follow<L: Ledger>(&mut self, taken: &Fixed<Made>, steps: &mut Steps<L>)
        ensures { Reaches self.old.world self.new.world }
    {
        for k in 0..taken.len() {
            let one = taken.get(k);
            let _made = self.try_move(&one.mv, ANY_RISE, steps);
        }
    }
}

/// The move that undoes a move.
fn turned(mv: &Move) -> Move {
    let count = mv.steps();
    let one = turned_step(mv.step(0));
    if count == 1 {
        return Move::shift(one);
    }
    let two = turned_step(mv.step(1));
    if count == 2 {
        return Move::swap(one, two);
    }
    Move::chain(one, two, turned_step(mv.step(2)))
}

fn turned_step(step: Step) -> Step {
    Step {
        process: step.process,
        from: step.to,
        to: step.from,
    }
}
