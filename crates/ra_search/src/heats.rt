ghost use Rattle.std.specs.Prelude.{◌≤◌};
ghost use Rattle.ra_search.specs.Hunting.{HasHunted};

use crate::desk::Desk;
use crate::hunt::Hunt;
use crate::orders::Task;
use crate::searcher::Counts;
use crate::stretches::Stretch;
use ra_base::Steps;
use ra_guides::{Cooling, Heat};
use std::sync::Wait;
use std::sync::ledger::Ledger;

/// How often the heat is doubled at most.
const DOUBLINGS: u32 = 64;

/// How many short searches are made to choose a heat, if there are so many tries for each process.
const PILOTS: u32 = 4;

const PILOTED: u64 = 2_048;

/// With so many tries for each process, what moves up cost tells more of a heat than how many there are.
const WEIGHED: u64 = 1_024;

/// Shares are in millionths.
const MILLION: u128 = 1_000_000;

/// What a search had done when it came to a heat.
#[derive(Clone, Copy)]
struct Before {
    cost: u128,
    tries: u64,
    counts: Counts,
}

impl<'a> Hunt<'a> {
    /// Chooses a heat to cool down from: twice the first one, of 1, 2, 4 and so on units of cost, that is hot. In a long
    /// search the best of four short ones tells whether that heat, a half, a quarter or an eighth of it is best.
    pub(crate) fn choose_heat<R: Wait, L: Ledger>(
        &mut self,
        rt: &R,
        desk: &Desk<'a>,
        steps: &mut Steps<L>,
    ) -> Heat
        ensures { HasHunted self.old self.new }
    {
        let begun = self.cost();
        self.search_at(rt, desk, Heat::of(0), self.schedule.tries / 64, steps);
        let mut least = self.cost();
        let mut heat = Heat::of(1);
        for _ in 0..DOUBLINGS {
            let before = Before {
                cost: self.cost(),
                tries: self.tries,
                counts: self.lead.told,
            };
            self.search_at(rt, desk, heat, self.schedule.tries / 512, steps);
            least = least.min(self.cost());
            let is_hot = self.rises_often(&before) || self.loses(begun, least);
            if is_hot && (!self.is_long(WEIGHED) || self.takes_back(&before)) {
                break;
            }
            heat = heat.doubled();
        }
        if self.is_long(PILOTED) {
            return self.try_heats(rt, desk, heat.doubled(), steps);
        }
        heat.doubled()
    }

    /// Whether there are so many tries for each process.
    fn is_long(&self, each: u64) -> bool {
        let processes = u64::from(self.lead.guides.inst.processes());
        self.schedule.tries >= each.saturating_mul(processes)
    }

    /// The cost of the list at which the lead stands.
    fn cost(&self) -> u128 {
        self.lead.world.parts().total
    }

    /// Whether moves up took back at least a sixteenth of what moves down had gained.
    fn takes_back(&self, before: &Before) -> bool {
        let risen = self.lead.told.risen.wrapping_sub(before.counts.risen);
        let fallen = before
            .cost
            .saturating_add(risen)
            .saturating_sub(self.cost());
        risen > 0 && risen.saturating_mul(16) >= fallen
    }

    /// Whether at least 2 % of the tries were moves up, or less in a short search.
    fn rises_often(&self, before: &Before) -> bool {
        let rises = self.lead.told.rises.wrapping_sub(before.counts.rises);
        let tries = self.tries.wrapping_sub(before.tries);
        u128::from(rises) * 50 * MILLION >= u128::from(tries) * self.share()
    }

    /// Whether at least a quarter of what was gained is lost, or less in a short search.
    fn loses(&self, begun: u128, least: u128) -> bool {
        let lost = self.cost().saturating_sub(least);
        let gained = begun.saturating_sub(least);
        lost > 0 && lost.saturating_mul(4 * MILLION) >= gained.saturating_mul(self.share())
    }

    /// How much of a full search this one is, by its tries for each machine.
    fn share(&self) -> u128
        ensures { result ≤ 1000000 }
    {
        let machines = u128::from(self.lead.guides.inst.machines());
        (u128::from(self.schedule.tries) * MILLION / (machines.max(1) * 200_000)).min(MILLION)
    }

    /// Searches at one heat.
    fn search_at<R: Wait, L: Ledger>(
        &mut self,
        rt: &R,
        desk: &Desk<'a>,
        heat: Heat,
        tries: u64,
        steps: &mut Steps<L>,
    )
        ensures { HasHunted self.old self.new }
    {
        let stretch = Stretch {
            cooling: Cooling::between(heat, heat),
            begun: 0,
            whole: tries,
            tries,
            by_process: self.by_process,
        };
        self.search(rt, desk, &stretch, steps);
    }

    /// Cools down quickly from a heat, a half, a quarter and an eighth of it, each time from the present list. The
    /// search goes on from the best end, and that heat is chosen.
    fn try_heats<R: Wait, L: Ledger>(
        &mut self,
        rt: &R,
        desk: &Desk<'a>,
        highest: Heat,
        steps: &mut Steps<L>,
    ) -> Heat
        ensures { HasHunted self.old self.new }
    {
        self.lead.keep_base();
        self.order(rt, desk, Task::KeepBase, steps);
        let mut heat = highest;
        let mut chosen = highest;
        let mut least = u128::MAX;
        for _ in 0..PILOTS {
            self.cool(
                rt,
                desk,
                Cooling::between(heat, Heat::of(0)),
                self.schedule.tries / 20,
                steps,
            );
            let cost = self.lead.world.parts().total;
            if cost < least {
                least = cost;
                chosen = heat;
                self.lead.keep_chosen();
                self.order(rt, desk, Task::KeepChosen, steps);
            }
            self.order(rt, desk, Task::ReturnToBase, steps);
            self.lead.return_to_base(steps);
            heat = heat.half();
        }
        self.order(rt, desk, Task::ReturnToChosen, steps);
        self.lead.return_to_chosen(steps);
        chosen
    }
}
