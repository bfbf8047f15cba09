ghost use Rattle.std.specs.Prelude.{◌≡◌, ◌^◌, ◌<◌, false};
ghost use Rattle.ra_model.specs.Numbers.{machine_count, process_count};
ghost use Rattle.ra_search.specs.Moving.{HasVisited, Reaches};

use crate::searcher::Searcher;
use ra_base::{Machine, Process, Steps};
use ra_guides::Heat;
use ra_moves::{Move, Step};
use ra_sketch::Leaving;
use std::sync::ledger::Ledger;

/// How many processes of a machine are visited one after another, at most.
const VISITS: u32 = 16;

/// How many machines near the initial one are tried.
const NEAR: u32 = 2;

/// How many processes of a machine are tried as partners of an exchange, at most.
const PARTNERS: u32 = 4;

/// A way that costs so many times the heat more than a process can save is never worth trying.
const TOO_DEAR: u64 = 9;

/// The most that a rough cost may rise.
const ROUGH_MOST: u128 = 1 << 62;

/// A process that looks for a move, and by how much the cost may rise.
#[derive(Clone, Copy)]
pub(crate) struct Visit<'r> {
    leaving: Leaving<'r>,
    /// The allowance.
    allowed: u128,
    /// The same for rough costs.
    roughly: u64,
    /// A way may cost so much more than is saved.
    top: u64,
    pub ghost few: { allowed < 2 ^ 126 },
}

impl<'a> Searcher<'a> {
    ghost use Rattle.ra_search.specs.Visiting.{HasMovedIf, Visits};

    /// Looks for a move of a process whose cost rises by no more than an allowance: to its initial machine, to others near
    /// that, to any, or in exchange for another process. The first that the judge calls done is made.
    fn visit<L: Ledger>(&mut self, p: Process, allowed: u128, heat: Heat, steps: &mut Steps<L>)
        requires process { p.0 < process_count self.old.world.tables }
        requires allowed { allowed < 2 ^ 126 }
        ensures { HasVisited self.old.world self.new.world allowed }
    {
        let guides = &self.guides;
        let required = guides.inst.requirements_of(p, steps);
        let visit = Visit {
            leaving: guides.sketch.leaving(&self.world, p, required),
            allowed,
            roughly: allowed.min(ROUGH_MOST) as u64,
            top: heat.units().saturating_mul(TOO_DEAR),
        };
        if self.go_home(&visit, steps) {
            return;
        }
        if self.go_near(&visit, steps) {
            return;
        }
        let to = self.guides.any_machine();
        if self.go_to(&visit, to, steps) {
            return;
        }
        let _exchanged = self.exchange(&visit, steps);
    }

    /// Moves a process to its initial machine, if it isn't there and that is done.
    #[inline(always)]
    fn go_home<L: Ledger>(&mut self, visit: &Visit<'_>, steps: &mut Steps<L>) -> bool
        requires { Visits self.old.world visit.now }
        ensures { HasMovedIf self.old.world self.new.world visit.now.allowed result }
    {
        let leaving = &visit.leaving;
        if leaving.from.0 == leaving.home.0 {
            return false;
        }
        self.count_try();
        let guides = &self.guides;
        if !guides
            .sketch
            .may_return(&self.world, leaving, visit.roughly)
        {
            return false;
        }
        self.shift(visit, leaving.home, steps)
    }

    /// Moves a process to a machine near its initial one, if that is done.
    #[inline(always)]
    fn go_near<L: Ledger>(&mut self, visit: &Visit<'_>, steps: &mut Steps<L>) -> bool
        requires { Visits self.old.world visit.now }
        ensures { HasMovedIf self.old.world self.new.world visit.now.allowed result }
    {
        let mut limit = self.guides.nearby.width();
        for _ in 0..NEAR {
            if limit == 0 {
                return false;
            }
            let (place, to) = self.guides.near(visit.leaving.home, limit);
            if self.is_too_far(visit, to) {
                self.count_try();
                limit = place;
            } else if self.go_to(visit, to, steps) {
                return true;
            }
        }
        false
    }

    /// Whether the way to a machine costs too much for a process, whatever it saves there.
    #[inline(always)]
    fn is_too_far(&self, visit: &Visit<'_>, to: Machine) -> bool
        requires visits { Visits self.now.world visit.now }
        requires to { to.0 < machine_count self.now.world.tables }
    {
        if self.guides.inst.balances() > 0 {
            return false;
        }
        let way = self.guides.sketch.way_to(&self.world, &visit.leaving, to);
        visit.leaving.is_dear(way, visit.top)
    }

    /// Moves a process to a machine, if it is another one than the present and the initial one, and that is done.
    #[inline(always)]
    fn go_to<L: Ledger>(&mut self, visit: &Visit<'_>, to: Machine, steps: &mut Steps<L>) -> bool
        requires visits { Visits self.old.world visit.now }
        requires to { to.0 < machine_count self.old.world.tables }
        ensures { HasMovedIf self.old.world self.new.world visit.now.allowed result }
    {
        self.count_try();
        let leaving = &visit.leaving;
        if to.0 == leaving.from.0 || to.0 == leaving.home.0 {
            return false;
        }
        let guides = &self.guides;
        let way = guides.sketch.way_to(&self.world, leaving, to);
        if !guides.sketch.may_shift(leaving, to, way, visit.roughly) {
            return false;
        }
        self.shift(visit, to, steps)
    }

    /// Moves a process to a machine, if that is done.
    fn shift<L: Ledger>(&mut self, visit: &Visit<'_>, to: Machine, steps: &mut Steps<L>) -> bool
        ensures { HasMovedIf self.old.world self.new.world visit.now.allowed result }
    {
        let mv = Move::shift(Step {
            process: visit.leaving.process,
            from: visit.leaving.from,
            to,
        });
        self.make_move(&mv, visit.allowed, steps)
    }

    /// Exchanges a process for one of another machine, if that is done. A few processes of one machine are tried.
    #[inline(always)]
    fn exchange<L: Ledger>(&mut self, visit: &Visit<'_>, steps: &mut Steps<L>) -> bool
        requires { Visits self.old.world visit.now }
        ensures { HasMovedIf self.old.world self.new.world visit.now.allowed result }
    {
        let at = self.guides.partner_machine(visit.leaving.home);
        let count = self.guides.residents.count(at);
        if at.0 == visit.leaving.from.0 || count == 0 {
            return false;
        }
        let first = self.guides.any_place(count);
        self.exchange_from(visit, at, first, count.min(PARTNERS), steps)
    }

    /// Exchanges a process for one of another machine, if that is done. So many of its processes are tried, from a place
    /// of its list on.
    #[inline(always)]
    fn exchange_from<L: Ledger>(
        &mut self,
        visit: &Visit<'_>,
        at: Machine,
        first: u32,
        count: u32,
        steps: &mut Steps<L>,
    ) -> bool
        requires visits { Visits self.old.world visit.now }
        requires at { at.0 < machine_count self.old.world.tables }
        ensures { HasMovedIf self.old.world self.new.world visit.now.allowed result }
    {
        let mut place = first;
        for _ in 0..count {
            let listed = self.guides.residents.count(at);
            if listed == 0 {
                return false;
            }
            if place >= listed {
                place = 0;
            }
            let other = self.guides.residents.at(at, place);
            if self.exchange_for(visit, other, at, steps) {
                return true;
            }
            place += 1;
        }
        false
    }

    /// Exchanges a process for another one, which is on some machine, if that is done.
    #[inline(always)]
    fn exchange_for<L: Ledger>(
        &mut self,
        visit: &Visit<'_>,
        other: Process,
        at: Machine,
        steps: &mut Steps<L>,
    ) -> bool
        requires visits { Visits self.old.world visit.now }
        requires other { other.0 < process_count self.old.world.tables }
        requires at { at.0 < machine_count self.old.world.tables }
        ensures { HasMovedIf self.old.world self.new.world visit.now.allowed result }
    {
        self.count_try();
        let leaving = &visit.leaving;
        let guides = &self.guides;
        let back = guides.inst.requirements_of(other, steps);
        if !guides
            .sketch
            .may_exchange(&self.world, leaving, other, at, back, visit.roughly)
        {
            return false;
        }
        let mv = Move::swap(
            Step {
                process: leaving.process,
                from: leaving.from,
                to: at,
            },
            Step {
                process: other,
                from: at,
                to: leaving.from,
            },
        );
        self.make_move(&mv, visit.allowed, steps)
    }

    /// Counts a try.
    #[inline(always)]
    fn count_try(&mut self)
        ensures { self.new.world ≡ self.old.world }
    {
        self.told.tries = self.told.tries.wrapping_add(1);
    }

    /// Visits a process by chance; or, in a short search, some processes of a machine, rather one with a high cost.
    pub(crate) fn visit_some<L: Ledger>(
        &mut self,
        by_process: bool,
        heat: Heat,
        steps: &mut Steps<L>,
    )
        ensures { Reaches self.old.world self.new.world }
    {
        if by_process {
            let p = self.guides.any_process();
            self.visit_at(p, heat, steps);
            return;
        }
        self.count_try();
        let m = self.guides.costly_machine();
        let count = self.guides.residents.count(m);
        if count == 0 {
            return;
        }
        let first = self.guides.any_place(count);
        self.visit_residents(m, first, count.min(VISITS), heat, steps);
    }

    /// Visits so many processes of a machine, from a place of its list on.
    fn visit_residents<L: Ledger>(
        &mut self,
        m: Machine,
        first: u32,
        count: u32,
        heat: Heat,
        steps: &mut Steps<L>,
    )
        requires { m.0 < machine_count self.old.world.tables }
        ensures { Reaches self.old.world self.new.world }
    {
        let mut place = first;
        for _ in 0..count {
            let listed = self.guides.residents.count(m);
            if listed == 0 {
                return;
            }
            if place >= listed {
                place = 0;
            }
            let p = self.guides.residents.at(m, place);
            self.visit_at(p, heat, steps);
            place += 1;
        }
    }

    /// Visits a process at a heat.
    #[inline(always)]
    fn visit_at<L: Ledger>(&mut self, p: Process, heat: Heat, steps: &mut Steps<L>)
        requires { p.0 < process_count self.old.world.tables }
        ensures { Reaches self.old.world self.new.world }
    {
        let allowed = self.guides.allowance(heat);
        self.visit(p, allowed, heat, steps);
    }
}
