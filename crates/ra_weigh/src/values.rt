ghost use Rattle.std.specs.Prelude.{◌≡◌, ◌^◌, ◌<◌, ◌≤◌, if◌then◌else◌, ◌||◌};
ghost use Rattle.ra_model.specs.Numbers.{resource_count, machine_count, service_count, process_count};
ghost use Rattle.ra_model.specs.Assignments.{machine_at};
ghost use Rattle.ra_model.specs.Usage.{use_of, transient_of};
ghost use Rattle.ra_model.specs.Services.{of_service};
ghost use Rattle.ra_weigh.specs.Marks.{mark_of, has_mark, marked};
ghost use Rattle.ra_weigh.specs.Trials.{tables_of, initial_of, before_of, after_of};

use crate::marks::Mark;
use crate::trial::Trial;
use ra_base::{Machine, Process, Resource, Service};

/// An amount if a test holds, else 0.
#[inline(always)]
pub(crate) fn amount_if(test: bool, amount: u32) -> u64
    ensures value { result ≡ if test then amount else 0 }
    ensures few { result ≤ 2 ^ 32 }
{
    if test { u64::from(amount) } else { 0 }
}

/// An amount if one of two tests holds, else 0.
#[inline(always)]
pub(crate) fn amount_of_either(first: bool, second: bool, amount: u32) -> u64
    ensures value { result ≡ if first || second then amount else 0 }
    ensures few { result ≤ 2 ^ 32 }
{
    if first {
        return u64::from(amount);
    }
    if second { u64::from(amount) } else { 0 }
}

impl<'a, 'b> Trial<'a, 'b> {
    /// The use of a resource of a machine after the move, from that before it.
    #[inline(always)]
    #[tactic(auto, using(crate::proofs::StepLemmas::known, crate::proofs::FlowLemmas::flowing))]
    pub(crate) fn use_after(&self, m: Machine, r: Resource, kept: u64) -> u64
        requires resource { r.0 < resource_count (tables_of self.now) }
        requires kept { kept ≡ use_of (tables_of self.now) (before_of self.now) m.0 r.0 }
        requires below { kept < 2 ^ 48 }
        ensures { result ≡ use_of (tables_of self.now) (after_of self.now) m.0 r.0 }
    {
        let mut came: u64 = 0;
        let mut went: u64 = 0;
        for j in 0..self.steps() {
            let step = self.step(j);
            let amount = self.required(j, r);
            came += amount_if(step.to.0 == m.0, amount);
            went += amount_if(step.from.0 == m.0, amount);
        }
        kept + came - went
    }

    /// The transient use of a resource of a machine after the move, from that before it.
    #[inline(always)]
    #[tactic(auto, using(crate::proofs::StepLemmas::known, crate::proofs::FlowLemmas::flowing))]
    pub(crate) fn transient_after(&self, m: Machine, r: Resource, kept: u64) -> u64
        requires resource { r.0 < resource_count (tables_of self.now) }
        requires kept { kept ≡
            transient_of (tables_of self.now) (initial_of self.now) (before_of self.now) m.0 r.0 }
        requires below { kept < 2 ^ 48 }
        ensures { result ≡
            transient_of (tables_of self.now) (initial_of self.now) (after_of self.now) m.0 r.0 }
    {
        let mut came: u64 = 0;
        let mut went: u64 = 0;
        for j in 0..self.steps() {
            let step = self.step(j);
            let amount = self.required(j, r);
            let home = self.home(step.process);
            came += amount_of_either(home.0 == m.0, step.to.0 == m.0, amount);
            went += amount_of_either(home.0 == m.0, step.from.0 == m.0, amount);
        }
        kept + came - went
    }

    /// The initial machine of a process.
    #[inline(always)]
    #[tactic(auto, using(ra_model::proofs::TallyLemmas::machine_at_read))]
    pub(crate) fn home(&self, p: Process) -> Machine
        requires { p.0 < process_count (tables_of self.now) }
        ensures { result.0 ≡ machine_at (initial_of self.now) p.0 }
    {
        self.start.get(p.0 as usize)
    }

    /// One of the marks of a machine.
    #[inline(always)]
    #[tactic(auto, unfolding(crate::specs::Marks::mark_of))]
    pub(crate) fn mark_of(&self, mark: Mark, m: Machine) -> u32
        requires { m.0 < machine_count (tables_of self.now) }
        ensures { result ≡ mark_of (tables_of self.now) mark m.0 }
    {
        match mark {
            Mark::OnMachine => m.0,
            Mark::InLocation => self.inst.location(m),
            Mark::InNeighbourhood => self.inst.neighbourhood(m),
        }
    }

    /// How many processes of a service are on machines with a mark, before the move.
    #[inline(always)]
    pub(crate) fn count_before(&self, s: Service, mark: Mark, x: u32) -> u32
        requires { s.0 < service_count (tables_of self.now) }
        ensures count { result ≡ marked (tables_of self.now) mark (before_of self.now) s.0 x }
        ensures few { result ≤ 50000 }
    {
        match mark {
            Mark::OnMachine => self.cells.on_machine(s, Machine(x)),
            Mark::InLocation => self.cells.in_location(s, x),
            Mark::InNeighbourhood => self.cells.in_neighbourhood(s, x),
        }
    }

    /// How many processes of a service are on machines with a mark, after the move.
    #[inline(always)]
    pub(crate) fn count_after(&self, s: Service, mark: Mark, x: u32) -> u32
        requires { s.0 < service_count (tables_of self.now) }
        ensures { result ≡ marked (tables_of self.now) mark (after_of self.now) s.0 x }
    {
        let kept = self.count_before(s, mark, x);
        self.count_from(kept, s, mark, x)
    }

    /// How many processes of a service are on machines with a mark after the move, from their number before the move.
    #[inline(always)]
    #[tactic(auto, using(crate::proofs::StepLemmas::known, crate::proofs::FlowLemmas::flowing))]
    pub(crate) fn count_from(&self, kept: u32, s: Service, mark: Mark, x: u32) -> u32
        requires service { s.0 < service_count (tables_of self.now) }
        requires kept { kept ≡ marked (tables_of self.now) mark (before_of self.now) s.0 x }
        requires few { kept ≤ 50000 }
        ensures { result ≡ marked (tables_of self.now) mark (after_of self.now) s.0 x }
    {
        let mut came: u32 = 0;
        let mut went: u32 = 0;
        for j in 0..self.steps() {
            let step = self.step(j);
            came += self.one_at(s, mark, x, step.process, step.to);
            went += self.one_at(s, mark, x, step.process, step.from);
        }
        kept + came - went
    }

    /// 1 for a process of a service that is on a machine with a mark.
    #[inline(always)]
    #[tactic(auto, using(crate::proofs::TestLemmas::owns))]
    pub(crate) fn one_at(&self, s: Service, mark: Mark, x: u32, p: Process, at: Machine) -> u32
        requires process { p.0 < process_count (tables_of self.now) }
        requires machine { at.0 < machine_count (tables_of self.now) }
        ensures one { result ≡
            of_service (tables_of self.now) s.0 (has_mark (tables_of self.now) mark x) p.0 at.0 }
        ensures few { result ≤ 1 }
    {
        if self.inst.service_of(p).0 != s.0 {
            return 0;
        }
        if self.mark_of(mark, at) == x { 1 } else { 0 }
    }

    /// The machine of a process after the move.
    pub(crate) fn machine_after(&self, p: Process) -> Machine
        requires { p.0 < process_count (tables_of self.now) }
        ensures machine { result.0 ≡ machine_at (after_of self.now) p.0 }
        ensures there { result.0 < machine_count (tables_of self.now) }
    {
        for j in 0..self.steps() {
            let step = self.step(j);
            if step.process.0 == p.0 {
                return step.to;
            }
        }
        self.at.get(p.0 as usize)
    }
}
