ghost use Rattle.std.specs.Prelude.{◌≡◌, ◌↔◌, ◌<◌, true, None, length};
ghost use Rattle.ra_model.specs.Numbers.{machine_count, service_count, neighbourhood_of};
ghost use Rattle.ra_weigh.specs.Holding.{FitsAll};
ghost use Rattle.ra_weigh.specs.Nearness.{FindsNeeds, LeavesNone};
ghost use Rattle.ra_moves.specs.Steps.{to_in};
ghost use Rattle.ra_moves.specs.Touched.{service_in};
ghost use Rattle.ra_model.specs.Broken.{conflict_test, first_broken, broken_conflict, broken_spread, broken_dependency, broken_closed};
ghost use Rattle.ra_weigh.specs.Trials.{tables_of, initial_of, steps_of, after_of};

use crate::marks::Mark;
use crate::trial::Trial;
use ra_base::{Machine, Service};

impl<'a, 'b> Trial<'a, 'b> {
    /// Whether no constraint is broken after the move.
    pub(crate) fn is_unbroken(&self) -> bool
        ensures { (result ≡ true) ↔
            (first_broken (tables_of self.now) (initial_of self.now) (after_of self.now) ≡ None) }
    {
        if !self.keeps_rows() {
            return false;
        }
        if !self.keeps_apart() {
            return false;
        }
        if !self.keeps_spread() {
            return false;
        }
        if !self.keeps_near() {
            return false;
        }
        self.keeps_closed()
    }

    /// Whether each machine that the move enters has the capacity, after the move and in transition.
    #[tactic(auto, using(crate::proofs::StepLemmas::known))]
    pub(crate) fn keeps_rows(&self) -> bool
        ensures { (result ≡ true) ↔
            FitsAll (tables_of self.now) (initial_of self.now) (after_of self.now) }
    {
        for j in 0..self.steps() {
            if !self.row_fits(self.step(j).to) {
                return false;
            }
        }
        true
    }

    /// Whether no process enters a machine that has another one of its service.
    pub(crate) fn keeps_apart(&self) -> bool
        ensures { (result ≡ true) ↔
            (broken_conflict (tables_of self.now) (after_of self.now) ≡ None) }
    {
        for j in 0..self.steps() {
            if !self.enters_apart(j) {
                return false;
            }
        }
        true
    }

    /// Whether the machine that a step enters has no other process of its service. In most cases it had none before, and
    /// no other step moves one.
    #[inline(always)]
    fn enters_apart(&self, j: u32) -> bool
        requires { j < length (steps_of self.now) }
        ensures { (result ≡ true) ↔ (conflict_test (tables_of self.now) (after_of self.now)
            (service_in (tables_of self.now) (steps_of self.now) j)
            (to_in (steps_of self.now) j) ≡ None) }
    {
        let step = self.step(j);
        let s = self.inst.service_of(step.process);
        if self.cells.on_machine(s, step.to) == 0 && self.moves_alone(j, s) {
            return true;
        }
        self.conflict_test(s, step.to).is_none()
    }

    /// Whether each service that moves is in enough locations.
    pub(crate) fn keeps_spread(&self) -> bool
        ensures { (result ≡ true) ↔
            (broken_spread (tables_of self.now) (after_of self.now) ≡ None) }
    {
        for j in 0..self.steps() {
            if let Some(_cause) = self.spread_after_step(j) {
                return false;
            }
        }
        true
    }

    /// Whether each process is near all that its service needs.
    pub(crate) fn keeps_near(&self) -> bool
        ensures { (result ≡ true) ↔
            (broken_dependency (tables_of self.now) (after_of self.now) ≡ None) }
    {
        for j in 0..self.steps() {
            let step = self.step(j);
            let s = self.inst.service_of(step.process);
            if !self.finds_needs(s, step.to) {
                return false;
            }
            if !self.leaves_none_alone(s, step.from) {
                return false;
            }
        }
        true
    }

    /// Whether no process enters a closed machine that isn't its initial one.
    #[tactic(auto, using(crate::proofs::StepLemmas::known))]
    pub(crate) fn keeps_closed(&self) -> bool
        ensures { (result ≡ true) ↔
            (broken_closed (tables_of self.now) (initial_of self.now) (after_of self.now)
            ≡ None) }
    {
        for j in 0..self.steps() {
            let step = self.step(j);
            if let Some(_cause) = self.closed_there(step.process, step.to) {
                return false;
            }
        }
        true
    }

    /// Whether all that a service needs is in the neighbourhood of a machine.
    #[tactic(auto, using(crate::proofs::StepLemmas::known))]
    pub(crate) fn finds_needs(&self, s: Service, to: Machine) -> bool
        requires service { s.0 < service_count (tables_of self.now) }
        requires to { to.0 < machine_count (tables_of self.now) }
        ensures { (result ≡ true) ↔ FindsNeeds (tables_of self.now) (after_of self.now) s.0
            (neighbourhood_of (tables_of self.now) to.0) }
    {
        let label = self.inst.neighbourhood(to);
        let needs = self.topo.distinct_needs(s);
        for k in 0..needs.len() {
            let near = self.count_after(needs[k], Mark::InNeighbourhood, label);
            if near == 0 {
                return false;
            }
        }
        true
    }

    /// Whether a service has a process in the neighbourhood of a machine, or no service that needs it has one there.
    #[tactic(auto, using(crate::proofs::StepLemmas::known))]
    fn leaves_none_alone(&self, s: Service, from: Machine) -> bool
        requires service { s.0 < service_count (tables_of self.now) }
        requires from { from.0 < machine_count (tables_of self.now) }
        ensures { (result ≡ true) ↔ LeavesNone (tables_of self.now) (after_of self.now) s.0
            (neighbourhood_of (tables_of self.now) from.0) }
    {
        let dependants = self.topo.dependants(s);
        if dependants.len() == 0 {
            return true;
        }
        let label = self.inst.neighbourhood(from);
        let left = self.count_after(s, Mark::InNeighbourhood, label);
        if left > 0 {
            return true;
        }
        for k in 0..dependants.len() {
            let near = self.count_after(dependants[k], Mark::InNeighbourhood, label);
            if near > 0 {
                return false;
            }
        }
        true
    }
}
