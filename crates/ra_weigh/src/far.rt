ghost use Rattle.std.specs.Prelude.{◌≡◌, ◌≢◌, ◌<◌, ◌≤◌, None};
ghost use Rattle.ra_base.specs.Searches.{first};
ghost use Rattle.ra_model.specs.Numbers.{machine_count, service_count, neighbourhood_of};
ghost use Rattle.ra_model.specs.Broken.{service_dependency};
ghost use Rattle.ra_weigh.specs.Nearness.{FindsNeeds, LeavesBelow, LeavesAlone};
ghost use Rattle.ra_weigh.specs.Trials.{tables_of, after_of};

use crate::marks::Mark;
use crate::trial::Trial;
use ra_base::{Machine, Service};

impl<'a, 'b> Trial<'a, 'b> {
    /// The first service with a process far from what it needs after the move; past the last service if there is none.
    #[tactic(auto, using(crate::proofs::StepLemmas::known))]
    pub(crate) fn first_far(&self) -> u32
        ensures within { result ≤ service_count (tables_of self.now) }
        ensures before { first result (service_dependency (tables_of self.now) (after_of self.now))
            ≡ None }
        ensures far { result < service_count (tables_of self.now) →
            service_dependency (tables_of self.now) (after_of self.now) result ≢ None }
    {
        let mut next = self.inst.services();
        for j in 0..self.steps() {
            let step = self.step(j);
            let s = self.inst.service_of(step.process);
            next = self.far_mover(s, step.to, next);
            next = self.far_dependant(s, step.from, next);
        }
        next
    }

    /// A service, if it doesn't find all that it needs in the neighbourhood of a machine that its process enters, and
    /// if it is before the first one so far; else the first one so far.
    fn far_mover(&self, s: Service, to: Machine, next: u32) -> u32
        requires service { s.0 < service_count (tables_of self.now) }
        requires to { to.0 < machine_count (tables_of self.now) }
        ensures near { result ≤ next }
        ensures finds { s.0 < result → FindsNeeds (tables_of self.now) (after_of self.now) s.0
            (neighbourhood_of (tables_of self.now) to.0) }
        ensures service { result < next → result ≡ s.0 }
        ensures far { result < next → FindsNeeds (tables_of self.now) (after_of self.now) s.0
            (neighbourhood_of (tables_of self.now) to.0) → ⊥ }
    {
        if next <= s.0 {
            return next;
        }
        if self.finds_needs(s, to) {
            return next;
        }
        s.0
    }

    /// The first service that needs this one and has a process in the neighbourhood of a machine, if this one has none
    /// there and if that one is before the first one so far; else the first one so far.
    #[tactic(auto, using(crate::proofs::StepLemmas::known))]
    fn far_dependant(&self, s: Service, from: Machine, next: u32) -> u32
        requires service { s.0 < service_count (tables_of self.now) }
        requires from { from.0 < machine_count (tables_of self.now) }
        requires within { next ≤ service_count (tables_of self.now) }
        ensures near { result ≤ next }
        ensures leaves { LeavesBelow (tables_of self.now) (after_of self.now) s.0
            (neighbourhood_of (tables_of self.now) from.0) result }
        ensures far { result < next → LeavesAlone (tables_of self.now) (after_of self.now) s.0
            (neighbourhood_of (tables_of self.now) from.0) result }
    {
        let dependants = self.topo.dependants(s);
        if dependants.len() == 0 {
            return next;
        }
        let label = self.inst.neighbourhood(from);
        let left = self.count_after(s, Mark::InNeighbourhood, label);
        if left > 0 {
            return next;
        }
        for k in 0..dependants.len() {
            let u = dependants[k];
            if next <= u.0 {
                return next;
            }
            let near = self.count_after(u, Mark::InNeighbourhood, label);
            if near > 0 {
                return u.0;
            }
        }
        next
    }
}
