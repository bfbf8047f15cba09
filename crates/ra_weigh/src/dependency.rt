ghost use Rattle.std.specs.Prelude.{◌≡◌, ◌↔◌, ◌<◌, true, length};
ghost use Rattle.ra_model.specs.Numbers.{machine_count, service_count, process_count, dependency_count, need_of, neighbourhood_of};
ghost use Rattle.ra_model.specs.Broken.{far_test, pair_dependency, service_dependency, broken_dependency};
ghost use Rattle.ra_weigh.specs.Nearness.{FindsOne, LeavesOne, StaysNear};
ghost use Rattle.ra_weigh.specs.Trials.{tables_of, steps_of, after_of};

use crate::marks::Mark;
use crate::trial::Trial;
use ra_base::{Cause, Machine, Process, Service};

impl<'a, 'b> Trial<'a, 'b> {
    /// The first process that has no process of a service that its service needs in its neighbourhood after the move,
    /// by service, its dependency in file order, then process. The time grows with the number of services that a moved
    /// service needs or that need it, and if a dependency is broken also with the dependencies and processes of one
    /// service.
    pub(crate) fn broken_dependency(&self) -> Option<Cause>
        ensures { result ≡ broken_dependency (tables_of self.now) (after_of self.now) }
    {
        let far = self.first_far();
        if far < self.inst.services() {
            self.service_dependency(Service(far))
        } else {
            None
        }
    }

    /// The first such process of a service.
    fn service_dependency(&self, s: Service) -> Option<Cause>
        requires { s.0 < service_count (tables_of self.now) }
        ensures { result ≡ service_dependency (tables_of self.now) (after_of self.now) s.0 }
    {
        let needs = self.inst.depends(s);
        for k in 0..needs.len() {
            if let Some(cause) = self.pair_dependency(s, k, needs[k]) {
                return Some(cause);
            }
        }
        None
    }

    /// The first process of a service with none of a service that it needs in its neighbourhood after the move. The
    /// processes are searched only if there is one.
    fn pair_dependency(&self, s: Service, k: usize, need: Service) -> Option<Cause>
        requires service { s.0 < service_count (tables_of self.now) }
        requires dependency { k < dependency_count (tables_of self.now) s.0 }
        requires need { need.0 ≡ need_of (tables_of self.now) s.0 k }
        ensures { result ≡ pair_dependency (tables_of self.now) (after_of self.now) s.0 k }
    {
        if self.stays_near(s, need) {
            return None;
        }
        let members = self.topo.members(s);
        for x in 0..members.len() {
            if let Some(cause) = self.far_test(s, k, need, members[x]) {
                return Some(cause);
            }
        }
        None
    }

    /// A process that has none of a service that it needs in its neighbourhood after the move.
    fn far_test(&self, s: Service, k: usize, need: Service, p: Process) -> Option<Cause>
        requires service { s.0 < service_count (tables_of self.now) }
        requires dependency { k < dependency_count (tables_of self.now) s.0 }
        requires need { need.0 ≡ need_of (tables_of self.now) s.0 k }
        requires process { p.0 < process_count (tables_of self.now) }
        ensures { result ≡ far_test (tables_of self.now) (after_of self.now) s.0 k p.0 }
    {
        let neighbourhood = self.inst.neighbourhood(self.machine_after(p));
        if self.count_after(need, Mark::InNeighbourhood, neighbourhood) == 0 {
            Some(Cause::Dependency {
                service: s,
                needs: need,
                neighbourhood,
            })
        } else {
            None
        }
    }

    /// Whether a service stays near one that it needs, by the counts where a step comes and goes.
    fn stays_near(&self, s: Service, need: Service) -> bool
        requires service { s.0 < service_count (tables_of self.now) }
        requires need { need.0 < service_count (tables_of self.now) }
        ensures { (result ≡ true) ↔ StaysNear (tables_of self.now) (after_of self.now)
            (steps_of self.now) s.0 need.0 (length (steps_of self.now)) }
    {
        for j in 0..self.steps() {
            let step = self.step(j);
            let own = self.inst.service_of(step.process);
            if !self.finds_one(s, need, own, step.to) {
                return false;
            }
            if !self.leaves_one(s, need, own, step.from) {
                return false;
            }
        }
        true
    }

    /// Whether a process that enters a machine finds one of the needed service there, if it is of the service that
    /// needs it.
    #[inline(always)]
    fn finds_one(&self, s: Service, need: Service, own: Service, to: Machine) -> bool
        requires need { need.0 < service_count (tables_of self.now) }
        requires to { to.0 < machine_count (tables_of self.now) }
        ensures { (result ≡ true) ↔ FindsOne (tables_of self.now) (after_of self.now)
            s.0 need.0 own.0 (neighbourhood_of (tables_of self.now) to.0) }
    {
        if own.0 != s.0 {
            return true;
        }
        let label = self.inst.neighbourhood(to);
        let near = self.count_after(need, Mark::InNeighbourhood, label);
        if near == 0 {
            return false;
        }
        true
    }

    /// Whether a process that leaves a machine leaves another one of its service there, or none that needs it, if it is
    /// of the needed service.
    #[inline(always)]
    fn leaves_one(&self, s: Service, need: Service, own: Service, from: Machine) -> bool
        requires service { s.0 < service_count (tables_of self.now) }
        requires need { need.0 < service_count (tables_of self.now) }
        requires from { from.0 < machine_count (tables_of self.now) }
        ensures { (result ≡ true) ↔ LeavesOne (tables_of self.now) (after_of self.now)
            s.0 need.0 own.0 (neighbourhood_of (tables_of self.now) from.0) }
    {
        if own.0 != need.0 {
            return true;
        }
        let label = self.inst.neighbourhood(from);
        let left = self.count_after(need, Mark::InNeighbourhood, label);
        if left > 0 {
            return true;
        }
        let near = self.count_after(s, Mark::InNeighbourhood, label);
        if near > 0 {
            return false;
        }
        true
    }
}
