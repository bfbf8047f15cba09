ghost use Rattle.std.specs.Prelude.{◌≡◌, ◌↔◌, ◌^◌, ◌<◌, true, length};
ghost use Rattle.ra_model.specs.Numbers.{resource_count, machine_count};
ghost use Rattle.ra_model.specs.Broken.{capacity_test, row_capacity, broken_capacity, transient_test, row_transient, broken_transient};
ghost use Rattle.ra_model.specs.Usage.{use_share, use_of, transient_share, transient_of};
ghost use Rattle.ra_weigh.specs.Flowing.{HasFlow};
ghost use Rattle.ra_weigh.specs.Holding.{FitsAt, FitsBelow};
ghost use Rattle.ra_weigh.specs.Trials.{tables_of, initial_of, steps_of, before_of, after_of};

use crate::flows::Flow;
use crate::trial::Trial;
use ra_base::{Cause, Machine, Resource};

impl<'a, 'b> Trial<'a, 'b> {
    /// The first use above a capacity after the move, by machine, then resource.
    pub(crate) fn broken_capacity(&self) -> Option<Cause>
        ensures { result ≡ broken_capacity (tables_of self.now) (after_of self.now) }
    {
        let mut low = self.next_entered(0);
        while low < self.inst.machines() {
            if let Some(cause) = self.row_capacity(Machine(low)) {
                return Some(cause);
            }
            low = self.next_entered(low + 1);
        }
        None
    }

    /// The first transient use above a capacity after the move, by machine, then resource.
    pub(crate) fn broken_transient(&self) -> Option<Cause>
        ensures { result ≡
            broken_transient (tables_of self.now) (initial_of self.now) (after_of self.now) }
    {
        let mut low = self.next_entered(0);
        while low < self.inst.machines() {
            if let Some(cause) = self.row_transient(Machine(low)) {
                return Some(cause);
            }
            low = self.next_entered(low + 1);
        }
        None
    }

    /// The first use on a machine that is above its capacity after the move.
    #[inline(always)]
    pub(crate) fn row_capacity(&self, m: Machine) -> Option<Cause>
        requires { m.0 < machine_count (tables_of self.now) }
        ensures { result ≡ row_capacity (tables_of self.now) (after_of self.now) m.0 }
    {
        match self.flow(m) {
            Some(flow) => self.capacity_by_flow(m, flow),
            None => self.capacity_by_steps(m),
        }
    }

    /// The first use above its capacity, from what comes to the machine and what goes from it.
    #[inline(always)]
    fn capacity_by_flow(&self, m: Machine, flow: Flow<'_>) -> Option<Cause>
        requires machine { m.0 < machine_count (tables_of self.now) }
        requires flow { HasFlow (tables_of self.now) (use_share (tables_of self.now) m.0)
            (steps_of self.now) (length (steps_of self.now)) flow.come.now flow.gone.now }
        ensures { result ≡ row_capacity (tables_of self.now) (after_of self.now) m.0 }
    {
        for r in 0..self.inst.resources() {
            let used = self.use_flowing(m, Resource(r), flow);
            if let Some(cause) = self.capacity_test(m, Resource(r), used) {
                return Some(cause);
            }
        }
        None
    }

    /// The first use above its capacity, from each step for each resource.
    fn capacity_by_steps(&self, m: Machine) -> Option<Cause>
        requires { m.0 < machine_count (tables_of self.now) }
        ensures { result ≡ row_capacity (tables_of self.now) (after_of self.now) m.0 }
    {
        let row = self.rows.usage_row(m);
        for r in 0..self.inst.resources() {
            let used = self.use_after(m, Resource(r), row[r as usize]);
            if let Some(cause) = self.capacity_test(m, Resource(r), used) {
                return Some(cause);
            }
        }
        None
    }

    /// The first transient use on a machine that is above its capacity after the move.
    #[inline(always)]
    pub(crate) fn row_transient(&self, m: Machine) -> Option<Cause>
        requires { m.0 < machine_count (tables_of self.now) }
        ensures { result ≡
            row_transient (tables_of self.now) (initial_of self.now) (after_of self.now) m.0 }
    {
        match self.flow_between(m) {
            Some(flow) => self.transient_by_flow(m, flow),
            None => self.transient_by_steps(m),
        }
    }

    /// The first transient use above its capacity, from what comes to the machine and what goes from it.
    #[inline(always)]
    fn transient_by_flow(&self, m: Machine, flow: Flow<'_>) -> Option<Cause>
        requires machine { m.0 < machine_count (tables_of self.now) }
        requires flow { HasFlow (tables_of self.now)
            (transient_share (tables_of self.now) (initial_of self.now) m.0) (steps_of self.now)
            (length (steps_of self.now)) flow.come.now flow.gone.now }
        ensures { result ≡
            row_transient (tables_of self.now) (initial_of self.now) (after_of self.now) m.0 }
    {
        for r in 0..self.inst.resources() {
            let used = self.transient_flowing(m, Resource(r), flow);
            if let Some(cause) = self.transient_test(m, Resource(r), used) {
                return Some(cause);
            }
        }
        None
    }

    /// The first transient use above its capacity, from each step for each resource.
    fn transient_by_steps(&self, m: Machine) -> Option<Cause>
        requires { m.0 < machine_count (tables_of self.now) }
        ensures { result ≡
            row_transient (tables_of self.now) (initial_of self.now) (after_of self.now) m.0 }
    {
        let row = self.rows.transient_row(m);
        for r in 0..self.inst.resources() {
            let used = self.transient_after(m, Resource(r), row[r as usize]);
            if let Some(cause) = self.transient_test(m, Resource(r), used) {
                return Some(cause);
            }
        }
        None
    }

    /// The use of a resource of a machine, if it is above its capacity after the move.
    #[inline(always)]
    #[tactic(auto, using(crate::proofs::TestLemmas::capacities))]
    fn capacity_test(&self, m: Machine, r: Resource, used: u64) -> Option<Cause>
        requires machine { m.0 < machine_count (tables_of self.now) }
        requires resource { r.0 < resource_count (tables_of self.now) }
        requires used { used ≡ use_of (tables_of self.now) (after_of self.now) m.0 r.0 }
        ensures { result ≡ capacity_test (tables_of self.now) (after_of self.now) m.0 r.0 }
    {
        let cap = self.inst.capacity(m, r);
        if u64::from(cap) < used {
            Some(Cause::Capacity {
                machine: m,
                resource: r,
                used,
                cap,
            })
        } else {
            None
        }
    }

    /// The transient use of a resource of a machine, if it is above its capacity after the move.
    #[inline(always)]
    #[tactic(auto, using(crate::proofs::TestLemmas::transients))]
    fn transient_test(&self, m: Machine, r: Resource, used: u64) -> Option<Cause>
        requires machine { m.0 < machine_count (tables_of self.now) }
        requires resource { r.0 < resource_count (tables_of self.now) }
        requires used { used ≡
            transient_of (tables_of self.now) (initial_of self.now) (after_of self.now) m.0 r.0 }
        ensures { result ≡
            transient_test (tables_of self.now) (initial_of self.now) (after_of self.now) m.0 r.0 }
    {
        if !self.inst.transient(r) {
            return None;
        }
        let cap = self.inst.capacity(m, r);
        if u64::from(cap) < used {
            Some(Cause::Transient {
                machine: m,
                resource: r,
                used,
                cap,
            })
        } else {
            None
        }
    }

    /// Whether the use of each resource of a machine is within its capacity, after the move and in transition.
    pub(crate) fn row_fits(&self, m: Machine) -> bool
        requires { m.0 < machine_count (tables_of self.now) }
        ensures { (result ≡ true) ↔
            FitsBelow (tables_of self.now) (initial_of self.now) (after_of self.now) m.0
            (resource_count (tables_of self.now)) }
    {
        match (self.flow(m), self.flow_between(m)) {
            (Some(flow), Some(between)) => self.fits_by_flows(m, flow, between),
            _ => self.fits_by_steps(m),
        }
    }

    /// Whether the use of each resource is within its capacity, from what comes to the machine and what goes from it.
    #[inline(always)]
    fn fits_by_flows(&self, m: Machine, flow: Flow<'_>, between: Flow<'_>) -> bool
        requires machine { m.0 < machine_count (tables_of self.now) }
        requires flow { HasFlow (tables_of self.now) (use_share (tables_of self.now) m.0)
            (steps_of self.now) (length (steps_of self.now)) flow.come.now flow.gone.now }
        requires between { HasFlow (tables_of self.now)
            (transient_share (tables_of self.now) (initial_of self.now) m.0) (steps_of self.now)
            (length (steps_of self.now)) between.come.now between.gone.now }
        ensures { (result ≡ true) ↔
            FitsBelow (tables_of self.now) (initial_of self.now) (after_of self.now) m.0
            (resource_count (tables_of self.now)) }
    {
        for r in 0..self.inst.resources() {
            if !self.fits_flowing(m, Resource(r), flow, between) {
                return false;
            }
        }
        true
    }

    /// Whether the use of a resource of a machine is within its capacity, after the move and in transition.
    #[inline(always)]
    fn fits_flowing(&self, m: Machine, r: Resource, flow: Flow<'_>, between: Flow<'_>) -> bool
        requires machine { m.0 < machine_count (tables_of self.now) }
        requires resource { r.0 < resource_count (tables_of self.now) }
        requires flow { HasFlow (tables_of self.now) (use_share (tables_of self.now) m.0)
            (steps_of self.now) (length (steps_of self.now)) flow.come.now flow.gone.now }
        requires between { HasFlow (tables_of self.now)
            (transient_share (tables_of self.now) (initial_of self.now) m.0) (steps_of self.now)
            (length (steps_of self.now)) between.come.now between.gone.now }
        ensures { (result ≡ true) ↔
            FitsAt (tables_of self.now) (initial_of self.now) (after_of self.now) m.0 r.0 }
    {
        let cap = u64::from(self.inst.capacity(m, r));
        if self.inst.transient(r) {
            let most = self.transient_flowing(m, r, between);
            return most <= cap;
        }
        let most = self.use_flowing(m, r, flow);
        most <= cap
    }

    /// The use of a resource of a machine after the move.
    #[inline(always)]
    fn use_flowing(&self, m: Machine, r: Resource, flow: Flow<'_>) -> u64
        requires machine { m.0 < machine_count (tables_of self.now) }
        requires resource { r.0 < resource_count (tables_of self.now) }
        requires flow { HasFlow (tables_of self.now) (use_share (tables_of self.now) m.0)
            (steps_of self.now) (length (steps_of self.now)) flow.come.now flow.gone.now }
        ensures { result ≡ use_of (tables_of self.now) (after_of self.now) m.0 r.0 }
    {
        let place = r.0 as usize;
        let row = self.rows.usage_row(m);
        row[place] + u64::from(flow.come[place]) - u64::from(flow.gone[place])
    }

    /// The transient use of a resource of a machine after the move.
    #[inline(always)]
    fn transient_flowing(&self, m: Machine, r: Resource, flow: Flow<'_>) -> u64
        requires machine { m.0 < machine_count (tables_of self.now) }
        requires resource { r.0 < resource_count (tables_of self.now) }
        requires flow { HasFlow (tables_of self.now)
            (transient_share (tables_of self.now) (initial_of self.now) m.0) (steps_of self.now)
            (length (steps_of self.now)) flow.come.now flow.gone.now }
        ensures { result ≡
            transient_of (tables_of self.now) (initial_of self.now) (after_of self.now) m.0 r.0 }
    {
        let place = r.0 as usize;
        let row = self.rows.transient_row(m);
        row[place] + u64::from(flow.come[place]) - u64::from(flow.gone[place])
    }

    /// Whether the use of each resource is within its capacity, from each step for each resource.
    fn fits_by_steps(&self, m: Machine) -> bool
        requires { m.0 < machine_count (tables_of self.now) }
        ensures { (result ≡ true) ↔
            FitsBelow (tables_of self.now) (initial_of self.now) (after_of self.now) m.0
            (resource_count (tables_of self.now)) }
    {
        let used = self.rows.usage_row(m);
        let between = self.rows.transient_row(m);
        for r in 0..self.inst.resources() {
            if !self.fits_at(m, Resource(r), used[r as usize], between[r as usize]) {
                return false;
            }
        }
        true
    }

    /// Whether the use of a resource of a machine is within its capacity, after the move and in transition. A transient
    /// resource is used at least as much in transition.
    #[inline(always)]
    fn fits_at(&self, m: Machine, r: Resource, used: u64, between: u64) -> bool
        requires machine { m.0 < machine_count (tables_of self.now) }
        requires resource { r.0 < resource_count (tables_of self.now) }
        requires used { used ≡ use_of (tables_of self.now) (before_of self.now) m.0 r.0 }
        requires used_below { used < 2 ^ 48 }
        requires between { between ≡
            transient_of (tables_of self.now) (initial_of self.now) (before_of self.now) m.0 r.0 }
        requires between_below { between < 2 ^ 48 }
        ensures { (result ≡ true) ↔
            FitsAt (tables_of self.now) (initial_of self.now) (after_of self.now) m.0 r.0 }
    {
        let cap = u64::from(self.inst.capacity(m, r));
        if self.inst.transient(r) {
            let most = self.transient_after(m, r, between);
            return most <= cap;
        }
        let most = self.use_after(m, r, used);
        most <= cap
    }
}
