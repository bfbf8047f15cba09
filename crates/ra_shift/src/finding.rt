ghost use Rattle.std.specs.Prelude.{◌<◌, IfSome, IfNone};
ghost use Rattle.ra_model.specs.Numbers.{machine_count};
ghost use Rattle.ra_shift.specs.Conditions.{HasRoom, HasRoomBetween};
ghost use Rattle.ra_shift.specs.Finding.{IsFinding, IsOver, IsOverBetween};

use crate::shift::Shift;
use ra_base::{Cause, Machine, Resource};

/// What is known of a shift.
#[derive(Clone, Copy)]
pub enum Finding {
    /// It is refused for this cause.
    Broken(Cause),
    /// It breaks nothing.
    Unbroken,
    /// It breaks a dependency or enters a closed machine, and breaks no earlier constraint. The cause isn't searched
    /// for.
    BrokenElsewhere,
}

impl<'w, 'a> Shift<'w, 'a> {
    /// What the shift to a machine breaks. The time grows with the number of resources, and with that of the services
    /// that the service needs or that depend on it.
    pub fn find(&self, to: Machine) -> Finding
        requires { to.0 < machine_count self.now.world.now.tables }
        ensures { IsFinding self.now.world.now self.now.process.0 to.0 result }
    {
        if to.0 == self.from.0 {
            return Finding::Broken(Cause::Same {
                process: self.process,
            });
        }
        if let Some(cause) = self.over_capacity(to) {
            return Finding::Broken(cause);
        }
        if let Some(cause) = self.over_between(to) {
            return Finding::Broken(cause);
        }
        if !self.is_alone(to) {
            return Finding::Broken(Cause::Conflict {
                service: self.service,
                machine: to,
            });
        }
        if !self.keeps_spread(to) {
            return Finding::Broken(Cause::Spread {
                service: self.service,
                has: self.locations_with(to),
                wants: self.spread_min,
            });
        }
        if !self.keeps_dependants(to) {
            return Finding::BrokenElsewhere;
        }
        if !self.finds_needs(to) {
            return Finding::BrokenElsewhere;
        }
        if !self.is_admitted(to) {
            return Finding::BrokenElsewhere;
        }
        Finding::Unbroken
    }

    /// The first resource of which a machine has too little room for what the process requires, as a cause.
    #[inline(always)]
    pub(crate) fn over_capacity(&self, to: Machine) -> Option<Cause>
        requires { to.0 < machine_count self.now.world.now.tables }
        ensures some { IfSome result (IsOver self.now.world.now self.now.process.0 to.0) }
        ensures none { IfNone result (HasRoom self.now.world.now.tables
            self.now.world.now.here self.now.process.0 to.0) }
    {
        let inst = self.world.instance();
        let row = self.world.rows().usage_row(to);
        for r in 0..inst.resources() {
            let place = r as usize;
            let used = row[place] + u64::from(self.required[place]);
            let cap = inst.capacity(to, Resource(r));
            if used > u64::from(cap) {
                return Some(Cause::Capacity {
                    machine: to,
                    resource: Resource(r),
                    used,
                    cap,
                });
            }
        }
        None
    }

    /// The first transient resource of which a machine has too little room while the process moves, as a cause.
    #[inline(always)]
    pub(crate) fn over_between(&self, to: Machine) -> Option<Cause>
        requires { to.0 < machine_count self.now.world.now.tables }
        ensures some { IfSome result (IsOverBetween self.now.world.now self.now.process.0 to.0) }
        ensures none { IfNone result (HasRoomBetween self.now.world.now self.now.process.0 to.0) }
    {
        if to.0 == self.home.0 {
            return None;
        }
        let inst = self.world.instance();
        let row = self.world.rows().transient_row(to);
        for r in 0..inst.resources() {
            let place = r as usize;
            let used = row[place] + u64::from(self.required[place]);
            if self.is_too_much(to, Resource(r), used) {
                return Some(Cause::Transient {
                    machine: to,
                    resource: Resource(r),
                    used,
                    cap: inst.capacity(to, Resource(r)),
                });
            }
        }
        None
    }
}
