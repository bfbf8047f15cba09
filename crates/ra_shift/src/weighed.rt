ghost use Rattle.std.specs.Prelude.{◌≡◌, ◌≢◌, ◌<◌};
ghost use Rattle.ra_model.specs.Numbers.{machine_count, service_of};
ghost use Rattle.ra_model.specs.Assignments.{machine_at};
ghost use Rattle.ra_moves.specs.Weighing.{local_change, moved_count, weighed_of};
ghost use Rattle.ra_shift.specs.Arriving.{steps_to, BreaksNothing};

use crate::costs::{cost_with, way_cost};
use crate::shift::Shift;
use ra_base::{Machine, MovedCount, difference};
use ra_moves::Weighed;

impl<'w, 'a> Shift<'w, 'a> {
    /// The weighing of the shift to a machine, if it breaks nothing. The time grows with the number of resources.
    pub fn weighed(&self, to: Machine) -> Weighed
        requires machine { to.0 < machine_count self.now.world.now.tables }
        requires unbroken { BreaksNothing self.now.world.now self.now.process.0 to.0 }
        ensures { result ≡ weighed_of self.now.world.now
            (steps_to self.now.world.now self.now.process.0 to.0) }
    {
        Weighed {
            broken: None,
            local: self.change(to),
            first: Some(self.moved_count(to)),
            second: None,
            third: None,
        }
    }

    /// The change of the sum of load, balance, process and machine cost.
    fn change(&self, to: Machine) -> i128
        requires machine { to.0 < machine_count self.now.world.now.tables }
        requires apart { machine_at self.now.world.now.here self.now.process.0 ≢ to.0 }
        ensures { result ≡ local_change self.now.world.now
            (steps_to self.now.world.now self.now.process.0 to.0) }
    {
        let world = self.world;
        let way = way_cost(world, self.process, self.home, to);
        let here = world.machine_load(to) + world.machine_balance(to);
        let with = cost_with(world, self.process, self.required, to);
        difference(self.without + with + way, self.before + here)
    }

    /// The service with its moved counts before and after the shift.
    fn moved_count(&self, to: Machine) -> MovedCount
        ensures { result ≡ moved_count self.now.world.now
            (steps_to self.now.world.now self.now.process.0 to.0)
            (service_of self.now.world.now.tables self.now.process.0) }
    {
        MovedCount {
            service: self.service,
            before: self.world.cells().moved(self.service),
            after: self.moved(to),
        }
    }
}
