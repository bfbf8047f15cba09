ghost use Rattle.std.specs.Prelude.{◌≡◌, ◌≢◌, ◌↔◌, ◌<◌, true, false, None, length};
ghost use Rattle.ra_model.specs.Numbers.{service_count, service_of};
ghost use Rattle.ra_model.specs.Broken.{conflict_test, service_conflict, broken_conflict, spread_test, broken_spread};
ghost use Rattle.ra_moves.specs.Steps.{step_at};
ghost use Rattle.ra_moves.specs.Touched.{service_in};
ghost use Rattle.ra_weigh.specs.Flowing.{MoveAlone};
ghost use Rattle.ra_weigh.specs.Trials.{tables_of, steps_of, after_of};

use crate::marks::Mark;
use crate::trial::Trial;
use ra_base::{Cause, Machine, Service};
use ra_moves::Step;

impl<'a, 'b> Trial<'a, 'b> {
    /// The first two processes of a service on one machine after the move, by service, then machine.
    pub(crate) fn broken_conflict(&self) -> Option<Cause>
        ensures { result ≡ broken_conflict (tables_of self.now) (after_of self.now) }
    {
        let mut low = self.next_service(0);
        while low < self.inst.services() {
            if let Some(cause) = self.service_conflict(Service(low)) {
                return Some(cause);
            }
            low = self.next_service(low + 1);
        }
        None
    }

    /// The first machine with two processes of a service after the move.
    fn service_conflict(&self, s: Service) -> Option<Cause>
        requires { s.0 < service_count (tables_of self.now) }
        ensures { result ≡ service_conflict (tables_of self.now) (after_of self.now) s.0 }
    {
        let mut low = self.next_entered(0);
        while low < self.inst.machines() {
            if let Some(cause) = self.conflict_test(s, Machine(low)) {
                return Some(cause);
            }
            low = self.next_entered(low + 1);
        }
        None
    }

    /// Two processes of a service on a machine after the move.
    #[inline(always)]
    pub(crate) fn conflict_test(&self, s: Service, m: Machine) -> Option<Cause>
        requires service { s.0 < service_count (tables_of self.now) }
        ensures { result ≡ conflict_test (tables_of self.now) (after_of self.now) s.0 m.0 }
    {
        if 1 < self.count_after(s, Mark::OnMachine, m.0) {
            Some(Cause::Conflict {
                service: s,
                machine: m,
            })
        } else {
            None
        }
    }

    /// The first service in fewer locations than its spread asks for after the move.
    pub(crate) fn broken_spread(&self) -> Option<Cause>
        ensures { result ≡ broken_spread (tables_of self.now) (after_of self.now) }
    {
        let mut low = self.next_service(0);
        while low < self.inst.services() {
            if let Some(cause) = self.spread_test(Service(low)) {
                return Some(cause);
            }
            low = self.next_service(low + 1);
        }
        None
    }

    /// A service in fewer locations than its spread asks for after the move. It loses at most as many locations as it
    /// has steps.
    #[tactic(auto, using(crate::proofs::TestLemmas::spreads))]
    pub(crate) fn spread_test(&self, s: Service) -> Option<Cause>
        requires { s.0 < service_count (tables_of self.now) }
        ensures { result ≡ spread_test (tables_of self.now) (after_of self.now) s.0 }
    {
        let wants = self.inst.spread_min(s);
        let before = self.cells.locations(s);
        if wants <= before.saturating_sub(self.steps()) {
            return None;
        }
        let has = self.locations_after(s);
        if has < wants {
            Some(Cause::Spread {
                service: s,
                has,
                wants,
            })
        } else {
            None
        }
    }

    /// The spread test of the service of a step, which in most cases follows from where its process goes.
    #[inline(always)]
    pub(crate) fn spread_after_step(&self, j: u32) -> Option<Cause>
        requires { j < length (steps_of self.now) }
        ensures { result ≡ spread_test (tables_of self.now) (after_of self.now)
            (service_in (tables_of self.now) (steps_of self.now) j) }
    {
        let step = self.step(j);
        let s = self.inst.service_of(step.process);
        if self.stays_spread(j, s, step) {
            return None;
        }
        self.spread_test(s)
    }

    /// Whether it is plain that a service with one moving process is in enough locations after the move: it is in more
    /// than it needs, others of it stay in the location that the process leaves, or none are in the one where it comes.
    #[inline(always)]
    fn stays_spread(&self, j: u32, s: Service, step: Step) -> bool
        requires step { step ≡ step_at (steps_of self.now) j }
        requires named { j < length (steps_of self.now) }
        requires service { s.0 ≡ service_of (tables_of self.now) step.process.0 }
        ensures { result ≡ true →
            spread_test (tables_of self.now) (after_of self.now) s.0 ≡ None }
    {
        if !self.moves_alone(j, s) {
            return false;
        }
        if self.inst.spread_min(s) < self.cells.locations(s) {
            return true;
        }
        let left = self.inst.location(step.from);
        let come = self.inst.location(step.to);
        if left == come {
            return true;
        }
        if self.cells.in_location(s, left) > 1 {
            return true;
        }
        self.cells.in_location(s, come) == 0
    }

    /// Whether no step but one moves a process of a service.
    #[inline(always)]
    pub(crate) fn moves_alone(&self, j: u32, s: Service) -> bool
        ensures { (result ≡ true) ↔ MoveAlone (tables_of self.now) (steps_of self.now) j s.0
            (length (steps_of self.now)) }
    {
        for k in 0..self.steps() {
            if self.is_other(j, s, k) {
                return false;
            }
        }
        true
    }

    /// Whether a step is a different one and moves a process of a service.
    #[inline(always)]
    fn is_other(&self, j: u32, s: Service, k: u32) -> bool
        requires { k < length (steps_of self.now) }
        ensures other { result ≡ true → k ≢ j }
        ensures moves { result ≡ true →
            service_in (tables_of self.now) (steps_of self.now) k ≡ s.0 }
        ensures none { result ≡ false → k ≢ j →
            service_in (tables_of self.now) (steps_of self.now) k ≢ s.0 }
    {
        if k == j {
            return false;
        }
        self.inst.service_of(self.step(k).process).0 == s.0
    }
}
