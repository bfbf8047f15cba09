ghost use Rattle.std.specs.Prelude.{◌≡◌, ◌<◌};
ghost use Rattle.ra_model.specs.Numbers.{machine_count, process_count};
ghost use Rattle.ra_model.specs.Assignments.{machine_at};
ghost use Rattle.ra_model.specs.Broken.{closed_test, broken_closed};
ghost use Rattle.ra_weigh.specs.Trials.{tables_of, initial_of, after_of};

use crate::trial::Trial;
use ra_base::{Cause, Machine, Process};

impl<'a, 'b> Trial<'a, 'b> {
    /// The first process on a closed machine that isn't its initial one after the move.
    pub(crate) fn broken_closed(&self) -> Option<Cause>
        ensures { result ≡
            broken_closed (tables_of self.now) (initial_of self.now) (after_of self.now) }
    {
        let mut low = self.next_process(0);
        while low < self.inst.processes() {
            if let Some(cause) = self.closed_test(Process(low)) {
                return Some(cause);
            }
            low = self.next_process(low + 1);
        }
        None
    }

    /// A process on a closed machine that isn't its initial one after the move.
    #[inline(always)]
    pub(crate) fn closed_test(&self, p: Process) -> Option<Cause>
        requires { p.0 < process_count (tables_of self.now) }
        ensures { result ≡
            closed_test (tables_of self.now) (initial_of self.now) (after_of self.now) p.0 }
    {
        self.closed_there(p, self.machine_after(p))
    }

    /// A process on a closed machine that isn't its initial one after the move, given its machine after the move.
    #[inline(always)]
    #[tactic(auto, using(crate::proofs::TestLemmas::closes))]
    pub(crate) fn closed_there(&self, p: Process, machine: Machine) -> Option<Cause>
        requires process { p.0 < process_count (tables_of self.now) }
        requires machine { machine.0 ≡ machine_at (after_of self.now) p.0 }
        requires there { machine.0 < machine_count (tables_of self.now) }
        ensures { result ≡
            closed_test (tables_of self.now) (initial_of self.now) (after_of self.now) p.0 }
    {
        if self.inst.closed(machine) && self.home(p).0 != machine.0 {
            Some(Cause::Closed {
                process: p,
                machine,
            })
        } else {
            None
        }
    }
}
