ghost use Rattle.std.specs.Prelude.{◌≤◌, length};
ghost use Rattle.ra_base.specs.Sums.{is_named};
ghost use Rattle.ra_model.specs.Numbers.{machine_count, service_count, process_count};
ghost use Rattle.ra_moves.specs.Steps.{process_in, to_in};
ghost use Rattle.ra_moves.specs.Touched.{moves_service};
ghost use Rattle.ra_weigh.specs.Searching.{ClearTo};
ghost use Rattle.ra_weigh.specs.Trials.{tables_of, steps_of};

use crate::trial::Trial;

/// A place, if it is not before the lowest and is before the next one so far, else the next one so far.
#[inline(always)]
fn nearer(low: u32, next: u32, place: u32) -> u32
    requires { low ≤ next }
    ensures from { low ≤ result }
    ensures near { result ≤ next }
    ensures clear { low ≤ place → result ≤ place }
{
    if low <= place && place < next {
        place
    } else {
        next
    }
}

impl<'a, 'b> Trial<'a, 'b> {
    /// The next machine that a step enters, from a lowest one on; past the last machine if there is none.
    #[tactic(auto, using(crate::proofs::NextLemmas::nexts))]
    pub(crate) fn next_entered(&self, low: u32) -> u32
        requires { low ≤ machine_count (tables_of self.now) }
        ensures from { low ≤ result }
        ensures within { result ≤ machine_count (tables_of self.now) }
        ensures clear { ClearTo (is_named (length (steps_of self.now)) (to_in (steps_of self.now)))
            low result }
    {
        let mut next = self.inst.machines();
        for j in 0..self.steps() {
            next = nearer(low, next, self.step(j).to.0);
        }
        next
    }

    /// The next service that moves.
    pub(crate) fn next_service(&self, low: u32) -> u32
        requires { low ≤ service_count (tables_of self.now) }
        ensures from { low ≤ result }
        ensures within { result ≤ service_count (tables_of self.now) }
        ensures clear { ClearTo (moves_service (tables_of self.now) (steps_of self.now)) low
            result }
    {
        let mut next = self.inst.services();
        for j in 0..self.steps() {
            let s = self.inst.service_of(self.step(j).process);
            next = nearer(low, next, s.0);
        }
        next
    }

    /// The next process that moves.
    #[tactic(auto, using(crate::proofs::StepLemmas::known, crate::proofs::NextLemmas::nexts))]
    pub(crate) fn next_process(&self, low: u32) -> u32
        requires { low ≤ process_count (tables_of self.now) }
        ensures from { low ≤ result }
        ensures within { result ≤ process_count (tables_of self.now) }
        ensures clear { ClearTo
            (is_named (length (steps_of self.now)) (process_in (steps_of self.now))) low result }
    {
        let mut next = self.inst.processes();
        for j in 0..self.steps() {
            next = nearer(low, next, self.step(j).process.0);
        }
        next
    }
}
