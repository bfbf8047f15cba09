ghost use Rattle.std.specs.Prelude.{◌≡◌, ◌≢◌, ℕ, ◌<◌, ◌==◌, false, length, slice_index, IfSome};
ghost use Rattle.ra_model.specs.Numbers.{resource_count, machine_count, requirement_of};
ghost use Rattle.ra_model.specs.Usage.{use_share, transient_share};
ghost use Rattle.ra_moves.specs.Steps.{process_in};
ghost use Rattle.ra_weigh.specs.Flowing.{AreNone, HasAlso, HasFlow};
ghost use Rattle.ra_weigh.specs.Trials.{tables_of, initial_of, steps_of};

use crate::trial::Trial;
use ra_base::Machine;

/// What comes to a machine or what goes from it: an amount for each resource, for at most one process.
#[derive(Clone, Copy)]
struct Side<'t> {
    amounts: &'t [u32],
    some: bool,
    ghost none: { some ≡ false → AreNone amounts.now },
}

impl<'t> Side<'t> {
    /// These amounts, or instead those of one more process, if it comes as well. `None` if there are some already.
    #[inline(always)]
    fn with(self, also: bool, more: &'t [u32]) -> Option<Side<'t>>
        requires { length more.now ≡ length self.amounts.now }
        ensures { IfSome result
            (λ side. HasAlso also more.now self.entry.amounts.now side.amounts.now) }
    {
        if !also {
            return Some(self);
        }
        if self.some {
            return None;
        }
        Some(Side {
            amounts: more,
            some: true,
        })
    }
}

/// What comes to a machine and what goes from it, an amount of each for each resource.
#[derive(Clone, Copy)]
pub(crate) struct Flow<'t> {
    pub(crate) come: &'t [u32],
    pub(crate) gone: &'t [u32],
}

/// Whether a process is on a machine that isn't its initial one.
#[inline(always)]
fn is_guest(home: Machine, at: Machine, m: Machine) -> bool
    ensures home { home.0 ≡ m.0 → result ≡ false }
    ensures guest { home.0 ≢ m.0 → result ≡ (at.0 == m.0) }
{
    if home.0 == m.0 {
        return false;
    }
    at.0 == m.0
}

impl<'a, 'b> Trial<'a, 'b> {
    /// What comes to a machine by the steps and what goes from it, if that is at most one process each.
    #[inline(always)]
    pub(crate) fn flow<'t>(&'t self, m: Machine) -> Option<Flow<'t>>
        requires { m.0 < machine_count (tables_of self.now) }
        ensures { IfSome result (λ flow. HasFlow (tables_of self.now)
            (use_share (tables_of self.now) m.0) (steps_of self.now)
            (length (steps_of self.now)) flow.come.now flow.gone.now) }
    {
        let mut come = self.no_side();
        let mut gone = come;
        for j in 0..self.steps() {
            let step = self.step(j);
            let amounts = self.required_row(j);
            let came = come.with(step.to.0 == m.0, amounts);
            let went = gone.with(step.from.0 == m.0, amounts);
            match came {
                Some(side) => come = side,
                None => return None,
            }
            match went {
                Some(side) => gone = side,
                None => return None,
            }
        }
        Some(Flow {
            come: come.amounts,
            gone: gone.amounts,
        })
    }

    /// What comes to the transient use of a machine and what goes from it, if that is at most one process each: a
    /// process neither comes to its initial machine nor goes from it.
    #[inline(always)]
    pub(crate) fn flow_between<'t>(&'t self, m: Machine) -> Option<Flow<'t>>
        requires { m.0 < machine_count (tables_of self.now) }
        ensures { IfSome result (λ flow. HasFlow (tables_of self.now)
            (transient_share (tables_of self.now) (initial_of self.now) m.0) (steps_of self.now)
            (length (steps_of self.now)) flow.come.now flow.gone.now) }
    {
        let mut come = self.no_side();
        let mut gone = come;
        for j in 0..self.steps() {
            let step = self.step(j);
            let amounts = self.required_row(j);
            let home = self.home(step.process);
            let comes = is_guest(home, step.to, m);
            let goes = is_guest(home, step.from, m);
            let came = come.with(comes, amounts);
            let went = gone.with(goes, amounts);
            match came {
                Some(side) => come = side,
                None => return None,
            }
            match went {
                Some(side) => gone = side,
                None => return None,
            }
        }
        Some(Flow {
            come: come.amounts,
            gone: gone.amounts,
        })
    }

    /// Zero of each resource.
    #[inline(always)]
    fn no_side<'t>(&'t self) -> Side<'t>
        ensures none { AreNone result.amounts.now }
        ensures width { length result.amounts.now ≡ resource_count (tables_of self.now) }
    {
        let width = self.inst.resources() as usize;
        Side {
            amounts: &self.nothing[..width],
            some: false,
        }
    }

    /// What the process of a step requires of each resource.
    #[inline(always)]
    fn required_row<'t>(&'t self, j: u32) -> &'t [u32]
        requires { j < length (steps_of self.now) }
        ensures width { length result.now ≡ resource_count (tables_of self.now) }
        ensures each { (r : ℕ) → r < resource_count (tables_of self.now) →
            slice_index result.now r
            ≡ requirement_of (tables_of self.now) (process_in (steps_of self.now) j) r }
    {
        let width = self.inst.resources() as usize;
        let start = j as usize * 20;
        let all = self.required;
        &all[start..start + width]
    }
}
