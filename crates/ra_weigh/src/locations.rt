ghost use Rattle.std.specs.Prelude.{◌≡◌, ◌<◌, ◌≤◌, nat_lt};
ghost use Rattle.ra_base.specs.Sums.{is_named, fresh, one_if};
ghost use Rattle.ra_model.specs.Numbers.{service_count};
ghost use Rattle.ra_model.specs.Services.{locations_of};
ghost use Rattle.ra_moves.specs.Values.{end_count};
ghost use Rattle.ra_weigh.specs.Marks.{location_holds, end_location};
ghost use Rattle.ra_weigh.specs.Trials.{tables_of, steps_of, before_of, after_of};

use crate::marks::Mark;
use crate::trial::Trial;
use ra_base::Service;

/// 1 for a location that holds a service after a move, and 1 for one that holds it before.
#[derive(Clone, Copy)]
struct Held {
    came: u32,
    went: u32,
}

impl<'a, 'b> Trial<'a, 'b> {
    /// In how many locations the processes of a service are after the move.
    pub(crate) fn locations_after(&self, s: Service) -> u32
        requires { s.0 < service_count (tables_of self.now) }
        ensures { result ≡ locations_of (tables_of self.now) (after_of self.now) s.0 }
    {
        let kept = self.cells.locations(s);
        let mut came: u32 = 0;
        let mut went: u32 = 0;
        for j in 0..2 * self.steps() {
            let end = self.held_at(s, j);
            came += end.came;
            went += end.went;
        }
        kept + came - went
    }

    /// Whether the location of an end, which no end before it has, holds the service after the move and before it.
    #[inline(always)]
    fn held_at(&self, s: Service, j: u32) -> Held
        requires service { s.0 < service_count (tables_of self.now) }
        requires end { j < end_count (steps_of self.now) }
        ensures came { result.came ≡ fresh (end_location (tables_of self.now) (steps_of self.now))
            (location_holds (tables_of self.now) (after_of self.now) s.0) j }
        ensures went { result.went ≡ fresh (end_location (tables_of self.now) (steps_of self.now))
            (location_holds (tables_of self.now) (before_of self.now) s.0) j }
        ensures came_few { result.came ≤ 1 }
        ensures went_few { result.went ≤ 1 }
    {
        let label = self.end_label(j);
        if self.is_label_before(j, label) {
            return Held { came: 0, went: 0 };
        }
        let before = self.count_before(s, Mark::InLocation, label);
        let after = self.count_from(before, s, Mark::InLocation, label);
        Held {
            came: one_if_some(after),
            went: one_if_some(before),
        }
    }

    /// Whether an end before this one is in a location.
    #[inline(always)]
    fn is_label_before(&self, end: u32, label: u32) -> bool
        requires { end ≤ end_count (steps_of self.now) }
        ensures { result ≡
            is_named end (end_location (tables_of self.now) (steps_of self.now)) label }
    {
        for j in 0..end {
            if self.end_label(j) == label {
                return true;
            }
        }
        false
    }

    /// The location of an end of the steps.
    #[inline(always)]
    fn end_label(&self, j: u32) -> u32
        requires { j < end_count (steps_of self.now) }
        ensures { result ≡ end_location (tables_of self.now) (steps_of self.now) j }
    {
        let n = self.steps();
        if j < n {
            return self.inst.location(self.step(j).from);
        }
        self.inst.location(self.step(j - n).to)
    }
}

/// 1 for some, 0 for none.
#[inline(always)]
fn one_if_some(count: u32) -> u32
    ensures value { result ≡ one_if (nat_lt 0 count) }
    ensures few { result ≤ 1 }
{
    if count > 0 { 1 } else { 0 }
}
