ghost use Rattle.std.specs.Prelude.{◌≡◌, ◌+◌, ◌<◌, ◌≤◌};
ghost use Rattle.ra_model.specs.Numbers.{machine_count, process_count};
ghost use Rattle.ra_model.specs.Situations.{cost_at};
ghost use Rattle.ra_shift.specs.Lanes.{AreAsked, AreCheapMarked};
ghost use Rattle.ra_descent.specs.Cheapest.{IsCheapest};

use crate::cheapest::Cheapest;
use crate::marks::next_mark;
use ra_base::{Machine, Process, Steps};
use ra_shift::{Asks, Shift};
use ra_world::World;
use std::sync::ledger::Ledger;

/// The machine to which the shift of a process costs least, if that is less than the cost now. Among equal ones it is
/// the initial machine, or else the first.
pub(crate) fn cheapest_of<L: Ledger>(
    world: &World<'_>,
    process: Process,
    steps: &mut Steps<L>,
) -> Cheapest
    requires { process.0 < process_count world.now.tables }
    ensures { IsCheapest world.now process.0 (machine_count world.now.tables) result }
{
    let shift = Shift::make(world, process, steps);
    let asks = shift.asks();
    let machines = world.instance().machines();
    let mut best = of_home(&shift, world.parts().total);
    let mut sums = [0; 64];
    let mut first = 0;
    while first < machines {
        let end = machines.min(first + 64);
        best = with_window(&shift, &asks, first, end, best, &mut sums);
        first = end;
    }
    best
}

/// The cheapest if only the initial machine is looked at.
fn of_home(shift: &Shift<'_, '_>, now: u128) -> Cheapest
    requires { now ≡ cost_at shift.now.world.now }
    ensures { IsCheapest shift.now.world.now shift.now.process.0 0 result }
{
    let none = Cheapest {
        cost: now,
        to: None,
    };
    none.or_found(shift.home(), shift.cost_below(shift.home(), now))
}

/// The cheapest with the machines from one on to another, at most sixty-four. What they add is computed in lanes if
/// their numbers allow it.
fn with_window(
    shift: &Shift<'_, '_>,
    asks: &Asks,
    first: u32,
    end: u32,
    best: Cheapest,
    sums: &mut [u32; 64],
) -> Cheapest
    requires asks { AreAsked shift.now.world.now.tables shift.now.process.0 asks.now }
    requires some { first < end }
    requires few { end ≤ first + 64 }
    requires end { end ≤ machine_count shift.now.world.now.tables }
    requires best { IsCheapest shift.now.world.now shift.now.process.0 first best }
    ensures { IsCheapest shift.now.world.now shift.now.process.0 end result }
{
    match shift.marks_by(asks, first, best.cost, sums) {
        Some(marks) => with_marked(shift, first, end, best, marks, sums),
        None => with_each(shift, first, end, best),
    }
}

/// The cheapest with the machines of a window, of which those that may cost less than it are marked.
fn with_marked(
    shift: &Shift<'_, '_>,
    first: u32,
    end: u32,
    best: Cheapest,
    marks: u64,
    sums: &[u32; 64],
) -> Cheapest
    requires some { first < end }
    requires few { end ≤ first + 64 }
    requires end { end ≤ machine_count shift.now.world.now.tables }
    requires best { IsCheapest shift.now.world.now shift.now.process.0 first best }
    requires marked { AreCheapMarked shift.now.world.now shift.now.process.0 first best.cost marks sums.now }
    ensures { IsCheapest shift.now.world.now shift.now.process.0 end result }
{
    let count = end - first;
    let mut least = best;
    let mut lacking = None;
    let mut place = next_mark(marks, 0, count);
    while place < count {
        let to = Machine(first + place);
        let room = shift.room_below(least.cost);
        let found = shift.cost_summed(to, sums[place as usize], least.cost, room, &mut lacking);
        least = least.or_found(to, found);
        place = next_mark(marks, place + 1, count);
    }
    least
}

/// The cheapest with the machines from one on to another, each looked at by itself.
fn with_each(shift: &Shift<'_, '_>, first: u32, end: u32, best: Cheapest) -> Cheapest
    requires some { first < end }
    requires end { end ≤ machine_count shift.now.world.now.tables }
    requires best { IsCheapest shift.now.world.now shift.now.process.0 first best }
    ensures { IsCheapest shift.now.world.now shift.now.process.0 end result }
{
    let mut least = best;
    for m in first..end {
        let to = Machine(m);
        least = least.or_found(to, shift.cost_below(to, least.cost));
    }
    least
}
