ghost use Rattle.std.specs.Prelude.{◌≡◌, ◌≢◌, ◌+◌, ℕ, ◌%◌, ◌^◌, ◌<◌, ◌≤◌, min, List, [], ◌∷◌, slice_index, IfSome};
ghost use Rattle.ra_model.specs.Numbers.{machine_count};
ghost use Rattle.ra_moves.specs.declared.steps.MoveKind.TheVariants as kind;
ghost use Rattle.ra_moves.specs.Options.{kind_of, drawn, target, count_of, option_count, leaving};
ghost use Rattle.ra_base.specs.declared.causes.Drawing.{Drawing};
ghost use Rattle.ra_base.specs.declared.causes.Drawing.TheVariants.{Two};
ghost use Rattle.ra_model.specs.Assignments.{machine_at};
ghost use Rattle.ra_shift.specs.Arriving.{room_below};
ghost use Rattle.ra_shift.specs.Lanes.{AreCheapMarked};
ghost use Rattle.ra_plan.specs.Choosing.{IsBest, IsWindowOf, steps_in, cost_to_beat};
ghost use Rattle.ra_model.specs.Situations.{cost_at};

use crate::best::Best;
use crate::marks::{next_mark, with_mark};
use ra_base::{Drawing, Machine};
use ra_moves::{Divisor, options};
use ra_shift::Shift;
use ra_world::World;

/// The best of all options of a shift.
pub(crate) fn best_shift(
    world: &World<'_>,
    shift: &Shift<'_, '_>,
    words: &[u64; 8],
    drawing: Drawing,
    allowed: u64,
) -> Best
    requires world { shift.now.world.now ≡ world.now }
    requires shift { kind_of words.now ≡ kind.Shift }
    requires named { shift.now.process.0 ≡ drawn world.now.here words.now 1 }
    ensures { IsBest world.now words.now drawing allowed
        (option_count words.now (machine_count world.now.tables) drawing) result }
{
    match drawing {
        Drawing::One => best_in_order(world, shift, words, Drawing::One, allowed),
        Drawing::Two => best_in_window(world, shift, words, allowed),
    }
}

/// The best of all options of a shift, one after another.
fn best_in_order(
    world: &World<'_>,
    shift: &Shift<'_, '_>,
    words: &[u64; 8],
    drawing: Drawing,
    allowed: u64,
) -> Best
    requires world { shift.now.world.now ≡ world.now }
    requires shift { kind_of words.now ≡ kind.Shift }
    requires named { shift.now.process.0 ≡ drawn world.now.here words.now 1 }
    ensures { IsBest world.now words.now drawing allowed
        (option_count words.now (machine_count world.now.tables) drawing) result }
{
    let machines = world.divisors().machines;
    let first = machines.rest(words[2]);
    let count = options(words, machines.number, drawing);
    let most = world.parts().total + u128::from(allowed) + 1;
    let mut best = Best::none();
    for option in 0..count {
        let to = target(words, drawing, machines, first, option);
        best = with_shift(world, shift, best, option, to, most);
    }
    best
}

/// The best of all options of a shift, if they are a window of machines. Their sums are computed in lanes if their
/// numbers allow it.
fn best_in_window(world: &World<'_>, shift: &Shift<'_, '_>, words: &[u64; 8], allowed: u64) -> Best
    requires world { shift.now.world.now ≡ world.now }
    requires shift { kind_of words.now ≡ kind.Shift }
    requires named { shift.now.process.0 ≡ drawn world.now.here words.now 1 }
    ensures { IsBest world.now words.now Two allowed
        (option_count words.now (machine_count world.now.tables) Two) result }
{
    let first = world.divisors().machines.rest(words[2]);
    let most = world.parts().total + u128::from(allowed) + 1;
    let mut sums = [0; 64];
    match shift.marks(first, most, &mut sums) {
        Some(marks) => best_marked(world, shift, first, most, marks, &sums),
        None => best_in_order(world, shift, words, Drawing::Two, allowed),
    }
}

/// The best of a window of machines from one on. The machines that may cost less than `most`, the first cost that is
/// too high, are marked, and the initial machine is weighed in its place as well.
fn best_marked(
    world: &World<'_>,
    shift: &Shift<'_, '_>,
    first: u32,
    most: u128,
    marks: u64,
    sums: &[u32; 64],
) -> Best
    requires world { shift.now.world.now ≡ world.now }
    requires first { first < machine_count world.now.tables }
    requires most { most ≤ 2 ^ 120 }
    requires marked { AreCheapMarked world.now shift.now.process.0 first most marks sums.now }
    ensures { (x : List ℕ) (allowed : ℕ) → most ≡ cost_at world.now + allowed + 1
        → IsWindowOf world.now x shift.now.process.0 first
        → IsBest world.now x Two allowed (min 64 (machine_count world.now.tables)) result }
{
    let machines = world.instance().machines();
    let count = machines.min(64);
    let all = with_mark(marks, first, shift.home(), machines);
    let mut best = Best::none();
    let mut room = shift.room_below(most);
    let mut lacking = None;
    let mut option = next_mark(all, 0, count);
    while option < count {
        let to = Machine(wrapped(first + option, machines));
        let bound = best.bound(most);
        let sum = sums[option as usize];
        let found = shift.cost_summed(to, sum, bound, room, &mut lacking);
        best = best.or_found(option, found);
        room = room_after(shift, room, found);
        option = next_mark(all, option + 1, count);
    }
    best
}

/// The room below the next bound: that of a cost that was found, or else the room as it was.
#[inline(always)]
#[tactic(auto, unfolding(crate::specs::Choosing::cost_to_beat))]
fn room_after(shift: &Shift<'_, '_>, room: u128, found: Option<u128>) -> u128
    requires { IfSome found (λ cost. cost ≤ 2 ^ 120) }
    ensures { (bound : ℕ) → room ≡ room_below shift.now.world.now shift.now.process.0 bound →
        result ≡ room_below shift.now.world.now shift.now.process.0 (cost_to_beat found bound) }
{
    match found {
        Some(cost) => shift.room_below(cost),
        None => room,
    }
}

/// The best with one more machine to which the process may go. `most` is the first cost that is too high.
#[inline(always)]
fn with_shift(
    world: &World<'_>,
    shift: &Shift<'_, '_>,
    best: Best,
    option: u32,
    to: Machine,
    most: u128,
) -> Best
    requires world { shift.now.world.now ≡ world.now }
    requires machine { to.0 < machine_count world.now.tables }
    requires bound { cost_to_beat best.cost most ≤ 2 ^ 120 }
    ensures { (x : List ℕ) (d : Drawing) (allowed : ℕ) →
        most ≡ cost_at world.now + allowed + 1 → IsBest world.now x d allowed option best →
        steps_in world.now x d option ≡ leaving world.now.here shift.now.process.0 to.0 ∷ [] →
        IsBest world.now x d allowed (option + 1) result }
{
    best.or_found(option, shift.cost_below(to, best.bound(most)))
}

/// The machine of an option: a word for each option with drawing One, and a window of machines with drawing Two.
#[inline(always)]
#[tactic(auto, unfolding(ra_moves::specs::Options::target, ra_moves::specs::Options::count_of))]
fn target(words: &[u64; 8], drawing: Drawing, machines: Divisor, first: u32, option: u32) -> Machine
    requires few { machines.number ≤ 5000 }
    requires first { first ≡ slice_index words.now 2 % machines.number }
    requires named { option < count_of kind.Shift drawing machines.number }
    ensures value { result.0 ≡ target drawing words.now machines.number option }
    ensures within { result.0 < machines.number }
{
    match drawing {
        Drawing::One => Machine(machines.rest(words[2 + option as usize])),
        Drawing::Two => Machine(wrapped(first + option, machines.number)),
    }
}

/// A number below twice a count, modulo the count.
#[inline(always)]
fn wrapped(number: u32, count: u32) -> u32
    requires { number < count + count }
    ensures { result ≡ number % count }
{
    if number < count {
        number
    } else {
        number - count
    }
}
