ghost use Rattle.std.specs.Prelude.{◌≡◌, ◌+◌, ◌<◌, ◌≤◌, true, false};
ghost use Rattle.ra_model.specs.Numbers.{machine_count, process_count};
ghost use Rattle.ra_model.specs.Situations.{cost_at};
ghost use Rattle.ra_moves.specs.Judging.{broken_by};
ghost use Rattle.ra_moves.specs.Replacing.{after_move};
ghost use Rattle.ra_shift.specs.Arriving.{steps_to, BreaksNothing};
ghost use Rattle.ra_descent.specs.Cheapest.{HasGone};
ghost use Rattle.ra_descent.specs.Optimal.{NoShiftOf, NoShiftCheaper};

use crate::windows::cheapest_of;
use ra_base::{Machine, Process, Steps};
use ra_model::machine_of;
use ra_moves::{Move, Step};
use ra_world::World;
use std::sync::ledger::Ledger;

/// Moves the processes in turn, each to its cheapest machine if that makes the list cheaper, until a whole turn has found
/// nothing. It tells how many moves it made, and takes no memory.
pub fn descend<L: Ledger>(world: &mut World<'_>, steps: &mut Steps<L>) -> u64
    ensures optimal { NoShiftCheaper world.new }
    ensures same { world.new ≡ record world.old { here = world.new.here } }
    ensures no_dearer { cost_at world.new ≤ cost_at world.old }
{
    let processes = world.instance().processes();
    let mut moves: u64 = 0;
    let mut next = 0;
    let mut left = processes;
    while left > 0 {
        if improve(world, Process(next), steps) {
            moves = moves.saturating_add(1);
            left = processes;
        } else {
            left -= 1;
        }
        next = after(next, processes);
    }
    moves
}

/// The number after one, and after the last of a count the first.
fn after(number: u32, count: u32) -> u32
    requires { number < count }
    ensures next { number + 1 < count → result ≡ number + 1 }
    ensures first { number + 1 ≡ count → result ≡ 0 }
{
    if number + 1 < count { number + 1 } else { 0 }
}

/// Moves a process to its cheapest machine, if that makes the list cheaper, and tells whether it does.
pub fn improve<L: Ledger>(world: &mut World<'_>, process: Process, steps: &mut Steps<L>) -> bool
    requires { process.0 < process_count world.old.tables }
    ensures gone { result ≡ true → HasGone world.old process.0 world.new }
    ensures cheaper { result ≡ true → cost_at world.new < cost_at world.old }
    ensures same { world.new ≡ record world.old { here = world.new.here } }
    ensures stays { result ≡ false → world.new ≡ world.old }
    ensures none { result ≡ false → NoShiftOf world.old process.0 }
{
    match cheapest_of(world, process, steps).to {
        Some(to) => {
            shift_to(world, process, to, steps);
            true
        }
        None => false,
    }
}

/// Moves a process to a machine.
fn shift_to<L: Ledger>(world: &mut World<'_>, process: Process, to: Machine, steps: &mut Steps<L>)
    requires process { process.0 < process_count world.old.tables }
    requires machine { to.0 < machine_count world.old.tables }
    requires unbroken { BreaksNothing world.old process.0 to.0 }
    ensures { world.new ≡ after_move world.old (steps_to world.old process.0 to.0) }
{
    let from = machine_of(world.assignment(), process);
    let mv = Move::shift(Step { process, from, to });
    world.apply(&mv, steps);
}
