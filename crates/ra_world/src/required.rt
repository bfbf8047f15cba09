ghost use Rattle.std.specs.Prelude.{◌≡◌, ℕ, ◌+◌, ◌*◌, ◌<◌, length};
ghost use Rattle.ra_model.specs.Numbers.{resource_count, process_count};
ghost use Rattle.ra_moves.specs.Steps.{process_in};
ghost use Rattle.ra_world.specs.Required.{AreRequiredRows, ReadTo};

use ra_base::{Process, Steps};
use ra_model::Instance;
use ra_moves::Move;
use std::sync::ledger::Ledger;

/// Reads the requirements of the processes of a move into rows of twenty numbers, a row for each step. Each is read once.
#[inline(always)]
pub fn requirements<L: Ledger>(
    inst: &Instance,
    mv: &Move,
    required: &mut [u32; 60],
    steps: &mut Steps<L>,
)
    requires { (j : ℕ) → j < length mv.now.steps →
        process_in mv.now.steps j < process_count inst.now.tables }
    ensures required { AreRequiredRows inst.now.tables mv.now.steps
        (length mv.now.steps) required.new }
    ensures counted { steps.new ≡
        steps.old + length mv.now.steps * resource_count inst.now.tables }
{
    for j in 0..mv.steps() {
        read_row(inst, mv.step(j).process, j, required, steps);
    }
}

/// Reads the requirements of a process into a row.
#[inline(always)]
fn read_row<L: Ledger>(
    inst: &Instance,
    p: Process,
    j: u32,
    required: &mut [u32; 60],
    steps: &mut Steps<L>,
)
    requires process { p.0 < process_count inst.now.tables }
    requires row { j < 3 }
    ensures row { ReadTo inst.now.tables p.0 j
        (resource_count inst.now.tables) required.old required.new }
    ensures counted { steps.new ≡ steps.old + resource_count inst.now.tables }
{
    let start = j as usize * 20;
    let end = start + inst.resources() as usize;
    inst.read_requirements(p, &mut required[start..end], steps);
}
