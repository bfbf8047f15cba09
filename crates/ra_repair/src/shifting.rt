ghost use Rattle.std.specs.Prelude.{◌≡◌, ◌<◌, slice_set};
ghost use Rattle.ra_base.specs.Searches.{or_else};
ghost use Rattle.ra_model.specs.Numbers.{machine_count, process_count};
ghost use Rattle.ra_model.specs.Assignments.{IsAssignment};
ghost use Rattle.ra_moves.specs.Judging.{repeat_of, same_of};
ghost use Rattle.ra_topology.specs.Fits.{IsTopologyOf};
ghost use Rattle.ra_repair.specs.Keeping.{KeepsPenalty, list_with};
ghost use Rattle.ra_repair.specs.Runs.{unless, try_count, try_option, option_penalty, chosen, least_after};
ghost use Rattle.ra_repair.specs.Shifting.{AskForShifts};

use crate::following::follow_step;
use crate::kept::Kept;
use crate::options::{Choice, better};
use ra_base::{Assignment, Drawing, Machine, Process, Steps};
use ra_model::{Instance, machine_of};
use ra_moves::{Move, Step, first_flaw, options, resolve};
use ra_topology::Topology;
use std::sync::ledger::Ledger;

/// The first option of least penalty, for words that ask for shifts of a process. The process goes from the machine of
/// one option to that of the next, and home at the end.
pub(crate) fn choose_shift<L: Ledger>(
    inst: &Instance,
    topo: &Topology,
    start: &Assignment,
    kept: &mut Kept<'_>,
    words: &[u64; 8],
    process: Process,
    home: Machine,
    steps: &mut Steps<L>,
) -> Choice
    requires start { IsAssignment inst.now.tables start.now.items }
    requires topology { IsTopologyOf topo.now inst.now.tables }
    requires keeps { KeepsPenalty kept.old inst.now.tables start.now.items }
    requires asks { AskForShifts words.now kept.old.assignment.items process.0 home.0 }
    ensures chosen { result.mv ≡
        chosen inst.now.tables start.now.items kept.old.assignment.items words.now }
    ensures least { result.after ≡
        least_after inst.now.tables start.now.items kept.old.assignment.items words.now }
    ensures keeps { KeepsPenalty kept.new inst.now.tables start.now.items }
    ensures same { kept.new.assignment.items ≡ kept.old.assignment.items }
{
    let machines = inst.machines();
    let count = options(words, machines, Drawing::Two);
    let mut best = try_shift(inst, topo, start, kept, words, process, home, 0, steps);
    for option in 1..count {
        let next = try_shift(inst, topo, start, kept, words, process, home, option, steps);
        best = better(best, next);
    }
    carry(inst, topo, start, kept, process, home, steps);
    best
}

/// One of the shifts of a process from its home, and the penalty after it. The process may come from another machine,
/// and ends on the machine of the option.
fn try_shift<L: Ledger>(
    inst: &Instance,
    topo: &Topology,
    start: &Assignment,
    kept: &mut Kept<'_>,
    words: &[u64; 8],
    process: Process,
    home: Machine,
    option: u32,
    steps: &mut Steps<L>,
) -> Choice
    requires start { IsAssignment inst.now.tables start.now.items }
    requires topology { IsTopologyOf topo.now inst.now.tables }
    requires keeps { KeepsPenalty kept.old inst.now.tables start.now.items }
    requires asks { AskForShifts words.now (list_with kept.old process.0 home) process.0 home.0 }
    requires named { option < try_count inst.now.tables words.now }
    ensures option { result.mv ≡ try_option inst.now.tables (list_with kept.old process.0 home)
        words.now option }
    ensures after { result.after ≡ option_penalty inst.now.tables start.now.items
        (list_with kept.old process.0 home) words.now option }
    ensures keeps { KeepsPenalty kept.new inst.now.tables start.now.items }
    ensures home { list_with kept.new process.0 home ≡ list_with kept.old process.0 home }
{
    let here = resolve(
        &kept.assignment,
        words,
        inst.machines(),
        Drawing::Two,
        option,
    );
    let to = here.step(0).to;
    carry(inst, topo, start, kept, process, to, steps);
    let mv = Move::shift(Step {
        process,
        from: home,
        to,
    });
    let after = unless_flawed(&mv, kept.penalty);
    Choice { mv, after }
}

/// The penalty after a move, unless the move is left out: it leaves its process where it is.
#[tactic(auto, unfolding(crate::specs::Runs::unless))]
fn unless_flawed(mv: &Move, penalty: u128) -> Option<u128>
    ensures { result ≡ unless (or_else (repeat_of mv.now.steps) (same_of mv.now.steps)) penalty }
{
    match first_flaw(mv) {
        Some(_) => None,
        None => Some(penalty),
    }
}

/// Moves a process to a machine from where it is; the two may be one.
fn carry<L: Ledger>(
    inst: &Instance,
    topo: &Topology,
    start: &Assignment,
    kept: &mut Kept<'_>,
    process: Process,
    to: Machine,
    steps: &mut Steps<L>,
)
    requires start { IsAssignment inst.now.tables start.now.items }
    requires topology { IsTopologyOf topo.now inst.now.tables }
    requires keeps { KeepsPenalty kept.old inst.now.tables start.now.items }
    requires process { process.0 < process_count inst.now.tables }
    requires to { to.0 < machine_count inst.now.tables }
    ensures keeps { KeepsPenalty kept.new inst.now.tables start.now.items }
    ensures assignment { kept.new.assignment.items ≡
        slice_set kept.old.assignment.items process.0 to }
{
    let from = machine_of(&kept.assignment, process);
    if from.0 != to.0 {
        follow_step(inst, topo, start, kept, Step { process, from, to }, steps);
    }
}
