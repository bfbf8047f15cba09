ghost use Rattle.std.specs.Prelude.{◌≡◌, ℕ, ◌<◌, ◌≤◌, length, if◌then◌else◌};
ghost use Rattle.ra_base.specs.Searches.{is_better};
ghost use Rattle.ra_model.specs.Numbers.{machine_count};
ghost use Rattle.ra_model.specs.Assignments.{IsAssignment};
ghost use Rattle.ra_moves.specs.Steps.{StandsAt, from_in, to_in};
ghost use Rattle.ra_moves.specs.Replacing.{applied};
ghost use Rattle.ra_topology.specs.Fits.{IsTopologyOf};
ghost use Rattle.ra_repair.specs.Following.{AreSteps};
ghost use Rattle.ra_repair.specs.Keeping.{KeepsPenalty};
ghost use Rattle.ra_repair.specs.Penalty.{penalty};
ghost use Rattle.ra_repair.specs.Runs.{try_count, try_option, penalty_by, option_penalty, chosen, least_after};

use crate::following::{follow, go_back};
use crate::kept::Kept;
use crate::shifting::choose_shift;
use ra_base::{Assignment, Drawing, Steps};
use ra_model::Instance;
use ra_moves::{Move, MoveKind, first_flaw, options, resolve};
use ra_topology::Topology;
use std::sync::ledger::Ledger;

/// A move, and the penalty after it unless it is left out.
#[derive(Clone, Copy)]
pub(crate) struct Choice {
    pub(crate) mv: Move,
    pub(crate) after: Option<u128>,
}

/// The first option of least penalty among those that the words of a proposal name and that aren't left out, and option
/// 0 if all are.
pub(crate) fn choose<L: Ledger>(
    inst: &Instance,
    topo: &Topology,
    start: &Assignment,
    kept: &mut Kept<'_>,
    words: &[u64; 8],
    steps: &mut Steps<L>,
) -> Choice
    requires start { IsAssignment inst.now.tables start.now.items }
    requires topology { IsTopologyOf topo.now inst.now.tables }
    requires keeps { KeepsPenalty kept.old inst.now.tables start.now.items }
    ensures chosen { result.mv ≡
        chosen inst.now.tables start.now.items kept.old.assignment.items words.now }
    ensures least { result.after ≡
        least_after inst.now.tables start.now.items kept.old.assignment.items words.now }
    ensures keeps { KeepsPenalty kept.new inst.now.tables start.now.items }
    ensures same { kept.new.assignment.items ≡ kept.old.assignment.items }
{
    let first = resolve(&kept.assignment, words, inst.machines(), Drawing::Two, 0);
    match first.kind() {
        MoveKind::Shift => {
            let leaves = first.step(0);
            let (process, home) = (leaves.process, leaves.from);
            choose_shift(inst, topo, start, kept, words, process, home, steps)
        }
        MoveKind::Swap | MoveKind::Chain => choose_in_turn(inst, topo, start, kept, words, steps),
    }
}

/// Chooses an option as `choose` does. Each option is made on the assignment that is kept, and taken back before the
/// next one.
fn choose_in_turn<L: Ledger>(
    inst: &Instance,
    topo: &Topology,
    start: &Assignment,
    kept: &mut Kept<'_>,
    words: &[u64; 8],
    steps: &mut Steps<L>,
) -> Choice
    requires start { IsAssignment inst.now.tables start.now.items }
    requires topology { IsTopologyOf topo.now inst.now.tables }
    requires keeps { KeepsPenalty kept.old inst.now.tables start.now.items }
    ensures chosen { result.mv ≡
        chosen inst.now.tables start.now.items kept.old.assignment.items words.now }
    ensures least { result.after ≡
        least_after inst.now.tables start.now.items kept.old.assignment.items words.now }
    ensures keeps { KeepsPenalty kept.new inst.now.tables start.now.items }
    ensures same { kept.new.assignment.items ≡ kept.old.assignment.items }
{
    let machines = inst.machines();
    let count = options(words, machines, Drawing::Two);
    let mut best = try_option(inst, topo, start, kept, words, 0, steps);
    for option in 1..count {
        let next = try_option(inst, topo, start, kept, words, option, steps);
        best = better(best, next);
    }
    best
}

/// One of the options, and the penalty after it.
fn try_option<L: Ledger>(
    inst: &Instance,
    topo: &Topology,
    start: &Assignment,
    kept: &mut Kept<'_>,
    words: &[u64; 8],
    option: u32,
    steps: &mut Steps<L>,
) -> Choice
    requires start { IsAssignment inst.now.tables start.now.items }
    requires topology { IsTopologyOf topo.now inst.now.tables }
    requires keeps { KeepsPenalty kept.old inst.now.tables start.now.items }
    requires named { option < try_count inst.now.tables words.now }
    ensures option { result.mv ≡
        try_option inst.now.tables kept.old.assignment.items words.now option }
    ensures after { result.after ≡ option_penalty inst.now.tables start.now.items
        kept.old.assignment.items words.now option }
    ensures keeps { KeepsPenalty kept.new inst.now.tables start.now.items }
    ensures same { kept.new.assignment.items ≡ kept.old.assignment.items }
{
    let mv = resolve(
        &kept.assignment,
        words,
        inst.machines(),
        Drawing::Two,
        option,
    );
    let after = penalty_after(inst, topo, start, kept, &mv, steps);
    Choice { mv, after }
}

/// The penalty after a move, unless the move is left out: it names a process twice, or leaves one where it is.
fn penalty_after<L: Ledger>(
    inst: &Instance,
    topo: &Topology,
    start: &Assignment,
    kept: &mut Kept<'_>,
    mv: &Move,
    steps: &mut Steps<L>,
) -> Option<u128>
    requires start { IsAssignment inst.now.tables start.now.items }
    requires topology { IsTopologyOf topo.now inst.now.tables }
    requires keeps { KeepsPenalty kept.old inst.now.tables start.now.items }
    requires stands { StandsAt from_in mv.now.steps kept.old.assignment.items }
    requires reaches { (j : ℕ) → j < length mv.now.steps →
        to_in mv.now.steps j < machine_count inst.now.tables }
    ensures after { result ≡ penalty_by inst.now.tables start.now.items
        kept.old.assignment.items mv.now.steps }
    ensures keeps { KeepsPenalty kept.new inst.now.tables start.now.items }
    ensures same { kept.new.assignment.items ≡ kept.old.assignment.items }
{
    match first_flaw(mv) {
        Some(_) => None,
        None => Some(penalty_beyond(inst, topo, start, kept, mv, steps)),
    }
}

/// The penalty after a move. It makes the move and takes it back.
fn penalty_beyond<L: Ledger>(
    inst: &Instance,
    topo: &Topology,
    start: &Assignment,
    kept: &mut Kept<'_>,
    mv: &Move,
    steps: &mut Steps<L>,
) -> u128
    requires start { IsAssignment inst.now.tables start.now.items }
    requires topology { IsTopologyOf topo.now inst.now.tables }
    requires keeps { KeepsPenalty kept.old inst.now.tables start.now.items }
    requires moves { AreSteps inst.now.tables kept.old.assignment.items mv.now.steps }
    ensures after { result ≡ penalty inst.now.tables start.now.items
        (applied kept.old.assignment.items mv.now.steps) }
    ensures keeps { KeepsPenalty kept.new inst.now.tables start.now.items }
    ensures same { kept.new.assignment.items ≡ kept.old.assignment.items }
{
    let before = kept.penalty;
    follow(inst, topo, start, kept, mv, steps);
    let after = kept.penalty;
    go_back(inst, start, kept, mv, steps);
    kept.penalty = before;
    after
}

/// The second of two moves if the penalty after it is lower, else the first.
pub(crate) fn better(first: Choice, second: Choice) -> Choice
    ensures { result ≡ (if is_better second.after first.after then second else first) }
{
    if is_lower(second.after, first.after) {
        second
    } else {
        first
    }
}

/// Whether there is a penalty that is lower than another one, or there is no other one.
#[tactic(auto, unfolding(ra_base::specs::Searches::is_better))]
fn is_lower(penalty: Option<u128>, than: Option<u128>) -> bool
    ensures { result ≡ is_better penalty than }
{
    match (penalty, than) {
        (None, _) => false,
        (Some(_), None) => true,
        (Some(after), Some(least)) => after < least,
    }
}
