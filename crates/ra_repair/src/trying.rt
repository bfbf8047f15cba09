ghost use Rattle.std.specs.Prelude.{◌≡◌, ◌<◌, ◌≤◌, true, if◌then◌else◌};
ghost use Rattle.ra_model.specs.Assignments.{IsAssignment};
ghost use Rattle.ra_moves.specs.Replacing.{applied};
ghost use Rattle.ra_topology.specs.Fits.{IsTopologyOf};
ghost use Rattle.ra_repair.specs.Following.{AreSteps};
ghost use Rattle.ra_repair.specs.Keeping.{KeepsPenalty, AreToCome};
ghost use Rattle.ra_repair.specs.Runs.{is_taken, try_with, after_try, repair_run};

use crate::following::follow;
use crate::kept::Kept;
use crate::options::choose;
use crate::tries::Try;
use ra_base::{Assignment, Fixed, Steps};
use ra_draws::{Draws, Lot};
use ra_model::Instance;
use ra_moves::Move;
use ra_topology::Topology;
use std::sync::ledger::{Blank, Ledger};

/// Makes the tries of a lot, one for each proposal, until the penalty is 0 or the budget is used.
pub(crate) fn make_tries<L: Ledger>(
    inst: &Instance,
    topo: &Topology,
    start: &Assignment,
    lot: &Lot,
    kept: &mut Kept<'_>,
    tries: &mut Fixed<Try>,
    blank: Blank,
)
    requires name { blank.name ≡ L.name }
    requires parts { blank.parts ≡ L.parts }
    requires some { 0 < blank.parts }
    requires start { IsAssignment inst.now.tables start.now.items }
    requires topology { IsTopologyOf topo.now inst.now.tables }
    requires keeps { KeepsPenalty kept.old inst.now.tables start.now.items }
    requires begins { kept.old.assignment.items ≡ start.now.items }
    requires tries { AreToCome lot.now tries.old }
    ensures keeps { KeepsPenalty kept.new inst.now.tables start.now.items }
    ensures room { tries.new.room ≡ tries.old.room }
    ensures run { record { assignment = kept.new.assignment.items; tries = tries.new.items }
        ≡ repair_run inst.now.tables start.now.items lot.now }
{
    let mut steps = Steps::<L>::make(blank);
    let mut draws = Draws::make(lot);
    for k in 0..lot.budget {
        if kept.penalty == 0 {
            return;
        }
        let words = draws.words_for_next();
        let next = make_try(inst, topo, start, kept, &words, k, &mut steps);
        tries.push(next);
    }
}

/// Makes try `k`, with the words of its proposal: chooses a move, and takes it unless the penalty rises by it.
fn make_try<L: Ledger>(
    inst: &Instance,
    topo: &Topology,
    start: &Assignment,
    kept: &mut Kept<'_>,
    words: &[u64; 8],
    k: u64,
    steps: &mut Steps<L>,
) -> Try
    requires start { IsAssignment inst.now.tables start.now.items }
    requires topology { IsTopologyOf topo.now inst.now.tables }
    requires keeps { KeepsPenalty kept.old inst.now.tables start.now.items }
    ensures made { result ≡ try_with inst.now.tables start.now.items kept.old.assignment.items
        words.now k }
    ensures keeps { KeepsPenalty kept.new inst.now.tables start.now.items }
    ensures assignment { kept.new.assignment.items ≡ after_try kept.old.assignment.items result }
{
    let before = kept.penalty;
    let choice = choose(inst, topo, start, kept, words, steps);
    let taken = is_taken(before, choice.after);
    take_if(inst, topo, start, kept, &choice.mv, taken, steps);
    Try {
        k,
        mv: choice.mv,
        taken,
        before,
        after: choice.after.unwrap_or(before),
    }
}

/// Follows a move if it is taken.
fn take_if<L: Ledger>(
    inst: &Instance,
    topo: &Topology,
    start: &Assignment,
    kept: &mut Kept<'_>,
    mv: &Move,
    taken: bool,
    steps: &mut Steps<L>,
)
    requires start { IsAssignment inst.now.tables start.now.items }
    requires topology { IsTopologyOf topo.now inst.now.tables }
    requires keeps { KeepsPenalty kept.old inst.now.tables start.now.items }
    requires moves { taken ≡ true →
        AreSteps inst.now.tables kept.old.assignment.items mv.now.steps }
    ensures keeps { KeepsPenalty kept.new inst.now.tables start.now.items }
    ensures assignment { kept.new.assignment.items ≡
        (if taken then applied kept.old.assignment.items mv.now.steps
        else kept.old.assignment.items) }
{
    if taken {
        follow(inst, topo, start, kept, mv, steps);
    }
}

/// Whether a move is taken: there is a penalty after it, and it is at most the penalty before.
#[tactic(auto, unfolding(crate::specs::Runs::is_taken))]
fn is_taken(before: u128, after: Option<u128>) -> bool
    ensures { result ≡ is_taken before after }
{
    match after {
        None => false,
        Some(after) => after <= before,
    }
}
