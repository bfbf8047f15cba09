ghost use Rattle.std.specs.Prelude.{◌≡◌, ◌<◌, ◌^◌, Some, length, slice_index, option_copied, IfSome};
ghost use Rattle.ra_topology.specs.Fits.{IsTopologyOf};
ghost use Rattle.ra_moves.specs.Judging.{judge};
ghost use Rattle.ra_guards.specs.Guards.{AreWithin};
ghost use Rattle.ra_guards.specs.Kept.{IsTableOf};
ghost use Rattle.ra_guards.specs.Order.{AreWrites};
ghost use Rattle.ra_journal.specs.Entries.{allowed, steps_made};
ghost use Rattle.ra_journal.specs.Keeping.{IsStart, IsKept};
ghost use Rattle.ra_journal.specs.Openings.{opening};
ghost use Rattle.ra_journal.specs.Packing.{IsSmall};
ghost use Rattle.ra_journal.specs.Recording.{MayRecord, HasRecorded, IsAdded, AreChangesOf, AreTouchedVersions, IsTakenIn, IsBestKept};
ghost use Rattle.ra_journal.specs.States.{state_at};

use crate::allowances::allowed;
use crate::book::Book;
use crate::entries::Entry;
use crate::replies::Reply;
use ra_base::Assignment;
use ra_draws::Lots;
use ra_guards::{Versions, WriteGuards, writes};
use ra_model::Instance;
use ra_moves::{Move, Plan, Verdict, change_counts, settle_now};
use ra_topology::Topology;

/// Records a worker's next proposal, if no guard of its move was touched since it was planned. Guards that are given
/// are its write guards.
pub(crate) fn record(
    inst: &Instance,
    topo: &Topology,
    a0: &Assignment,
    lots: &Lots,
    book: &mut Book,
    worker: u32,
    plan: &Plan,
    held: Option<&WriteGuards>,
) -> Reply
    requires topology { IsTopologyOf topo.now inst.now.tables }
    requires start { IsStart (opening inst.now.tables a0.now.items lots.now) }
    requires kept { IsKept (opening inst.now.tables a0.now.items lots.now) book.old }
    requires next { MayRecord (opening inst.now.tables a0.now.items lots.now) book.old.entries.items worker
        plan.now }
    requires held { IfSome (option_copied held) (AreWrites inst.now.tables plan.now.mv.steps) }
    ensures { HasRecorded (opening inst.now.tables a0.now.items lots.now) book.old book.new worker plan.now.q
        result }
{
    let verdict = judge_now(inst, a0, lots, book, worker, plan);
    let at = book.entries.len() as u64;
    let entry = Entry {
        worker,
        k: plan.k,
        q: plan.q,
        mv: plan.mv,
        verdict,
    };
    add(book, &entry);
    take_in(inst, topo, book, plan, held, &verdict);
    keep_best(book);
    Reply::Recorded { at, verdict }
}

/// The verdict on a worker's next proposal at the state after all entries.
fn judge_now(
    inst: &Instance,
    a0: &Assignment,
    lots: &Lots,
    book: &Book,
    worker: u32,
    plan: &Plan,
) -> Verdict
    requires start { IsStart (opening inst.now.tables a0.now.items lots.now) }
    requires kept { IsKept (opening inst.now.tables a0.now.items lots.now) book.now }
    requires next { MayRecord (opening inst.now.tables a0.now.items lots.now) book.now.entries.items worker
        plan.now }
    ensures { result ≡
        judge (state_at (opening inst.now.tables a0.now.items lots.now) book.now.entries.items
        (length book.now.entries.items))
        plan.now.mv.steps (allowed lots.now worker plan.now.k) }
{
    let rise = allowed(lots, worker, plan.k);
    settle_now(inst, &book.greatest, book.kept, &plan.weighed, rise)
}

/// Adds an entry of its worker at the end.
fn add(book: &mut Book, entry: &Entry)
    requires room { length book.old.entries.items < book.old.entries.room }
    requires small { IsSmall entry.now }
    requires there { entry.now.worker < length book.old.made }
    requires few { slice_index book.old.made entry.now.worker < 2 ^ 63 }
    ensures { IsAdded book.old book.new entry.now }
{
    let place = entry.worker as usize;
    let made = book.made[place];
    book.made[place] = made + 1;
    book.entries.push(entry);
}

/// Takes the last entry, which is this plan's and has this verdict, into the versions, the moved counts, the cost and
/// the place of what was done last.
fn take_in(
    inst: &Instance,
    topo: &Topology,
    book: &mut Book,
    plan: &Plan,
    held: Option<&WriteGuards>,
    verdict: &Verdict,
)
    requires within { AreWithin inst.now.tables plan.now.mv.steps }
    requires held { IfSome (option_copied held) (AreWrites inst.now.tables plan.now.mv.steps) }
    requires sized { IsTableOf inst.now.tables book.old.versions }
    requires counts { AreChangesOf book.old.greatest plan.now.weighed }
    ensures { IsTakenIn inst.now.tables plan.now.mv.steps plan.now.weighed verdict.now book.old
        book.new }
{
    match verdict {
        Verdict::Done { cost } => {
            let version = book.entries.len() as u64;
            touch(inst, topo, &mut book.versions, &plan.mv, held, version);
            change_counts(&mut book.greatest, &plan.weighed);
            book.kept = *cost;
            book.done = version;
        }
        Verdict::Refused { .. } => {}
    }
}

/// Gives the write guards of a move a version. It gathers them only if they aren't given.
fn touch(
    inst: &Instance,
    topo: &Topology,
    versions: &mut Versions,
    mv: &Move,
    held: Option<&WriteGuards>,
    version: u64,
)
    requires within { AreWithin inst.now.tables mv.now.steps }
    requires held { IfSome (option_copied held) (AreWrites inst.now.tables mv.now.steps) }
    requires sized { IsTableOf inst.now.tables versions.old }
    ensures { AreTouchedVersions inst.now.tables (Some mv.now.steps) version versions.old versions.new }
{
    match held {
        Some(guards) => versions.touch(guards, version),
        None => touch_gathered(inst, topo, versions, mv, version),
    }
}

/// Gathers the write guards of a move, and gives them a version.
fn touch_gathered(
    inst: &Instance,
    topo: &Topology,
    versions: &mut Versions,
    mv: &Move,
    version: u64,
)
    requires within { AreWithin inst.now.tables mv.now.steps }
    requires sized { IsTableOf inst.now.tables versions.old }
    ensures { AreTouchedVersions inst.now.tables (Some mv.now.steps) version versions.old versions.new }
{
    let guards = writes(topo, inst, mv);
    versions.touch(&guards, version);
}

/// Keeps the state after all entries as the best one if it costs less than the best so far.
fn keep_best(book: &mut Book)
    ensures { IsBestKept book.old book.new }
{
    if book.kept < book.best_cost {
        book.best_at = book.entries.len() as u64;
        book.best_cost = book.kept;
    }
}
