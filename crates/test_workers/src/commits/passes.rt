//! The answers to two workers that take turns with a shared journal, each by its pass, one after the other on one
//! thread.
ghost use Rattle.std.specs.Prelude.{◌≡◌, ◌<◌, length, None};
ghost use Rattle.ra_model.specs.Assignments.{IsAssignment};
ghost use Rattle.ra_model.specs.Broken.{first_broken};
ghost use Rattle.ra_model.specs.Costs.{parts_of};
ghost use Rattle.ra_topology.specs.Fits.{IsTopologyOf};
ghost use Rattle.ra_journal.specs.Entries.{worker_count};
ghost use Rattle.ra_turn.specs.Passes.{EachAt};
ghost use Rattle.ra_shared.specs.Books.{opening_by};
ghost use Rattle.ra_shared.specs.Shares.{start_of, IsNew, IsLast};
ghost use Rattle.test_workers.specs.FirstPlans.{IsFirstPlan};

use super::first::start_parts;
use super::{AWAY, done, first_plans, shift, stale};
use ra_base::{Assignment, Guard, Machine, Parts, Process};
use ra_draws::Lots;
use ra_journal::{Batch, Entry, Journal, Reply};
use ra_model::Instance;
use ra_moves::{Move, Plan, Step, Verdict};
use ra_shared::{Shared, WorkerPass};
use ra_topology::Topology;
use std::alloc::Global;
use std::marker::Brand;
use std::process::Abort;
use std::sync::Wait;
use std::sync::ledger::Blank;
use test_samples::{assignment, sample, two_lots};

/// The answers to both workers, what each commit copies for its worker, how many entries each has then seen, and what
/// the second learns of them.
#[derive(Clone, Copy, Debug, PartialEq, Eq)]
struct Answers {
    replies: [Reply; 2],
    copied: [Option<Entry>; 2],
    seen: [u64; 2],
    told: u64,
    entry: Option<Entry>,
}

/// The two passes of a journal that is shared by two workers.
fn both<'a>(
    rt: &impl Abort,
    shared: &Shared<'a>,
    mut passes: Vec<WorkerPass<'a>>,
) -> (WorkerPass<'a>, WorkerPass<'a>)
    requires count { length passes.items ≡ worker_count (start_of shared.now).lots }
    requires new { EachAt (IsNew shared.now) passes.items }
    ensures two { worker_count (start_of shared.now).lots ≡ 2 }
    ensures first { IsNew shared.now 0 result.0 }
    ensures second { IsNew shared.now 1 result.1 }
{
    assert!(rt; passes.len() == 2);
    let second = passes.pop().expect(rt, "no pass");
    let first = passes.pop().expect(rt, "no pass");
    (first, second)
}

/// A worker hands in its first plan, in the first turn of its pass. For worker 0 nothing is copied.
fn commit_first<'a, R: Abort + Wait>(
    rt: &R,
    shared: &Shared<'a>,
    lots: &Lots,
    pass: &mut WorkerPass<'a>,
    worker: u32,
    plan: &Plan,
    batch: &mut Batch,
) -> Reply
    requires lots { lots.now ≡ (start_of shared.now).lots }
    requires new { IsNew shared.now worker pass.old }
    requires exists { worker < worker_count lots.now }
    requires plan { IsFirstPlan (opening_by (start_of shared.now)) worker plan.now }
    ensures last { IsLast shared.now worker pass.new }
    ensures left { 0 < pass.new.left }
{
    assert!(rt; lots.lot(worker).budget > 0);
    if worker == 0 {
        shared.commit(rt, pass, plan)
    } else {
        shared.commit_and_copy(rt, pass, plan, batch)
    }
}

/// The entry of a batch of one.
fn lone_entry(batch: &Batch) -> Option<Entry> {
    if batch.len() == 1 {
        Some(batch.entry(0))
    } else {
        None
    }
}

/// Both workers hand in their first plans, and the second one looks at the entries.
fn take_turns<'a, R: Abort + Wait>(
    rt: &R,
    alloc: Global,
    shared: &Shared<'a>,
    lots: &Lots,
    first: &mut WorkerPass<'a>,
    second: &mut WorkerPass<'a>,
    plans: &(Plan, Plan),
) -> Answers
    requires lots { lots.now ≡ (start_of shared.now).lots }
    requires two { worker_count (start_of shared.now).lots ≡ 2 }
    requires first { IsNew shared.now 0 first.old }
    requires second { IsNew shared.now 1 second.old }
    requires first_plan { IsFirstPlan (opening_by (start_of shared.now)) 0 plans.now.0 }
    requires second_plan { IsFirstPlan (opening_by (start_of shared.now)) 1 plans.now.1 }
    ensures first { IsLast shared.now 0 first.new }
    ensures second { IsLast shared.now 1 second.new }
{
    let mut batch = Batch::make(alloc).expect(rt, "no memory");
    let one = commit_first(rt, shared, lots, first, 0, &plans.0, &mut batch);
    let own = lone_entry(&batch);
    let two = commit_first(rt, shared, lots, second, 1, &plans.1, &mut batch);
    let other = lone_entry(&batch);
    let seen = [first.seen(), second.seen()];
    let told = shared.catch_up(rt, second, 0, &mut batch);
    Answers {
        replies: [one, two],
        copied: [own, other],
        seen,
        told,
        entry: lone_entry(&batch),
    }
}

/// Ends the sharing.
fn close_both<'a>(
    rt: &impl Abort,
    alloc: Global,
    shared: Shared<'a>,
    first: WorkerPass<'a>,
    second: WorkerPass<'a>,
) -> Journal<'a>
    requires two { worker_count (start_of shared).lots ≡ 2 }
    requires first { IsLast shared 0 first }
    requires second { IsLast shared 1 second }
{
    let mut passes = Vec::with_capacity(alloc, 2).expect(rt, "no memory");
    passes.push_reserved(first);
    passes.push_reserved(second);
    shared.close(passes)
}

/// The answers to two workers over a start, and how many entries the journal then has.
fn answers_over<R: Abort + Wait>(
    rt: &R,
    alloc: Global,
    inst: &Instance,
    topo: &Topology,
    a0: &Assignment,
    costs: Parts,
    lots: &Lots,
) -> (Answers, u64)
    requires fits { IsAssignment inst.now.tables a0.now.items }
    requires topology { IsTopologyOf topo.now inst.now.tables }
    requires unbroken { first_broken inst.now.tables a0.now.items a0.now.items ≡ None }
    requires costs { costs ≡ parts_of inst.now.tables a0.now.items a0.now.items }
{
    let blank = Blank::new(1);
    let plans = first_plans::<Brand>(rt, alloc, inst, topo, a0, costs, lots, blank);
    let journal = Journal::make(alloc, inst, topo, a0, costs, lots).expect(rt, "no memory");
    let (shared, passes) = Shared::make(alloc, journal).expect(rt, "no memory");
    let (mut first, mut second) = both(rt, &shared, passes);
    let answers = take_turns(rt, alloc, &shared, lots, &mut first, &mut second, &plans);
    let journal = close_both(rt, alloc, shared, first, second);
    (answers, journal.len())
}

/// The answers to two workers on the sample, and how many entries the journal then has. Worker 0 brings process 1 to
/// machine 2, to which worker 1 has planned to bring process 2.
fn answers_on_sample<R: Abort + Wait>(rt: &R, alloc: Global, inst: &Instance) -> (Answers, u64) {
    let lots = two_lots(alloc, 0, 1, &AWAY, &shift(2, 2)).expect(rt, "no memory");
    let a0 = assignment(alloc, &[0, 3, 0]).expect(rt, "no memory");
    assert!(rt; inst.is_assignment(&a0));
    let topo = Topology::make(alloc, inst).expect(rt, "no memory");
    let costs = start_parts(rt, alloc, inst, &a0);
    answers_over(rt, alloc, inst, &topo, &a0, costs, &lots)
}

/// The entry of worker 0: process 1 goes from machine 3 to machine 2.
pub(super) fn away() -> Entry {
    let step = Step {
        process: Process(1),
        from: Machine(3),
        to: Machine(2),
    };
    Entry {
        worker: 0,
        k: 0,
        q: 0,
        mv: Move::shift(step),
        verdict: Verdict::Done { cost: 3510 },
    }
}

/// The answer to worker 1 shows the entry that made its plan stale, and its commit has copied this entry; nothing else
/// is recorded.
fn a_stale_pass_sees_the_entry<R: Abort + Wait>(rt: &R, alloc: Global, inst: &Instance) {
    let (answers, entries) = answers_on_sample(rt, alloc, inst);
    let wanted = Answers {
        replies: [done(0, 3510), stale(Guard::Machine(Machine(2)))],
        copied: [None, Some(away())],
        seen: [1, 1],
        told: 1,
        entry: Some(away()),
    };
    assert_eq!(rt; answers, wanted);
    assert_eq!(rt; entries, 1);
}

#[test]
fn passes_on_the_sample(rt: HostRuntime) {
    let inst = sample(rt.alloc()).expect(&rt, "no instance");
    a_stale_pass_sees_the_entry(&rt, rt.alloc(), &inst);
    drop(inst);
}
