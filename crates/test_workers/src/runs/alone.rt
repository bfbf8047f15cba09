//! One worker's run, called by itself on one thread.
ghost use Rattle.std.specs.Prelude.{◌≡◌, length};
ghost use Rattle.ra_journal.specs.Entries.{worker_count};
ghost use Rattle.ra_topology.specs.Starts.{IsFeasibleStart};
ghost use Rattle.ra_turn.specs.Passes.{EachAt};
ghost use Rattle.ra_shared.specs.Shares.{start_of, IsNew, IsLast};
ghost use Rattle.ra_worker.specs.Running.{MayRun};

use super::running::{entries_of, lots_of, start_parts};
use ra_base::{Assignment, Fixed, Parts};
use ra_draws::Lots;
use ra_io::NoGate;
use ra_journal::{Entry, Journal};
use ra_model::Instance;
use ra_shared::{Shared, WorkerPass};
use ra_topology::Topology;
use ra_worker::{Replica, Worker};
use std::alloc::Global;
use std::process::Abort;
use std::sync::Wait;
use test_samples::{assignment, strings};

/// What one worker made.
#[derive(Drop)]
pub(super) struct Alone {
    /// The entries of its journal.
    pub(super) entries: Fixed<Entry>,
    /// The first place of least cost.
    pub(super) best_at: u64,
    /// The cost there.
    pub(super) best_cost: u128,
}

/// The pass of a journal that one worker has for itself.
fn only_pass<'a>(
    rt: &impl Abort,
    shared: &Shared<'a>,
    mut passes: Vec<WorkerPass<'a>>,
) -> WorkerPass<'a>
    requires count { length passes.items ≡ worker_count (start_of shared.now).lots }
    requires new { EachAt (IsNew shared.now) passes.items }
    ensures one { worker_count (start_of shared.now).lots ≡ 1 }
    ensures new { IsNew shared.now 0 result }
{
    assert!(rt; passes.len() == 1);
    passes.pop().expect(rt, "no pass")
}

/// A journal that one worker has for itself, and that worker, which hasn't begun.
fn begin<'a>(
    rt: &impl Abort,
    alloc: Global,
    inst: &'a Instance,
    topo: &'a Topology,
    a0: &'a Assignment,
    start: Parts,
    lots: &'a Lots,
) -> (Shared<'a>, Worker<'a>)
    requires { IsFeasibleStart inst.now.tables topo.now a0.now.items start }
    ensures one { worker_count (start_of result.0).lots ≡ 1 }
    ensures may { MayRun result.0 result.1 }
    ensures number { result.1.pass.number ≡ 0 }
{
    let journal = Journal::make(alloc, inst, topo, a0, start, lots).expect(rt, "no memory");
    let (shared, passes) = Shared::make(alloc, journal).expect(rt, "no memory");
    let pass = only_pass(rt, &shared, passes);
    let replica = Replica::make(alloc, inst, topo, a0, start, lots, 0).expect(rt, "no memory");
    let worker = Worker::make(alloc, replica, pass).expect(rt, "no memory");
    (shared, worker)
}

/// Ends the sharing.
fn close_alone<'a>(
    rt: &impl Abort,
    alloc: Global,
    shared: Shared<'a>,
    worker: Worker<'a>,
) -> Journal<'a>
    requires one { worker_count (start_of shared).lots ≡ 1 }
    requires last { IsLast shared 0 worker.pass }
{
    let mut passes = Vec::with_capacity(alloc, 1).expect(rt, "no memory");
    passes.push_reserved(worker.into_pass());
    shared.close(passes)
}

/// The journal that one worker makes of its lot.
fn journal_of_one<'a, R: Abort + Wait>(
    rt: &R,
    alloc: Global,
    inst: &'a Instance,
    topo: &'a Topology,
    a0: &'a Assignment,
    start: Parts,
    lots: &'a Lots,
) -> Journal<'a>
    requires { IsFeasibleStart inst.now.tables topo.now a0.now.items start }
{
    let (shared, mut worker) = begin(rt, alloc, inst, topo, a0, start, lots);
    worker.run(rt, &shared, &NoGate);
    close_alone(rt, alloc, shared, worker)
}

/// What the one worker of command words makes, from the assignment to these machines.
pub(super) fn run_alone<R: Abort + Wait>(
    rt: &R,
    alloc: Global,
    inst: &Instance,
    start: &[u32],
    words: &[&str],
) -> Alone {
    let words = strings(alloc, words).expect(rt, "no memory");
    let lots = lots_of(alloc, words.as_slice()).expect(rt, "no lots");
    let a0 = assignment(alloc, start).expect(rt, "no memory");
    assert!(rt; inst.is_assignment(&a0));
    let costs = start_parts(rt, alloc, inst, &a0);
    let topo = Topology::make(alloc, inst).expect(rt, "no memory");
    let journal = journal_of_one(rt, alloc, inst, &topo, &a0, costs, &lots);
    Alone {
        entries: entries_of(alloc, &journal).expect(rt, "no memory"),
        best_at: journal.best_at(),
        best_cost: journal.best_cost(),
    }
}
