ghost use Rattle.std.specs.Prelude.{◌≡◌, ◌<◌, ◌≤◌, [], length, map, vec_capacity, All, IfOk};
ghost use Rattle.ra_journal.specs.Entries.{worker_count};
ghost use Rattle.ra_journal.specs.Journals.{IsJournal};
ghost use Rattle.ra_journal.specs.Legal.{Whole};
ghost use Rattle.ra_journal.specs.Openings.{opening};
ghost use Rattle.ra_topology.specs.Starts.{IsFeasibleStart};
ghost use Rattle.ra_shared.specs.Books.{opening_of_journal};
ghost use Rattle.ra_shared.specs.Shares.{start_of};
ghost use Rattle.ra_worker.specs.Crews.{HasNotBegun, AreReady, HaveRun};
ghost use Rattle.ra_worker.specs.Running.{MayRun};

use crate::Replica;
use crate::running::Desk;
use crate::worker::Worker;
use ra_base::{Assignment, NoMemory, Parts};
use ra_draws::Lots;
use ra_io::Gate;
use ra_journal::Journal;
use ra_model::Instance;
use ra_shared::{Shared, WorkerPass, all_labour};
use ra_topology::Topology;
use std::alloc::Global;
use std::sync::Wait;
use std::thread::Threads;

/// The workers of a run before they begin, one for each lot, with the journal that they share. Once it is made it takes
/// no memory.
#[derive(Drop)]
pub struct Crew<'a> {
    shared: Shared<'a>,
    workers: Vec<Worker<'a>>,
    passes: Vec<WorkerPass<'a>>,
    pub ghost ready: { AreReady shared workers.items },
    pub ghost room: { (passes.items ≡ []) × (length workers.items ≤ vec_capacity passes) },
}

impl<'a> Crew<'a> {
    /// The workers of these lots, over a feasible initial assignment whose cost has these parts.
    pub fn make(
        alloc: Global,
        inst: &'a Instance,
        topo: &'a Topology,
        a0: &'a Assignment,
        start: Parts,
        lots: &'a Lots,
    ) -> Result<Crew<'a>, NoMemory>
        requires { IsFeasibleStart inst.now.tables topo.now a0.now.items start }
        ensures instance { IfOk result (λ crew. (start_of crew.shared).inst ≡ inst.now) }
        ensures initial { IfOk result (λ crew. (start_of crew.shared).a0 ≡ a0.now) }
        ensures lots { IfOk result (λ crew. (start_of crew.shared).lots ≡ lots.now) }
    {
        let journal = Journal::make(alloc, inst, topo, a0, start, lots)?;
        let (shared, mut passes) = Shared::make(alloc, journal)?;
        let workers = make_workers(alloc, inst, topo, a0, start, lots, &mut passes)?;
        Ok(Crew {
            shared,
            workers,
            passes,
        })
    }

    /// Runs all workers, each in a thread of its own, until each has used its budget, and gives the journal. Each
    /// worker passes the gate between making a plan and committing it. It may wait for others.
    pub fn run<R: Threads + Wait + Sync, G: Gate>(self, rt: &R, gate: &G) -> Journal<'a>
        ensures opened { opening_of_journal result ≡ start_of self.entry.shared }
        ensures whole { Whole result.lots result.entries }
        ensures sound { IsJournal result }
    {
        let Crew {
            shared,
            mut workers,
            passes,
        } = self;
        run_all(rt, &shared, gate, &mut workers);
        let passes = take_passes(workers, passes);
        shared.close(passes)
    }
}

/// A worker for each pass, in order, at place 0. It takes all passes, and keeps the room of their list.
fn make_workers<'a>(
    alloc: Global,
    inst: &'a Instance,
    topo: &'a Topology,
    a0: &'a Assignment,
    start: Parts,
    lots: &'a Lots,
    passes: &mut Vec<WorkerPass<'a>>,
) -> Result<Vec<Worker<'a>>, NoMemory>
    requires start { IsFeasibleStart inst.now.tables topo.now a0.now.items start }
    requires exist { All (λ pass. pass.number < worker_count lots.now) passes.old.items }
    ensures passes { IfOk result (λ workers. map (λ w. w.pass) workers.items ≡ passes.old.items) }
    ensures taken { IfOk result (λ workers. passes.new.items ≡ []) }
    ensures room { IfOk result (λ workers. length workers.items ≤ vec_capacity passes.new) }
    ensures fresh { IfOk result (λ workers.
        All (HasNotBegun (opening inst.now.tables a0.now.items lots.now)) workers.items) }
{
    let mut workers = Vec::with_capacity(alloc, passes.len())?;
    'passes: while passes.len() > 0 {
        let pass = passes.remove(0);
        let worker = make_worker(alloc, inst, topo, a0, start, lots, pass)?;
        workers.push_reserved(worker);
    }
    Ok(workers)
}

/// The worker of a pass, at place 0.
fn make_worker<'a>(
    alloc: Global,
    inst: &'a Instance,
    topo: &'a Topology,
    a0: &'a Assignment,
    start: Parts,
    lots: &'a Lots,
    pass: WorkerPass<'a>,
) -> Result<Worker<'a>, NoMemory>
    requires start { IsFeasibleStart inst.now.tables topo.now a0.now.items start }
    requires exists { pass.number < worker_count lots.now }
    ensures pass { IfOk result (λ worker. worker.pass ≡ pass.entry) }
    ensures fresh { IfOk result (λ worker.
        HasNotBegun (opening inst.now.tables a0.now.items lots.now) worker) }
{
    let replica = Replica::make(alloc, inst, topo, a0, start, lots, pass.number())?;
    Worker::make(alloc, replica, pass)
}

/// Runs all workers, each in a thread of its own.
fn run_all<'a, R: Threads + Wait + Sync, G: Gate>(
    rt: &R,
    shared: &Shared<'a>,
    gate: &G,
    workers: &mut Vec<Worker<'a>>,
)
    requires ready { AreReady shared.now workers.old.items }
    requires may { All (λ w. MayRun shared.now w) workers.old.items }
    ensures { HaveRun shared.now workers.new.items }
{
    let desk = Desk { shared, gate };
    all_labour(rt, &desk, workers);
}

/// The passes of all workers, in order.
fn take_passes<'a>(workers: Vec<Worker<'a>>, mut passes: Vec<WorkerPass<'a>>) -> Vec<WorkerPass<'a>>
    requires { (passes.items ≡ []) × (length workers.items ≤ vec_capacity passes) }
    ensures { result.items ≡ map (λ w. w.pass) workers.entry.items }
{
    for worker in workers {
        passes.push_reserved(worker.into_pass());
    }
    passes
}
