ghost use Rattle.std.specs.Prelude.{◌≡◌, ◌<◌, IfOk};
ghost use Rattle.ra_model.specs.Costs.{parts_of};
ghost use Rattle.ra_topology.specs.Starts.{IsFeasibleStart};
ghost use Rattle.ra_journal.specs.Best.{best_of};
ghost use Rattle.ra_journal.specs.Openings.{opening};
ghost use Rattle.ra_journal.specs.States.{state};
ghost use Rattle.ra_journal.specs.Journals.{opening_in};
ghost use Rattle.ra_check.specs.Made.{IsMadeFor};
ghost use Rattle.ra_worker.specs.Ready.{IsFor};
ghost use Rattle.ra_worker.specs.Runs.{IsRun};

use crate::crew::Crew;
use crate::restore;
use crate::solved::Solved;
use ra_base::{Assignment, NoMemory, Parts};
use ra_check::{Scratch, parts};
use ra_draws::Lots;
use ra_io::Gate;
use ra_journal::Journal;
use ra_model::{Instance, copied};
use ra_topology::Topology;
use std::alloc::Global;
use std::marker::Sync;
use std::sync::Wait;
use std::thread::Threads;

/// All that a run of 1 to 16 workers needs: the workers with the journal that they share, an assignment that becomes
/// the best state, and tables for summing the parts of its cost. Only `make` takes memory.
#[derive(Drop)]
pub struct Prepared<'a> {
    inst: &'a Instance,
    a0: &'a Assignment,
    lots: &'a Lots,
    crew: Crew<'a>,
    best: Assignment,
    scratch: Scratch,
    pub ghost opened: { IsFor inst.now a0.now lots.now crew },
    pub ghost ready: { best.items ≡ a0.now.items },
    pub ghost made: { IsMadeFor scratch inst.now.tables },
}

impl<'a> Prepared<'a> {
    /// Takes all memory of a run, over a feasible initial assignment whose cost has these parts. It fails if there is
    /// too little memory.
    pub fn make(
        alloc: Global,
        inst: &'a Instance,
        topo: &'a Topology,
        a0: &'a Assignment,
        start: Parts,
        lots: &'a Lots,
    ) -> Result<Prepared<'a>, NoMemory>
        requires { IsFeasibleStart inst.now.tables topo.now a0.now.items start }
        ensures instance { IfOk result (λ prepared. prepared.inst.now ≡ inst.now) }
        ensures initial { IfOk result (λ prepared. prepared.a0.now ≡ a0.now) }
        ensures lots { IfOk result (λ prepared. prepared.lots.now ≡ lots.now) }
    {
        let best = copied(alloc, a0)?;
        let scratch = Scratch::make(alloc, inst)?;
        let crew = Crew::make(alloc, inst, topo, a0, start, lots)?;
        Ok(Prepared {
            inst,
            a0,
            lots,
            crew,
            best,
            scratch,
        })
    }

    /// Makes all proposals of all workers, each worker in a thread of its own, and finds the first of the states of
    /// least cost. Each worker passes the gate between making a plan and committing it. It may wait for others.
    pub fn solve<R: Threads + Wait + Sync, G: Gate>(self, rt: &R, gate: &G) -> Solved<'a>
        ensures { IsRun
            (opening self.entry.inst.now.tables self.entry.a0.now.items self.entry.lots.now)
            result }
    {
        let Prepared {
            a0,
            crew,
            mut best,
            mut scratch,
            ..
        } = self;
        let journal = crew.run(rt, gate);
        let parts = bring_to_best(&journal, a0, &mut best, &mut scratch);
        Solved {
            journal,
            best,
            parts,
        }
    }
}

/// Brings the initial assignment of a journal to the first of its states of least cost, and gives the parts of this
/// cost.
fn bring_to_best(
    journal: &Journal<'_>,
    a0: &Assignment,
    best: &mut Assignment,
    scratch: &mut Scratch,
) -> Parts
    requires initial { a0.now ≡ journal.now.initial }
    requires at_start { best.old.items ≡ journal.now.initial.items }
    requires made { IsMadeFor scratch.old journal.now.instance.tables }
    ensures best { best.new.items ≡
        state journal.now.initial.items journal.now.entries
        (best_of (opening_in journal.now) journal.now.entries) }
    ensures parts { result ≡
        parts_of journal.now.instance.tables journal.now.initial.items best.new.items }
    ensures made { IsMadeFor scratch.new journal.now.instance.tables }
{
    restore(journal, journal.best_at(), best);
    parts(journal.instance(), a0, best, scratch)
}
