ghost use Rattle.std.specs.Prelude.{◌≡◌, ◌≤◌};
ghost use Rattle.ra_journal.specs.Entries.{proposal_count};

use crate::batch::Batch;
use crate::book::Book;
use crate::entries::Entry;
use crate::listing::Entries;
use crate::recording::record;
use crate::replies::Reply;
use ra_base::{Assignment, NoMemory, Parts};
use ra_cells::Greatest;
use ra_draws::Lots;
use ra_guards::{Newer, Versions, WriteGuards, first_newer, first_newer_read, writes};
use ra_model::Instance;
use ra_moves::Plan;
use ra_topology::Topology;
use std::alloc::Global;
use std::marker::Model;

/// The journal of a run: the proposals of all workers in the order in which they were recorded. By its type it is legal
/// at all times. It takes its memory when it is made, for one entry for each proposal of all budgets.
#[derive(Drop)]
pub struct Journal<'a> {
    inst: &'a Instance,
    topo: &'a Topology,
    a0: &'a Assignment,
    lots: &'a Lots,
    book: Book,
}

impl<'a> Model for Journal<'a> {
    ghost use Rattle.std.specs.Coded.{codes};
    ghost use Rattle.ra_draws.specs.contracts.budgets.Lots as l;
    ghost use Rattle.ra_model.specs.contracts.numbers.Instance as i;
    ghost use Rattle.ra_journal.specs.Journals.{History, history};
    ghost use Rattle.ra_journal.specs.Keeping.{IsKeptJournal};
    ghost use Rattle.ra_journal.specs.Openings.{opening};

    ghost Value = { History };

    ghost coded = { Prim.hlevel (codes, i.the_row.coded, l.the_row.coded) };

    ghost view = { λ j. history j.inst.now j.topo.now j.a0.now j.lots.now j.book.entries.items };

    ghost invariant = { λ j. IsKeptJournal
        (opening j.inst.now.tables j.a0.now.items j.lots.now) j.topo.now j.book };
}

impl<'a> Journal<'a> {
    ghost use Rattle.std.specs.Bool.{Decides};
    ghost use Rattle.std.specs.Prelude.{◌≡◌, ◌-◌, ◌<◌, ◌≤◌, min, [], length, option_copied, IfSome, IfOk};
    ghost use Rattle.ra_journal.specs.Batches.{batch_from};
    ghost use Rattle.ra_journal.specs.Best.{best_of};
    ghost use Rattle.ra_journal.specs.Committing.{AreHeld};
    ghost use Rattle.ra_journal.specs.Entries.{entry_at, entries_of, worker_count};
    ghost use Rattle.ra_journal.specs.Journals.{opening_in, newer_in, history, IsJournal, MayHandIn, HasHeld, Answers};
    ghost use Rattle.ra_journal.specs.Quiet.{AreRefused};
    ghost use Rattle.ra_topology.specs.Starts.{IsFeasibleStart};
    ghost use Rattle.ra_journal.specs.States.{kept_cost, cost_of_state};

    /// The journal without entries, over a feasible initial assignment whose cost has these parts.
    pub fn make(
        alloc: Global,
        inst: &'a Instance,
        topo: &'a Topology,
        a0: &'a Assignment,
        start: Parts,
        lots: &'a Lots,
    ) -> Result<Journal<'a>, NoMemory>
        requires { IsFeasibleStart inst.now.tables topo.now a0.now.items start }
        ensures { IfOk result (λ journal. journal ≡ history inst.now topo.now a0.now lots.now []) }
    {
        let entries = Entries::make(alloc, proposals(lots) as usize)?;
        let versions = Versions::make(alloc, inst.machines(), inst.services())?;
        let greatest = Greatest::make(alloc, inst)?;
        let book = Book {
            entries,
            versions,
            greatest,
            kept: start.total,
            made: [0; 16],
            best_at: 0,
            best_cost: start.total,
            done: 0,
        };
        Ok(Journal {
            inst,
            topo,
            a0,
            lots,
            book,
        })
    }

    /// Records a worker's next proposal, judged at the state after all entries, unless a guard of its move was touched
    /// since it was planned.
    pub fn commit(&mut self, worker: u32, plan: &Plan) -> Reply
        requires commit { MayHandIn self.old worker plan.now }
        ensures { Answers self.old self.new worker plan.now result }
    {
        self.commit_with(worker, plan, None)
    }

    /// Records a worker's next proposal as `commit` does, for a worker that has locked the write guards of the move,
    /// none of which was touched since the move was planned. It compares the other guards alone.
    pub fn commit_held(&mut self, worker: u32, plan: &Plan) -> Reply
        requires commit { MayHandIn self.old worker plan.now }
        requires held { AreHeld self.old.instance.tables self.old.entries plan.now.q plan.now.mv.steps }
        ensures { Answers self.old self.new worker plan.now result }
    {
        let guards = writes(self.topo, self.inst, &plan.mv);
        self.commit_with(worker, plan, Some(&guards))
    }

    /// Records a worker's next proposal as `commit` does, for a worker that may have guards locked. If it gives the
    /// write guards of the move, none of which was touched since the move was planned, the journal compares the other
    /// guards alone, and doesn't gather the write guards again.
    pub fn commit_with(&mut self, worker: u32, plan: &Plan, held: Option<&WriteGuards>) -> Reply
        requires commit { MayHandIn self.old worker plan.now }
        requires held { IfSome (option_copied held) (HasHeld self.old plan.now) }
        ensures { Answers self.old self.new worker plan.now result }
    {
        match self.first_newer(worker, plan, held) {
            Some(newer) => Reply::Stale {
                guard: newer.guard,
                at: newer.at,
            },
            None => record(
                self.inst,
                self.topo,
                self.a0,
                self.lots,
                &mut self.book,
                worker,
                plan,
                held,
            ),
        }
    }

    /// The first guard of a worker's move that was touched since the move was planned. If the write guards are given,
    /// none of them was touched.
    fn first_newer(&self, worker: u32, plan: &Plan, held: Option<&WriteGuards>) -> Option<Newer>
        requires commit { MayHandIn self.now worker plan.now }
        requires held { IfSome (option_copied held) (HasHeld self.now plan.now) }
        ensures { result ≡ newer_in self.now plan.now }
    {
        let versions = &self.book.versions;
        match held {
            Some(_) => first_newer_read(self.topo, self.inst, &plan.mv, versions, plan.q),
            None => first_newer(self.topo, self.inst, &plan.mv, versions, plan.q),
        }
    }

    /// Whether all entries from a place on are refused, so that the state there equals the state after all entries.
    pub fn is_quiet_from(&self, at: u64) -> bool
        ensures { Decides result (AreRefused self.now.entries at (length self.now.entries)) }
    {
        self.book.done <= at
    }

    /// Fills a batch with the entries from a place on, as many as it has room for, and gives their number.
    pub fn copy_from(&self, at: u64, batch: &mut Batch) -> u64
        requires { at ≤ length self.now.entries }
        ensures entries { batch.new ≡ batch_from self.now.entries at }
        ensures number { result ≡ min 1024 (length self.now.entries - at) }
        ensures sound { IsJournal self.now }
    {
        batch.fill(&self.book.entries, at as usize)
    }

    /// How many entries there are.
    pub fn len(&self) -> u64
        ensures value { result ≡ length self.now.entries }
        ensures sound { IsJournal self.now }
    {
        self.book.entries.len() as u64
    }

    /// The entry at a place, counted from 0.
    #[inline(always)]
    pub fn entry(&self, at: u64) -> Entry
        requires { at < length self.now.entries }
        ensures value { result ≡ entry_at self.now.entries at }
        ensures sound { IsJournal self.now }
    {
        self.book.entries.get(at as usize)
    }

    /// All entries, in order.
    pub fn entries(&self) -> &Entries
        ensures items { result.now.items ≡ self.now.entries }
        ensures room { result.now.room ≡ proposal_count self.now.lots }
    {
        &self.book.entries
    }

    /// How many entries a worker has made.
    pub fn made_by(&self, worker: u32) -> u64
        requires { worker < worker_count self.now.lots }
        ensures { result ≡ entries_of self.now.entries (length self.now.entries) worker }
    {
        self.book.made[worker as usize]
    }

    /// The cost of the state after all entries.
    pub fn kept_cost(&self) -> u128
        ensures { result ≡ kept_cost (opening_in self.now) self.now.entries
            (length self.now.entries) }
    {
        self.book.kept
    }

    /// How many entries come before the first state of least cost.
    pub fn best_at(&self) -> u64
        ensures value { result ≡ best_of (opening_in self.now) self.now.entries }
        ensures sound { IsJournal self.now }
    {
        self.book.best_at
    }

    /// The cost of that state.
    pub fn best_cost(&self) -> u128
        ensures { result ≡ cost_of_state (opening_in self.now) self.now.entries
            (best_of (opening_in self.now) self.now.entries) }
    {
        self.book.best_cost
    }

    /// The instance.
    pub fn instance(&self) -> &'a Instance
        ensures value { result.now ≡ self.now.instance }
        ensures sound { IsJournal self.now }
    {
        self.inst
    }

    /// Its topology.
    pub fn topology(&self) -> &'a Topology
        ensures value { result.now ≡ self.now.topology }
        ensures sound { IsJournal self.now }
    {
        self.topo
    }

    /// The lots of the workers.
    pub fn lots(&self) -> &'a Lots
        ensures value { result.now ≡ self.now.lots }
        ensures sound { IsJournal self.now }
    {
        self.lots
    }
}

/// How many proposals all workers together make.
#[tactic(auto, unfolding(crate::specs::Entries::proposal_count))]
fn proposals(lots: &Lots) -> u64
    ensures value { result ≡ proposal_count lots.now }
    ensures few { result ≤ 1000000 }
{
    let mut number = 0;
    for w in 0..lots.len() {
        number += lots.lot(w).budget;
    }
    number
}
