ghost use Rattle.std.specs.Prelude.{◌≡◌, ◌+◌, ◌*◌, ◌^◌, ◌<◌, ◌≤◌, ◌-◌, ◌==◌, List, length, IfOk};
ghost use Rattle.std.specs.Bool.{Decides};
ghost use Rattle.ra_base.specs.Sums.{one_if};
ghost use Rattle.ra_base.specs.declared.causes.Drawing.TheVariants.{One, Two};
ghost use Rattle.ra_draws.specs.Shown.{drawing_in};
ghost use Rattle.ra_model.specs.Numbers.{resource_count};
ghost use Rattle.ra_journal.specs.declared.entries.Entry.{Entry as Recorded};
ghost use Rattle.ra_journal.specs.Entries.{worker_count, budget, allowed};
ghost use Rattle.ra_journal.specs.Openings.{opening};
ghost use Rattle.ra_journal.specs.Refusing.{IsRefused};
ghost use Rattle.ra_topology.specs.Starts.{IsFeasibleStart};
ghost use Rattle.ra_worker.specs.Following.{IsJudged};
ghost use Rattle.ra_worker.specs.Replicas.{beginning, budget_at, IsPlanAt, IsNextPlan, followed, IsAt, AreNextOfSomeJournal, HasTaken, HasPassed};

use crate::following::follow;
use crate::proposals::Proposals;
use ra_base::{Assignment, NoMemory, Parts, Steps};
use ra_draws::Lots;
use ra_journal::{Batch, Entry, allowed, is_refused};
use ra_model::Instance;
use ra_moves::Plan;
use ra_plan::plan;
use ra_topology::Topology;
use ra_world::World;
use std::alloc::Global;
use std::marker::Model;
use std::sync::ledger::Ledger;

/// A worker's own data: the world, which it brings from one state of the journal to the next, and its proposals. It
/// knows only those entries of the journal that it was given in batches.
pub struct Replica<'a> {
    world: World<'a>,
    proposals: Proposals<'a>,
    place: u64,
}

/// Frees all lists in one call, so that the end of an owner is short to prove.
impl Drop for Replica<'_> {
    fn drop(self) {
        let Replica {
            world: _,
            proposals: _,
            place: _,
        } = self;
    }
}

impl<'a> Model for Replica<'a> {
    ghost use Rattle.std.specs.Coded.{codes};
    ghost use Rattle.ra_draws.specs.contracts.budgets.Lots as l;
    ghost use Rattle.ra_worker.specs.Replicas.{Progress, progress};

    ghost Value = { Progress };

    ghost coded = { Prim.hlevel (codes, l.the_row.coded) };

    ghost view = { λ r.
        progress r.world r.proposals.lots.now r.proposals.worker r.proposals.number r.place };
}

impl<'a> Replica<'a> {
    /// The replica of a worker at place 0, over a feasible initial assignment whose cost has these parts.
    pub fn make(
        alloc: Global,
        inst: &'a Instance,
        topo: &'a Topology,
        a0: &'a Assignment,
        start: Parts,
        lots: &'a Lots,
        worker: u32,
    ) -> Result<Replica<'a>, NoMemory>
        requires start { IsFeasibleStart inst.now.tables topo.now a0.now.items start }
        requires worker { worker < worker_count lots.now }
        ensures value { IfOk result (λ replica.
            replica ≡ beginning (opening inst.now.tables a0.now.items lots.now) worker) }
        ensures at { IfOk result (λ replica. (h : List Recorded) →
            IsAt (opening inst.now.tables a0.now.items lots.now) h replica) }
    {
        let world = World::make(alloc, inst, topo, a0, start)?;
        let proposals = Proposals::make(lots, worker);
        Ok(Replica {
            world,
            proposals,
            place: 0,
        })
    }

    /// How many entries the replica has taken in.
    pub fn place(&self) -> u64
        ensures { result ≡ self.now.place }
    {
        self.place
    }

    /// The number of its worker's next proposal, counted from 0.
    pub fn next(&self) -> u64
        ensures { result ≡ self.now.next }
    {
        self.proposals.number
    }

    /// How many proposals its worker has left.
    pub fn left(&self) -> u64
        ensures value { result ≡ budget_at self.now - self.now.next }
        ensures within { self.now.next ≤ budget_at self.now }
    {
        self.proposals.budget() - self.proposals.number
    }

    /// How many proposals its worker makes.
    pub fn budget(&self) -> u64
        ensures { result ≡ budget_at self.now }
    {
        self.proposals.budget()
    }

    /// The worker.
    pub fn worker(&self) -> u32
        ensures value { result ≡ self.now.worker }
        ensures exists { result < worker_count self.now.lots }
    {
        self.proposals.worker
    }

    /// The lots of the workers.
    pub fn lots(&self) -> &Lots
        ensures { result.now ≡ self.now.lots }
    {
        self.proposals.lots
    }

    /// Plans its worker's next proposal. The plan has the proposal's number, and how many entries the replica has taken
    /// in.
    pub fn offer<L: Ledger>(&self, steps: &mut Steps<L>) -> Plan
        requires left { self.now.next < budget_at self.now }
        ensures next { IsNextPlan self.now result }
        ensures counted_one { drawing_in self.now.lots ≡ One →
            steps.new ≤ steps.old + 24 * resource_count self.now.world.tables }
        ensures counted_two { drawing_in self.now.lots ≡ Two →
            steps.new ≤ steps.old + 384 * resource_count self.now.world.tables }
    {
        self.offer_at(self.proposals.number, steps)
    }

    /// Plans one of its worker's next 64 proposals, as if no move were done before it. The plan has the proposal's
    /// number, and how many entries the replica has taken in.
    pub fn offer_at<L: Ledger>(&self, number: u64, steps: &mut Steps<L>) -> Plan
        requires from { self.now.next ≤ number }
        requires near { number < self.now.next + 64 }
        requires left { number < budget_at self.now }
        ensures plan { IsPlanAt self.now number result }
        ensures counted_one { drawing_in self.now.lots ≡ One →
            steps.new ≤ steps.old + 24 * resource_count self.now.world.tables }
        ensures counted_two { drawing_in self.now.lots ≡ Two →
            steps.new ≤ steps.old + 384 * resource_count self.now.world.tables }
    {
        let lots = self.proposals.lots;
        let rise = allowed(lots, self.proposals.worker, number);
        plan(
            &self.world,
            self.proposals.words(number),
            lots.drawing(),
            rise,
            self.place,
            number,
            steps,
        )
    }

    /// Whether it is known at once that one of its worker's plans is refused wherever it is recorded, as long as its
    /// guards are untouched.
    pub fn is_refused(&self, plan: &Plan) -> bool
        requires { plan.now.k < budget_at self.now }
        ensures { Decides result (IsRefused self.now.world.tables
            (allowed self.now.lots self.now.worker plan.now.k) plan.now) }
    {
        is_refused(
            self.world.instance(),
            self.proposals.lots,
            self.proposals.worker,
            plan,
        )
    }

    /// Takes in the next entries of the journal. After that it represents the state after them. For each entry it reads
    /// the requirements of at most three processes.
    pub fn take_in<L: Ledger>(&mut self, batch: &Batch, steps: &mut Steps<L>)
        requires told { AreNextOfSomeJournal self.old batch.now }
        ensures taken { HasTaken self.old self.new batch.now (length batch.now) }
        ensures counted { steps.new ≤
            steps.old + length batch.now * (3 * resource_count self.old.world.tables) }
    {
        // What is known of every world.
        let _known = self.world.instance();
        for j in 0..batch.len() {
            let entry = batch.entry(j);
            self.take_entry(&entry, steps);
        }
    }

    /// Skips entries of the journal up to a place. They are refused, so they change nothing, and one of them is its
    /// worker's next proposal.
    pub fn pass_over(&mut self, to: u64)
        requires left { self.old.next < budget_at self.old }
        ensures { HasPassed self.old self.new to }
    {
        self.proposals.advance();
        self.place = to;
    }

    /// Takes in one entry, which was judged at the state that the replica represents.
    pub fn take_entry<L: Ledger>(&mut self, entry: &Entry, steps: &mut Steps<L>)
        requires judged { IsJudged self.old.world entry.now.mv.steps entry.now.verdict }
        requires left { entry.now.worker ≡ self.old.worker →
            self.old.next < budget_at self.old }
        requires few { self.old.place < 2 ^ 63 }
        ensures followed { self.new ≡ followed self.old entry.now }
        ensures counted { steps.new ≤ steps.old + 3 * resource_count self.old.world.tables }
    {
        follow(&mut self.world, &entry.mv, &entry.verdict, steps);
        count_own(&mut self.proposals, entry.worker);
        self.place += 1;
    }
}

/// Counts an entry, if its worker is the one of these proposals.
fn count_own(proposals: &mut Proposals<'_>, worker: u32)
    requires left { worker ≡ proposals.old.worker →
        proposals.old.number < budget proposals.old.lots.now proposals.old.worker }
    ensures lots { proposals.new.lots.now ≡ proposals.old.lots.now }
    ensures worker { proposals.new.worker ≡ proposals.old.worker }
    ensures number { proposals.new.number ≡
        proposals.old.number + one_if (worker == proposals.old.worker) }
{
    if worker == proposals.worker {
        proposals.advance();
    }
}
