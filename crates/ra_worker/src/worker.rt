ghost use Rattle.std.specs.Prelude.{◌≡◌, ◌+◌, ◌*◌, ◌<◌, ◌≤◌, true, false, length, IfOk};
ghost use mathlib.Core.List.{IsPrefix};
ghost use Rattle.ra_turn.specs.Passes.{seen_by, notes_made_by};
ghost use Rattle.ra_worker.specs.Replicas.{budget_at, IsPlanAt, IsNextPlan, AreNextOfSomeJournal, HasTaken, HasPassed};
ghost use Rattle.ra_worker.specs.Ahead.{AreAhead, PlansStand};
ghost use Rattle.ra_worker.specs.Working.{IsAtWork, IsQuiet, HasNextBatch, HasOwn, HasTurnsToSpare, IsAtOrAfterOwn, HasMovedOn, HasTurned, shown_in};

use crate::Replica;
use crate::ahead::Ahead;
use ra_base::{NoMemory, Steps};
use ra_journal::{Batch, Reply};
use ra_moves::Plan;
use ra_shared::{Shared, WorkerPass};
use std::alloc::Global;
use std::marker::Brand;
use std::sync::Wait;
use std::sync::ledger::{Blank, Ledger};

/// One of the workers of a run: its replica, the pass with which it takes turns at the journal, and room for the
/// entries that it copies there.
pub struct Worker<'a> {
    pub(crate) replica: Replica<'a>,
    pub(crate) pass: WorkerPass<'a>,
    pub(crate) batch: Batch,
}

/// Frees all parts in one call, so that the end of an owner is short to prove.
impl Drop for Worker<'_> {
    fn drop(self) {
        let Worker {
            replica: _,
            pass: _,
            batch: _,
        } = self;
    }
}

impl<'a> Worker<'a> {
    /// The worker that has this replica and this pass. Its memory is room for 1,024 entries.
    pub fn make(
        alloc: Global,
        replica: Replica<'a>,
        pass: WorkerPass<'a>,
    ) -> Result<Worker<'a>, NoMemory>
        ensures replica { IfOk result (λ worker. worker.replica ≡ replica.entry) }
        ensures pass { IfOk result (λ worker. worker.pass ≡ pass.entry) }
    {
        let batch = Batch::make(alloc)?;
        Ok(Worker {
            replica,
            pass,
            batch,
        })
    }

    /// Its pass, after it has run.
    pub fn into_pass(self) -> WorkerPass<'a>
        ensures { result ≡ self.entry.pass }
    {
        let Worker {
            replica: _,
            pass,
            batch: _,
        } = self;
        pass
    }

    /// Whether some of its budget is left.
    pub(crate) fn has_left(&self) -> bool
        ensures left { result ≡ true → self.now.replica.next < budget_at self.now.replica }
        ensures used { result ≡ false → self.now.replica.next ≡ budget_at self.now.replica }
    {
        self.replica.left() > 0
    }

    /// Plans its next proposal.
    pub(crate) fn plan_next(&self) -> Plan
        requires { self.now.replica.next < budget_at self.now.replica }
        ensures { IsNextPlan self.now.replica result }
    {
        self.plan_at(self.replica.next())
    }

    /// Plans ahead after the plan of its next proposal: as many plans as this round has, up to the first one that may
    /// be done.
    pub(crate) fn plan_ahead(&self, first: &Plan, ahead: &mut Ahead)
        requires left { self.now.replica.next < budget_at self.now.replica }
        requires first { IsNextPlan self.now.replica first.now }
        ensures { PlansStand self.now.replica self.now.replica.next first.now ahead.new }
    {
        let most = ahead.begin();
        if most > 0 && self.replica.is_refused(first) {
            self.plan_more(most.min(self.replica.left() - 1), ahead);
        }
    }

    /// Plans a number of proposals after its next one, up to the first one that may be done.
    fn plan_more(&self, more: u64, ahead: &mut Ahead)
        requires few { more ≤ 63 }
        requires left { self.now.replica.next + more < budget_at self.now.replica }
        requires none { ahead.old.made ≡ 0 }
        ensures at { ahead.new.at ≡ ahead.old.at }
        ensures ahead { AreAhead self.now.replica (self.now.replica.next + 1) ahead.new }
    {
        let _fits = self.replica.budget();
        let first = self.replica.next() + 1;
        for j in 0..more {
            let plan = self.plan_at(first + j);
            let refused = self.replica.is_refused(&plan);
            ahead.add(plan);
            if !refused {
                return;
            }
        }
    }

    /// Plans one of its next 64 proposals.
    fn plan_at(&self, number: u64) -> Plan
        requires from { self.now.replica.next ≤ number }
        requires near { number < self.now.replica.next + 64 }
        requires left { number < budget_at self.now.replica }
        ensures { IsPlanAt self.now.replica number result }
    {
        offer_at::<Brand>(&self.replica, number, Blank::new(1))
    }

    /// Hands in a plan of its next proposal, and tells whether the turn was quiet. If the commit copied nothing, all
    /// that its pass has seen and its replica hasn't taken in is refused, so it skips that. Otherwise it takes in what
    /// was copied, and catches up past the entry that the answer shows: its own, or the one that made the plan stale.
    pub(crate) fn hand_in<R: Wait>(&mut self, rt: &R, shared: &Shared<'a>, plan: &Plan) -> bool
        requires work { IsAtWork shared.now self.old }
        requires own { HasOwn self.old }
        requires plan { IsNextPlan self.old.replica plan.now }
        requires left { self.old.replica.next < budget_at self.old.replica }
        requires turns { HasTurnsToSpare shared.now 1 self.old }
        ensures work { IsAtWork shared.now self.new }
        ensures own { HasOwn self.new }
        ensures moved { HasMovedOn self.old self.new }
        ensures quiet { result ≡ true →
            HasPassed self.old.replica self.new.replica self.new.replica.place }
    {
        let reply = shared.commit_and_copy(rt, &mut self.pass, plan, &mut self.batch);
        let copied = self.batch.len();
        if copied == 0 {
            self.pass_over(shared);
            true
        } else {
            self.take_copied(shared);
            self.catch_up_past(rt, shared, shown_by(&reply));
            false
        }
    }

    /// Skips all that its pass has seen: the part that its replica hasn't taken in is refused.
    fn pass_over(&mut self, _shared: &Shared<'a>)
        requires work { IsAtWork _shared.now self.old }
        requires left { self.old.replica.next < budget_at self.old.replica }
        requires quiet { IsQuiet self.old }
        ensures work { IsAtWork _shared.now self.new }
        ensures pass { self.new.pass ≡ self.old.pass }
        ensures passed { HasPassed self.old.replica self.new.replica
            (length (seen_by self.old.pass)) }
    {
        let seen = self.pass.seen();
        self.replica.pass_over(seen);
    }

    /// Takes in the entries that a turn copied into its batch. At least one of them is new to it.
    fn take_copied(&mut self, _shared: &Shared<'a>)
        requires work { IsAtWork _shared.now self.old }
        requires next { HasNextBatch self.old }
        requires more { self.old.replica.place < length (seen_by self.old.pass) }
        ensures work { IsAtWork _shared.now self.new }
        ensures pass { self.new.pass ≡ self.old.pass }
        ensures place { self.old.replica.place < self.new.replica.place }
    {
        take_in::<Brand>(&mut self.replica, &self.batch, Blank::new(1));
    }

    /// Catches up past an entry that it has seen, if no entry of its own comes after that place.
    fn catch_up_past<R: Wait>(&mut self, rt: &R, shared: &Shared<'a>, shown: u64)
        requires work { IsAtWork shared.now self.old }
        requires behind { IsAtOrAfterOwn shown self.old }
        requires turns { HasTurnsToSpare shared.now 0 self.old }
        ensures work { IsAtWork shared.now self.new }
        ensures own { HasOwn self.new }
        ensures past { shown < self.new.replica.place }
        ensures turned { HasTurned self.old self.new }
    {
        'behind: while self.replica.place() <= shown {
            self.catch_up(rt, shared);
        }
    }

    /// Takes in what comes next in the journal, at most 1,024 entries. At least one of them is new to it.
    fn catch_up<R: Wait>(&mut self, rt: &R, shared: &Shared<'a>)
        requires work { IsAtWork shared.now self.old }
        requires left { 0 < self.old.pass.left }
        requires more { self.old.replica.place < length (seen_by self.old.pass) }
        ensures work { IsAtWork shared.now self.new }
        ensures seen { IsPrefix (seen_by self.old.pass) (seen_by self.new.pass) }
        ensures made { notes_made_by self.new.pass ≡ notes_made_by self.old.pass }
        ensures place { self.old.replica.place < self.new.replica.place }
        ensures number { self.new.pass.number ≡ self.old.pass.number }
        ensures turn { self.new.pass.left + 1 ≡ self.old.pass.left }
    {
        let place = self.replica.place();
        shared.catch_up(rt, &mut self.pass, place, &mut self.batch);
        self.take_copied(shared);
    }
}

/// The place of the entry that an answer shows.
#[tactic(auto, unfolding(crate::specs::Working::shown_in))]
fn shown_by(reply: &Reply) -> u64
    ensures { result ≡ shown_in reply.now }
{
    match reply {
        Reply::Recorded { at, .. } => *at,
        Reply::Stale { at, .. } => *at,
    }
}

/// Plans one of a replica's next 64 proposals.
fn offer_at<L: Ledger>(replica: &Replica<'_>, number: u64, blank: Blank) -> Plan
    requires name { blank.name ≡ L.name }
    requires parts { blank.parts ≡ L.parts }
    requires some { 0 < blank.parts }
    requires from { replica.now.next ≤ number }
    requires near { number < replica.now.next + 64 }
    requires left { number < budget_at replica.now }
    ensures { IsPlanAt replica.now number result }
{
    let mut steps = Steps::<L>::make(blank);
    replica.offer_at(number, &mut steps)
}

/// Takes the entries of a batch into a replica.
fn take_in<L: Ledger>(replica: &mut Replica<'_>, batch: &Batch, blank: Blank)
    requires name { blank.name ≡ L.name }
    requires parts { blank.parts ≡ L.parts }
    requires some { 0 < blank.parts }
    requires told { AreNextOfSomeJournal replica.old batch.now }
    ensures { HasTaken replica.old replica.new batch.now (length batch.now) }
{
    let mut steps = Steps::<L>::make(blank);
    replica.take_in(batch, &mut steps);
}
