ghost use Rattle.std.specs.Prelude.{◌≡◌};
ghost use Rattle.ra_turn.specs.Passes.{opening_of, passes_of, guards_of};
ghost use Rattle.ra_journal.specs.Entries.{worker_count};
ghost use Rattle.ra_shared.specs.Books.{opened_by, IsStartOf};
ghost use Rattle.ra_shared.specs.Numbers.{guard_count};

use crate::books::{Book, WorkerPass};
use crate::copying::{Copying, Nothing};
use crate::numbering::{number_of, then_version};
use ra_base::NoMemory;
use ra_draws::Lots;
use ra_guards::{WriteGuards, writes};
use ra_journal::{Batch, Journal, Reply, is_refused};
use ra_model::Instance;
use ra_moves::Plan;
use ra_topology::Topology;
use ra_turn::{Hold, Turn};
use std::alloc::Global;
use std::sync::Wait;

/// How many turns each worker has. A worker needs at most its own budget and twice all budgets together.
const TURNS: u64 = 4000000;

/// The journal of a run, shared by several workers. Each takes turns at it by a pass of its own.
#[derive(Drop)]
pub struct Shared<'a> {
    turn: Turn<Book<'a>>,
    inst: &'a Instance,
    topo: &'a Topology,
    lots: &'a Lots,
    pub ghost instance: { inst.now ≡ (opening_of opened_by turn).inst },
    pub ghost allotted: { lots.now ≡ (opening_of opened_by turn).lots },
    pub ghost started: { IsStartOf (opening_of opened_by turn) },
    pub ghost guards: { guards_of turn ≡ guard_count inst.now.tables },
    pub ghost workers: { passes_of turn ≡ worker_count (opening_of opened_by turn).lots },
}

impl<'a> Shared<'a> {
    ghost use Rattle.std.specs.Prelude.{◌≡◌, ◌-◌, ◌<◌, ◌≤◌, [], length, min, option_copied, All, IfOk, IfSome, IfNone};
    ghost use mathlib.Core.List.{IsPrefix};
    ghost use Rattle.ra_guards.specs.Order.{AreWrites};
    ghost use Rattle.ra_turn.specs.Passes.{seen_by, notes_made_by, grips_of, EachAt, IsPartOf};
    ghost use Rattle.ra_journal.specs.Batches.{batch_from};
    ghost use Rattle.ra_journal.specs.Entries.{worker_count};
    ghost use Rattle.ra_journal.specs.Journals.{IsJournal};
    ghost use Rattle.ra_shared.specs.Books.{opening_of_journal};
    ghost use Rattle.ra_shared.specs.Copies.{CopiesUnlessQuiet};
    ghost use Rattle.ra_shared.specs.Holding.{HoldsFirst, PassMayHandIn, IsHandedIn, KnowsGuards, IsHeldUp};
    ghost use Rattle.ra_shared.specs.Shares.{start_of, turns_left, ShutsOut, HasTakenTurn, IsAtRest, IsNew, IsLast, PassMayCommit, HasCommitted};

    /// Shares a journal without entries, and gives each worker's pass, in order. At `Err` the journal was dropped.
    pub fn make(
        alloc: Global,
        journal: Journal<'a>,
    ) -> Result<(Shared<'a>, Vec<WorkerPass<'a>>), NoMemory>
        requires { journal.entries ≡ [] }
        ensures opened { IfOk result (λ r. start_of r.0 ≡ opening_of_journal journal.entry) }
        ensures count { IfOk result (λ r. length r.1.items ≡ worker_count journal.entry.lots) }
        ensures passes { IfOk result (λ r. EachAt (IsNew r.0) r.1.items) }
    {
        let inst = journal.instance();
        let topo = journal.topology();
        let lots = journal.lots();
        let guards = inst.machines() + inst.services();
        let journal = Box::new(alloc, journal)?;
        let (turn, passes) = Turn::make(alloc, Book { journal }, lots.len(), TURNS, guards)?;
        Ok((
            Shared {
                turn,
                inst,
                topo,
                lots,
            },
            passes,
        ))
    }

    /// Takes a turn to read the journal. It fills the batch with the entries from a place on, as many as it has room
    /// for, and gives their number.
    pub fn catch_up<R: Wait>(
        &self,
        rt: &R,
        pass: &mut WorkerPass<'a>,
        at: u64,
        batch: &mut Batch,
    ) -> u64
        requires rest { IsAtRest self.now pass.old }
        requires left { 0 < turns_left pass.old }
        requires place { at ≤ length (seen_by pass.old) }
        ensures rest { IsAtRest self.now pass.new }
        ensures turn { HasTakenTurn pass.old pass.new }
        ensures seen { IsPrefix (seen_by pass.old) (seen_by pass.new) }
        ensures made { notes_made_by pass.new ≡ notes_made_by pass.old }
        ensures batch { batch.new ≡ batch_from (seen_by pass.new) at }
        ensures number { result ≡ min 1024 (length (seen_by pass.new) - at) }
    {
        let held = self.turn.take(rt, pass);
        let number = held.value.journal.copy_from(at, batch);
        self.turn.give(pass, held);
        number
    }

    /// Hands in a plan in one turn: records the worker's next proposal, judged at the state after all entries, unless a
    /// guard of its move was touched since it was planned. The worker locks the write guards of the move for that time.
    /// It locks none if the plan is known to be refused wherever it is recorded, since its entry touches nothing.
    pub fn commit<R: Wait>(&self, rt: &R, pass: &mut WorkerPass<'a>, plan: &Plan) -> Reply
        requires { PassMayCommit self.now plan.now pass.old }
        ensures { HasCommitted self.now plan.now pass.old pass.new result }
    {
        self.hand_in(rt, pass, plan, &mut Nothing)
    }

    /// Hands in a plan as `commit` does, and in that turn fills the batch with the entries from the plan's place on.
    /// The batch is empty if all of these are refused: they change nothing, so the worker may skip them.
    pub fn commit_and_copy<R: Wait>(
        &self,
        rt: &R,
        pass: &mut WorkerPass<'a>,
        plan: &Plan,
        batch: &mut Batch,
    ) -> Reply
        requires { PassMayCommit self.now plan.now pass.old }
        ensures done { HasCommitted self.now plan.now pass.old pass.new result }
        ensures batch { CopiesUnlessQuiet plan.now.q (seen_by pass.new) batch.new }
    {
        self.hand_in(rt, pass, plan, batch)
    }

    /// Hands a plan in, and copies for the worker in the same turn.
    fn hand_in<R: Wait, C: Copying>(
        &self,
        rt: &R,
        pass: &mut WorkerPass<'a>,
        plan: &Plan,
        copy: &mut C,
    ) -> Reply
        requires { PassMayCommit self.now plan.now pass.old }
        ensures done { HasCommitted self.now plan.now pass.old pass.new result }
        ensures copied { C.copied copy.new (seen_by pass.new) plan.now.q }
    {
        if is_refused(self.inst, self.lots, pass.number(), plan) {
            return self.commit_once(rt, pass, plan, None, copy);
        }
        let guards = writes(self.topo, self.inst, &plan.mv);
        match self.commit_from(rt, pass, plan, &guards, 0, copy) {
            Some(reply) => reply,
            None => self.commit_once(rt, pass, plan, None, copy),
        }
    }

    /// Locks the write guards from place k on, hands the plan in, and unlocks these guards. `None` if one of them is
    /// newer than the plan; then it has unlocked all that it locked, and the plan is not handed in.
    fn commit_from<R: Wait, C: Copying>(
        &self,
        rt: &R,
        pass: &mut WorkerPass<'a>,
        plan: &Plan,
        guards: &WriteGuards,
        k: u32,
        copy: &mut C,
    ) -> Option<Reply>
        requires may { PassMayHandIn self.now plan.now pass.old }
        requires guards { AreWrites (start_of self.now).inst.tables plan.now.mv.steps guards.now }
        requires held { HoldsFirst (start_of self.now).inst.tables guards.now plan.now.q k
            (grips_of pass.old) }
        requires place { k ≤ length guards.now }
        ensures some { IfSome result (IsHandedIn self.now plan.now pass.old pass.new) }
        ensures shut { IfSome result (λ _. ShutsOut self.now pass.new) }
        ensures copied { IfSome result (λ _. C.copied copy.new (seen_by pass.new) plan.now.q) }
        ensures none { IfNone result (IsHeldUp self.now plan.now pass.old pass.new) }
    {
        if k == guards.len() {
            return Some(self.commit_once(rt, pass, plan, Some(guards), copy));
        }
        let guard = number_of(self.inst, guards.guard(k));
        let Hold::Held { version } = self.turn.hold(rt, pass, guard, plan.q) else {
            return None;
        };
        let reply = self.commit_from(rt, pass, plan, guards, k + 1, copy);
        let now = then_version(&reply, version, pass.seen());
        self.turn.release(pass, guard, now);
        reply
    }

    /// Hands the plan in, in one turn, and copies for the worker in this turn. The guards are the write guards of its
    /// move, if the pass has locked them.
    fn commit_once<R: Wait, C: Copying>(
        &self,
        rt: &R,
        pass: &mut WorkerPass<'a>,
        plan: &Plan,
        guards: Option<&WriteGuards>,
        copy: &mut C,
    ) -> Reply
        requires may { PassMayHandIn self.now plan.now pass.old }
        requires guards { KnowsGuards (start_of self.now) plan.now pass.old
            (option_copied guards) }
        ensures done { IsHandedIn self.now plan.now pass.old pass.new result }
        ensures shut { ShutsOut self.now pass.new }
        ensures copied { C.copied copy.new (seen_by pass.new) plan.now.q }
    {
        let worker = pass.number();
        let mut held = self.turn.take(rt, pass);
        let book = &mut held.value;
        let reply = book.journal.commit_with(worker, plan, guards);
        copy.copy(&held.value.journal, plan.q);
        self.turn.give(pass, held);
        reply
    }

    /// Ends the sharing, and gives the journal. It takes all passes, in order.
    pub fn close(self, passes: Vec<WorkerPass<'a>>) -> Journal<'a>
        requires count { length passes.items ≡ worker_count (start_of self).lots }
        requires passes { EachAt (IsLast self) passes.items }
        ensures opened { opening_of_journal result ≡ start_of self.entry }
        ensures passes { All (IsPartOf result.entries) passes.entry.items }
        ensures sound { IsJournal result }
    {
        let Shared {
            turn,
            inst: _,
            topo: _,
            lots: _,
        } = self;
        let Book { journal } = turn.close(passes);
        Box::into_inner(journal)
    }
}
