ghost use Rattle.std.specs.Prelude.{◌≡◌, ℕ, ◌<◌, ◌≤◌, length, IfOk};
ghost use Rattle.ra_draws.specs.Shown.{drawing_in};
ghost use Rattle.ra_model.specs.Numbers.{process_count, machine_count};
ghost use Rattle.ra_model.specs.Assignments.{IsAssignment};
ghost use Rattle.ra_moves.specs.Judging.{judge};
ghost use Rattle.ra_moves.specs.Options.{plan_of};
ghost use Rattle.ra_moves.specs.Steps.{StandsAt, from_in, to_in};
ghost use Rattle.ra_journal.specs.Entries.{words, allowed};
ghost use Rattle.ra_journal.specs.Openings.{opening};
ghost use Rattle.ra_journal.specs.States.{state, state_at};
ghost use Rattle.plain.specs.Benches.{IsBenchFor, CanReplay, CanTry};

use crate::places::entry;
use crate::proposals::{allowed_of, words_of};
use crate::{judge_plainly, plan_plainly};
use ra_base::{Assignment, Fixed, NoMemory};
use ra_check::{Scratch, parts};
use ra_draws::Lots;
use ra_journal::{Entry, advance};
use ra_model::Instance;
use ra_moves::{Move, Verdict};
use std::alloc::Global;

/// What planning and judging work on: a state of the journal, a second copy of it, and the tables of the checker.
#[derive(Drop)]
pub(crate) struct Bench {
    pub(crate) state: Assignment,
    pub(crate) other: Assignment,
    pub(crate) scratch: Scratch,
}

impl Bench {
    /// A bench for an instance.
    pub(crate) fn make(alloc: Global, inst: &Instance) -> Result<Bench, NoMemory>
        ensures { IfOk result (λ b. IsBenchFor b inst.now.tables) }
    {
        let processes = inst.processes() as usize;
        Ok(Bench {
            state: Fixed::make(alloc, processes)?,
            other: Fixed::make(alloc, processes)?,
            scratch: Scratch::make(alloc, inst)?,
        })
    }

    /// The plan for the proposal of an entry, at the state of the place that the entry names.
    pub(crate) fn plan(
        &mut self,
        inst: &Instance,
        a0: &Assignment,
        lots: &Lots,
        entries: &[Entry],
        e: &Entry,
    ) -> Move
        requires start { IsAssignment inst.now.tables a0.now.items }
        requires made { IsBenchFor self.old inst.now.tables }
        requires can { CanTry (opening inst.now.tables a0.now.items lots.now) entries.now e.now.q
            e.now }
        ensures planned { result ≡ plan_of
            (state_at (opening inst.now.tables a0.now.items lots.now) entries.now e.now.q)
            (words lots.now e.now.worker e.now.k) (drawing_in lots.now)
            (allowed lots.now e.now.worker e.now.k) }
        ensures kept { IsBenchFor self.new inst.now.tables }
    {
        replay(&mut self.state, a0, entries, e.q as usize);
        copy_to(&mut self.other, &self.state);
        let cost = parts(inst, a0, &self.state, &mut self.scratch).total;
        let words = words_of(lots, e.worker, e.k);
        let allowed = allowed_of(lots, e.worker, e.k);
        let planned = plan_plainly(
            inst,
            a0,
            &self.state,
            &mut self.other,
            &mut self.scratch,
            cost,
            &words,
            lots.drawing(),
            allowed,
        );
        planned.mv
    }

    /// The verdict on an entry's move at the state of place `j`.
    pub(crate) fn judge(
        &mut self,
        inst: &Instance,
        a0: &Assignment,
        lots: &Lots,
        entries: &[Entry],
        j: usize,
        e: &Entry,
    ) -> Verdict
        requires start { IsAssignment inst.now.tables a0.now.items }
        requires made { IsBenchFor self.old inst.now.tables }
        requires can { CanTry (opening inst.now.tables a0.now.items lots.now) entries.now j e.now }
        requires stands { StandsAt from_in e.now.mv.steps (state a0.now.items entries.now j) }
        requires reaches { (n : ℕ) → n < length e.now.mv.steps →
            to_in e.now.mv.steps n < machine_count inst.now.tables }
        ensures judged { result ≡ judge
            (state_at (opening inst.now.tables a0.now.items lots.now) entries.now j)
            e.now.mv.steps (allowed lots.now e.now.worker e.now.k) }
        ensures kept { IsBenchFor self.new inst.now.tables }
    {
        replay(&mut self.state, a0, entries, j);
        let cost = parts(inst, a0, &self.state, &mut self.scratch).total;
        let allowed = allowed_of(lots, e.worker, e.k);
        judge_plainly(
            inst,
            a0,
            &mut self.state,
            &mut self.scratch,
            cost,
            &e.mv,
            allowed,
        )
    }
}

/// Replays a journal: makes an assignment the state at place `n`.
fn replay(a: &mut Assignment, a0: &Assignment, entries: &[Entry], n: usize)
    requires room { length a0.now.items ≤ a.old.room }
    requires there { n ≤ length entries.now }
    requires can { CanReplay a0.now.items entries.now n }
    ensures items { a.new.items ≡ state a0.now.items entries.now n }
    ensures room { a.new.room ≡ a.old.room }
{
    copy_to(a, a0);
    for j in 0..n {
        let e = entry(entries, j);
        advance(a, &e.mv, &e.verdict);
    }
}

/// Overwrites one assignment with another.
fn copy_to(to: &mut Assignment, from: &Assignment)
    requires { length from.now.items ≤ to.old.room }
    ensures items { to.new.items ≡ from.now.items }
    ensures room { to.new.room ≡ to.old.room }
{
    to.clear();
    to.extend_from_slice(from.as_slice());
}
