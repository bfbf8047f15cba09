ghost use Rattle.std.specs.Prelude.{◌≡◌, ◌≢◌, ◌≤◌, ◌↔◌, ℕ, true, false, List, None, [], ◌++◌, length, IfOk};
ghost use Rattle.ra_topology.specs.Starts.{IsFeasibleStart};
ghost use Rattle.ra_journal.specs.declared.entries.Entry.{Entry as Recorded};
ghost use Rattle.ra_journal.specs.Committing.{next_entry};
ghost use Rattle.ra_journal.specs.Journals.{history, opening_in};
ghost use Rattle.ra_report.specs.JournalTexts.{entry_line};
ghost use Rattle.ra_verify.specs.Checking.{checker_entries, IsOpen, MayFollow, HasTakenEntry, HasTakenLine, IsSameRun, MayStand, is_recorded};

use crate::checker::Checker;
use ra_base::{Assignment, NoMemory, Parts};
use ra_draws::Lots;
use ra_journal::{Journal, Reply};
use ra_model::Instance;
use ra_report::{Front, LONGEST_FRONT, LONGEST_LINE, is_entry_line, read_front};
use ra_topology::Topology;
use ra_worker::{CoreReply, make_replicas, take_turn_at};
use std::alloc::Global;

impl<'a> Checker<'a> {
    /// A checker that has read no entry yet.
    pub(crate) fn make(
        alloc: Global,
        inst: &'a Instance,
        topo: &'a Topology,
        a0: &'a Assignment,
        start: Parts,
        lots: &'a Lots,
    ) -> Result<Checker<'a>, NoMemory>
        requires { IsFeasibleStart inst.now.tables topo.now a0.now.items start }
        ensures journal { IfOk result (λ c. c.journal ≡
            history inst.now topo.now a0.now lots.now []) }
        ensures ready { IfOk result (λ c. IsOpen c) }
    {
        let journal = Journal::make(alloc, inst, topo, a0, start, lots)?;
        let replicas = make_replicas(alloc, inst, topo, a0, start, lots)?;
        Ok(Checker { journal, replicas })
    }

    /// Takes in the entry that this line of a report tells, if it may follow, and says whether it may. `line` may be
    /// the front of a line that is too long.
    pub(crate) fn take_line(&mut self, line: &[u8]) -> bool
        requires ready { IsOpen self.old }
        ensures right { result ≡ true → HasTakenLine self.old self.new line.now }
        ensures wrong { result ≡ false → (e : Recorded) → MayFollow self.old e
            → line.now ≢ entry_line (length (checker_entries self.old)) e }
        ensures short { (e : Recorded) (rest : List ℕ) → MayFollow self.old e
            → LONGEST_FRONT ≤ length line.now
            → line.now ++ rest ≡ entry_line (length (checker_entries self.old)) e
            → length (entry_line (length (checker_entries self.old)) e) ≤ LONGEST_LINE }
        ensures same { IsSameRun self.old self.new }
    {
        match read_front(line) {
            Some(front) => self.take_fronted(line, &front),
            None => false,
        }
    }

    /// Takes in the entry that this line of a report tells, if it may follow, after the line's worker and the place of
    /// its plan were read, and says whether it may.
    fn take_fronted(&mut self, line: &[u8], front: &Front) -> bool
        requires ready { IsOpen self.old }
        ensures right { result ≡ true → HasTakenLine self.old self.new line.now }
        ensures wrong { result ≡ false → (e : Recorded) → MayFollow self.old e
            → e.worker ≡ front.now.worker → e.q ≡ front.now.q
            → line.now ≢ entry_line (length (checker_entries self.old)) e }
        ensures short { (e : Recorded) → MayFollow self.old e
            → e.worker ≡ front.now.worker → e.q ≡ front.now.q
            → length (entry_line (length (checker_entries self.old)) e) ≤ LONGEST_LINE }
        ensures same { IsSameRun self.old self.new }
    {
        let at = self.journal.len();
        if !self.take(front.worker, front.q) {
            return false;
        }
        let entry = self.journal.entry(at);
        is_entry_line(line, at, &entry)
    }

    /// Takes in the next entry of a worker, planned at a place, if it may follow, and says whether it may.
    fn take(&mut self, worker: u32, q: u64) -> bool
        requires ready { IsOpen self.old }
        ensures right { result ≡ true → HasTakenEntry self.old self.new
            (next_entry (opening_in self.old.journal) (checker_entries self.old) worker q) }
        ensures wrong { result ≡ false → (e : Recorded) → MayFollow self.old e
            → e.worker ≡ worker → e.q ≡ q → ⊥ }
        ensures same { IsSameRun self.old self.new }
    {
        if !self.may_stand(worker, q) {
            return false;
        }
        let reply = take_turn_at(&mut self.journal, &mut self.replicas, worker, q);
        is_recorded(&reply)
    }

    /// Whether a worker exists and its replica hasn't gone past a place of the journal.
    fn may_stand(&self, worker: u32, q: u64) -> bool
        ensures { (result ≡ true) ↔ MayStand self.now worker q }
    {
        if worker >= self.journal.lots().len() || q > self.journal.len() {
            return false;
        }
        let replica = &self.replicas[worker as usize];
        replica.place() <= q
    }
}

/// Whether a proposal was recorded.
#[tactic(auto, unfolding(crate::specs::Checking::is_recorded))]
fn is_recorded(reply: &CoreReply) -> bool
    ensures { result ≡ is_recorded reply.now }
{
    match reply {
        CoreReply::Answer {
            reply: Reply::Recorded { .. },
        } => true,
        _ => false,
    }
}
