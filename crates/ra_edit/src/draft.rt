ghost use Rattle.std.specs.Prelude.{◌≡◌, ◌<◌, length, None, IfOk, OnOk, OnErr};
ghost use Rattle.ra_model.specs.Assignments.{IsAssignment};
ghost use Rattle.ra_model.specs.Broken.{first_broken};
ghost use Rattle.ra_model.specs.Costs.{parts_of};
ghost use Rattle.ra_model.specs.Feasible.{Feasible};
ghost use Rattle.ra_model.specs.Limits.{Small, WellFormed};
ghost use Rattle.ra_topology.specs.Fits.{IsTopologyOf};
ghost use Rattle.ra_edit_read.specs.EditLists.{AreEditsFor};
ghost use Rattle.ra_edit.specs.Drafts.{draft_of, instance_of};
ghost use Rattle.ra_edit.specs.Keeping.{IsSoundDraft};
ghost use Rattle.ra_edit.specs.Leaving.{left_in};
ghost use Rattle.ra_edit.specs.Replies.{barred, edit_answer, after_edit};
ghost use Rattle.ra_edit.specs.SameLists.{AreSameLists};

use crate::edited::{Edited, Left};
use crate::keeping::Kept;
use crate::lists::{Lists, MOST_PROCESSES};
use crate::loads::Loads;
use crate::members::Members;
use crate::moved::{follow_moved, moved_counts};
use crate::replies::EditReply;
use crate::scanning::small;
use crate::verdicts::{Judged, judge};
use ra_base::{Assignment, NoMemory, Parts};
use ra_edit_read::{Edit, Edits};
use ra_model::Instance;
use ra_topology::Topology;
use std::alloc::Global;
use std::marker::Model;

/// An instance whose processes are edited, with the list of their initial machines and the list of their machines now.
/// The second list is feasible at all times.
#[derive(Drop)]
pub struct Draft<'a> {
    kept: Kept<'a>,
}

impl<'a> Model for Draft<'a> {
    ghost use Rattle.ra_edit.specs.Drafts.{Drafted};
    ghost use Rattle.ra_edit.specs.Loads.{IsHeld, draft_in};

    ghost Value = { Drafted };

    ghost view = { λ d. draft_in d.kept };

    ghost invariant = { λ d. IsHeld d.kept };
}

impl<'a> Draft<'a> {
    /// The draft of a feasible current list, whose cost has these parts. It borrows the instance and its topology. The
    /// time grows with the processes times the resources, or times the logarithm of their number if that is more, with
    /// the machines times the resources and with the services. The draft keeps two numbers for each machine and
    /// resource, two for each service, at most three counts and a number for each process, and twice the room of the
    /// lists of the most processes that an instance may have, of which `leave` and `finish` fill the second.
    pub fn make(
        alloc: Global,
        inst: &'a Instance,
        topo: &'a Topology,
        a0: &Assignment,
        a: &Assignment,
        start: Parts,
    ) -> Result<Draft<'a>, NoMemory>
        requires topology { IsTopologyOf topo.now inst.now.tables }
        requires a0_fits { IsAssignment inst.now.tables a0.now.items }
        requires fits { IsAssignment inst.now.tables a.now.items }
        requires unbroken { first_broken inst.now.tables a0.now.items a.now.items ≡ None }
        requires parts { start ≡ parts_of inst.now.tables a0.now.items a.now.items }
        ensures { IfOk result (λ d. d ≡ draft_of inst.now.tables a0.now.items a.now.items) }
    {
        let lists = Lists::of(alloc, inst, a0, a)?;
        let loads = Loads::of(alloc, inst, &lists)?;
        let members = Members::of(alloc, inst, &lists)?;
        let moved = moved_counts(alloc, inst, &lists)?;
        Ok(Draft {
            kept: Kept {
                inst,
                topo,
                lists,
                loads,
                members,
                moved,
                parts: start,
            },
        })
    }

    /// Does edit number `i`, unless something bars it. An edit that isn't done changes nothing.
    ///
    /// # Errors
    ///
    /// The system refused memory. Then nothing has changed.
    pub fn edit(&mut self, alloc: Global, edits: &Edits, i: u64) -> Result<EditReply, NoMemory>
        requires edit { i < length edits.now.edits }
        requires fits { AreEditsFor self.old.origin edits.now }
        ensures reply { IfOk result (λ reply. reply ≡ edit_answer self.old edits.now i) }
        ensures after { OnOk result (self.new ≡ after_edit self.old edits.now i) }
        ensures memory { OnErr result (self.new ≡ self.old) }
        ensures origin { self.new.origin ≡ self.old.origin }
    {
        let edit = edits.edit(i);
        if let Some(reply) = barred(&self.kept.lists, edit) {
            return Ok(reply);
        }
        let asked = edits.requirements_of(i);
        match judge(alloc, &self.kept, edit, asked)? {
            Judged::Refused(cause) => Ok(EditReply::Broken { cause }),
            Judged::Fine(parts) => {
                let kept = &mut self.kept;
                kept.members.follow(kept.inst, &kept.lists, edit)?;
                kept.loads.follow(kept.inst, &kept.lists, edit, asked);
                follow_moved(&mut kept.moved, kept.inst, &kept.lists, edit);
                kept.lists.edit(kept.inst, edit, asked);
                kept.parts = parts;
                Ok(EditReply::Done { cost: parts.total })
            }
        }
    }

    /// The parts of the cost of the current list.
    pub fn parts(&self) -> Parts
        ensures parts { result ≡ parts_of (instance_of self.now) self.now.initial self.now.current }
        ensures feasible { Feasible (instance_of self.now) self.now.initial self.now.current }
    {
        self.kept.parts
    }

    /// How many processes there are.
    pub fn processes(&self) -> u32
        ensures { result ≡ length self.now.rows }
    {
        self.kept.lists.rows.len() as u32
    }

    /// The lists of the draft, which gives its instance back. The edited instance is within the limits, and all its numbers are
    /// small.
    pub fn leave(self) -> Left
        ensures lists { left_in self.entry.origin result ≡ self.entry }
        ensures sound { IsSoundDraft self.entry }
        ensures small { Small (instance_of self.entry) }
        ensures feasible { Feasible (instance_of self.entry) self.entry.initial
            self.entry.current }
    {
        let Draft { kept } = self;
        let Kept {
            inst,
            topo: _,
            lists,
            loads: _,
            members: _,
            moved: _,
            parts: _,
        } = kept;
        small(inst, &lists);
        let (rows, requirements, initial, current) = lists.apart();
        Left {
            rows,
            requirements,
            initial,
            current,
        }
    }

    /// The edited instance, whose other lists are copied, and its two lists. It is within the limits, so its text is one
    /// of a model.
    pub fn finish(self, alloc: Global) -> Result<Edited, NoMemory>
        ensures lists { IfOk result (λ e. AreSameLists (instance_of self.entry) e.instance.tables) }
        ensures initial { IfOk result (λ e. e.initial.items ≡ self.entry.initial) }
        ensures current { IfOk result (λ e. e.current.items ≡ self.entry.current) }
        ensures limits { IfOk result (λ e. WellFormed (instance_of self.entry)) }
        ensures small { IfOk result (λ e. Small (instance_of self.entry)) }
        ensures feasible { IfOk result (λ e.
            Feasible e.instance.tables e.initial.items e.current.items) }
        ensures parts { IfOk result (λ e.
            parts_of e.instance.tables e.initial.items e.current.items ≡
            parts_of (instance_of self.entry) self.entry.initial self.entry.current) }
    {
        let instance = self.kept.inst.copied(alloc)?;
        Ok(Edited::of(instance, self.leave()))
    }
}

/// Why an edit can't apply at all: there is no such process, no process would be left, or the instance is full.
#[tactic(auto, unfolding(crate::specs::Replies::barred))]
fn barred(lists: &Lists, edit: Edit) -> Option<EditReply>
    ensures { result ≡ barred (length lists.now.rows.items) edit }
{
    let count = lists.rows.len();
    match edit {
        Edit::Add { .. } => {
            if count == MOST_PROCESSES {
                Some(EditReply::Full)
            } else {
                None
            }
        }
        Edit::Retire { process } => {
            if process as usize >= count {
                Some(EditReply::NoProcess { process })
            } else if count == 1 {
                Some(EditReply::Last)
            } else {
                None
            }
        }
        Edit::Resize { process } => {
            if process as usize >= count {
                Some(EditReply::NoProcess { process })
            } else {
                None
            }
        }
    }
}
