ghost use Rattle.std.specs.Prelude.{◌≡◌, ◌*◌, ◌<◌, length, None, IfOk};
ghost use Rattle.ra_model.specs.Assignments.{IsAssignment, machine_at};
ghost use Rattle.ra_model.specs.Numbers.{resource_count};
ghost use Rattle.ra_edit.specs.Drafts.{draft_of};
ghost use Rattle.ra_edit.specs.Editing.{added, retired, resized, edited};
ghost use Rattle.ra_edit.specs.Replies.{barred};
ghost use Rattle.ra_edit.specs.Keeping.{drafted, HasRoomForProcesses, IsSoundDraft};

use crate::growing::Growing;
use crate::tables::{processes_of, requirements_of};
use ra_base::{Assignment, Fixed, Machine, NoMemory, Process};
use ra_edit_read::Edit;
use ra_model::{Instance, ProcessRow};
use std::alloc::Global;
use std::marker::Brand;
use std::sync::ledger::Blank;

/// How many processes an instance may have.
pub(crate) const MOST_PROCESSES: usize = 50_000;

/// The lists of a draft that edits change: its processes, what they require, their initial machines and their machines
/// now.
pub(crate) struct Lists {
    pub(crate) rows: Growing<ProcessRow>,
    /// By process, then resource.
    pub(crate) requirements: Growing<u32>,
    pub(crate) initial: Growing<Machine>,
    pub(crate) current: Growing<Machine>,
}

/// Frees all lists in one call, so that the end of an owner is short to prove.
impl Drop for Lists {
    fn drop(self) {
        let Lists {
            rows: _,
            requirements: _,
            initial: _,
            current: _,
        } = self;
    }
}

impl Lists {
    /// The lists of an instance and of two assignments, with room for the most processes.
    pub(crate) fn of(
        alloc: Global,
        inst: &Instance,
        a0: &Assignment,
        a: &Assignment,
    ) -> Result<Lists, NoMemory>
        requires a0_fits { IsAssignment inst.now.tables a0.now.items }
        requires fits { IsAssignment inst.now.tables a.now.items }
        ensures lists { IfOk result (λ lists. drafted inst.now.tables lists
            ≡ draft_of inst.now.tables a0.now.items a.now.items) }
        ensures room { IfOk result (λ lists. HasRoomForProcesses inst.now.tables lists) }
    {
        let rows = processes_of(alloc, inst)?;
        let requirements = requirements_of::<Brand>(alloc, inst, Blank::new(1))?;
        let numbers = MOST_PROCESSES * inst.resources() as usize;
        Ok(Lists {
            rows: Growing::make(alloc, rows.as_slice(), MOST_PROCESSES)?,
            requirements: Growing::make(alloc, requirements.as_slice(), numbers)?,
            initial: Growing::make(alloc, a0.as_slice(), MOST_PROCESSES)?,
            current: Growing::make(alloc, a.as_slice(), MOST_PROCESSES)?,
        })
    }

    /// The four lists. It takes no memory.
    pub(crate) fn apart(self) -> (Fixed<ProcessRow>, Fixed<u32>, Assignment, Assignment)
        ensures rows { result.0.items ≡ self.rows.items }
        ensures requirements { result.1.items ≡ self.requirements.items }
        ensures initial { result.2.items ≡ self.initial.items }
        ensures current { result.3.items ≡ self.current.items }
    {
        let Lists {
            rows,
            requirements,
            initial,
            current,
        } = self;
        (
            rows.into_fixed(),
            requirements.into_fixed(),
            initial.into_fixed(),
            current.into_fixed(),
        )
    }

    /// Does an edit, if nothing bars it. It changes the lists in place, in a time that grows only with the resources.
    #[tactic(auto, unfolding(crate::specs::Editing::edited))]
    pub(crate) fn edit(&mut self, inst: &Instance, edit: Edit, requirements: &[u32])
        requires sound { IsSoundDraft (drafted inst.now.tables self.old) }
        requires room { HasRoomForProcesses inst.now.tables self.old }
        requires free { barred (length self.old.rows.items) edit ≡ None }
        requires width { length requirements.now ≡ resource_count inst.now.tables }
        ensures lists { drafted inst.now.tables self.new
            ≡ edited (drafted inst.now.tables self.old) edit requirements.now }
        ensures room { HasRoomForProcesses inst.now.tables self.new }
    {
        match edit {
            Edit::Add {
                service,
                machine,
                move_cost,
            } => self.add(
                inst,
                ProcessRow { service, move_cost },
                machine,
                requirements,
            ),
            Edit::Retire { process } => self.retire(inst, process),
            Edit::Resize { process } => self.resize(inst, process, requirements),
        }
    }

    /// Adds a process.
    fn add(&mut self, inst: &Instance, row: ProcessRow, machine: Machine, requirements: &[u32])
        requires sound { IsSoundDraft (drafted inst.now.tables self.old) }
        requires room { HasRoomForProcesses inst.now.tables self.old }
        requires few { length self.old.rows.items < 50000 }
        requires width { length requirements.now ≡ resource_count inst.now.tables }
        ensures lists { drafted inst.now.tables self.new
            ≡ added (drafted inst.now.tables self.old) row.service machine row.move_cost
            requirements.now }
        ensures room { HasRoomForProcesses inst.now.tables self.new }
    {
        self.rows.push(row);
        self.requirements.extend_from_slice(requirements);
        self.initial.push(machine);
        self.current.push(machine);
    }

    /// Removes a process. The last process takes its number.
    fn retire(&mut self, inst: &Instance, process: u32)
        requires sound { IsSoundDraft (drafted inst.now.tables self.old) }
        requires room { HasRoomForProcesses inst.now.tables self.old }
        requires process { process < length self.old.rows.items }
        ensures lists { drafted inst.now.tables self.new
            ≡ retired (drafted inst.now.tables self.old) process }
        ensures room { HasRoomForProcesses inst.now.tables self.new }
    {
        let p = process as usize;
        let width = inst.resources() as usize;
        let last = self.rows.len() - 1;
        self.rows.swap_remove(p);
        self.requirements.swap_remove_part(p * width, last * width);
        self.initial.swap_remove(p);
        self.current.swap_remove(p);
    }

    /// Gives a process other requirements.
    fn resize(&mut self, inst: &Instance, process: u32, requirements: &[u32])
        requires sound { IsSoundDraft (drafted inst.now.tables self.old) }
        requires room { HasRoomForProcesses inst.now.tables self.old }
        requires process { process < length self.old.rows.items }
        requires width { length requirements.now ≡ resource_count inst.now.tables }
        ensures lists { drafted inst.now.tables self.new
            ≡ resized (drafted inst.now.tables self.old) process requirements.now }
        ensures room { HasRoomForProcesses inst.now.tables self.new }
    {
        let start = process as usize * inst.resources() as usize;
        self.requirements.write(start, requirements);
    }
}

/// The machine of a process.
#[tactic(auto, using(ra_model::proofs::TallyLemmas::machine_at_read))]
pub(crate) fn machine_of(a: &Growing<Machine>, p: Process) -> Machine
    requires { p.0 < length a.now.items }
    ensures { result.0 ≡ machine_at a.now.items p.0 }
{
    let _count = a.len();
    a.get(p.0 as usize)
}
