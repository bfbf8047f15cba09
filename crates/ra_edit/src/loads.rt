//! The use of the machines, kept while edits change it.
ghost use Rattle.std.specs.Prelude.{◌≡◌, ℕ, ◌+◌, ◌*◌, ◌^◌, ◌<◌, ◌≤◌, length, slice_index, None, IfOk};
ghost use Rattle.ra_check.specs.Stands.{IsBelow};
ghost use Rattle.ra_check.specs.Made.{IsGrid};
ghost use Rattle.ra_model.specs.Numbers.{resource_count, machine_count};
ghost use Rattle.ra_edit.specs.Drafts.{Drafted};
ghost use Rattle.ra_edit.specs.Keeping.{drafted, IsSoundDraft};
ghost use Rattle.ra_edit.specs.Kinds.{Asks, HasCome, HasGone, HasOther, IsEdited};
ghost use Rattle.ra_edit.specs.Loads.{AreLoadsOf, HasCounted, HasMoreUse, HasMoreAt, IsUseRow, IsTransientRowOfDraft};
ghost use Rattle.ra_edit.specs.Loads.{HasAtLeast};
ghost use Rattle.ra_edit.specs.Replies.{barred};
ghost use Rattle.ra_edit_read.specs.EditLists.{FitsInstance};

use crate::lists::{Lists, machine_of};
use crate::rows::requirements_of;
use crate::scanning::{processes, small};
use ra_base::{Fixed, Machine, NoMemory, Process, add_to_cell, place, read_cell, read_row};
use ra_edit_read::Edit;
use ra_model::{Instance, copies};
use std::alloc::Global;

/// What the processes use of each resource of each machine: in one table the processes that are there now, in the other
/// these and those that were there at first. Both tables are by machine, then resource.
pub(crate) struct Loads {
    pub(crate) used: Fixed<u64>,
    pub(crate) between: Fixed<u64>,
}

/// Frees both tables in one call, so that the end of an owner is short to prove.
impl Drop for Loads {
    fn drop(self) {
        let Loads {
            used: _,
            between: _,
        } = self;
    }
}

impl Loads {
    /// What the processes of some lists use.
    pub(crate) fn of(alloc: Global, inst: &Instance, lists: &Lists) -> Result<Loads, NoMemory>
        requires { IsSoundDraft (drafted inst.now.tables lists.now) }
        ensures { IfOk result (λ loads. AreLoadsOf (drafted inst.now.tables lists.now) loads) }
    {
        let cells = inst.machines() as usize * inst.resources() as usize;
        let used = copies(alloc, cells, 0u64)?;
        let between = copies(alloc, cells, 0u64)?;
        let mut loads = Loads { used, between };
        for p in 0..processes(inst, lists) {
            loads.count(inst, lists, Process(p));
        }
        Ok(loads)
    }

    /// Adds what one process more uses.
    fn count(&mut self, inst: &Instance, lists: &Lists, p: Process)
        requires sound { IsSoundDraft (drafted inst.now.tables lists.now) }
        requires process { p.0 < length lists.now.rows.items }
        requires counted { HasCounted (drafted inst.now.tables lists.now) p.0 self.old }
        ensures { HasCounted (drafted inst.now.tables lists.now) (p.0 + 1) self.new }
    {
        small(inst, lists);
        let home = machine_of(&lists.initial, p);
        let here = machine_of(&lists.current, p);
        self.come(
            inst.resources(),
            home,
            here,
            requirements_of(inst, lists, p),
        );
    }

    /// The use of each resource of a machine.
    pub(crate) fn use_row(&self, inst: &Instance, m: Machine) -> &[u64]
        requires machine { m.0 < machine_count inst.now.tables }
        requires grid { IsGrid inst.now.tables self.now.used.items }
        ensures one_each { length result.now ≡ resource_count inst.now.tables }
        ensures row { (d : Drafted) → d.origin ≡ inst.now.tables → AreLoadsOf d self.now →
            IsUseRow d m.0 result.now }
    {
        read_row(&self.used, inst.resources(), m.0)
    }

    /// The transient use of each resource of a machine.
    pub(crate) fn transient_row(&self, inst: &Instance, m: Machine) -> &[u64]
        requires machine { m.0 < machine_count inst.now.tables }
        requires grid { IsGrid inst.now.tables self.now.between.items }
        ensures one_each { length result.now ≡ resource_count inst.now.tables }
        ensures row { (d : Drafted) → d.origin ≡ inst.now.tables → AreLoadsOf d self.now →
            IsTransientRowOfDraft d m.0 result.now }
    {
        read_row(&self.between, inst.resources(), m.0)
    }

    /// Follows an edit of the lists, which gives these requirements.
    pub(crate) fn follow(&mut self, inst: &Instance, lists: &Lists, edit: Edit, asked: &[u32])
        requires sound { IsSoundDraft (drafted inst.now.tables lists.now) }
        requires loads { AreLoadsOf (drafted inst.now.tables lists.now) self.old }
        requires free { barred (length lists.now.rows.items) edit ≡ None }
        requires fits { FitsInstance inst.now.tables edit }
        requires asked { length asked.now ≡ resource_count inst.now.tables }
        ensures { (e : Drafted) →
            IsEdited (drafted inst.now.tables lists.now) edit asked.now e → AreLoadsOf e self.new }
    {
        match edit {
            Edit::Add { machine, .. } => self.add(inst, lists, machine, asked),
            Edit::Retire { process } => self.retire(inst, lists, Process(process)),
            Edit::Resize { process } => self.resize(inst, lists, Process(process), asked),
        }
    }

    /// Follows the addition of a process on its initial machine.
    fn add(&mut self, inst: &Instance, lists: &Lists, m: Machine, asked: &[u32])
        requires sound { IsSoundDraft (drafted inst.now.tables lists.now) }
        requires loads { AreLoadsOf (drafted inst.now.tables lists.now) self.old }
        requires machine { m.0 < machine_count inst.now.tables }
        requires asked { length asked.now ≡ resource_count inst.now.tables }
        ensures { (e : Drafted) (s : ℕ) → HasCome (drafted inst.now.tables lists.now) e s m.0 →
            Asks e (length lists.now.rows.items) asked.now → AreLoadsOf e self.new }
    {
        small(inst, lists);
        self.come(inst.resources(), m, m, asked);
    }

    /// Follows the removal of a process.
    fn retire(&mut self, inst: &Instance, lists: &Lists, p: Process)
        requires sound { IsSoundDraft (drafted inst.now.tables lists.now) }
        requires loads { AreLoadsOf (drafted inst.now.tables lists.now) self.old }
        requires process { p.0 < length lists.now.rows.items }
        ensures { (e : Drafted) → HasGone (drafted inst.now.tables lists.now) e p.0 →
            AreLoadsOf e self.new }
    {
        let home = machine_of(&lists.initial, p);
        let here = machine_of(&lists.current, p);
        self.go(
            inst.resources(),
            home,
            here,
            requirements_of(inst, lists, p),
        );
    }

    /// Follows a change of a process's requirements.
    fn resize(&mut self, inst: &Instance, lists: &Lists, p: Process, asked: &[u32])
        requires sound { IsSoundDraft (drafted inst.now.tables lists.now) }
        requires loads { AreLoadsOf (drafted inst.now.tables lists.now) self.old }
        requires process { p.0 < length lists.now.rows.items }
        requires asked { length asked.now ≡ resource_count inst.now.tables }
        ensures { (e : Drafted) → HasOther (drafted inst.now.tables lists.now) e p.0 →
            Asks e p.0 asked.now → AreLoadsOf e self.new }
    {
        small(inst, lists);
        self.retire(inst, lists, p);
        let home = machine_of(&lists.initial, p);
        let here = machine_of(&lists.current, p);
        self.come(inst.resources(), home, here, asked);
    }

    /// Adds what a process uses, whose machine was `home` at first and is `here` now.
    fn come(&mut self, width: u32, home: Machine, here: Machine, amounts: &[u32])
        requires width { length amounts.now ≡ width }
        requires used { here.0 * width + width ≤ length self.old.used.items }
        requires home { home.0 * width + width ≤ length self.old.between.items }
        requires here { here.0 * width + width ≤ length self.old.between.items }
        requires used_below { IsBelow width (2 ^ 62) self.old.used.items }
        requires between_below { IsBelow width (2 ^ 62) self.old.between.items }
        ensures { HasMoreUse width home.0 here.0 (slice_index amounts.now) self.old self.new }
    {
        add_amounts(&mut self.used, width, here, amounts);
        add_amounts(&mut self.between, width, home, amounts);
        if home != here {
            add_amounts(&mut self.between, width, here, amounts);
        }
    }

    /// Takes away what a process uses, whose machine was `home` at first and is `here` now.
    fn go(&mut self, width: u32, home: Machine, here: Machine, amounts: &[u32])
        requires width { length amounts.now ≡ width }
        requires used { here.0 * width + width ≤ length self.old.used.items }
        requires home { home.0 * width + width ≤ length self.old.between.items }
        requires here { here.0 * width + width ≤ length self.old.between.items }
        requires used_enough { HasAtLeast width here.0 (slice_index amounts.now) self.old.used.items }
        requires home_enough { HasAtLeast width home.0 (slice_index amounts.now) self.old.between.items }
        requires here_enough { HasAtLeast width here.0 (slice_index amounts.now) self.old.between.items }
        ensures { HasMoreUse width home.0 here.0 (slice_index amounts.now) self.new self.old }
    {
        take_amounts(&mut self.used, width, here, amounts);
        take_amounts(&mut self.between, width, home, amounts);
        if home != here {
            take_amounts(&mut self.between, width, here, amounts);
        }
    }
}

/// Adds an amount of each resource at a machine.
fn add_amounts(table: &mut Fixed<u64>, width: u32, at: Machine, amounts: &[u32])
    requires width { length amounts.now ≡ width }
    requires place { at.0 * width + width ≤ length table.old.items }
    requires below { IsBelow width (2 ^ 63) table.old.items }
    ensures { HasMoreAt width at.0 (slice_index amounts.now) table.old.items table.new.items }
{
    for r in 0..width {
        add_to_cell(table, width, at.0, r, amounts[r as usize]);
    }
}

/// Subtracts an amount of each resource at a machine.
fn take_amounts(table: &mut Fixed<u64>, width: u32, at: Machine, amounts: &[u32])
    requires width { length amounts.now ≡ width }
    requires place { at.0 * width + width ≤ length table.old.items }
    requires enough { HasAtLeast width at.0 (slice_index amounts.now) table.old.items }
    ensures { HasMoreAt width at.0 (slice_index amounts.now) table.new.items table.old.items }
{
    for r in 0..width {
        let rest = read_cell(table, width, at.0, r) - u64::from(amounts[r as usize]);
        table.set(place(width, at.0, r), rest);
    }
}
