ghost use Rattle.std.specs.Prelude.{◌≡◌, ◌≢◌, ◌+◌, ◌^◌, ◌<◌, List, length, slice_set, IfOk};
ghost use Rattle.ra_base.specs.declared.ids.Machine.{Machine};
ghost use Rattle.ra_model.specs.Numbers.{resource_count, machine_count, process_count};
ghost use Rattle.ra_model.specs.Assignments.{IsAssignment, machine_at};
ghost use Rattle.ra_model.specs.Usage.{use_of, transient_of};
ghost use Rattle.ra_rows.specs.Rows.{StandFor, HasAt, IsUsageRow, IsTransientRow, AreBelow};

use crate::shifts::shift_rows;
use crate::sums::sum_usage;
use ra_base::{
    Assignment, Fixed, Machine, NoMemory, Process, Resource, Steps, read_cell, read_row,
};
use ra_model::{Instance, copied, copies, machine_of};
use std::alloc::Global;
use std::marker::{Brand, Model};
use std::sync::ledger::{Blank, Ledger};

/// The use and the transient use of each machine's resources, for one assignment at a time. The rows don't hold the
/// assignment: they are made for the initial one, and follow it by `shift`. Each machine has one row of use and one of
/// transient use, with a number for each resource.
pub struct Rows<'a> {
    inst: &'a Instance,
    a0: &'a Assignment,
    used: Fixed<u64>,
    between: Fixed<u64>,
}

/// Frees all lists in one call, so that the end of an owner is short to prove.
impl Drop for Rows<'_> {
    fn drop(self) {
        let Rows {
            inst: _,
            a0: _,
            used: _,
            between: _,
        } = self;
    }
}

impl<'a> Model for Rows<'a> {
    ghost use Rattle.ra_rows.specs.RowTables.{RowTables};

    ghost Value = { RowTables };

    ghost use Rattle.ra_rows.specs.Rows.{AreRows};

    ghost view = { λ rows. record {
      tables = rows.inst.now.tables;
      start = rows.a0.now.items;
      used = rows.used.items;
      between = rows.between.items;
    } };

    ghost invariant = { λ rows. AreRows (record {
      tables = rows.inst.now.tables;
      start = rows.a0.now.items;
      used = rows.used.items;
      between = rows.between.items;
    }) };
}

impl<'a> Rows<'a> {
    /// The rows of an initial assignment.
    pub fn make(alloc: Global, inst: &'a Instance, a0: &'a Assignment) -> Result<Rows<'a>, NoMemory>
        requires { IsAssignment inst.now.tables a0.now.items }
        ensures stands { IfOk result (λ rows. StandFor rows a0.now.items) }
        ensures tables { IfOk result (λ rows. rows.tables ≡ inst.now.tables) }
        ensures start { IfOk result (λ rows. rows.start ≡ a0.now.items) }
    {
        let cells = inst.machines() as usize * inst.resources() as usize;
        let mut used = copies(alloc, cells, 0u64)?;
        sum_usage::<Brand>(inst, a0, &mut used, Blank::new(1));
        let between = copied(alloc, &used)?;
        Ok(Rows {
            inst,
            a0,
            used,
            between,
        })
    }

    /// The use of a resource of a machine.
    pub fn usage(&self, m: Machine, r: Resource) -> u64
        requires machine { m.0 < machine_count self.now.tables }
        requires resource { r.0 < resource_count self.now.tables }
        ensures value { (a : List Machine) → StandFor self.now a →
            result ≡ use_of self.now.tables a m.0 r.0 }
        ensures below { result < 2 ^ 48 }
    {
        let inst = self.inst;
        read_cell(&self.used, inst.resources(), m.0, r.0)
    }

    /// The transient use of a resource of a machine: what the processes that are on it, or were on it at first, use,
    /// each counted once.
    pub fn transient_use(&self, m: Machine, r: Resource) -> u64
        requires machine { m.0 < machine_count self.now.tables }
        requires resource { r.0 < resource_count self.now.tables }
        ensures value { (a : List Machine) → StandFor self.now a →
            result ≡ transient_of self.now.tables self.now.start a m.0 r.0 }
        ensures below { result < 2 ^ 48 }
    {
        let inst = self.inst;
        read_cell(&self.between, inst.resources(), m.0, r.0)
    }

    /// The use of each resource of a machine.
    pub fn usage_row(&self, m: Machine) -> &[u64]
        requires { m.0 < machine_count self.now.tables }
        ensures one_each { length result.now ≡ resource_count self.now.tables }
        ensures values { (a : List Machine) → StandFor self.now a →
            IsUsageRow self.now.tables a m.0 result.now }
        ensures below { AreBelow (2 ^ 48) result.now }
    {
        let inst = self.inst;
        read_row(&self.used, inst.resources(), m.0)
    }

    /// The transient use of each resource of a machine.
    pub fn transient_row(&self, m: Machine) -> &[u64]
        requires { m.0 < machine_count self.now.tables }
        ensures one_each { length result.now ≡ resource_count self.now.tables }
        ensures values { (a : List Machine) → StandFor self.now a →
            IsTransientRow self.now.tables self.now.start a m.0 result.now }
        ensures below { AreBelow (2 ^ 48) result.now }
    {
        let inst = self.inst;
        read_row(&self.between, inst.resources(), m.0)
    }

    /// Puts a process on another machine. The counter rises by the number of resources.
    pub fn shift<L: Ledger>(&mut self, p: Process, from: Machine, to: Machine, steps: &mut Steps<L>)
        requires process { p.0 < process_count self.old.tables }
        requires to { to.0 < machine_count self.old.tables }
        requires moves { from.0 ≢ to.0 }
        requires stands { HasAt self.old p.0 from.0 }
        ensures stands { (a : List Machine) → StandFor self.old a → machine_at a p.0 ≡ from.0 →
            StandFor self.new (slice_set a p.0 to) }
        ensures tables { self.new.tables ≡ self.old.tables }
        ensures start { self.new.start ≡ self.old.start }
        ensures counted { steps.new ≡ steps.old + resource_count self.old.tables }
    {
        let inst = self.inst;
        let home = machine_of(self.a0, p);
        shift_rows(
            inst,
            p,
            home,
            from,
            to,
            &mut self.used,
            &mut self.between,
            steps,
        );
    }
}
