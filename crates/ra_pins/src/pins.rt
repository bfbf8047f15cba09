ghost use Rattle.std.specs.Prelude.{◌≡◌, ◌*◌, ◌<◌, true, List, IfOk, length, replicate};
ghost use Rattle.ra_base.specs.declared.ids.Machine.{Machine};
ghost use Rattle.ra_model.specs.declared.raw.Tables.{Tables};
ghost use Rattle.ra_model.specs.Numbers.{resource_count, machine_count, process_count};
ghost use Rattle.ra_model.specs.Assignments.{IsAssignment};
ghost use Rattle.ra_pins.specs.Pinned.{is_pinned, pinned_load, flagged_share};
ghost use Rattle.ra_pins.specs.PinLists.{flag_at};
ghost use Rattle.ra_pins.specs.Pins.{AreExact, ArePins};
ghost use Rattle.ra_pins.specs.Loads.{IsTallyTable};
ghost use Rattle.ra_pins.specs.Laws.{Stays};

use crate::looks::find_pinned;
use crate::search::Search;
use crate::tables::{Columns, add_row};
use ra_base::{Assignment, Fixed, Machine, NoMemory, Process, Resource, Steps, read_cell};
use ra_model::{Instance, Members, copies, machine_of};
use std::alloc::Global;
use std::marker::{Brand, Model};
use std::sync::ledger::{Blank, Ledger};

/// The pinned processes of an instance and a start: those that can be on no machine but their initial one, in any
/// assignment that is feasible with respect to the start. For each machine and resource it also has what the pinned
/// processes that start there require.
pub struct Pins {
    flags: Fixed<bool>,
    machines: u32,
    resources: u32,
    loads: Fixed<u64>,
}

/// Frees all lists in one call, so that the end of an owner is short to prove.
impl Drop for Pins {
    fn drop(self) {
        let Pins {
            flags: _,
            machines: _,
            resources: _,
            loads: _,
        } = self;
    }
}

impl Model for Pins {
    ghost use Rattle.std.specs.Prelude.{◌≡◌, ◌*◌, length};
    ghost use Rattle.ra_pins.specs.PinLists.{PinLists};

    ghost Value = { PinLists };

    ghost view = { λ pins. record {
      flags = pins.flags.items;
      machines = pins.machines;
      resources = pins.resources;
      loads = pins.loads.items;
    } };

    ghost invariant = { λ pins. length pins.loads.items ≡ pins.machines * pins.resources };
}

impl Pins {
    /// Finds the pinned processes. A process is pinned if it is blocked from every other machine:
    /// the machine is closed, or the pinned processes that start there leave too little of some
    /// resource, or all that start there leave too little of some transient resource, or a pinned
    /// process of the same service starts there. So one that is pinned may pin others, round after
    /// round. With one machine every process is pinned.
    ///
    /// The start needn't be feasible. Each process keeps one machine from which it isn't blocked, and
    /// looks further only when a process that starts there was pinned.
    pub fn make(alloc: Global, inst: &Instance, a0: &Assignment) -> Result<Pins, NoMemory>
        requires fits { IsAssignment inst.now.tables a0.now.items }
        ensures { IfOk result (λ pins. ArePins pins inst.now.tables a0.now.items) }
    {
        let flags = flags_of(alloc, inst, a0)?;
        let loads = loads_of(alloc, inst, a0, &flags)?;
        Ok(Pins {
            flags,
            machines: inst.machines(),
            resources: inst.resources(),
            loads,
        })
    }

    /// Whether a process is pinned. Then it is on its initial machine in every feasible assignment.
    pub fn pinned(&self, p: Process) -> bool
        requires { p.0 < length self.now.flags }
        ensures value { (i : Tables) (a0 : List Machine) → ArePins self.now i a0 →
            result ≡ is_pinned i a0 p.0 }
        ensures stays { result ≡ true → (i : Tables) (a0 : List Machine) → ArePins self.now i a0 →
            Stays i a0 p.0 }
    {
        self.flags.get(p.0 as usize)
    }

    /// What the pinned processes that start on a machine require of a resource.
    pub fn load(&self, m: Machine, r: Resource) -> u64
        requires machine { m.0 < self.now.machines }
        requires resource { r.0 < self.now.resources }
        ensures value { (i : Tables) (a0 : List Machine) → ArePins self.now i a0 →
            result ≡ pinned_load i a0 m.0 r.0 }
    {
        read_cell(&self.loads, self.resources, m.0, r.0)
    }
}

/// The flags of the pinned processes. The other tables of the search end here.
fn flags_of(alloc: Global, inst: &Instance, a0: &Assignment) -> Result<Fixed<bool>, NoMemory>
    requires { IsAssignment inst.now.tables a0.now.items }
    ensures { IfOk result (λ flags. AreExact inst.now.tables a0.now.items flags.items) }
{
    let members = Members::make(alloc, inst)?;
    let mut search = Search::make(alloc, inst, a0)?;
    find_pinned::<Brand>(inst, a0, &members, &mut search, Blank::new(1));
    Ok(search.into_flags())
}

/// By machine, then resource: what the flagged processes require that start there.
fn loads_of(
    alloc: Global,
    inst: &Instance,
    a0: &Assignment,
    flags: &Fixed<bool>,
) -> Result<Fixed<u64>, NoMemory>
    requires fits { IsAssignment inst.now.tables a0.now.items }
    requires flags { length flags.now.items ≡ process_count inst.now.tables }
    ensures { IfOk result (λ loads. IsTallyTable inst.now.tables (process_count inst.now.tables)
        (flagged_share inst.now.tables (flag_at flags.now.items)) a0.now.items loads.items) }
{
    let mut loads = copies(
        alloc,
        inst.machines() as usize * inst.resources() as usize,
        0u64,
    )?;
    add_loads::<Brand>(inst, a0, flags, &mut loads, Blank::new(1));
    Ok(loads)
}

/// Adds to a table of zeros what the flagged processes require of the resources of their machines.
fn add_loads<L: Ledger>(
    inst: &Instance,
    a0: &Assignment,
    flags: &Fixed<bool>,
    table: &mut Fixed<u64>,
    blank: Blank,
)
    requires name { blank.name ≡ L.name }
    requires parts { blank.parts ≡ L.parts }
    requires some { 0 < blank.parts }
    requires fits { IsAssignment inst.now.tables a0.now.items }
    requires flags { length flags.now.items ≡ process_count inst.now.tables }
    requires zeros { table.old.items ≡
        replicate (machine_count inst.now.tables * resource_count inst.now.tables) 0 }
    ensures { IsTallyTable inst.now.tables (process_count inst.now.tables)
        (flagged_share inst.now.tables (flag_at flags.now.items)) a0.now.items table.new.items }
{
    let mut steps = Steps::<L>::make(blank);
    for p in 0..inst.processes() {
        if flags.get(p as usize) {
            let at = machine_of(a0, Process(p));
            add_row(inst, Process(p), at, Columns::All, table, &mut steps);
        }
    }
}
