ghost use Rattle.std.specs.Prelude.{◌≡◌, ◌≢◌, ℕ, List, ◌+◌, ◌-◌, ◌<◌, ◌≤◌, length, slice_index, slice_set, IfOk};
ghost use Rattle.ra_base.specs.declared.ids.Machine.{Machine as Place};
ghost use Rattle.ra_model.specs.declared.raw.Tables.{Tables};
ghost use Rattle.ra_model.specs.Numbers.{machine_count, service_count, process_count};
ghost use Rattle.ra_model.specs.Assignments.{machine_at, IsAssignment};
ghost use Rattle.ra_model.specs.Members.{AreMembers};
ghost use Rattle.ra_model.specs.Services.{on_machine, in_location, in_neighbourhood, locations_of, moved_of};
ghost use Rattle.ra_model.specs.Sorting.{members_before, AreStarts};
ghost use Rattle.ra_cells.specs.Marks.{away};
ghost use Rattle.ra_cells.specs.Held.{labels_held};
ghost use Rattle.ra_cells.specs.Labels.{AreSorted, AreDifferent};

use crate::greatest::Greatest;
use crate::held::held_in;
use crate::making::{labels_of, spreads_of, start_at, starts_of};
use crate::marks::Mark;
use crate::sifting::{relabel, replace};
use ra_base::{Assignment, Fixed, Machine, NoMemory, Process, Service, one_when};
use ra_model::{Instance, Members};
use std::alloc::Global;

/// How an assignment places the processes of each service. The cells don't hold the assignment. Their tables are made
/// once, and change process by process.
pub struct Cells<'a> {
    inst: &'a Instance,
    start: &'a Assignment,
    /// Where the labels of each service start, and after the last service where all labels end.
    starts: Fixed<u32>,
    /// The machine of each process, service after service, ascending within a service.
    machines: Vec<u32>,
    /// The labels of their locations, in this order of services, ascending within a service.
    locations: Vec<u32>,
    /// The labels of their neighbourhoods, in this order of services, ascending within a service.
    neighbourhoods: Vec<u32>,
    /// How many locations each service is in.
    spreads: Fixed<u32>,
    greatest: Greatest,
    ghost starts_there: { AreStarts inst.now.tables (service_count inst.now.tables + 1)
        starts.items },
    ghost machines_sorted: { AreSorted inst.now.tables (service_count inst.now.tables)
        machines.items },
    ghost locations_sorted: { AreSorted inst.now.tables (service_count inst.now.tables)
        locations.items },
    ghost neighbourhoods_sorted: { AreSorted inst.now.tables (service_count inst.now.tables)
        neighbourhoods.items },
    ghost spreads_there: { AreDifferent inst.now.tables locations.items (service_count
        inst.now.tables) spreads.items },
    pub ghost counts_there: { length greatest.counts ≡ service_count inst.now.tables },
    pub ghost limit_there: { greatest.limit ≡ process_count inst.now.tables },
    pub ghost start_fits: { IsAssignment inst.now.tables start.now.items },
}

/// Frees all lists in one call, so that the end of an owner is short to prove.
impl Drop for Cells<'_> {
    fn drop(self) {
        let Cells {
            inst: _,
            start: _,
            starts: _,
            machines: _,
            locations: _,
            neighbourhoods: _,
            spreads: _,
            greatest: _,
        } = self;
    }
}

impl<'a> Cells<'a> {
    ghost use Rattle.ra_cells.specs.Stands.{StandFor, HavePlaced};

    /// The cells of the initial assignment.
    pub fn make(
        alloc: Global,
        inst: &'a Instance,
        a0: &'a Assignment,
    ) -> Result<Cells<'a>, NoMemory>
        requires { IsAssignment inst.now.tables a0.now.items }
        ensures { IfOk result (λ cells. StandFor cells inst.now.tables a0.now.items a0.now.items) }
    {
        let members = Members::make(alloc, inst)?;
        Cells::of_members(alloc, inst, a0, &members)
    }

    /// Makes the cells of the initial assignment from the processes of each service. It owns only what it gives, so
    /// that its exits are short to prove.
    fn of_members(
        alloc: Global,
        inst: &'a Instance,
        a0: &'a Assignment,
        members: &Members,
    ) -> Result<Cells<'a>, NoMemory>
        requires assigned { IsAssignment inst.now.tables a0.now.items }
        requires members { AreMembers members.now inst.now.tables }
        ensures { IfOk result (λ cells. StandFor cells inst.now.tables a0.now.items a0.now.items) }
    {
        let greatest = Greatest::make(alloc, inst)?;
        let starts = starts_of(alloc, inst, members)?;
        let locations = labels_of(alloc, inst, a0, members, Mark::InLocation)?;
        let spreads = spreads_of(alloc, inst, &starts, &locations)?;
        let machines = labels_of(alloc, inst, a0, members, Mark::OnMachine)?;
        let neighbourhoods = labels_of(alloc, inst, a0, members, Mark::InNeighbourhood)?;
        Ok(Cells {
            inst,
            start: a0,
            starts,
            machines,
            locations,
            neighbourhoods,
            spreads,
            greatest,
        })
    }

    /// How many processes of a service are on a machine.
    pub fn on_machine(&self, s: Service, m: Machine) -> u32
        requires { s.0 < service_count self.now.inst.now.tables }
        ensures count { (i : Tables) (a0 a : List Place) → StandFor self.now i a0 a →
            result ≡ on_machine i a s.0 m.0 }
        ensures within { result ≤ process_count self.now.inst.now.tables }
    {
        held_of(self.inst, &self.starts, &self.machines, s, m.0)
    }

    /// How many processes of a service are in a location, given by its label; 0 at a label that no machine has.
    pub fn in_location(&self, s: Service, label: u32) -> u32
        requires { s.0 < service_count self.now.inst.now.tables }
        ensures count { (i : Tables) (a0 a : List Place) → StandFor self.now i a0 a →
            result ≡ in_location i a s.0 label }
        ensures within { result ≤ process_count self.now.inst.now.tables }
    {
        held_of(self.inst, &self.starts, &self.locations, s, label)
    }

    /// How many processes of a service are in a neighbourhood, given by its label; 0 at a label that no machine has.
    pub fn in_neighbourhood(&self, s: Service, label: u32) -> u32
        requires { s.0 < service_count self.now.inst.now.tables }
        ensures count { (i : Tables) (a0 a : List Place) → StandFor self.now i a0 a →
            result ≡ in_neighbourhood i a s.0 label }
        ensures within { result ≤ process_count self.now.inst.now.tables }
    {
        held_of(self.inst, &self.starts, &self.neighbourhoods, s, label)
    }

    /// In how many different locations the processes of a service are.
    pub fn locations(&self, s: Service) -> u32
        requires { s.0 < service_count self.now.inst.now.tables }
        ensures count { (i : Tables) (a0 a : List Place) → StandFor self.now i a0 a →
            result ≡ locations_of i a s.0 }
        ensures within { result ≤ process_count self.now.inst.now.tables }
    {
        self.spreads.get(s.0 as usize)
    }

    /// How many processes of a service aren't on their initial machine.
    pub fn moved(&self, s: Service) -> u32
        requires { s.0 < service_count self.now.inst.now.tables }
        ensures count { (i : Tables) (a0 a : List Place) → StandFor self.now i a0 a →
            result ≡ moved_of i a0 a s.0 }
        ensures within { result ≤ process_count self.now.inst.now.tables }
    {
        self.greatest.count(s)
    }

    /// The moved counts of all services, and the greatest of them.
    pub fn greatest(&self) -> &Greatest
        ensures { result.now ≡ self.now.greatest }
    {
        &self.greatest
    }

    /// Moves a process to another machine. The cells then represent every assignment that they represented, with this
    /// change.
    pub fn change(&mut self, p: Process, from: Machine, to: Machine)
        requires process { p.0 < process_count self.old.inst.now.tables }
        requires machine { to.0 < machine_count self.old.inst.now.tables }
        requires apart { from.0 ≢ to.0 }
        requires here { HavePlaced self.old p.0 from.0 }
        ensures stand { (i : Tables) (a0 a : List Place) → StandFor self.old i a0 a →
            machine_at a p.0 ≡ from.0 → StandFor self.new i a0 (slice_set a p.0 to) }
    {
        let inst = self.inst;
        let s = inst.service_of(p);
        let start = start_at(inst, &self.starts, s.0);
        let end = start_at(inst, &self.starts, s.0 + 1);
        let place = s.0 as usize;
        replace(&mut self.machines, start, end, from.0, to.0);
        let (left, come) = (inst.neighbourhood(from), inst.neighbourhood(to));
        replace(&mut self.neighbourhoods, start, end, left, come);
        let (left, come) = (inst.location(from), inst.location(to));
        let spread = self.spreads.get(place);
        let spread = relabel(&mut self.locations, start, end, left, come, spread);
        self.spreads.set(place, spread);
        let home = self.start.get(p.0 as usize);
        recount(&mut self.greatest, s, home, from, to);
    }
}

/// How many of a service's labels are x.
fn held_of(inst: &Instance, starts: &Fixed<u32>, labels: &Vec<u32>, s: Service, x: u32) -> u32
    requires service { s.0 < service_count inst.now.tables }
    requires starts { AreStarts inst.now.tables
        (service_count inst.now.tables + 1) starts.now.items }
    requires sorted { AreSorted inst.now.tables (service_count inst.now.tables) labels.now.items }
    ensures count { result ≡ labels_held labels.now.items (members_before inst.now.tables s.0)
        (members_before inst.now.tables (s.0 + 1)) x }
    ensures within { result ≤ process_count inst.now.tables }
{
    let start = start_at(inst, starts, s.0);
    let end = start_at(inst, starts, s.0 + 1);
    held_in(labels, start, end, x)
}

/// Changes the moved count of a service if one of its processes leaves a machine for another.
fn recount(greatest: &mut Greatest, s: Service, home: Machine, from: Machine, to: Machine)
    requires there { s.0 < length greatest.old.counts }
    requires some { away home.0 from.0 ≤ slice_index greatest.old.counts s.0 }
    requires room { slice_index greatest.old.counts s.0 + away home.0 to.0 ≤ greatest.old.limit
        + away home.0 from.0 }
    requires few { greatest.old.limit ≤ 50000 }
    ensures counts { greatest.new.counts ≡ slice_set greatest.old.counts s.0
        (slice_index greatest.old.counts s.0 + away home.0 to.0 - away home.0 from.0) }
    ensures limit { greatest.new.limit ≡ greatest.old.limit }
{
    let before = greatest.count(s);
    let after = before + is_away(home, to) - is_away(home, from);
    greatest.change(s, after);
}

/// 1 for a process that isn't on its initial machine, else 0.
#[tactic(auto, unfolding(crate::specs::Marks::away))]
fn is_away(home: Machine, at: Machine) -> u32
    ensures { result ≡ away home.0 at.0 }
{
    one_when(home.0 != at.0)
}
