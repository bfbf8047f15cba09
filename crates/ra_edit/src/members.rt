//! The processes of each service by the spots where they are, counted while edits change them.
ghost use Rattle.std.specs.Prelude.{◌≡◌, ℕ, ◌+◌, ◌<◌, List, length, true, None, IfOk, OnOk, OnErr};
ghost use Rattle.ra_model.specs.Numbers.{machine_count, service_count};
ghost use Rattle.ra_model.specs.Services.{members_at, locations_of};
ghost use Rattle.ra_edit.specs.Drafts.{Drafted, instance_of};
ghost use Rattle.ra_edit.specs.Keeping.{drafted, IsSoundDraft};
ghost use Rattle.ra_edit.specs.Kinds.{HasCome, HasGone, IsEdited};
ghost use Rattle.ra_edit.specs.Locations.{AreNumbered};
ghost use Rattle.ra_edit.specs.Members.{members_in, AreFewIn, AreMembersOf, AreSameIn, HasMember, HasMembers, HasCountsFor};
ghost use Rattle.ra_edit.specs.Replies.{barred};
ghost use Rattle.ra_edit.specs.Spots.{is_there};
ghost use Rattle.ra_edit_read.specs.EditLists.{FitsInstance};

use crate::counts::Counts;
use crate::lists::{Lists, machine_of};
use crate::locations::Locations;
use crate::scanning::{processes, service_of};
use ra_base::{Machine, NoMemory, Process, Service};
use ra_edit_read::Edit;
use ra_model::Instance;
use std::alloc::Global;

/// Where processes are counted: on a machine, or on the machines with a label.
#[derive(Clone, Copy)]
pub(crate) enum Spot {
    OnMachine(Machine),
    InNeighbourhood(u32),
    InLocation(u32),
}

/// How many processes of each service are on each machine, in each neighbourhood and in each location, and in how many
/// locations they are.
pub(crate) struct Members {
    pub(crate) machines: Counts,
    pub(crate) neighbourhoods: Counts,
    pub(crate) locations: Locations,
}

/// Frees all counts in one call, so that the end of an owner is short to prove.
impl Drop for Members {
    fn drop(self) {
        let Members {
            machines: _,
            neighbourhoods: _,
            locations: _,
        } = self;
    }
}

impl Members {
    /// The processes of some lists.
    pub(crate) fn of(alloc: Global, inst: &Instance, lists: &Lists) -> Result<Members, NoMemory>
        requires { IsSoundDraft (drafted inst.now.tables lists.now) }
        ensures { IfOk result (λ made. AreMembersOf (drafted inst.now.tables lists.now) made) }
    {
        let mut members = Members {
            machines: Counts::new(alloc),
            neighbourhoods: Counts::new(alloc),
            locations: Locations::make(alloc, inst)?,
        };
        for p in 0..processes(inst, lists) {
            members.count(inst, lists, Process(p))?;
        }
        Ok(members)
    }

    /// Counts one process more.
    fn count(&mut self, inst: &Instance, lists: &Lists, p: Process) -> Result<(), NoMemory>
        requires sound { IsSoundDraft (drafted inst.now.tables lists.now) }
        requires process { p.0 < length lists.now.rows.items }
        requires counted { HasMembers (drafted inst.now.tables lists.now) p.0 self.old }
        ensures { OnOk result (HasMembers (drafted inst.now.tables lists.now) (p.0 + 1) self.new) }
    {
        let s = service_of(inst, lists, p);
        let m = machine_of(&lists.current, p);
        self.admit(inst, s, m)?;
        self.come(inst, s, m);
        Ok(())
    }

    /// How many processes of a service are at a spot.
    pub(crate) fn at(&self, s: Service, spot: Spot) -> u32
        ensures { (d : Drafted) → AreMembersOf d self.now →
            result ≡ members_at (instance_of d) d.current s.0 (is_there d.origin spot) }
    {
        match spot {
            Spot::OnMachine(m) => self.machines.at(s, m.0),
            Spot::InNeighbourhood(label) => self.neighbourhoods.at(s, label),
            Spot::InLocation(label) => self.locations.counts.at(s, label),
        }
    }

    /// In how many locations a process of a service is.
    pub(crate) fn locations(&self, s: Service) -> u32
        requires { s.0 < length self.now.locations.numbers.items }
        ensures { (d : Drafted) → AreMembersOf d self.now →
            result ≡ locations_of (instance_of d) d.current s.0 }
    {
        self.locations.number(s)
    }

    /// Follows an edit of the lists, and takes the memory that it needs.
    ///
    /// # Errors
    ///
    /// The system refused memory. Then no count has changed.
    pub(crate) fn follow(
        &mut self,
        inst: &Instance,
        lists: &Lists,
        edit: Edit,
    ) -> Result<(), NoMemory>
        requires sound { IsSoundDraft (drafted inst.now.tables lists.now) }
        requires members { AreMembersOf (drafted inst.now.tables lists.now) self.old }
        requires free { barred (length lists.now.rows.items) edit ≡ None }
        requires fits { FitsInstance inst.now.tables edit }
        ensures after { OnOk result ((e : Drafted) (asked : List ℕ) →
            IsEdited (drafted inst.now.tables lists.now) edit asked e → AreMembersOf e self.new) }
        ensures memory { OnErr result (AreMembersOf (drafted inst.now.tables lists.now) self.new) }
    {
        match edit {
            Edit::Add {
                service,
                machine,
                ..
            } => self.add(inst, lists, service, machine),
            Edit::Retire { process } => {
                self.retire(inst, lists, Process(process));
                Ok(())
            }
            Edit::Resize { .. } => Ok(()),
        }
    }

    /// Follows the addition of a process.
    fn add(
        &mut self,
        inst: &Instance,
        lists: &Lists,
        s: Service,
        m: Machine,
    ) -> Result<(), NoMemory>
        requires sound { IsSoundDraft (drafted inst.now.tables lists.now) }
        requires members { AreMembersOf (drafted inst.now.tables lists.now) self.old }
        requires service { s.0 < service_count inst.now.tables }
        requires machine { m.0 < machine_count inst.now.tables }
        ensures after { OnOk result ((e : Drafted) →
            HasCome (drafted inst.now.tables lists.now) e s.0 m.0 → AreMembersOf e self.new) }
        ensures memory { OnErr result (AreMembersOf (drafted inst.now.tables lists.now) self.new) }
    {
        self.admit(inst, s, m)?;
        self.come(inst, s, m);
        Ok(())
    }

    /// Follows the removal of a process.
    fn retire(&mut self, inst: &Instance, lists: &Lists, p: Process)
        requires sound { IsSoundDraft (drafted inst.now.tables lists.now) }
        requires members { AreMembersOf (drafted inst.now.tables lists.now) self.old }
        requires process { p.0 < length lists.now.rows.items }
        ensures { (e : Drafted) → HasGone (drafted inst.now.tables lists.now) e p.0 →
            AreMembersOf e self.new }
    {
        let s = service_of(inst, lists, p);
        let m = machine_of(&lists.current, p);
        self.go(inst, s, m);
    }

    /// Takes the memory to count a process of a service on a machine. No count changes.
    fn admit(&mut self, inst: &Instance, s: Service, m: Machine) -> Result<(), NoMemory>
        requires { m.0 < machine_count inst.now.tables }
        ensures same { AreSameIn self.old self.new }
        ensures room { OnOk result (HasCountsFor inst.now.tables s.0 m.0 self.new) }
    {
        self.machines.admit(s, m.0)?;
        self.neighbourhoods.admit(s, inst.neighbourhood(m))?;
        self.locations.counts.admit(s, inst.location(m))
    }

    /// Counts one more process of a service on a machine.
    fn come(&mut self, inst: &Instance, s: Service, m: Machine)
        requires service { s.0 < service_count inst.now.tables }
        requires machine { m.0 < machine_count inst.now.tables }
        requires numbered { AreNumbered (service_count inst.now.tables) self.old.locations }
        requires room { HasCountsFor inst.now.tables s.0 m.0 self.old }
        requires few { AreFewIn self.old }
        ensures member { HasMember inst.now.tables s.0 m.0 self.old self.new }
        ensures numbered { AreNumbered (service_count inst.now.tables) self.new.locations }
    {
        self.machines.come(s, m.0);
        self.neighbourhoods.come(s, inst.neighbourhood(m));
        self.locations.come(s, inst.location(m));
    }

    /// Counts one process less of a service on a machine.
    fn go(&mut self, inst: &Instance, s: Service, m: Machine)
        requires service { s.0 < service_count inst.now.tables }
        requires machine { m.0 < machine_count inst.now.tables }
        requires numbered { AreNumbered (service_count inst.now.tables) self.old.locations }
        requires there { (spot : Spot) → is_there inst.now.tables spot 0 m.0 ≡ true →
            0 < members_in self.old s.0 spot }
        ensures member { HasMember inst.now.tables s.0 m.0 self.new self.old }
        ensures numbered { AreNumbered (service_count inst.now.tables) self.new.locations }
    {
        self.machines.go(s, m.0);
        self.neighbourhoods.go(s, inst.neighbourhood(m));
        self.locations.go(s, inst.location(m));
    }
}
