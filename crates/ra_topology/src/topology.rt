ghost use Rattle.std.specs.Prelude.{◌≡◌, ◌<◌, length, IfOk};
ghost use Rattle.ra_model.specs.Members.{members_of};
ghost use Rattle.ra_topology.specs.Lists.{services_of};
ghost use Rattle.ra_topology.specs.Fits.{IsTopologyOf};

use crate::dependants::list_dependants;
use crate::distinct::list_distinct;
use crate::lists::ServiceLists;
use crate::needs::list_needs;
use ra_base::{NoMemory, Process, Service};
use ra_model::{Instance, Members};
use std::alloc::Global;
use std::marker::Model;

/// For each service its processes, the services on which it depends, in file order and each once, and those that depend
/// on it. Contracts see one list of each kind for each service.
pub struct Topology {
    members: Members,
    needs: ServiceLists,
    distinct: ServiceLists,
    dependants: ServiceLists,
}

/// Frees all lists in one call, so that the end of an owner is short to prove.
impl Drop for Topology {
    fn drop(self) {
        let Topology {
            members: _,
            needs: _,
            distinct: _,
            dependants: _,
        } = self;
    }
}

impl Model for Topology {
    ghost use Rattle.ra_topology.specs.TopologyLists.{TopologyLists};

    ghost Value = { TopologyLists };

    ghost view = { λ t. record {
      members = t.members;
      needs = t.needs;
      distinct = t.distinct;
      dependants = t.dependants;
    } };
}

impl Topology {
    /// The topology of an instance, in time that grows with the number of its processes, services and dependencies.
    pub fn make(alloc: Global, inst: &Instance) -> Result<Topology, NoMemory>
        ensures { IfOk result (λ topology. IsTopologyOf topology inst.now.tables) }
    {
        let members = Members::make(alloc, inst)?;
        let needs = list_needs(alloc, inst)?;
        let distinct = list_distinct(alloc, inst)?;
        let dependants = list_dependants(alloc, inst)?;
        Ok(Topology {
            members,
            needs,
            distinct,
            dependants,
        })
    }

    /// The processes of a service, in ascending order.
    pub fn members(&self, s: Service) -> &[Process]
        requires { s.0 < length self.now.members }
        ensures { result.now ≡ members_of self.now.members s.0 }
    {
        self.members.of(s)
    }

    /// The services on which a service depends, in file order.
    pub fn needs(&self, s: Service) -> &[Service]
        requires { s.0 < length self.now.needs }
        ensures { result.now ≡ services_of self.now.needs s.0 }
    {
        self.needs.of(s)
    }

    /// The services on which a service depends, each once, however often its dependencies name it.
    pub fn distinct_needs(&self, s: Service) -> &[Service]
        requires { s.0 < length self.now.distinct }
        ensures { result.now ≡ services_of self.now.distinct s.0 }
    {
        self.distinct.of(s)
    }

    /// The services that depend on a service, in ascending order, each once.
    pub fn dependants(&self, s: Service) -> &[Service]
        requires { s.0 < length self.now.dependants }
        ensures { result.now ≡ services_of self.now.dependants s.0 }
    {
        self.dependants.of(s)
    }
}
