ghost use Rattle.std.specs.Prelude.{◌≡◌, None};
ghost use Rattle.ra_model.specs.Assignments.{IsAssignment};
ghost use Rattle.ra_model.specs.Broken.{first_broken};
ghost use Rattle.ra_model.specs.Costs.{parts_of};
ghost use Rattle.ra_topology.specs.Fits.{IsTopologyOf};

use ra_base::{Assignment, Parts};
use ra_model::Instance;
use ra_topology::Topology;

/// A start from which workers may begin: it breaks no constraint of its instance, and its cost has these parts.
#[derive(Drop)]
pub(crate) struct Beginning<'a> {
    pub(crate) inst: &'a Instance,
    pub(crate) topo: &'a Topology,
    pub(crate) initial: &'a Assignment,
    pub(crate) parts: Parts,
    pub ghost fits: { IsAssignment inst.now.tables initial.now.items },
    pub ghost unbroken: { first_broken inst.now.tables initial.now.items initial.now.items ≡ None },
    pub ghost topology: { IsTopologyOf topo.now inst.now.tables },
    pub ghost costs: { parts ≡ parts_of inst.now.tables initial.now.items initial.now.items },
}
