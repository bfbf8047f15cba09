ghost use Rattle.std.specs.Prelude.{◌≡◌};
ghost use Rattle.ra_guards.specs.Guards.{AreWithin, is_guard};
ghost use Rattle.ra_guards.specs.Order.{IsKnown};

use crate::apart::ends_at;
use crate::services::guards_service;
use ra_base::Guard;
use ra_model::Instance;
use ra_moves::Move;
use ra_topology::Topology;

/// Whether a machine or service is a guard of a move, for writing or for reading. A move has few steps and a service
/// few needs, so these are searched, and not the topology.
#[tactic(auto, using(crate::proofs::GuardLemmas::machine_guard, crate::proofs::GuardLemmas::service_guard, crate::proofs::GuardLemmas::within_known), unfolding(crate::specs::Order::IsKnown))]
pub fn is_guard(_topo: &Topology, inst: &Instance, mv: &Move, guard: Guard) -> bool
    requires within { AreWithin inst.now.tables mv.now.steps }
    requires known { IsKnown inst.now.tables guard }
    ensures { result ≡ is_guard inst.now.tables mv.now.steps guard }
{
    match guard {
        Guard::Machine(machine) => ends_at(mv, machine),
        Guard::Service(service) => guards_service(inst, mv, service),
    }
}
