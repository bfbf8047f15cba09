//! The least number of a move's guards with a newer version. Machine m has the number m, and service s the machine
//! count plus s.
ghost use Rattle.std.specs.Prelude.{◌≡◌, ℕ, ◌+◌, ◌<◌, ◌≤◌, length, All};
ghost use Rattle.ra_model.specs.Numbers.{machine_count, service_count};
ghost use Rattle.ra_topology.specs.Fits.{IsTopologyOf};
ghost use Rattle.ra_guards.specs.Guards.{AreWithin, is_guard};
ghost use Rattle.ra_guards.specs.Kept.{version_in, HasGuard, IsTableOf};
ghost use Rattle.ra_guards.specs.Newest.{reads_only};
ghost use Rattle.ra_guards.specs.Lowest.{IsFirstNumber, IsLower, lowered, IsReadOf, IsReadIn, IsReadBy, IsWrittenBy};

use crate::services::moves_service;
use crate::versions::Versions;
use ra_base::{Guard, Service};
use ra_model::Instance;
use ra_moves::Move;
use ra_topology::Topology;

/// The least number of a guard with a version above q, and the number of all guards if there is none.
#[tactic(auto, using(crate::proofs::LowestLemmas::written_none, crate::proofs::LowestLemmas::written_more))]
pub(crate) fn least_guard(
    topo: &Topology,
    inst: &Instance,
    mv: &Move,
    versions: &Versions,
    q: u64,
) -> u32
    requires topology { IsTopologyOf topo.now inst.now.tables }
    requires within { AreWithin inst.now.tables mv.now.steps }
    requires sized { IsTableOf inst.now.tables versions.now }
    ensures { IsFirstNumber inst.now.tables (is_guard inst.now.tables mv.now.steps)
        (version_in versions.now) q result }
{
    let mut least = least_read(topo, inst, mv, versions, q);
    for j in 0..mv.steps() {
        least = lower_written(inst, mv, j, versions, q, least);
    }
    least
}

/// The least number of a guard that is not a write guard and has a version above q, and the number of all guards if
/// there is none.
#[tactic(auto, using(crate::proofs::LowestLemmas::read_none))]
pub(crate) fn least_read(
    topo: &Topology,
    inst: &Instance,
    mv: &Move,
    versions: &Versions,
    q: u64,
) -> u32
    requires topology { IsTopologyOf topo.now inst.now.tables }
    requires within { AreWithin inst.now.tables mv.now.steps }
    requires sized { IsTableOf inst.now.tables versions.now }
    ensures { IsFirstNumber inst.now.tables (reads_only inst.now.tables mv.now.steps)
        (version_in versions.now) q result }
{
    let mut least = inst.machines() + inst.services();
    for j in 0..mv.steps() {
        let service = inst.service_of(mv.step(j).process);
        least = lower_joined(topo, inst, mv, service, versions, q, least);
    }
    least
}

/// The least of a number and the numbers of the newer guards that a step writes.
fn lower_written(
    inst: &Instance,
    mv: &Move,
    j: u32,
    versions: &Versions,
    q: u64,
    before: u32,
) -> u32
    requires within { AreWithin inst.now.tables mv.now.steps }
    requires there { j < length mv.now.steps }
    requires sized { IsTableOf inst.now.tables versions.now }
    ensures { IsLower inst.now.tables (version_in versions.now) q
        (IsWrittenBy inst.now.tables mv.now.steps j) before result }
{
    let step = mv.step(j);
    let service = inst.service_of(step.process);
    let number = inst.machines() + service.0;
    let least = lower(versions, q, Guard::Machine(step.from), step.from.0, before);
    let least = lower(versions, q, Guard::Machine(step.to), step.to.0, least);
    lower(versions, q, Guard::Service(service), number, least)
}

/// The least of a number and the numbers of the newer services that are joined with a service and aren't moved.
fn lower_joined(
    topo: &Topology,
    inst: &Instance,
    mv: &Move,
    service: Service,
    versions: &Versions,
    q: u64,
    before: u32,
) -> u32
    requires topology { IsTopologyOf topo.now inst.now.tables }
    requires within { AreWithin inst.now.tables mv.now.steps }
    requires service { service.0 < service_count inst.now.tables }
    requires sized { IsTableOf inst.now.tables versions.now }
    ensures { IsLower inst.now.tables (version_in versions.now) q
        (IsReadBy inst.now.tables mv.now.steps service.0) before result }
{
    let least = lower_listed(inst, mv, topo.needs(service), versions, q, before);
    lower_listed(inst, mv, topo.dependants(service), versions, q, least)
}

/// The least of a number and the numbers of the newer services of a list that aren't moved.
#[tactic(auto, using(crate::proofs::LowestLemmas::listed_none))]
fn lower_listed(
    inst: &Instance,
    mv: &Move,
    services: &[Service],
    versions: &Versions,
    q: u64,
    before: u32,
) -> u32
    requires within { AreWithin inst.now.tables mv.now.steps }
    requires services { All (λ s. s.0 < service_count inst.now.tables) services.now }
    requires sized { IsTableOf inst.now.tables versions.now }
    ensures { IsLower inst.now.tables (version_in versions.now) q
        (IsReadIn inst.now.tables mv.now.steps services.now (length services.now)) before result }
{
    let mut least = before;
    for k in 0..services.len() {
        least = lower_service(inst, mv, services[k], versions, q, least);
    }
    least
}

/// The lesser of a number and the number of a service, if the service is newer and isn't moved.
fn lower_service(
    inst: &Instance,
    mv: &Move,
    service: Service,
    versions: &Versions,
    q: u64,
    before: u32,
) -> u32
    requires within { AreWithin inst.now.tables mv.now.steps }
    requires service { service.0 < service_count inst.now.tables }
    requires sized { IsTableOf inst.now.tables versions.now }
    ensures { IsLower inst.now.tables (version_in versions.now) q
        (IsReadOf inst.now.tables mv.now.steps service.0) before result }
{
    let number = inst.machines() + service.0;
    let least = lower(versions, q, Guard::Service(service), number, before);
    if least == before {
        return before;
    }
    if moves_service(inst, mv, service) {
        before
    } else {
        least
    }
}

/// The lesser of a number and the number of a guard, if the guard's version is above q.
#[tactic(auto, unfolding(crate::specs::Lowest::lowered))]
fn lower(versions: &Versions, q: u64, guard: Guard, number: u32, before: u32) -> u32
    requires { HasGuard versions.now guard }
    ensures { result ≡ lowered (version_in versions.now guard) q number before }
{
    if versions.of(guard) > q {
        before.min(number)
    } else {
        before
    }
}
