ghost use Rattle.std.specs.Prelude.{◌≡◌, ◌<◌};
ghost use Rattle.ra_model.specs.Numbers.{service_count};
ghost use Rattle.ra_model.specs.Relations.{depends, are_joined};
ghost use Rattle.ra_moves.specs.Touched.{moves_service, reads_service, guards_service};
ghost use Rattle.ra_guards.specs.Guards.{AreKnown};

use ra_base::Service;
use ra_model::Instance;
use ra_moves::Move;

/// Whether a service is a guard of a move.
#[tactic(auto, unfolding(ra_moves::specs::Touched::guards_service))]
pub(crate) fn guards_service(inst: &Instance, mv: &Move, service: Service) -> bool
    requires known { AreKnown inst.now.tables mv.now.steps }
    requires there { service.0 < service_count inst.now.tables }
    ensures { result ≡ guards_service inst.now.tables mv.now.steps service.0 }
{
    moves_service(inst, mv, service) || reads_service(inst, mv, service)
}

/// Whether a process of a service moves.
#[tactic(auto, using(ra_base::proofs::Named::names, crate::proofs::GuardLemmas::known, crate::proofs::GuardLemmas::service_at), unfolding(ra_moves::specs::Touched::moves_service))]
pub(crate) fn moves_service(inst: &Instance, mv: &Move, service: Service) -> bool
    requires known { AreKnown inst.now.tables mv.now.steps }
    ensures { result ≡ moves_service inst.now.tables mv.now.steps service.0 }
{
    for j in 0..mv.steps() {
        if inst.service_of(mv.step(j).process).0 == service.0 {
            return true;
        }
    }
    false
}

/// Whether a service that moves depends on a service, or that service on one that moves.
#[tactic(auto, using(crate::proofs::GuardLemmas::known, crate::proofs::GuardLemmas::joins))]
fn reads_service(inst: &Instance, mv: &Move, service: Service) -> bool
    requires known { AreKnown inst.now.tables mv.now.steps }
    requires there { service.0 < service_count inst.now.tables }
    ensures { result ≡ reads_service inst.now.tables mv.now.steps service.0 }
{
    for j in 0..mv.steps() {
        if are_joined(inst, inst.service_of(mv.step(j).process), service) {
            return true;
        }
    }
    false
}

/// Whether one of two services depends on the other.
#[tactic(auto, unfolding(ra_model::specs::Relations::are_joined))]
fn are_joined(inst: &Instance, one: Service, other: Service) -> bool
    requires one { one.0 < service_count inst.now.tables }
    requires other { other.0 < service_count inst.now.tables }
    ensures { result ≡ are_joined inst.now.tables one.0 other.0 }
{
    depends(inst, one, other) || depends(inst, other, one)
}

/// Whether a service depends on another.
#[tactic(auto, using(ra_base::proofs::Named::names, crate::proofs::GuardLemmas::need_read), unfolding(ra_model::specs::Relations::depends))]
fn depends(inst: &Instance, service: Service, on: Service) -> bool
    requires { service.0 < service_count inst.now.tables }
    ensures { result ≡ depends inst.now.tables service.0 on.0 }
{
    let needs = inst.depends(service);
    for k in 0..needs.len() {
        if needs[k].0 == on.0 {
            return true;
        }
    }
    false
}
