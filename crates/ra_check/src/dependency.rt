ghost use Rattle.std.specs.Prelude.{◌≡◌, ◌+◌, ◌^◌, ◌<◌, length};
ghost use Rattle.ra_base.specs.Searches.{first};
ghost use Rattle.ra_model.specs.Numbers.{machine_count, service_count};
ghost use Rattle.ra_model.specs.Assignments.{IsAssignment};
ghost use Rattle.ra_model.specs.Broken.{broken_dependency, service_dependency};
ghost use Rattle.ra_model.specs.Members.{members_of, AreMembers};
ghost use Rattle.ra_model.specs.Places.{ArePlaces};
ghost use Rattle.ra_check.specs.Services.{AreServicesOf};
ghost use Rattle.ra_check.specs.Stamps.{holds_site, AreSeated, ArePlacesBelow, AreMarksBelow, AreSet, TellTrue};
ghost use Rattle.ra_check.specs.Stamps.{far_seat};

use crate::services::Services;
use crate::stamps::{clear, is_stamped, neighbourhood_place, seat};
use ra_base::{Assignment, Cause, Fixed, Machine, Process, Service};
use ra_model::{Instance, Members, Places};

/// The first service that has a process without a process of a service that it needs in its neighbourhood, its first
/// such dependency and its first such process.
pub(crate) fn broken_dependency(
    inst: &Instance,
    a: &Assignment,
    services: &mut Services,
) -> Option<Cause>
    requires assigned { IsAssignment inst.now.tables a.now.items }
    requires made { AreServicesOf services.old inst.now.tables }
    ensures cause { result ≡ broken_dependency inst.now.tables a.now.items }
    ensures made { AreServicesOf services.new inst.now.tables }
{
    clear(&mut services.marks);
    first_apart(
        inst,
        a,
        &services.members,
        &services.places,
        &mut services.marks,
    )
}

/// The first broken dependency, found with marks that are clear.
#[tactic(auto, using(ra_base::proofs::Searches::searches, crate::proofs::DependencyLemmas::true_clear), unfolding(ra_model::specs::Broken::broken_dependency))]
fn first_apart(
    inst: &Instance,
    a: &Assignment,
    members: &Members,
    places: &Places,
    marks: &mut Fixed<u32>,
) -> Option<Cause>
    requires assigned { IsAssignment inst.now.tables a.now.items }
    requires members { AreMembers members.now inst.now.tables }
    requires places { ArePlaces places.now inst.now.tables }
    requires marks { AreMarksBelow marks.old.items (machine_count inst.now.tables) 1 }
    ensures cause { result ≡ broken_dependency inst.now.tables a.now.items }
    ensures marks { length marks.new.items ≡ machine_count inst.now.tables }
{
    let mut last = 0;
    for s in 0..inst.services() {
        if let Some(cause) = service_apart(inst, a, members, places, marks, &mut last, Service(s)) {
            return Some(cause);
        }
    }
    None
}

/// The first broken dependency of a service. `last` is the stamp that was set last.
#[tactic(auto, using(ra_base::proofs::Searches::searches, crate::proofs::DependencyLemmas::pairs), unfolding(ra_model::specs::Broken::service_dependency))]
fn service_apart(
    inst: &Instance,
    a: &Assignment,
    members: &Members,
    places: &Places,
    marks: &mut Fixed<u32>,
    last: &mut u32,
    service: Service,
) -> Option<Cause>
    requires assigned { IsAssignment inst.now.tables a.now.items }
    requires members { AreMembers members.now inst.now.tables }
    requires places { ArePlaces places.now inst.now.tables }
    requires there { service.0 < service_count inst.now.tables }
    requires marks { TellTrue members.now places.now.neighbourhoods a.now.items
        (machine_count inst.now.tables) marks.old.items last.old }
    ensures cause { result ≡ service_dependency inst.now.tables a.now.items service.0 }
    ensures marks { TellTrue members.now places.now.neighbourhoods a.now.items
        (machine_count inst.now.tables) marks.new.items last.new }
{
    let own = members.of(service);
    let all_needs = inst.depends(service);
    for k in 0..all_needs.len() {
        let needs = all_needs[k];
        stamp_service(a, members, places, marks, last, needs);
        if let Some(machine) = first_far(a, own, places, marks, needs.0 + 1) {
            return Some(Cause::Dependency {
                service,
                needs,
                neighbourhood: inst.neighbourhood(machine),
            });
        }
    }
    None
}

/// Stamps the neighbourhoods that have a process of a service, unless this service was stamped last.
#[tactic(auto, using(crate::proofs::DependencyLemmas::true_set))]
fn stamp_service(
    a: &Assignment,
    members: &Members,
    places: &Places,
    marks: &mut Fixed<u32>,
    last: &mut u32,
    service: Service,
)
    requires there { service.0 < length members.now }
    requires small { service.0 + 1 < 2 ^ 32 }
    requires seated { AreSeated a.now.items (members_of members.now service.0)
        (length marks.old.items) }
    requires placed { ArePlacesBelow places.now.neighbourhoods (length marks.old.items) }
    requires marks { TellTrue members.now places.now.neighbourhoods a.now.items
        (length marks.old.items) marks.old.items last.old }
    ensures marks { TellTrue members.now places.now.neighbourhoods a.now.items
        (length marks.old.items) marks.new.items last.new }
    ensures last { last.new ≡ service.0 + 1 }
{
    let stamp = service.0 + 1;
    if *last != stamp {
        stamp_all(a, members.of(service), places, marks, stamp);
        *last = stamp;
    }
}

/// Stamps the neighbourhood of each process.
#[tactic(auto, using(crate::proofs::DependencyLemmas::setting), unfolding(crate::specs::Stamps::holds_site))]
fn stamp_all(
    a: &Assignment,
    processes: &[Process],
    places: &Places,
    marks: &mut Fixed<u32>,
    stamp: u32,
)
    requires seated { AreSeated a.now.items processes.now (length marks.old.items) }
    requires placed { ArePlacesBelow places.now.neighbourhoods (length marks.old.items) }
    ensures { AreSet marks.old.items marks.new.items stamp
        (holds_site places.now.neighbourhoods a.now.items processes.now) }
{
    for k in 0..processes.len() {
        let place = neighbourhood_place(places, a, processes, k);
        marks.set(place.0 as usize, stamp);
    }
}

/// The machine of the first process whose neighbourhood doesn't have the stamp.
#[tactic(auto, using(ra_base::proofs::Searches::searches, crate::proofs::DependencyLemmas::far_seats))]
fn first_far(
    a: &Assignment,
    processes: &[Process],
    places: &Places,
    marks: &Fixed<u32>,
    stamp: u32,
) -> Option<Machine>
    requires seated { AreSeated a.now.items processes.now (length marks.now.items) }
    requires placed { ArePlacesBelow places.now.neighbourhoods (length marks.now.items) }
    ensures { result ≡ first (length processes.now)
        (far_seat marks.now.items stamp places.now.neighbourhoods a.now.items processes.now) }
{
    for k in 0..processes.len() {
        let place = neighbourhood_place(places, a, processes, k);
        if !is_stamped(marks, place, stamp) {
            return Some(seat(a, processes, k));
        }
    }
    None
}
