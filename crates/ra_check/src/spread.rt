ghost use Rattle.std.specs.Prelude.{◌≡◌, ◌+◌, ◌^◌, ◌<◌, length};
ghost use Rattle.ra_base.specs.Sums.{count};
ghost use Rattle.ra_model.specs.Numbers.{machine_count};
ghost use Rattle.ra_model.specs.Assignments.{IsAssignment};
ghost use Rattle.ra_model.specs.Broken.{broken_spread};
ghost use Rattle.ra_model.specs.Members.{AreMembers};
ghost use Rattle.ra_model.specs.Places.{ArePlaces};
ghost use Rattle.ra_check.specs.Services.{AreServicesOf};
ghost use Rattle.ra_check.specs.Stamps.{holds_site, AreSeated, ArePlacesBelow, AreMarksBelow};

use crate::services::Services;
use crate::stamps::{clear, location_place, stamp_place};
use ra_base::{Assignment, Cause, Fixed, Process, Service};
use ra_model::{Instance, Members, Places};

/// The first service whose processes are in fewer locations than its spread asks for.
pub(crate) fn broken_spread(
    inst: &Instance,
    a: &Assignment,
    services: &mut Services,
) -> Option<Cause>
    requires assigned { IsAssignment inst.now.tables a.now.items }
    requires made { AreServicesOf services.old inst.now.tables }
    ensures cause { result ≡ broken_spread inst.now.tables a.now.items }
    ensures made { AreServicesOf services.new inst.now.tables }
{
    clear(&mut services.marks);
    first_narrow(
        inst,
        a,
        &services.members,
        &services.places,
        &mut services.marks,
    )
}

/// The first service in too few locations, found with marks that are clear.
#[tactic(auto, using(ra_base::proofs::Searches::searches, crate::proofs::SpreadLemmas::spreads), unfolding(ra_model::specs::Broken::broken_spread))]
fn first_narrow(
    inst: &Instance,
    a: &Assignment,
    members: &Members,
    places: &Places,
    marks: &mut Fixed<u32>,
) -> Option<Cause>
    requires assigned { IsAssignment inst.now.tables a.now.items }
    requires members { AreMembers members.now inst.now.tables }
    requires places { ArePlaces places.now inst.now.tables }
    requires marks { AreMarksBelow marks.old.items (machine_count inst.now.tables) 1 }
    ensures cause { result ≡ broken_spread inst.now.tables a.now.items }
    ensures marks { length marks.new.items ≡ machine_count inst.now.tables }
{
    for s in 0..inst.services() {
        let service = Service(s);
        let has = count_locations(a, members.of(service), places, marks, s + 1);
        let wants = inst.spread_min(service);
        if has < wants {
            return Some(Cause::Spread {
                service,
                has,
                wants,
            });
        }
    }
    None
}

/// In how many locations the processes are. The locations get a stamp that no mark has yet.
#[tactic(auto, using(crate::proofs::SpreadLemmas::spreading), unfolding(crate::specs::Stamps::holds_site))]
fn count_locations(
    a: &Assignment,
    processes: &[Process],
    places: &Places,
    marks: &mut Fixed<u32>,
    stamp: u32,
) -> u32
    requires few { length processes.now < 2 ^ 32 }
    requires seated { AreSeated a.now.items processes.now (length marks.old.items) }
    requires placed { ArePlacesBelow places.now.locations (length marks.old.items) }
    requires fresh { AreMarksBelow marks.old.items (length marks.old.items) stamp }
    ensures count { result ≡ count (length marks.old.items)
        (holds_site places.now.locations a.now.items processes.now) }
    ensures marks { AreMarksBelow marks.new.items (length marks.old.items) (stamp + 1) }
{
    let mut has = 0;
    for k in 0..processes.len() {
        let place = location_place(places, a, processes, k);
        let again = stamp_place(marks, place, stamp);
        if !again {
            has += 1;
        }
    }
    has
}
