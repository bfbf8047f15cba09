ghost use Rattle.std.specs.Prelude.{◌≡◌, ◌+◌, ◌<◌, length};
ghost use Rattle.ra_base.specs.Searches.{first};
ghost use Rattle.ra_model.specs.Numbers.{machine_count};
ghost use Rattle.ra_model.specs.Assignments.{IsAssignment};
ghost use Rattle.ra_model.specs.Broken.{broken_conflict};
ghost use Rattle.ra_model.specs.Members.{AreMembers};
ghost use Rattle.ra_check.specs.Services.{AreServicesOf};
ghost use Rattle.ra_check.specs.Stamps.{seat_of, AreSeated, AreMarksBelow, crowd_test, least_with};

use crate::services::Services;
use crate::stamps::{clear, seat, stamp_place};
use ra_base::{Assignment, Cause, Fixed, Machine, Process, Service};
use ra_model::{Instance, Members};

/// The first service with two processes on one machine, and its first such machine.
pub(crate) fn broken_conflict(
    inst: &Instance,
    a: &Assignment,
    services: &mut Services,
) -> Option<Cause>
    requires assigned { IsAssignment inst.now.tables a.now.items }
    requires made { AreServicesOf services.old inst.now.tables }
    ensures cause { result ≡ broken_conflict inst.now.tables a.now.items }
    ensures made { AreServicesOf services.new inst.now.tables }
{
    clear(&mut services.marks);
    first_conflict(inst, a, &services.members, &mut services.marks)
}

/// The first conflict, found with marks that are clear.
#[tactic(auto, using(ra_base::proofs::Searches::searches, crate::proofs::ConflictLemmas::conflicts), unfolding(ra_model::specs::Broken::broken_conflict))]
fn first_conflict(
    inst: &Instance,
    a: &Assignment,
    members: &Members,
    marks: &mut Fixed<u32>,
) -> Option<Cause>
    requires assigned { IsAssignment inst.now.tables a.now.items }
    requires members { AreMembers members.now inst.now.tables }
    requires marks { AreMarksBelow marks.old.items (machine_count inst.now.tables) 1 }
    ensures cause { result ≡ broken_conflict inst.now.tables a.now.items }
    ensures marks { length marks.new.items ≡ machine_count inst.now.tables }
{
    for s in 0..inst.services() {
        let service = Service(s);
        if let Some(machine) = crowded(a, members.of(service), marks, s + 1) {
            return Some(Cause::Conflict { service, machine });
        }
    }
    None
}

/// The first machine with two of the processes. The machines get a stamp that no mark has yet.
#[tactic(auto, using(crate::proofs::ConflictLemmas::crowds))]
fn crowded(
    a: &Assignment,
    processes: &[Process],
    marks: &mut Fixed<u32>,
    stamp: u32,
) -> Option<Machine>
    requires seated { AreSeated a.now.items processes.now (length marks.old.items) }
    requires fresh { AreMarksBelow marks.old.items (length marks.old.items) stamp }
    ensures machine { result ≡ first (length marks.old.items)
        (crowd_test (seat_of a.now.items processes.now) (length processes.now)) }
    ensures marks { AreMarksBelow marks.new.items (length marks.old.items) (stamp + 1) }
{
    let mut least = None;
    for k in 0..processes.len() {
        let machine = seat(a, processes, k);
        let again = stamp_place(marks, machine, stamp);
        least = lower(least, again, machine);
    }
    least
}

/// The lesser of what was found and a machine, if the machine counts.
#[tactic(auto, unfolding(crate::specs::Stamps::least_with))]
fn lower(least: Option<Machine>, again: bool, machine: Machine) -> Option<Machine>
    ensures { result ≡ least_with least again machine }
{
    match (least, again) {
        (found, false) => found,
        (None, true) => Some(machine),
        (Some(l), true) => {
            if machine.0 < l.0 {
                Some(machine)
            } else {
                Some(l)
            }
        }
    }
}
