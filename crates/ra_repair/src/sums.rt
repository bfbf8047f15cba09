ghost use Rattle.std.specs.Prelude.{◌≡◌, ℕ, ◌*◌, ◌^◌, ◌<◌, ◌≤◌, length};
ghost use Rattle.ra_base.specs.Sums.{is_named, fresh};
ghost use Rattle.ra_model.specs.Numbers.{machine_count, service_count, process_count, dependency_count, need_of};
ghost use Rattle.ra_model.specs.Assignments.{IsAssignment};
ghost use Rattle.ra_model.specs.Members.{AreProcessesOf};
ghost use Rattle.ra_topology.specs.Fits.{IsTopologyOf};
ghost use Rattle.ra_repair.specs.Keeping.{StandsForKept};
ghost use Rattle.ra_repair.specs.Members.{seat_of, is_far};
ghost use Rattle.ra_repair.specs.Penalty.{capacity_penalty, transient_penalty, crowd_on, service_crowd, conflict_penalty, spread_penalty, pair_far, service_far, dependency_penalty, closed_penalty, penalty};

use crate::above::{row_above, row_transient_above};
use crate::apart::{closed_now, crowd_on, spread_lack};
use crate::far::near;
use crate::kept::Kept;
use ra_base::{Assignment, Machine, Process, Service};
use ra_model::{Instance, machine_of};
use ra_topology::Topology;

/// The penalty of the kept assignment, summed up from its rows and counters.
#[tactic(auto, unfolding(crate::specs::Penalty::penalty))]
pub(crate) fn penalty_now(
    inst: &Instance,
    topo: &Topology,
    start: &Assignment,
    kept: &Kept<'_>,
) -> u128
    requires start { IsAssignment inst.now.tables start.now.items }
    requires topology { IsTopologyOf topo.now inst.now.tables }
    requires stands { StandsForKept kept.now inst.now.tables start.now.items }
    ensures { result ≡ penalty inst.now.tables start.now.items kept.now.assignment.items }
{
    capacity_sum(inst, start, kept)
        + transient_sum(inst, start, kept)
        + u128::from(conflict_sum(inst, topo, start, kept))
        + u128::from(spread_sum(inst, start, kept))
        + u128::from(dependency_sum(inst, topo, start, kept))
        + u128::from(closed_sum(inst, start, kept))
}

/// The use of all resources of all machines above their capacities.
#[tactic(auto, using(ra_base::proofs::Sums::sums), unfolding(crate::specs::Penalty::capacity_penalty))]
fn capacity_sum(inst: &Instance, start: &Assignment, kept: &Kept<'_>) -> u128
    requires stands { StandsForKept kept.now inst.now.tables start.now.items }
    ensures value { result ≡ capacity_penalty inst.now.tables kept.now.assignment.items }
    ensures few { result ≤ 5000 * (20 * 2 ^ 48) }
{
    let mut sum = 0;
    for m in 0..inst.machines() {
        sum += u128::from(row_above(inst, start, kept, Machine(m)));
    }
    sum
}

/// The transient use of all transient resources of all machines above their capacities.
#[tactic(auto, using(ra_base::proofs::Sums::sums), unfolding(crate::specs::Penalty::transient_penalty))]
fn transient_sum(inst: &Instance, start: &Assignment, kept: &Kept<'_>) -> u128
    requires stands { StandsForKept kept.now inst.now.tables start.now.items }
    ensures value { result ≡
        transient_penalty inst.now.tables start.now.items kept.now.assignment.items }
    ensures few { result ≤ 5000 * (20 * 2 ^ 48) }
{
    let mut sum = 0;
    for m in 0..inst.machines() {
        sum += u128::from(row_transient_above(inst, start, kept, Machine(m)));
    }
    sum
}

/// How many more locations all services together need for their spreads.
#[tactic(auto, using(ra_base::proofs::Sums::sums), unfolding(crate::specs::Penalty::spread_penalty))]
fn spread_sum(inst: &Instance, start: &Assignment, kept: &Kept<'_>) -> u64
    requires stands { StandsForKept kept.now inst.now.tables start.now.items }
    ensures value { result ≡ spread_penalty inst.now.tables kept.now.assignment.items }
    ensures few { result ≤ 50000 * 2 ^ 32 }
{
    let mut sum = 0;
    for s in 0..inst.services() {
        sum += spread_lack(inst, start, kept, Service(s));
    }
    sum
}

/// How many processes are on a closed machine which isn't their initial one.
#[tactic(auto, using(ra_model::proofs::TallyLemmas::tallies), unfolding(crate::specs::Penalty::closed_penalty))]
fn closed_sum(inst: &Instance, start: &Assignment, kept: &Kept<'_>) -> u64
    requires start { IsAssignment inst.now.tables start.now.items }
    requires stands { StandsForKept kept.now inst.now.tables start.now.items }
    ensures value { result ≡
        closed_penalty inst.now.tables start.now.items kept.now.assignment.items }
    ensures few { result ≤ 50000 }
{
    let mut sum = 0;
    for p in 0..inst.processes() {
        sum += closed_now(inst, start, kept, Process(p));
    }
    sum
}

/// How many processes of all services are too many on their machines.
#[tactic(auto, using(ra_base::proofs::Sums::sums), unfolding(crate::specs::Penalty::conflict_penalty))]
fn conflict_sum(inst: &Instance, topo: &Topology, start: &Assignment, kept: &Kept<'_>) -> u64
    requires topology { IsTopologyOf topo.now inst.now.tables }
    requires stands { StandsForKept kept.now inst.now.tables start.now.items }
    ensures value { result ≡ conflict_penalty inst.now.tables kept.now.assignment.items }
    ensures few { result ≤ 50000 * 2500000000 }
{
    let mut sum = 0;
    for s in 0..inst.services() {
        sum += service_crowd(inst, topo, start, kept, Service(s));
    }
    sum
}

/// How many processes of a service are too many on their machines. Each machine is counted at its first process of the
/// service.
fn service_crowd(
    inst: &Instance,
    topo: &Topology,
    start: &Assignment,
    kept: &Kept<'_>,
    s: Service,
) -> u64
    requires topology { IsTopologyOf topo.now inst.now.tables }
    requires stands { StandsForKept kept.now inst.now.tables start.now.items }
    requires service { s.0 < service_count inst.now.tables }
    ensures value { result ≡ service_crowd inst.now.tables kept.now.assignment.items s.0 }
    ensures few { result ≤ 2500000000 }
{
    let members = topo.members(s);
    let mut sum = 0;
    for k in 0..members.len() {
        sum += crowd_at(inst, start, kept, s, members, k);
    }
    sum
}

/// How many processes of a service are too many on the machine of one of them, if no earlier one is there.
#[tactic(auto, using(ra_base::proofs::Named::names))]
fn crowd_at(
    inst: &Instance,
    start: &Assignment,
    kept: &Kept<'_>,
    s: Service,
    members: &[Process],
    k: usize,
) -> u64
    requires stands { StandsForKept kept.now inst.now.tables start.now.items }
    requires service { s.0 < service_count inst.now.tables }
    requires members { AreProcessesOf inst.now.tables s.0 members.now }
    requires member { k < length members.now }
    ensures value { result ≡ fresh (seat_of kept.now.assignment.items members.now)
        (crowd_on inst.now.tables kept.now.assignment.items s.0) k }
    ensures few { result ≤ 50000 }
{
    let at = seat(inst, start, kept, s, members, k);
    let crowd = crowd_on(inst, start, kept, s, at);
    if crowd > 0 && !is_seated(inst, start, kept, s, members, k, at) {
        crowd
    } else {
        0
    }
}

/// Whether one of the first processes of a service is on a machine.
#[tactic(auto, using(ra_base::proofs::Named::names))]
fn is_seated(
    inst: &Instance,
    start: &Assignment,
    kept: &Kept<'_>,
    s: Service,
    members: &[Process],
    count: usize,
    at: Machine,
) -> bool
    requires stands { StandsForKept kept.now inst.now.tables start.now.items }
    requires members { AreProcessesOf inst.now.tables s.0 members.now }
    requires count { count ≤ length members.now }
    ensures { result ≡ is_named count (seat_of kept.now.assignment.items members.now) at.0 }
{
    for j in 0..count {
        if seat(inst, start, kept, s, members, j).0 == at.0 {
            return true;
        }
    }
    false
}

/// The machine of a process of a service.
fn seat(
    inst: &Instance,
    start: &Assignment,
    kept: &Kept<'_>,
    s: Service,
    members: &[Process],
    k: usize,
) -> Machine
    requires stands { StandsForKept kept.now inst.now.tables start.now.items }
    requires members { AreProcessesOf inst.now.tables s.0 members.now }
    requires member { k < length members.now }
    ensures value { result.0 ≡ seat_of kept.now.assignment.items members.now k }
    ensures there { result.0 < machine_count inst.now.tables }
{
    machine_of(&kept.assignment, members[k])
}

/// How many processes are far from what their services need, once for each dependency.
#[tactic(auto, using(ra_base::proofs::Sums::sums), unfolding(crate::specs::Penalty::dependency_penalty))]
fn dependency_sum(inst: &Instance, topo: &Topology, start: &Assignment, kept: &Kept<'_>) -> u64
    requires topology { IsTopologyOf topo.now inst.now.tables }
    requires stands { StandsForKept kept.now inst.now.tables start.now.items }
    ensures value { result ≡ dependency_penalty inst.now.tables kept.now.assignment.items }
    ensures few { result ≤ 50000 * 5000000000 }
{
    let mut sum = 0;
    for s in 0..inst.services() {
        sum += service_far(inst, topo, start, kept, Service(s));
    }
    sum
}

/// How many processes of one service are far from what the service needs, once for each of its dependencies.
#[tactic(auto, using(ra_base::proofs::Sums::sums, crate::proofs::ReadLemmas::dependency_few), unfolding(crate::specs::Penalty::service_far))]
fn service_far(
    inst: &Instance,
    topo: &Topology,
    start: &Assignment,
    kept: &Kept<'_>,
    s: Service,
) -> u64
    requires topology { IsTopologyOf topo.now inst.now.tables }
    requires stands { StandsForKept kept.now inst.now.tables start.now.items }
    requires service { s.0 < service_count inst.now.tables }
    ensures value { result ≡ service_far inst.now.tables kept.now.assignment.items s.0 }
    ensures few { result ≤ 5000000000 }
{
    let members = topo.members(s);
    let needs = inst.depends(s);
    let mut sum = 0;
    for k in 0..needs.len() {
        sum += pair_far(inst, start, kept, s, members, k, needs[k]);
    }
    sum
}

/// How many processes of a service are far from every process of service `need`, on which it depends.
#[tactic(auto, using(ra_base::proofs::Counts::counts))]
fn pair_far(
    inst: &Instance,
    start: &Assignment,
    kept: &Kept<'_>,
    s: Service,
    members: &[Process],
    k: usize,
    need: Service,
) -> u64
    requires stands { StandsForKept kept.now inst.now.tables start.now.items }
    requires service { s.0 < service_count inst.now.tables }
    requires members { AreProcessesOf inst.now.tables s.0 members.now }
    requires dependency { k < dependency_count inst.now.tables s.0 }
    requires need { need.0 ≡ need_of inst.now.tables s.0 k }
    ensures value { result ≡ pair_far inst.now.tables kept.now.assignment.items s.0 k }
    ensures few { result ≤ 50000 }
{
    let mut far = 0;
    for j in 0..members.len() {
        if is_far(inst, start, kept, s, members, j, k, need) {
            far += 1;
        }
    }
    far
}

/// Whether a process of a service has no process of a service that it needs in its neighbourhood.
fn is_far(
    inst: &Instance,
    start: &Assignment,
    kept: &Kept<'_>,
    s: Service,
    members: &[Process],
    j: usize,
    k: usize,
    need: Service,
) -> bool
    requires stands { StandsForKept kept.now inst.now.tables start.now.items }
    requires service { s.0 < service_count inst.now.tables }
    requires members { AreProcessesOf inst.now.tables s.0 members.now }
    requires member { j < length members.now }
    requires dependency { k < dependency_count inst.now.tables s.0 }
    requires need { need.0 ≡ need_of inst.now.tables s.0 k }
    ensures { result ≡ is_far inst.now.tables kept.now.assignment.items members.now s.0 k j }
{
    let label = inst.neighbourhood(seat(inst, start, kept, s, members, j));
    near(inst, start, kept, need, label) == 0
}
