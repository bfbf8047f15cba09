ghost use Rattle.std.specs.Prelude.{◌≡◌, ◌*◌, ◌<◌, ◌≤◌, length};
ghost use Rattle.ra_model.specs.Numbers.{service_count, dependency_count, need_of};
ghost use Rattle.ra_model.specs.Services.{in_neighbourhood};
ghost use Rattle.ra_topology.specs.Fits.{IsTopologyOf};
ghost use Rattle.ra_topology.specs.Lists.{AreDependantsOf};
ghost use Rattle.ra_repair.specs.Keeping.{StandsForKept};
ghost use Rattle.ra_repair.specs.Touched.{is_missing, missing_near, is_link, links, left_alone, all_alone, far_near, far_between};

use crate::kept::Kept;
use ra_base::{Assignment, Service};
use ra_model::Instance;
use ra_topology::Topology;

/// How many processes in the neighbourhoods with these two labels lack one that they need, as `far_near` counts them; 0
/// if the labels are equal.
#[tactic(auto, unfolding(crate::specs::Touched::far_between))]
pub(crate) fn far_between(
    inst: &Instance,
    topo: &Topology,
    start: &Assignment,
    kept: &Kept<'_>,
    s: Service,
    left: u32,
    come: u32,
) -> u64
    requires topology { IsTopologyOf topo.now inst.now.tables }
    requires stands { StandsForKept kept.now inst.now.tables start.now.items }
    requires service { s.0 < service_count inst.now.tables }
    ensures value { result ≡
        far_between inst.now.tables kept.now.assignment.items s.0 left come }
    ensures few { result ≤ 500000000000000 }
{
    if left == come {
        0
    } else {
        far_near(inst, topo, start, kept, s, left) + far_near(inst, topo, start, kept, s, come)
    }
}

/// How many processes in the neighbourhood with this label lack one that they need: those of service `s`, or, if it has
/// none there, those of other services that depend on it. A process counts once for each dependency that fails.
#[tactic(auto, unfolding(crate::specs::Touched::far_near))]
fn far_near(
    inst: &Instance,
    topo: &Topology,
    start: &Assignment,
    kept: &Kept<'_>,
    s: Service,
    label: u32,
) -> u64
    requires topology { IsTopologyOf topo.now inst.now.tables }
    requires stands { StandsForKept kept.now inst.now.tables start.now.items }
    requires service { s.0 < service_count inst.now.tables }
    ensures value { result ≡ far_near inst.now.tables kept.now.assignment.items s.0 label }
    ensures few { result ≤ 250000000000000 }
{
    let here = near(inst, start, kept, s, label);
    if here == 0 {
        all_alone(inst, topo, start, kept, s, label)
    } else {
        here * missing_near(inst, start, kept, s, label)
    }
}

/// How many processes of a service are in the neighbourhood with this label.
pub(crate) fn near(
    inst: &Instance,
    start: &Assignment,
    kept: &Kept<'_>,
    s: Service,
    label: u32,
) -> u64
    requires stands { StandsForKept kept.now inst.now.tables start.now.items }
    requires service { s.0 < service_count inst.now.tables }
    ensures value { result ≡ in_neighbourhood inst.now.tables kept.now.assignment.items s.0 label }
    ensures few { result ≤ 50000 }
{
    let _few = inst.processes();
    u64::from(kept.cells.in_neighbourhood(s, label))
}

/// How many dependencies of a service have no process of the needed service there.
#[tactic(auto, using(ra_base::proofs::Counts::counts, crate::proofs::ReadLemmas::dependency_few), unfolding(crate::specs::Touched::missing_near))]
fn missing_near(inst: &Instance, start: &Assignment, kept: &Kept<'_>, s: Service, label: u32) -> u64
    requires stands { StandsForKept kept.now inst.now.tables start.now.items }
    requires service { s.0 < service_count inst.now.tables }
    ensures value { result ≡ missing_near inst.now.tables kept.now.assignment.items s.0 label }
    ensures few { result ≤ 100000 }
{
    let needs = inst.depends(s);
    let mut missing = 0;
    for k in 0..needs.len() {
        if is_missing(inst, start, kept, s, label, k, needs[k]) {
            missing += 1;
        }
    }
    missing
}

/// Whether a dependency of a service on `need` has no process of `need` there.
#[tactic(auto, using(crate::proofs::ReadLemmas::need_there), unfolding(crate::specs::Touched::is_missing))]
fn is_missing(
    inst: &Instance,
    start: &Assignment,
    kept: &Kept<'_>,
    s: Service,
    label: u32,
    k: usize,
    need: Service,
) -> bool
    requires stands { StandsForKept kept.now inst.now.tables start.now.items }
    requires service { s.0 < service_count inst.now.tables }
    requires dependency { k < dependency_count inst.now.tables s.0 }
    requires need { need.0 ≡ need_of inst.now.tables s.0 k }
    ensures { result ≡ is_missing inst.now.tables kept.now.assignment.items s.0 label k }
{
    near(inst, start, kept, need, label) == 0
}

/// How many of the dependencies of service `u` are on service `s`.
#[tactic(auto, using(ra_base::proofs::Counts::counts, crate::proofs::ReadLemmas::dependency_few), unfolding(crate::specs::Touched::links))]
fn links(inst: &Instance, s: Service, u: Service) -> u64
    requires { u.0 < service_count inst.now.tables }
    ensures value { result ≡ links inst.now.tables s.0 u.0 }
    ensures few { result ≤ 100000 }
{
    let needs = inst.depends(u);
    let mut count = 0;
    for k in 0..needs.len() {
        if is_link(inst, s, u, k, needs[k]) {
            count += 1;
        }
    }
    count
}

/// Whether a dependency of service `u`, which is on `need`, is on service `s`.
#[tactic(auto, unfolding(crate::specs::Touched::is_link))]
fn is_link(inst: &Instance, s: Service, u: Service, k: usize, need: Service) -> bool
    requires { need.0 ≡ need_of inst.now.tables u.0 k }
    ensures { result ≡ is_link inst.now.tables s.0 u.0 k }
{
    need.0 == s.0
}

/// How many processes of other services there lack one of service `s`, which has none there.
fn all_alone(
    inst: &Instance,
    topo: &Topology,
    start: &Assignment,
    kept: &Kept<'_>,
    s: Service,
    label: u32,
) -> u64
    requires topology { IsTopologyOf topo.now inst.now.tables }
    requires stands { StandsForKept kept.now inst.now.tables start.now.items }
    requires service { s.0 < service_count inst.now.tables }
    ensures value { result ≡ all_alone inst.now.tables kept.now.assignment.items s.0 label }
    ensures few { result ≤ 250000000000000 }
{
    let dependants = topo.dependants(s);
    let mut sum = 0;
    for j in 0..dependants.len() {
        sum += left_alone(inst, start, kept, s, label, dependants[j]);
    }
    sum
}

/// How many of these processes are of service `u`.
#[tactic(auto, unfolding(crate::specs::Touched::left_alone))]
fn left_alone(
    inst: &Instance,
    start: &Assignment,
    kept: &Kept<'_>,
    s: Service,
    label: u32,
    u: Service,
) -> u64
    requires stands { StandsForKept kept.now inst.now.tables start.now.items }
    requires service { u.0 < service_count inst.now.tables }
    ensures value { result ≡
        left_alone inst.now.tables kept.now.assignment.items s.0 label u.0 }
    ensures few { result ≤ 5000000000 }
{
    if u.0 == s.0 {
        return 0;
    }
    let here = near(inst, start, kept, u, label);
    if here == 0 {
        0
    } else {
        links(inst, s, u) * here
    }
}
