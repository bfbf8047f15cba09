//! What an edit breaks, searched for only where it can break something.
ghost use Rattle.std.specs.Prelude.{◌≡◌, ℕ, ◌<◌, true, length};
ghost use Rattle.ra_base.specs.Searches.{or_else, first};
ghost use Rattle.ra_model.specs.Numbers.{resource_count, machine_count, service_count, dependency_count, need_of, neighbourhood_of, service_of, transient_at};
ghost use Rattle.ra_model.specs.Broken.{capacity_test, row_capacity, transient_test, row_transient, conflict_test, spread_test};
ghost use Rattle.ra_model.specs.Usage.{use_of, transient_of};
ghost use Rattle.ra_model.specs.Assignments.{machine_at};
ghost use Rattle.ra_model.specs.Services.{locations_of};
ghost use Rattle.ra_topology.specs.Fits.{IsTopologyOf};
ghost use Rattle.ra_edit.specs.Keeping.{drafted, tables_with, IsSoundDraft};
ghost use Rattle.ra_edit.specs.Drafts.{Drafted, instance_of};
ghost use Rattle.ra_edit.specs.Kinds.{HasCome, HasGone, IsLeft};
ghost use Rattle.ra_edit.specs.Members.{AreMembersOf};
ghost use Rattle.ra_edit.specs.Loads.{IsUseRow, IsTransientRowOfDraft};
ghost use Rattle.ra_edit.specs.Touched.{far_from, added_breaks, cause_if_left_alone, left_by, retired_breaks};
ghost use Rattle.ra_edit.specs.Touched.{resized_breaks};

use crate::lists::Lists;
use crate::members::{Members, Spot};
use ra_base::{Cause, Machine, Process, Resource, Service};
use ra_model::Instance;
use ra_topology::Topology;

/// What one more process breaks on its initial machine, given the use of this machine with it.
pub(crate) fn added_breaks(
    inst: &Instance,
    members: &Members,
    s: Service,
    m: Machine,
    used: &[u64],
    between: &[u64],
) -> Option<Cause>
    requires service { s.0 < service_count inst.now.tables }
    requires machine { m.0 < machine_count inst.now.tables }
    requires used { length used.now ≡ resource_count inst.now.tables }
    requires between { length between.now ≡ resource_count inst.now.tables }
    ensures { (d e : Drafted) → d.origin ≡ inst.now.tables → AreMembersOf d members.now →
        HasCome d e s.0 m.0 → IsUseRow e m.0 used.now → IsTransientRowOfDraft e m.0 between.now →
        result ≡ added_breaks (instance_of e) e.initial e.current s.0 m.0 }
{
    if let Some(cause) = row_capacity(inst, m, used) {
        return Some(cause);
    }
    if let Some(cause) = row_transient(inst, m, between) {
        return Some(cause);
    }
    if let Some(cause) = conflict_test(members, s, m) {
        return Some(cause);
    }
    far_needs(inst, members, s, m)
}

/// What a process less breaks, given its service and its machine.
pub(crate) fn retired_breaks(
    inst: &Instance,
    lists: &Lists,
    members: &Members,
    topo: &Topology,
    p: Process,
    s: Service,
    at: Machine,
) -> Option<Cause>
    requires sound { IsSoundDraft (drafted inst.now.tables lists.now) }
    requires members { AreMembersOf (drafted inst.now.tables lists.now) members.now }
    requires topology { IsTopologyOf topo.now inst.now.tables }
    requires service { s.0 < service_count inst.now.tables }
    requires process { p.0 < length lists.now.rows.items }
    requires machine { at.0 < machine_count inst.now.tables }
    requires mine { s.0 ≡ service_of (tables_with inst.now.tables lists.now) p.0 }
    requires here { at.0 ≡ machine_at lists.now.current.items p.0 }
    ensures { (e : Drafted) → HasGone (drafted inst.now.tables lists.now) e p.0 → result ≡
        retired_breaks (instance_of e) e.current s.0 (neighbourhood_of inst.now.tables at.0) }
{
    if let Some(cause) = spread_test(inst, lists, members, p, s, at) {
        return Some(cause);
    }
    first_left(inst, lists, members, topo, p, s, at)
}

/// What other requirements of a process break, given the use of its machine with them, and the transient use of this
/// machine and of its initial machine.
pub(crate) fn resized_breaks(
    inst: &Instance,
    home: Machine,
    here: Machine,
    used: &[u64],
    at_home: &[u64],
    at_here: &[u64],
) -> Option<Cause>
    requires home { home.0 < machine_count inst.now.tables }
    requires here { here.0 < machine_count inst.now.tables }
    requires used { length used.now ≡ resource_count inst.now.tables }
    requires at_home { length at_home.now ≡ resource_count inst.now.tables }
    requires at_here { length at_here.now ≡ resource_count inst.now.tables }
    ensures { (e : Drafted) → e.origin ≡ inst.now.tables → IsUseRow e here.0 used.now →
        IsTransientRowOfDraft e home.0 at_home.now → IsTransientRowOfDraft e here.0 at_here.now →
        result ≡ resized_breaks (instance_of e) e.initial e.current home.0 here.0 }
{
    if let Some(cause) = row_capacity(inst, here, used) {
        return Some(cause);
    }
    if home.0 < here.0 {
        two_transients(inst, home, at_home, here, at_here)
    } else {
        two_transients(inst, here, at_here, home, at_home)
    }
}

/// The first transient use above a capacity at one machine, then at another.
fn two_transients(
    inst: &Instance,
    m: Machine,
    at_m: &[u64],
    n: Machine,
    at_n: &[u64],
) -> Option<Cause>
    requires first { m.0 < machine_count inst.now.tables }
    requires second { n.0 < machine_count inst.now.tables }
    requires at_first { length at_m.now ≡ resource_count inst.now.tables }
    requires at_second { length at_n.now ≡ resource_count inst.now.tables }
    ensures { (e : Drafted) → e.origin ≡ inst.now.tables → IsTransientRowOfDraft e m.0 at_m.now →
        IsTransientRowOfDraft e n.0 at_n.now →
        result ≡ or_else (row_transient (instance_of e) e.initial e.current m.0)
        (row_transient (instance_of e) e.initial e.current n.0) }
{
    if let Some(cause) = row_transient(inst, m, at_m) {
        return Some(cause);
    }
    row_transient(inst, n, at_n)
}

/// The first use on a machine that is above its capacity.
fn row_capacity(inst: &Instance, m: Machine, row: &[u64]) -> Option<Cause>
    requires machine { m.0 < machine_count inst.now.tables }
    requires one_each { length row.now ≡ resource_count inst.now.tables }
    ensures { (e : Drafted) → e.origin ≡ inst.now.tables → IsUseRow e m.0 row.now →
        result ≡ row_capacity (instance_of e) e.current m.0 }
{
    for r in 0..inst.resources() {
        if let Some(cause) = capacity_test(inst, m, Resource(r), row[r as usize]) {
            return Some(cause);
        }
    }
    None
}

/// The use of a resource of a machine, if it is above its capacity.
fn capacity_test(inst: &Instance, m: Machine, r: Resource, used: u64) -> Option<Cause>
    requires machine { m.0 < machine_count inst.now.tables }
    requires resource { r.0 < resource_count inst.now.tables }
    ensures { (e : Drafted) → e.origin ≡ inst.now.tables →
        used ≡ use_of (instance_of e) e.current m.0 r.0 →
        result ≡ capacity_test (instance_of e) e.current m.0 r.0 }
{
    let cap = inst.capacity(m, r);
    if u64::from(cap) < used {
        Some(Cause::Capacity {
            machine: m,
            resource: r,
            used,
            cap,
        })
    } else {
        None
    }
}

/// The first transient use on a machine that is above its capacity.
fn row_transient(inst: &Instance, m: Machine, row: &[u64]) -> Option<Cause>
    requires machine { m.0 < machine_count inst.now.tables }
    requires one_each { length row.now ≡ resource_count inst.now.tables }
    ensures { (e : Drafted) → e.origin ≡ inst.now.tables → IsTransientRowOfDraft e m.0 row.now →
        result ≡ row_transient (instance_of e) e.initial e.current m.0 }
{
    for r in 0..inst.resources() {
        if let Some(cause) = transient_test(inst, m, Resource(r), row[r as usize]) {
            return Some(cause);
        }
    }
    None
}

/// The transient use of a resource of a machine, if the resource is transient and the use above its capacity.
fn transient_test(inst: &Instance, m: Machine, r: Resource, used: u64) -> Option<Cause>
    requires machine { m.0 < machine_count inst.now.tables }
    requires resource { r.0 < resource_count inst.now.tables }
    ensures { (e : Drafted) → e.origin ≡ inst.now.tables →
        used ≡ transient_of (instance_of e) e.initial e.current m.0 r.0 →
        result ≡ transient_test (instance_of e) e.initial e.current m.0 r.0 }
{
    if inst.transient(r) {
        over_capacity(inst, m, r, used)
    } else {
        None
    }
}

/// The transient use of a transient resource of a machine, if it is above its capacity.
fn over_capacity(inst: &Instance, m: Machine, r: Resource, used: u64) -> Option<Cause>
    requires machine { m.0 < machine_count inst.now.tables }
    requires resource { r.0 < resource_count inst.now.tables }
    requires transient { transient_at inst.now.tables r.0 ≡ true }
    ensures { (e : Drafted) → e.origin ≡ inst.now.tables →
        used ≡ transient_of (instance_of e) e.initial e.current m.0 r.0 →
        result ≡ transient_test (instance_of e) e.initial e.current m.0 r.0 }
{
    let cap = inst.capacity(m, r);
    if u64::from(cap) < used {
        Some(Cause::Transient {
            machine: m,
            resource: r,
            used,
            cap,
        })
    } else {
        None
    }
}

/// The conflict of a process of a service on a machine with one that comes there.
fn conflict_test(members: &Members, s: Service, m: Machine) -> Option<Cause>
    ensures { (d e : Drafted) → AreMembersOf d members.now → HasCome d e s.0 m.0 →
        result ≡ conflict_test (instance_of e) e.current s.0 m.0 }
{
    let count = members.at(s, Spot::OnMachine(m));
    if 0 < count {
        Some(Cause::Conflict {
            service: s,
            machine: m,
        })
    } else {
        None
    }
}

/// The first dependency of a service that no process fulfils near a machine where one of the service comes.
fn far_needs(inst: &Instance, members: &Members, s: Service, m: Machine) -> Option<Cause>
    requires service { s.0 < service_count inst.now.tables }
    requires machine { m.0 < machine_count inst.now.tables }
    ensures { (d e : Drafted) → d.origin ≡ inst.now.tables → AreMembersOf d members.now →
        HasCome d e s.0 m.0 → result ≡ first (dependency_count (instance_of e) s.0)
        (far_from (instance_of e) e.current s.0 (neighbourhood_of (instance_of e) m.0)) }
{
    let label = inst.neighbourhood(m);
    let needs = inst.depends(s);
    for k in 0..needs.len() {
        if let Some(cause) = far_need(members, s, needs[k], label) {
            return Some(cause);
        }
    }
    None
}

/// A service that has no process in a neighbourhood where one of another service, which needs it, comes.
fn far_need(members: &Members, s: Service, need: Service, label: u32) -> Option<Cause>
    ensures { (d e : Drafted) (m k : ℕ) → AreMembersOf d members.now → HasCome d e s.0 m →
        label ≡ neighbourhood_of d.origin m → need.0 ≡ need_of (instance_of e) s.0 k →
        result ≡ far_from (instance_of e) e.current s.0 label k }
{
    if need.0 == s.0 {
        return None;
    }
    if members.at(need, Spot::InNeighbourhood(label)) == 0 {
        Some(Cause::Dependency {
            service: s,
            needs: need,
            neighbourhood: label,
        })
    } else {
        None
    }
}

/// The number of locations of a service without one of its processes, if its spread asks for more.
fn spread_test(
    inst: &Instance,
    lists: &Lists,
    members: &Members,
    p: Process,
    s: Service,
    at: Machine,
) -> Option<Cause>
    requires sound { IsSoundDraft (drafted inst.now.tables lists.now) }
    requires members { AreMembersOf (drafted inst.now.tables lists.now) members.now }
    requires service { s.0 < service_count inst.now.tables }
    requires process { p.0 < length lists.now.rows.items }
    requires machine { at.0 < machine_count inst.now.tables }
    requires mine { s.0 ≡ service_of (tables_with inst.now.tables lists.now) p.0 }
    requires here { at.0 ≡ machine_at lists.now.current.items p.0 }
    ensures { (e : Drafted) → HasGone (drafted inst.now.tables lists.now) e p.0 →
        result ≡ spread_test (instance_of e) e.current s.0 }
{
    let has = locations_without(inst, lists, members, p, s, at);
    let wants = inst.spread_min(s);
    if has < wants {
        Some(Cause::Spread {
            service: s,
            has,
            wants,
        })
    } else {
        None
    }
}

/// In how many locations the processes of a service are without one of them.
fn locations_without(
    inst: &Instance,
    lists: &Lists,
    members: &Members,
    p: Process,
    s: Service,
    at: Machine,
) -> u32
    requires sound { IsSoundDraft (drafted inst.now.tables lists.now) }
    requires members { AreMembersOf (drafted inst.now.tables lists.now) members.now }
    requires service { s.0 < service_count inst.now.tables }
    requires process { p.0 < length lists.now.rows.items }
    requires machine { at.0 < machine_count inst.now.tables }
    requires mine { s.0 ≡ service_of (tables_with inst.now.tables lists.now) p.0 }
    requires here { at.0 ≡ machine_at lists.now.current.items p.0 }
    ensures { (e : Drafted) → HasGone (drafted inst.now.tables lists.now) e p.0 →
        result ≡ locations_of (instance_of e) e.current s.0 }
{
    let has = members.locations(s);
    if members.at(s, Spot::InLocation(inst.location(at))) == 1 {
        has - 1
    } else {
        has
    }
}

/// The first service in a neighbourhood that depends on a service of which, without one process, none is left there.
/// Only the dependants of that service are looked at.
fn first_left(
    inst: &Instance,
    lists: &Lists,
    members: &Members,
    topo: &Topology,
    p: Process,
    s: Service,
    at: Machine,
) -> Option<Cause>
    requires members { AreMembersOf (drafted inst.now.tables lists.now) members.now }
    requires topology { IsTopologyOf topo.now inst.now.tables }
    requires service { s.0 < service_count inst.now.tables }
    requires machine { at.0 < machine_count inst.now.tables }
    requires mine { s.0 ≡ service_of (tables_with inst.now.tables lists.now) p.0 }
    requires here { at.0 ≡ machine_at lists.now.current.items p.0 }
    ensures { (e : Drafted) → HasGone (drafted inst.now.tables lists.now) e p.0 →
        result ≡ first (service_count (instance_of e)) (left_by (instance_of e) e.current s.0
        (neighbourhood_of inst.now.tables at.0)) }
{
    let label = inst.neighbourhood(at);
    if 1 < members.at(s, Spot::InNeighbourhood(label)) {
        return None;
    }
    let services = topo.dependants(s);
    for k in 0..services.len() {
        if let Some(cause) = left_alone(members, s, label, services[k]) {
            return Some(cause);
        }
    }
    None
}

/// A service in a neighbourhood, if a service on which it depends has no process left there.
fn left_alone(members: &Members, s: Service, label: u32, u: Service) -> Option<Cause>
    ensures { (d e : Drafted) → AreMembersOf d members.now → IsLeft d e s.0 label →
        result ≡ cause_if_left_alone (instance_of e) e.current s.0 label u.0 }
{
    if u.0 == s.0 {
        return None;
    }
    if 0 < members.at(u, Spot::InNeighbourhood(label)) {
        Some(Cause::Dependency {
            service: u,
            needs: s,
            neighbourhood: label,
        })
    } else {
        None
    }
}
