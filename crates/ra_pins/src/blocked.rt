ghost use Rattle.std.specs.Prelude.{◌≡◌, ◌+◌, ◌*◌, ◌<◌, ◌≤◌, true, false, List, Bool, length};
ghost use Rattle.ra_base.specs.declared.ids.Machine.{Machine};
ghost use Rattle.ra_model.specs.Numbers.{resource_count, machine_count, service_count, process_count, service_of};
ghost use Rattle.ra_pins.specs.Pinned.{some_of, flagged_starts_on, blocked};
ghost use Rattle.ra_pins.specs.PinLists.{flag_at};
ghost use Rattle.ra_pins.specs.Loads.{AreKept};
ghost use Rattle.ra_pins.specs.Marks.{AreFlaggedMarked};
ghost use Rattle.ra_pins.specs.Walks.{spot, overfull};

use ra_base::{Fixed, Machine, Process, Resource, Service, Steps, read_cell};
use ra_model::Instance;
use std::sync::ledger::Ledger;

/// Whether a process is blocked from another machine, if the marks of its service are set.
pub(crate) fn is_blocked<L: Ledger>(
    inst: &Instance,
    kept: &Fixed<u64>,
    marks: &Fixed<u32>,
    p: Process,
    s: Service,
    m: Machine,
    steps: &mut Steps<L>,
) -> bool
    requires process { p.0 < process_count inst.now.tables }
    requires service { s.0 ≡ service_of inst.now.tables p.0 }
    requires machine { m.0 < machine_count inst.now.tables }
    requires grid { length kept.now.items ≡
        machine_count inst.now.tables * resource_count inst.now.tables }
    requires marks { length marks.now.items ≡ machine_count inst.now.tables }
    ensures { (a0 : List Machine) (flags : List Bool) →
        AreKept inst.now.tables a0 (flag_at flags) kept.now.items →
        AreFlaggedMarked inst.now.tables a0 flags s.0 marks.now.items →
        result ≡ blocked inst.now.tables a0 (flag_at flags) p.0 m.0 }
{
    if inst.closed(m) {
        return true;
    }
    if is_overfull(inst, kept, p, m, steps) {
        return true;
    }
    has_mark(inst, marks, s, m)
}

/// Whether a machine has the mark of a service.
fn has_mark(inst: &Instance, marks: &Fixed<u32>, s: Service, m: Machine) -> bool
    requires service { s.0 < service_count inst.now.tables }
    requires machine { m.0 < length marks.now.items }
    ensures { (a0 : List Machine) (flags : List Bool) →
        m.0 < machine_count inst.now.tables →
        AreFlaggedMarked inst.now.tables a0 flags s.0 marks.now.items →
        result ≡ flagged_starts_on inst.now.tables a0 (flag_at flags) s.0 m.0 }
{
    let _services = inst.services();
    marks.get(m.0 as usize) == s.0 + 1
}

/// Whether a machine has too little of some resource for a process, given what is used there at all times.
#[tactic(auto, using(ra_base::proofs::Counts::counts), unfolding(crate::specs::Pinned::some_of))]
fn is_overfull<L: Ledger>(
    inst: &Instance,
    kept: &Fixed<u64>,
    p: Process,
    m: Machine,
    steps: &mut Steps<L>,
) -> bool
    requires process { p.0 < process_count inst.now.tables }
    requires machine { m.0 < machine_count inst.now.tables }
    requires grid { length kept.now.items ≡
        machine_count inst.now.tables * resource_count inst.now.tables }
    ensures { result ≡ some_of (resource_count inst.now.tables)
        (overfull inst.now.tables kept.now.items p.0 m.0) }
{
    for r in 0..inst.resources() {
        if exceeds(inst, kept, p, m, Resource(r), steps) {
            return true;
        }
    }
    false
}

/// Whether a machine has too little of a resource for a process.
#[tactic(auto, unfolding(crate::specs::Walks::overfull))]
fn exceeds<L: Ledger>(
    inst: &Instance,
    kept: &Fixed<u64>,
    p: Process,
    m: Machine,
    r: Resource,
    steps: &mut Steps<L>,
) -> bool
    requires process { p.0 < process_count inst.now.tables }
    requires machine { m.0 < machine_count inst.now.tables }
    requires resource { r.0 < resource_count inst.now.tables }
    requires grid { length kept.now.items ≡
        machine_count inst.now.tables * resource_count inst.now.tables }
    ensures { result ≡ overfull inst.now.tables kept.now.items p.0 m.0 r.0 }
{
    let stays = read_cell(kept, inst.resources(), m.0, r.0);
    let wants = u64::from(inst.requirement(p, r, steps));
    let cap = u64::from(inst.capacity(m, r));
    wants > cap || stays > cap - wants
}

/// The machine that is `place` places after a home machine, in the circle of all machines.
#[tactic(auto, unfolding(crate::specs::Walks::spot))]
pub(crate) fn spot(home: Machine, place: u32, machines: u32) -> Machine
    requires home { home.0 < machines }
    requires place { place ≤ machines }
    requires few { machines ≤ 5000 }
    ensures value { result.0 ≡ spot machines home.0 place }
    ensures within { result.0 < machines }
{
    let ahead = home.0 + place;
    if ahead < machines {
        Machine(ahead)
    } else {
        Machine(ahead - machines)
    }
}
