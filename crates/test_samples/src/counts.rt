//! Sums and counts by plain loops over all processes.
use ra_base::{Assignment, Machine, Process, Resource, Steps};
use ra_model::Instance;
use std::sync::ledger::Ledger;

/// Whether process `p` is one of service `s`.
fn is_of(inst: &Instance, s: u32, p: u32) -> bool {
    p < inst.processes() && inst.service_of(Process(p)).0 == s
}

/// The machine of process `p`, if there is one.
fn machine_of(a: &Assignment, p: u32) -> Option<Machine> {
    if (p as usize) < a.len() {
        Some(a.get(p as usize))
    } else {
        None
    }
}

/// The location of process `p`.
fn place_of(inst: &Instance, a: &Assignment, p: u32) -> Option<u32> {
    match machine_of(a, p) {
        Some(m) if m.0 < inst.machines() => Some(inst.location(m)),
        _ => None,
    }
}

/// The neighbourhood of process `p`.
fn hood_of(inst: &Instance, a: &Assignment, p: u32) -> Option<u32> {
    match machine_of(a, p) {
        Some(m) if m.0 < inst.machines() => Some(inst.neighbourhood(m)),
        _ => None,
    }
}

/// How many processes of service `s` are on machine `m`.
pub fn on_machine(inst: &Instance, a: &Assignment, s: u32, m: u32) -> u32 {
    let mut count = 0u32;
    for p in 0..inst.processes() {
        if is_of(inst, s, p) && machine_of(a, p) == Some(Machine(m)) {
            count = count.saturating_add(1);
        }
    }
    count
}

/// How many processes of service `s` are in a location.
pub fn in_location(inst: &Instance, a: &Assignment, s: u32, label: u32) -> u32 {
    let mut count = 0u32;
    for p in 0..inst.processes() {
        if is_of(inst, s, p) && place_of(inst, a, p) == Some(label) {
            count = count.saturating_add(1);
        }
    }
    count
}

/// How many processes of service `s` are in a neighbourhood.
pub fn in_neighbourhood(inst: &Instance, a: &Assignment, s: u32, label: u32) -> u32 {
    let mut count = 0u32;
    for p in 0..inst.processes() {
        if is_of(inst, s, p) && hood_of(inst, a, p) == Some(label) {
            count = count.saturating_add(1);
        }
    }
    count
}

/// In how many locations service `s` is: it counts the processes whose location has no earlier process of the service.
pub fn locations(inst: &Instance, a: &Assignment, s: u32) -> u32 {
    let mut count = 0u32;
    for p in 0..inst.processes() {
        if is_of(inst, s, p) && is_first(inst, a, s, p) {
            count = count.saturating_add(1);
        }
    }
    count
}

/// Whether no process of service `s` before process `p` is in its location.
fn is_first(inst: &Instance, a: &Assignment, s: u32, p: u32) -> bool {
    for q in 0..p {
        if is_of(inst, s, q) && place_of(inst, a, q) == place_of(inst, a, p) {
            return false;
        }
    }
    true
}

/// How many processes of service `s` aren't on their initial machine.
pub fn moved(inst: &Instance, start: &Assignment, a: &Assignment, s: u32) -> u32 {
    let mut count = 0u32;
    for p in 0..inst.processes() {
        if is_of(inst, s, p) && machine_of(start, p) != machine_of(a, p) {
            count = count.saturating_add(1);
        }
    }
    count
}

/// What process `p` requires of resource `r`.
fn required<L: Ledger>(inst: &Instance, p: u32, r: u32, steps: &mut Steps<L>) -> u64 {
    if p < inst.processes() && r < inst.resources() {
        u64::from(inst.requirement(Process(p), Resource(r), steps))
    } else {
        0
    }
}

/// The use of resource `r` on machine `m`.
pub fn used<L: Ledger>(
    inst: &Instance,
    a: &Assignment,
    m: u32,
    r: u32,
    steps: &mut Steps<L>,
) -> u64 {
    let mut sum = 0u64;
    for p in 0..inst.processes() {
        if machine_of(a, p) == Some(Machine(m)) {
            sum = sum.saturating_add(required(inst, p, r, steps));
        }
    }
    sum
}

/// The use of resource `r` by the processes that are on machine `m` or were there at first.
pub fn between<L: Ledger>(
    inst: &Instance,
    start: &Assignment,
    a: &Assignment,
    m: u32,
    r: u32,
    steps: &mut Steps<L>,
) -> u64 {
    let mut sum = 0u64;
    for p in 0..inst.processes() {
        let there = Some(Machine(m));
        if machine_of(a, p) == there || machine_of(start, p) == there {
            sum = sum.saturating_add(required(inst, p, r, steps));
        }
    }
    sum
}
