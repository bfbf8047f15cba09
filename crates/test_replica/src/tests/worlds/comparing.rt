//! What a world tells, compared with plain sums and counts.
use super::costs::{balance_of, load_of};
use crate::Beside;
use ra_base::{Machine, Resource, Service, Steps};
use ra_world::World;
use std::sync::ledger::Ledger;
use test_samples::counts::{
    between, in_location, in_neighbourhood, locations, moved, on_machine, used,
};

/// Whether the use and the transient use of a machine are the sums.
fn machine_agrees<L: Ledger>(world: &World<'_>, m: u32, steps: &mut Steps<L>) -> bool {
    let (inst, start, now) = (world.instance(), world.initial(), world.assignment());
    if m >= inst.machines() {
        return false;
    }
    let rows = world.rows();
    for r in 0..inst.resources() {
        if rows.usage(Machine(m), Resource(r)) != used(inst, now, m, r, steps) {
            return false;
        }
        let sum = between(inst, start, now, m, r, steps);
        if rows.transient_use(Machine(m), Resource(r)) != sum {
            return false;
        }
    }
    true
}

/// Whether the uses of all machines are the sums.
fn machines_agree<L: Ledger>(world: &World<'_>, steps: &mut Steps<L>) -> bool {
    for m in 0..world.instance().machines() {
        if !machine_agrees(world, m, steps) {
            return false;
        }
    }
    true
}

/// Whether as many processes of a service are on each machine, and in its location and neighbourhood, as are counted.
fn places_agree(world: &World<'_>, s: u32) -> bool {
    let (inst, now, cells) = (world.instance(), world.assignment(), world.cells());
    if s >= inst.services() {
        return false;
    }
    for m in 0..inst.machines() {
        if cells.on_machine(Service(s), Machine(m)) != on_machine(inst, now, s, m) {
            return false;
        }
        let place = inst.location(Machine(m));
        if cells.in_location(Service(s), place) != in_location(inst, now, s, place) {
            return false;
        }
        let hood = inst.neighbourhood(Machine(m));
        if cells.in_neighbourhood(Service(s), hood) != in_neighbourhood(inst, now, s, hood) {
            return false;
        }
    }
    true
}

/// Whether a service is in as many locations, and as many of its processes are moved, as are counted.
fn service_agrees(world: &World<'_>, s: u32) -> bool {
    let (inst, start, now) = (world.instance(), world.initial(), world.assignment());
    if s >= inst.services() {
        return false;
    }
    let cells = world.cells();
    if cells.locations(Service(s)) != locations(inst, now, s) {
        return false;
    }
    cells.moved(Service(s)) == moved(inst, start, now, s)
}

/// Whether the counts of all services, and the greatest moved count, are what is counted.
fn services_agree(world: &World<'_>) -> bool {
    let (inst, start, now) = (world.instance(), world.initial(), world.assignment());
    let mut most = 0u32;
    for s in 0..inst.services() {
        if !places_agree(world, s) {
            return false;
        }
        if !service_agrees(world, s) {
            return false;
        }
        most = most.max(moved(inst, start, now, s));
    }
    world.cells().greatest().greatest() == most
}

/// Whether each machine costs what its uses cost.
fn costs_agree<L: Ledger>(world: &World<'_>, steps: &mut Steps<L>) -> bool {
    let (inst, now) = (world.instance(), world.assignment());
    for m in 0..inst.machines() {
        if world.machine_load(Machine(m)) != load_of(inst, now, m, steps) {
            return false;
        }
        if world.machine_balance(Machine(m)) != balance_of(inst, now, m, steps) {
            return false;
        }
    }
    true
}

/// Whether all that a world tells is what a check from scratch does.
pub(super) fn agrees<L: Ledger>(beside: &mut Beside<'_>, steps: &mut Steps<L>) -> bool {
    let parts = beside.checked_parts();
    let world = beside.world();
    if world.parts() != parts {
        return false;
    }
    if !machines_agree(world, steps) {
        return false;
    }
    if !services_agree(world) {
        return false;
    }
    costs_agree(world, steps)
}
