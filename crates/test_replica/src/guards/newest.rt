//! The first newer guard after another move was made.
ghost use Rattle.ra_topology.specs.Fits.{IsTopologyOf};

use super::{are_within, shift};
use crate::common::{same, step};
use ra_base::{Guard, Machine, Service};
use ra_guards::{Newer, Versions, first_newer, first_newer_read, writes};
use ra_model::Instance;
use ra_moves::Move;
use ra_topology::Topology;
use std::alloc::Global;
use std::process::Abort;
use test_samples::eight_machines;

/// The first guard of a move that is newer than place 2, and the first such guard that the move only reads, if the
/// entry at place 2 makes another move. None if memory was refused or the instance doesn't have what they name.
#[tactic(auto, using(ra_guards::proofs::NewestLemmas::had))]
fn newest(
    alloc: Global,
    topo: &Topology,
    inst: &Instance,
    mv: &Move,
    other: &Move,
) -> Option<(Option<Newer>, Option<Newer>)>
    requires { IsTopologyOf topo.now inst.now.tables }
{
    if !are_within(inst, mv) {
        return None;
    }
    if !are_within(inst, other) {
        return None;
    }
    let Ok(mut versions) = Versions::make(alloc, inst.machines(), inst.services()) else {
        return None;
    };
    versions.touch(&writes(topo, inst, other), 3);
    let first = first_newer(topo, inst, mv, &versions, 2);
    let read = first_newer_read(topo, inst, mv, &versions, 2);
    Some((first, read))
}

/// The entry at place 2 touched a machine, and a service.
fn machine(m: u32) -> Option<Newer> {
    Some(Newer {
        guard: Guard::Machine(Machine(m)),
        at: 2,
    })
}

fn service(s: u32) -> Option<Newer> {
    Some(Newer {
        guard: Guard::Service(Service(s)),
        at: 2,
    })
}

/// The newer guards of a move of process 2, of the second service, from machine 5 to machine 4, if the entry at place 2
/// is a shift of this process from one machine to another.
fn after(
    alloc: Global,
    topo: &Topology,
    inst: &Instance,
    other: [u32; 3],
) -> Option<(Option<Newer>, Option<Newer>)>
    requires { IsTopologyOf topo.now inst.now.tables }
{
    let [process, from, to] = other;
    newest(
        alloc,
        topo,
        inst,
        &shift(2, 5, 4),
        &shift(process, from, to),
    )
}

/// The second service needs the first, and the fourth needs the second.
fn compare_newest(rt: &impl Abort, alloc: Global, topo: &Topology, inst: &Instance)
    requires { IsTopologyOf topo.now inst.now.tables }
{
    let first = after(alloc, topo, inst, [0, 0, 1]);
    same(rt, first, Some((service(0), service(0))));
    let fourth = after(alloc, topo, inst, [4, 1, 2]);
    same(rt, fourth, Some((service(3), service(3))));
    let third = after(alloc, topo, inst, [3, 1, 2]);
    same(rt, third, Some((None, None)));
    let leaving = after(alloc, topo, inst, [3, 5, 6]);
    same(rt, leaving, Some((machine(5), None)));
    let entering = after(alloc, topo, inst, [0, 6, 4]);
    same(rt, entering, Some((machine(4), service(0))));
    let again = after(alloc, topo, inst, [2, 6, 7]);
    same(rt, again, Some((service(1), None)));
}

/// A chain of seven write guards, one of them named by two steps.
fn compare_writes(rt: &impl Abort, topo: &Topology, inst: &Instance) {
    let chain = Move::chain(step(4, 7, 2), step(2, 2, 3), step(0, 3, 0));
    let want = [
        Guard::Machine(Machine(0)),
        Guard::Machine(Machine(2)),
        Guard::Machine(Machine(3)),
        Guard::Machine(Machine(7)),
        Guard::Service(Service(0)),
        Guard::Service(Service(1)),
        Guard::Service(Service(3)),
    ];
    assert!(rt; are_within(inst, &chain));
    let found = writes(topo, inst, &chain);
    assert!(rt; found.len() == 7);
    for k in 0..7 {
        same(rt, found.guard(k), want[k as usize]);
    }
}

#[test]
fn the_first_newer_guard(rt: HostRuntime) {
    let inst = eight_machines(rt.alloc()).expect(&rt, "no instance");
    let topo = Topology::make(rt.alloc(), &inst).expect(&rt, "no memory");
    compare_newest(&rt, rt.alloc(), &topo, &inst);
    compare_writes(&rt, &topo, &inst);
    drop(topo);
    drop(inst);
}
