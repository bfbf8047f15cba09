//! The lists of services that depend on each other.
ghost use Rattle.std.specs.Prelude.{◌≡◌, length};

mod samples;

use crate::common::same;
use ra_base::{Process, Service};
use ra_model::Instance;
use ra_topology::Topology;
use samples::tangle;
use std::alloc::Global;
use std::process::Abort;

fn compare_members(rt: &impl Abort, topology: &Topology)
    requires { length topology.now.members ≡ 4 }
{
    same(
        rt,
        topology.members(Service(0)),
        [Process(1), Process(4)].as_slice(),
    );
    same(rt, topology.members(Service(1)).is_empty(), true);
    same(
        rt,
        topology.members(Service(2)),
        [Process(0), Process(2)].as_slice(),
    );
    same(rt, topology.members(Service(3)), [Process(3)].as_slice());
}

/// The first service depends on the third, on itself and on the third again, the third on the first, and the last on
/// the third and on the second.
fn compare_needs(rt: &impl Abort, topology: &Topology)
    requires { length topology.now.needs ≡ 4 }
{
    let twice = [Service(2), Service(0), Service(2)];
    same(rt, topology.needs(Service(0)), twice.as_slice());
    same(rt, topology.needs(Service(1)).is_empty(), true);
    same(rt, topology.needs(Service(2)), [Service(0)].as_slice());
    same(
        rt,
        topology.needs(Service(3)),
        [Service(2), Service(1)].as_slice(),
    );
}

/// Each service that a service needs is listed once, at the first dependency that names it.
fn compare_distinct(rt: &impl Abort, topology: &Topology)
    requires { length topology.now.distinct ≡ 4 }
{
    let once = [Service(2), Service(0)];
    same(rt, topology.distinct_needs(Service(0)), once.as_slice());
    same(rt, topology.distinct_needs(Service(1)).is_empty(), true);
    same(
        rt,
        topology.distinct_needs(Service(2)),
        [Service(0)].as_slice(),
    );
    same(
        rt,
        topology.distinct_needs(Service(3)),
        [Service(2), Service(1)].as_slice(),
    );
}

fn compare_dependants(rt: &impl Abort, topology: &Topology)
    requires { length topology.now.dependants ≡ 4 }
{
    same(
        rt,
        topology.dependants(Service(0)),
        [Service(0), Service(2)].as_slice(),
    );
    same(rt, topology.dependants(Service(1)), [Service(3)].as_slice());
    same(
        rt,
        topology.dependants(Service(2)),
        [Service(0), Service(3)].as_slice(),
    );
    same(rt, topology.dependants(Service(3)).is_empty(), true);
}

fn compare_tangle(rt: &impl Abort, alloc: Global, inst: &Instance) {
    assert!(rt; inst.services() == 4);
    let topology = Topology::make(alloc, inst).expect(rt, "no memory");
    compare_members(rt, &topology);
    compare_needs(rt, &topology);
    compare_distinct(rt, &topology);
    compare_dependants(rt, &topology);
}

#[test]
fn each_service_has_its_lists(rt: HostRuntime) {
    let inst = tangle(rt.alloc()).expect(&rt, "no instance");
    compare_tangle(&rt, rt.alloc(), &inst);
    drop(inst);
}
