//! Models that are read, and those that are refused with the first thing that is wrong.
ghost use Rattle.std.specs.Prelude.{◌<◌};

use super::files::{failing, steady};
use super::found::same;
use ra_base::{Machine, Process, Resource, Service};
use ra_model::Instance;
use ra_model_read::{Field, ModelFault, read_model};
use std::alloc::Global;
use std::process::Abort;

/// The sample instance: two resources, four machines, two services and three processes.
const SAMPLE: &[u8; 184] =
    b"2\n1 100\n0 10\n4\n0 0 30 400 16 80 0 1 4 5\n0 0 10 240 8 160 1 0 3 4\n1 1 15 100 12 80 4 3 0 2\n1 2 10 100 8 80 5 4 2 0\n2\n2 0\n1 1 0\n3\n0 12 10 1000\n0 10 20 100\n1 6 200 1\n1\n0 1 20\n10\n1 10 100\n";

/// What is read of a file that has these bytes.
fn read(rt: &impl Abort, alloc: Global, bytes: &[u8]) -> Result<Instance, ModelFault> {
    let mut files = steady(alloc, "model", bytes).expect(rt, "no memory");
    read_model(alloc, &mut files, "model")
}

/// Why a file that has these bytes is refused.
fn fault(rt: &impl Abort, alloc: Global, bytes: &[u8]) -> Option<ModelFault> {
    read(rt, alloc, bytes).err()
}

/// Files that mean no instance, with the first thing that is wrong with each.
const REFUSED: &[(&str, ModelFault)] = &[
    (
        "0",
        ModelFault::Range {
            what: Field::ResourceCount,
            at: 0,
            value: 0,
            least: 1,
            most: 20,
        },
    ),
    (
        "21",
        ModelFault::Range {
            what: Field::ResourceCount,
            at: 0,
            value: 21,
            least: 1,
            most: 20,
        },
    ),
    (
        "1 1 1 5001",
        ModelFault::Range {
            what: Field::MachineCount,
            at: 6,
            value: 5001,
            least: 1,
            most: 5000,
        },
    ),
    (
        "1 1 1 1 0 0 5 5 0 50001",
        ModelFault::Range {
            what: Field::ServiceCount,
            at: 18,
            value: 50001,
            least: 1,
            most: 50000,
        },
    ),
    (
        "1 1 1 1 0 0 5 5 0 1 1 100001",
        ModelFault::Range {
            what: Field::DependencyCount,
            at: 22,
            value: 100001,
            least: 0,
            most: 100000,
        },
    ),
    (
        "1 1 1 1 0 0 5 5 0 2 1 1 0 1 100000",
        ModelFault::Range {
            what: Field::DependencyCount,
            at: 28,
            value: 100000,
            least: 0,
            most: 99999,
        },
    ),
    (
        "1 1 1 1 0 0 5 5 0 1 1 1 1",
        ModelFault::Range {
            what: Field::Dependency,
            at: 24,
            value: 1,
            least: 0,
            most: 0,
        },
    ),
    (
        "1 1 1 1 0 0 5 5 0 1 1 0 0",
        ModelFault::Range {
            what: Field::ProcessCount,
            at: 24,
            value: 0,
            least: 1,
            most: 50000,
        },
    ),
    (
        "1 1 1 1 0 0 5 5 0 1 1 0 50001",
        ModelFault::Range {
            what: Field::ProcessCount,
            at: 24,
            value: 50001,
            least: 1,
            most: 50000,
        },
    ),
    (
        "1 1 1 1 0 0 5 5 0 1 1 0 1 1",
        ModelFault::Range {
            what: Field::ProcessService,
            at: 26,
            value: 1,
            least: 0,
            most: 0,
        },
    ),
    (
        "1 1 1 1 0 0 5 5 0 1 1 0 1 0 2 1 11",
        ModelFault::Range {
            what: Field::BalanceCount,
            at: 32,
            value: 11,
            least: 0,
            most: 10,
        },
    ),
    (
        "1 1 1 1 0 0 5 5 0 1 1 0 1 0 2 1 1 0 1",
        ModelFault::Range {
            what: Field::BalanceSecond,
            at: 36,
            value: 1,
            least: 0,
            most: 0,
        },
    ),
    (
        "",
        ModelFault::Missing {
            what: Field::ResourceCount,
            item: 0,
        },
    ),
    (
        "1 1 1 5000",
        ModelFault::Missing {
            what: Field::Neighbourhood,
            item: 0,
        },
    ),
    (
        "2 0 1 0 1 2 0 0 5 5 6 6 0 1 0 0 7",
        ModelFault::Missing {
            what: Field::Capacity,
            item: 3,
        },
    ),
    (
        "1 1 1 2 0 0 5 5 0 1 0 0 5 5 1",
        ModelFault::Missing {
            what: Field::MoveCost,
            item: 3,
        },
    ),
    (
        "1 1 1 1 0 0 5 5 0 50000",
        ModelFault::Missing {
            what: Field::SpreadMin,
            item: 0,
        },
    ),
    (
        "1 1 1 1 0 0 5 5 0 2 1 1 0 1 2 1",
        ModelFault::Missing {
            what: Field::Dependency,
            item: 2,
        },
    ),
    ("1 2", ModelFault::Flag { at: 2, value: 2 }),
    ("2x", ModelFault::BadByte { at: 1, byte: b'x' }),
    ("4294967296x", ModelFault::TooLarge { at: 0 }),
    ("1 1 1 1 0 0 4294967296", ModelFault::TooLarge { at: 12 }),
];

/// The sample cut off before each of the last three fields.
const CUT: &[(usize, ModelFault)] = &[
    (
        175,
        ModelFault::Missing {
            what: Field::ProcessWeight,
            item: 0,
        },
    ),
    (
        177,
        ModelFault::Missing {
            what: Field::ServiceWeight,
            item: 0,
        },
    ),
    (
        179,
        ModelFault::Missing {
            what: Field::MachineWeight,
            item: 0,
        },
    ),
];

fn counts_are_read(rt: &impl Abort, inst: &Instance) {
    same(rt, inst.resources(), 2);
    same(rt, inst.machines(), 4);
    same(rt, inst.services(), 2);
    same(rt, inst.processes(), 3);
    same(rt, inst.balances(), 1);
}

fn numbers_are_read(rt: &impl Abort, inst: &Instance) {
    assert_eq!(rt; inst.resources(), 2);
    assert_eq!(rt; inst.machines(), 4);
    same(rt, inst.transient(Resource(0)), true);
    same(rt, inst.load_weight(Resource(1)), 10);
    same(rt, inst.neighbourhood(Machine(3)), 1);
    same(rt, inst.location(Machine(3)), 2);
    same(rt, inst.capacity(Machine(1), Resource(1)), 240);
    same(rt, inst.safety(Machine(2), Resource(0)), 12);
    same(rt, inst.move_cost(Machine(3), Machine(0)), 5);
}

fn services_are_read(rt: &impl Abort, inst: &Instance) {
    assert_eq!(rt; inst.services(), 2);
    assert_eq!(rt; inst.processes(), 3);
    same(rt, inst.spread_min(Service(0)), 2);
    same(rt, inst.depends(Service(1)), &[Service(0)]);
    same(rt, inst.service_of(Process(2)), Service(1));
    same(rt, inst.process_cost(Process(0)), 1000);
}

fn weights_are_read(rt: &impl Abort, inst: &Instance) {
    assert_eq!(rt; inst.balances(), 1);
    let row = inst.balance(0);
    same(rt, (row.first, row.second), (Resource(0), Resource(1)));
    same(rt, (row.target, row.weight), (20, 10));
    same(rt, inst.process_weight(), 1);
    same(rt, inst.service_weight(), 10);
    same(rt, inst.machine_weight(), 100);
}

#[test]
fn the_sample_is_read(rt: HostRuntime) {
    let inst = read(&rt, rt.alloc(), SAMPLE).expect(&rt, "the sample is an instance");
    counts_are_read(&rt, &inst);
    numbers_are_read(&rt, &inst);
    services_are_read(&rt, &inst);
    weights_are_read(&rt, &inst);
    drop(inst);
}

#[test]
fn the_first_thing_that_is_wrong_is_told(rt: HostRuntime) {
    for row in REFUSED {
        let found = fault(&rt, rt.alloc(), row.0.as_bytes());
        same(&rt, found, Some(row.1));
    }
}

#[test]
fn a_weight_that_is_missing_is_named(rt: HostRuntime) {
    for row in CUT {
        let front = SAMPLE.get(..row.0).expect(&rt, "too long");
        same(&rt, fault(&rt, rt.alloc(), front), Some(row.1));
    }
}

#[test]
fn the_file_is_read_to_its_end(rt: HostRuntime) {
    let extra = Some(ModelFault::Extra { at: 184 });
    let mut longer = Vec::from_slice(rt.alloc(), SAMPLE).expect(&rt, "no memory");
    longer.push(b'7').expect(&rt, "no memory");
    same(&rt, fault(&rt, rt.alloc(), &longer), extra);
    longer.push(b'-').expect(&rt, "no memory");
    same(&rt, fault(&rt, rt.alloc(), &longer), extra);
}

/// Reads the sample's file twice, if its third fetch fails: whether the second reading gives an instance.
fn read_again(rt: &impl Abort, alloc: Global, each: usize) -> bool
    requires { 0 < each }
{
    let mut files = failing(alloc, each, &[3], "model", SAMPLE).expect(rt, "no memory");
    let first = read_model(alloc, &mut files, "model").err();
    same(rt, first, Some(ModelFault::ReadFault));
    read_model(alloc, &mut files, "model").is_ok()
}

#[test]
fn a_failed_fetch_in_mid_file_is_a_read_fault(rt: HostRuntime) {
    same(&rt, read_again(&rt, rt.alloc(), 1), true);
    same(&rt, read_again(&rt, rt.alloc(), 40), true);
}
