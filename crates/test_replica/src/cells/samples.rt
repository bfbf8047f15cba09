//! Instances with labels of all sizes, and with one large service.
use ra_base::{Assignment, Machine, NoMemory};
use ra_model::{Instance, ProcessRow, ServiceRow, copies};
use std::alloc::Global;
use test_samples::{Lists, NotMade, instance, machine, process, resource, service};

/// The greatest label.
const FAR: u32 = 4294967295;

/// How many processes the large service has, and how many there are with the small one's.
const LARGE: usize = 3000;

const ALL: usize = 3002;

/// All processes of the large instance on its first machine.
pub(super) fn crowd(alloc: Global) -> Result<Assignment, NoMemory> {
    copies(alloc, ALL, Machine(0))
}

/// Five machines whose labels are any numbers, two of them in one location and two in one neighbourhood, and processes
/// that require 1 each.
fn plain(
    alloc: Global,
    services: &[ServiceRow],
    processes: &[ProcessRow],
    requirements: &[u32],
) -> Result<Instance, NotMade> {
    instance(
        alloc,
        &Lists {
            resources: &[resource(false, 1)],
            machines: &[
                machine(7, 5),
                machine(FAR, FAR),
                machine(0, 5),
                machine(9, 0),
                machine(9, 4294967294),
            ],
            capacities: &[100; 5],
            safeties: &[100; 5],
            move_costs: &[0; 25],
            services,
            dependencies: &[],
            processes,
            requirements,
            balances: &[],
            weights: [1, 1, 1],
        },
    )
}

/// Four services, one of them with no process, and eight processes.
pub(super) fn mixed(alloc: Global) -> Result<Instance, NotMade> {
    let processes = [
        process(1, 1),
        process(0, 1),
        process(3, 1),
        process(0, 1),
        process(1, 1),
        process(0, 1),
        process(0, 1),
        process(0, 1),
    ];
    plain(alloc, &[service(0, 0); 4], &processes, &[1; 8])
}

/// A service of two processes, and one of thousands.
pub(super) fn large(alloc: Global) -> Result<Instance, NotMade> {
    let mut processes = copies(alloc, ALL, process(1, 1))?;
    processes.set(0, process(0, 1));
    processes.set(LARGE, process(0, 1));
    let requirements = copies(alloc, ALL, 1u32)?;
    plain(
        alloc,
        &[service(0, 0); 2],
        processes.as_slice(),
        requirements.as_slice(),
    )
}
