//! Instances whose numbers are at the limits of what is summed and compared fast, and just above them.
ghost use Rattle.std.specs.Prelude.{◌≤◌};

use ra_model::{Instance, MachineRow};
use std::alloc::Global;
use test_samples::{Lists, NotMade, balance, instance, machine, process, resource, service};

/// What a process asks of all rows is summed exactly up to 2^30; a number of a row is capped there.
const CAP: u32 = 1073741824;

/// The greatest number that a file may have.
const MOST: u32 = 4294967295;

/// Five machines and six processes. What the first process asks of the load rows comes to 2^30, and what the second
/// asks to one more; so does what the third and the fourth ask for the balance. Some ways cost 2^30, some one more or
/// less. The start is `0 1 2 3 4 2`.
pub(super) fn sums_at_the_cap(alloc: Global) -> Result<Instance, NotMade> {
    instance(
        alloc,
        &Lists {
            resources: &[
                resource(false, 1048576),
                resource(true, 1),
                resource(false, 0),
                resource(false, 0),
            ],
            machines: &[
                machine(0, 0),
                machine(0, 1),
                machine(1, 2),
                machine(1, 3),
                machine(2, 3),
            ],
            capacities: &[
                4000, 60, 3000, 3000, 2048, 60, 2048, 4000, 4000, 9, 3000, 2000, 3000, 60, 1500,
                3000, 2500, 60, 3000, 2500,
            ],
            safeties: &[
                1024, 1, 0, 0, 1023, 0, 0, 0, 2000, 20, 0, 0, 500, 3, 0, 0, 1025, 2, 0, 0,
            ],
            move_costs: &[
                0, CAP, CAP, 5, 1, CAP, 0, 7, CAP, 2, 3, CAP, 0, CAP, 9, 2, 2, 2, 0, 4, CAP, 1,
                CAP, 8, 0,
            ],
            services: &[service(1, 0), service(1, 0), service(2, 0)],
            dependencies: &[],
            processes: &[
                process(0, 1),
                process(1, 0),
                process(2, 5),
                process(2, 9),
                process(1, 2),
                process(0, 7),
            ],
            requirements: &[
                1024, 0, 0, 0, 1024, 1, 0, 0, 0, 0, 1024, 0, 0, 1, 0, 1024, 3, 2, 5, 7, 1, 0, 4, 1,
            ],
            balances: &[balance(2, 3, 1, 1048576)],
            weights: [1, 1, 1],
        },
    )
}

/// Four machines and four processes. The load cost of a machine with the first or the second process is just below or
/// just above 2^62, and so is its balance cost. The start is `0 1 2 3`.
pub(super) fn costs_near_the_bound(alloc: Global) -> Result<Instance, NotMade> {
    instance(
        alloc,
        &Lists {
            resources: &[resource(false, MOST), resource(true, 3)],
            machines: &[machine(0, 0), machine(0, 1), machine(1, 2), machine(1, 3)],
            capacities: &[MOST, 100, MOST, 90, MOST, 80, MOST, 70],
            safeties: &[0, 0, 1, 30, 4, 20, CAP, 10],
            move_costs: &[0, 3, 5, MOST, 2, 0, 4, 6, 1, 1, 0, 9, 8, 7, 6, 0],
            services: &[service(1, 0), service(1, 0), service(0, 0)],
            dependencies: &[],
            processes: &[
                process(0, MOST),
                process(1, 1),
                process(2, 2),
                process(2, 3),
            ],
            requirements: &[CAP, 40, 1073741828, 30, 3, 20, 7, 10],
            balances: &[balance(1, 0, 1, 5), balance(0, 1, 1, MOST)],
            weights: [MOST, 2, 3],
        },
    )
}

/// Three machines and five processes: a balance of a resource with itself, two with a target of 0, and capacities below
/// safety capacities. The start is `0 1 2 0 1`.
pub(super) fn odd_objectives(alloc: Global) -> Result<Instance, NotMade> {
    instance(
        alloc,
        &Lists {
            resources: &[resource(true, 5), resource(false, 2)],
            machines: &[machine(0, 0), machine(0, 1), machine(1, 2)],
            capacities: &[50, 60, 40, 70, 90, 30],
            safeties: &[70, 20, 40, 90, 0, 31],
            move_costs: &[0, 3, 2, 1, 0, 4, 5, 1, 0],
            services: &[service(1, 0), service(2, 0), service(0, 0)],
            dependencies: &[],
            processes: &[
                process(0, 3),
                process(1, 0),
                process(1, 2),
                process(2, 1),
                process(2, 4),
            ],
            requirements: &[9, 4, 7, 11, 13, 2, 8, 6, 5, 15],
            balances: &[
                balance(0, 0, 3, 7),
                balance(1, 1, 1, 100),
                balance(0, 1, 0, 9),
                balance(1, 0, 0, 4),
            ],
            weights: [2, 5, 3],
        },
    )
}

/// The labels of sixty-five machines: seven neighbourhoods, and a location for each machine.
fn rows_of_machines() -> [MachineRow; 65] {
    let mut rows = [machine(0, 0); 65];
    for m in 0..65u32 {
        rows[m as usize] = machine(m / 10, m);
    }
    rows
}

/// Numbers from a least one on, below this much more, which differ from place to place.
fn mixed(least: u32, range: u32, step: u32) -> [u32; 4225]
    requires least { least ≤ 1000 }
    requires range { 1 ≤ range }
    requires step { step ≤ 1000 }
    requires few { range ≤ 1000 }
{
    let mut numbers = [0u32; 4225];
    for k in 0..4225u32 {
        numbers[k as usize] = least + k * step % range;
    }
    numbers
}

/// `count` machines, at most sixty-five, with three services and seven processes. Each process fits on each machine.
pub(super) fn many_machines(alloc: Global, count: usize) -> Result<Instance, NotMade>
    requires { count ≤ 65 }
{
    let rows = rows_of_machines();
    let capacities = mixed(20, 40, 17);
    let safeties = mixed(0, 30, 23);
    let ways = mixed(0, 90, 37);
    instance(
        alloc,
        &Lists {
            resources: &[resource(true, 3), resource(false, 7)],
            machines: &rows[..count],
            capacities: &capacities[..2 * count],
            safeties: &safeties[..2 * count],
            move_costs: &ways[..count * count],
            services: &[service(2, 0), service(0, 0), service(1, 0)],
            dependencies: &[],
            processes: &[
                process(0, 13),
                process(0, 17),
                process(1, 23),
                process(1, 29),
                process(1, 31),
                process(2, 37),
                process(2, 41),
            ],
            requirements: &[9, 4, 7, 11, 3, 2, 8, 6, 5, 15, 12, 1, 2, 10],
            balances: &[balance(0, 1, 2, 3), balance(1, 0, 1, 5)],
            weights: [2, 50, 3],
        },
    )
}
