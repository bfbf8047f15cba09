//! Instances with one resource and without balance objectives.
use crate::lists::{Lists, NotMade, instance};
use crate::rows::{machine, process, resource, service};
use ra_base::Service;
use ra_model::Instance;
use std::alloc::Global;

/// The greatest label.
const FAR: u32 = 4294967295;

/// One process and four machines; from machine 0 the way to 1 and to 2 costs 2, and to 3 it costs 5. The start is `0`.
pub fn single(alloc: Global) -> Result<Instance, NotMade> {
    instance(
        alloc,
        &Lists {
            resources: &[resource(false, 1)],
            machines: &[machine(0, 0), machine(0, 0), machine(0, 0), machine(0, 0)],
            capacities: &[1, 1, 1, 1],
            safeties: &[1, 1, 1, 1],
            move_costs: &[0, 2, 2, 5, 2, 0, 0, 0, 2, 0, 0, 0, 5, 0, 0, 0],
            services: &[service(1, 0)],
            dependencies: &[],
            processes: &[process(0, 1)],
            requirements: &[1],
            balances: &[],
            weights: [1, 1, 1],
        },
    )
}

/// Five machines, four services and seven processes. The second service needs itself and the first; the third, which
/// has no process, and the fourth need the first. Locations are 5 (machines 0 to 2), 0 and the greatest label,
/// neighbourhoods are 7 (machines 0 and 1), the greatest label and 9.
pub fn seven_processes(alloc: Global) -> Result<Instance, NotMade> {
    let needed = Service(0);
    instance(
        alloc,
        &Lists {
            resources: &[resource(false, 1)],
            machines: &[
                machine(7, 5),
                machine(7, 5),
                machine(FAR, 5),
                machine(9, 0),
                machine(9, FAR),
            ],
            capacities: &[100; 5],
            safeties: &[100; 5],
            move_costs: &[0; 25],
            services: &[service(3, 0), service(0, 2), service(0, 3), service(1, 5)],
            dependencies: &[Service(1), needed, needed, needed, needed],
            processes: &[
                process(1, 1),
                process(0, 1),
                process(3, 1),
                process(0, 1),
                process(1, 1),
                process(0, 1),
                process(0, 1),
            ],
            requirements: &[1; 7],
            balances: &[],
            weights: [1, 1, 1],
        },
    )
}

/// Eight machines and six processes; the second service needs the first, the third itself, and the fourth the second.
pub fn eight_machines(alloc: Global) -> Result<Instance, NotMade> {
    instance(
        alloc,
        &Lists {
            resources: &[resource(false, 1)],
            machines: &[machine(0, 0); 8],
            capacities: &[100; 8],
            safeties: &[100; 8],
            move_costs: &[0; 64],
            services: &[service(0, 0), service(0, 1), service(0, 2), service(0, 3)],
            dependencies: &[Service(0), Service(2), Service(1)],
            processes: &[
                process(0, 1),
                process(0, 1),
                process(1, 1),
                process(2, 1),
                process(3, 1),
                process(3, 1),
            ],
            requirements: &[1; 6],
            balances: &[],
            weights: [1, 1, 1],
        },
    )
}
