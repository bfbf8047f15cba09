//! An instance on which each part of the cost changes.
use ra_base::Service;
use ra_model::Instance;
use std::alloc::Global;
use test_samples::{Lists, NotMade, balance, instance, machine, process, resource, service};

/// The greatest label.
const FAR: u32 = 4294967295;

/// Five machines, three services and eight processes. The second service depends on the first. The start is
/// `0 2 3 0 4 1 3 2`.
pub(super) fn busy(alloc: Global) -> Result<Instance, NotMade> {
    instance(
        alloc,
        &Lists {
            resources: &[resource(true, 3), resource(false, 7)],
            machines: &[
                machine(FAR, 9),
                machine(FAR, 9),
                machine(0, 9),
                machine(0, FAR),
                machine(5, 0),
            ],
            capacities: &[60, 90, 60, 90, 60, 90, 60, 90, 60, 90],
            safeties: &[10, 20, 5, 30, 12, 8, 20, 2, 0, 40],
            move_costs: &[
                0, 3, 5, 7, 11, 3, 0, 2, 4, 6, 5, 2, 0, 1, 9, 7, 4, 1, 0, 8, 11, 6, 9, 8, 0,
            ],
            services: &[service(2, 0), service(0, 1), service(1, 1)],
            dependencies: &[Service(0)],
            processes: &[
                process(0, 13),
                process(0, 17),
                process(0, 19),
                process(1, 23),
                process(2, 29),
                process(2, 31),
                process(2, 37),
                process(1, 41),
            ],
            requirements: &[9, 4, 7, 11, 3, 2, 8, 6, 5, 15, 12, 1, 2, 20, 10, 5],
            balances: &[balance(0, 1, 2, 3), balance(1, 0, 1, 5)],
            weights: [2, 50, 3],
        },
    )
}
