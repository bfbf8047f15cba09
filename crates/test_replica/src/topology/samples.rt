//! An instance whose services depend on each other.
use ra_base::Service;
use ra_model::Instance;
use std::alloc::Global;
use test_samples::{Lists, NotMade, instance, machine, process, resource, service};

/// One machine and five processes of four services, which depend on each other and one on itself.
pub(super) fn tangle(alloc: Global) -> Result<Instance, NotMade> {
    instance(
        alloc,
        &Lists {
            resources: &[resource(false, 1)],
            machines: &[machine(0, 0)],
            capacities: &[9],
            safeties: &[9],
            move_costs: &[0],
            services: &[service(1, 3), service(0, 3), service(1, 4), service(1, 6)],
            dependencies: &[
                Service(2),
                Service(0),
                Service(2),
                Service(0),
                Service(2),
                Service(1),
            ],
            processes: &[
                process(2, 1),
                process(0, 1),
                process(2, 1),
                process(3, 1),
                process(0, 1),
            ],
            requirements: &[1, 1, 1, 1, 1],
            balances: &[],
            weights: [1, 1, 1],
        },
    )
}
