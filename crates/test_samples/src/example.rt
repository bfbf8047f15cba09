//! The sample instance, which `examples/sample` has as files.
use crate::lists::{Lists, NotMade, instance};
use crate::rows::{balance, machine, process, resource, service};
use ra_base::Service;
use ra_model::Instance;
use std::alloc::Global;

/// Two resources, four machines, two services and three processes; the first resource is transient, and the second
/// service depends on the first. The one objective weighs the first resource against the second. The start is `0 3 0`.
pub fn sample(alloc: Global) -> Result<Instance, NotMade> {
    instance(
        alloc,
        &Lists {
            resources: &[resource(true, 100), resource(false, 10)],
            machines: &[machine(0, 0), machine(0, 0), machine(1, 1), machine(1, 2)],
            capacities: &[30, 400, 10, 240, 15, 100, 10, 100],
            safeties: &[16, 80, 8, 160, 12, 80, 8, 80],
            move_costs: &[0, 1, 4, 5, 1, 0, 3, 4, 4, 3, 0, 2, 5, 4, 2, 0],
            services: &[service(2, 0), service(1, 1)],
            dependencies: &[Service(0)],
            processes: &[process(0, 1000), process(0, 100), process(1, 1)],
            requirements: &[12, 10, 10, 20, 6, 200],
            balances: &[balance(0, 1, 20, 10)],
            weights: [1, 10, 100],
        },
    )
}
