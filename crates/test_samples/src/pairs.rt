//! Two machines and two processes of different services. The start is `0 1`.
use crate::lists::{Lists, NotMade, instance};
use crate::rows::{balance, machine, process, resource, service};
use ra_model::{Instance, ResourceRow};
use std::alloc::Global;

const N: u32 = 4294967295;

/// Two machines of capacity 10. Only the resource, what each machine can safely take, what each way costs and what the
/// processes require differ.
fn pair(
    alloc: Global,
    resource: ResourceRow,
    safeties: &[u32; 2],
    way: u32,
    required: &[u32; 2],
) -> Result<Instance, NotMade> {
    instance(
        alloc,
        &Lists {
            resources: &[resource],
            machines: &[machine(0, 0), machine(1, 1)],
            capacities: &[10, 10],
            safeties,
            move_costs: &[0, way, way, 0],
            services: &[service(1, 0), service(1, 0)],
            dependencies: &[],
            processes: &[process(0, 1), process(1, 1)],
            requirements: required,
            balances: &[],
            weights: [1, 1, 1],
        },
    )
}

/// Two processes of 6 on two machines of 10, whose resource is transient.
pub fn tight_pair(alloc: Global) -> Result<Instance, NotMade> {
    pair(alloc, resource(true, 1), &[10, 10], 0, &[6, 6])
}

/// A process of 8 and one of 4, each on the machine whose safety capacity fits the other.
pub fn crossed_pair(alloc: Global) -> Result<Instance, NotMade> {
    pair(alloc, resource(false, 10), &[4, 8], 1, &[8, 4])
}

/// Two resources, and the greatest numbers that a file may have; even the way from a machine to itself costs.
pub fn pair_at_limits(alloc: Global) -> Result<Instance, NotMade> {
    instance(
        alloc,
        &Lists {
            resources: &[resource(false, N), resource(false, N)],
            machines: &[machine(0, 0), machine(1, 1)],
            capacities: &[N, N, N, N],
            safeties: &[0, 0, 0, 0],
            move_costs: &[N, N, N, N],
            services: &[service(1, 0), service(1, 0)],
            dependencies: &[],
            processes: &[process(0, N), process(1, N)],
            requirements: &[N, 0, N, 0],
            balances: &[balance(1, 0, N, N)],
            weights: [N, N, N],
        },
    )
}
