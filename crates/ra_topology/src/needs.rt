ghost use Rattle.std.specs.Prelude.{◌≡◌, IfOk};
ghost use Rattle.ra_model.specs.Numbers.{service_count, dependency_start};
ghost use Rattle.ra_topology.specs.Fits.{AreNeeds};

use crate::lists::ServiceLists;
use ra_base::{Fixed, NoMemory, Service};
use ra_model::Instance;
use std::alloc::Global;

/// The services on which each service depends.
pub(crate) fn list_needs(alloc: Global, inst: &Instance) -> Result<ServiceLists, NoMemory>
    ensures { IfOk result (λ needs. AreNeeds needs inst.now.tables) }
{
    let count = inst.services();
    let mut all = Fixed::make(alloc, count_needs(inst))?;
    let mut ends = Fixed::make(alloc, count as usize)?;
    for s in 0..count {
        all.extend_from_slice(inst.depends(Service(s)));
        ends.push(all.len() as u32);
    }
    Ok(ServiceLists { all, ends })
}

/// How many dependencies all services have together.
#[tactic(auto, using(crate::proofs::NeedLemmas::counting))]
pub(crate) fn count_needs(inst: &Instance) -> usize
    ensures { result ≡ dependency_start inst.now.tables (service_count inst.now.tables) }
{
    let mut sum = 0;
    for s in 0..inst.services() {
        sum += inst.depends(Service(s)).len();
    }
    sum
}
