ghost use Rattle.std.specs.Prelude.{◌≡◌, IfOk, replicate};

use crate::raw::{RawInstance, Tables};
use ra_base::{Fixed, NoMemory};
use std::alloc::Global;

/// A list of `size` copies of an item, with room for no more.
#[tactic(auto, using(crate::proofs::CopyLemmas::copies))]
pub fn copies<T: Copy>(alloc: Global, size: usize, item: T) -> Result<Fixed<T>, NoMemory>
    ensures { IfOk result (λ f. f.items ≡ replicate size item) }
{
    let mut list = Fixed::make(alloc, size)?;
    for k in 0..size {
        list.push(item);
    }
    Ok(list)
}

/// A copy of a list, with as much room.
#[tactic(auto, using(crate::proofs::CopyLemmas::same_list))]
pub fn copied<T: Copy>(alloc: Global, list: &Fixed<T>) -> Result<Fixed<T>, NoMemory>
    ensures { IfOk result (λ copy. copy ≡ list.now) }
{
    let mut copy = Fixed::make(alloc, list.room())?;
    copy.extend_from_slice(list.as_slice());
    Ok(copy)
}

impl RawInstance {
    /// A copy of the lists and weights.
    fn copied(&self, alloc: Global) -> Result<RawInstance, NoMemory>
        ensures { IfOk result (λ copy. copy ≡ self.now) }
    {
        Ok(RawInstance {
            resources: copied(alloc, &self.resources)?,
            machines: copied(alloc, &self.machines)?,
            capacities: copied(alloc, &self.capacities)?,
            safeties: copied(alloc, &self.safeties)?,
            move_costs: copied(alloc, &self.move_costs)?,
            services: copied(alloc, &self.services)?,
            dependencies: copied(alloc, &self.dependencies)?,
            processes: copied(alloc, &self.processes)?,
            requirements: copied(alloc, &self.requirements)?,
            balances: copied(alloc, &self.balances)?,
            process_weight: self.process_weight,
            service_weight: self.service_weight,
            machine_weight: self.machine_weight,
        })
    }
}

impl Tables {
    /// A copy of the lists and of the flags.
    pub(crate) fn copied(&self, alloc: Global) -> Result<Tables, NoMemory>
        ensures { IfOk result (λ copy. copy ≡ self.now) }
    {
        let closed = match &self.closed {
            None => None,
            Some(flags) => Some(copied(alloc, flags)?),
        };
        Ok(Tables {
            raw: self.raw.copied(alloc)?,
            closed,
        })
    }
}
