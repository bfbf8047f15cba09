ghost use Rattle.std.specs.Prelude.{◌+◌, ◌<◌, IfOk, OnOk};
ghost use Rattle.ra_model.specs.Numbers.{service_count, dependency_count};
ghost use Rattle.ra_topology.specs.Fits.{AreDistinctNeeds};
ghost use Rattle.ra_topology.specs.Lists.{AreDistinct, AreDistinctNeedsOf};
ghost use Rattle.ra_topology.specs.Places.{AreMarked};

use crate::counts::need_at;
use crate::lists::ServiceLists;
use crate::needs::count_needs;
use ra_base::{Fixed, NoMemory, Service};
use ra_model::{Instance, copies};
use std::alloc::Global;

/// The services on which each service depends, each once.
pub(crate) fn list_distinct(alloc: Global, inst: &Instance) -> Result<ServiceLists, NoMemory>
    ensures { IfOk result (λ needs. AreDistinctNeeds needs inst.now.tables) }
{
    let count = inst.services();
    let mut marks = copies(alloc, count as usize, 0u32)?;
    let mut all = Fixed::make(alloc, count_needs(inst))?;
    let mut ends = Fixed::make(alloc, count as usize)?;
    for s in 0..count {
        let row = distinct_of(alloc, inst, s, &mut marks)?;
        all.extend_from_slice(&row);
        ends.push(all.len() as u32);
    }
    Ok(ServiceLists { all, ends })
}

/// The services on which a service depends, each at the first dependency that names it.
fn distinct_of(
    alloc: Global,
    inst: &Instance,
    s: u32,
    marks: &mut Fixed<u32>,
) -> Result<Vec<Service>, NoMemory>
    requires service { s < service_count inst.now.tables }
    requires marked { AreMarked inst.now.tables s 0 marks.old.items }
    ensures marked { OnOk result (AreMarked inst.now.tables (s + 1) 0 marks.new.items) }
    ensures row { IfOk result (λ row. AreDistinctNeedsOf inst.now.tables s row.items) }
{
    let mut row = Vec::new(alloc);
    for k in 0..inst.depends(Service(s)).len() {
        add_need(inst, s, k, marks, &mut row)?;
    }
    Ok(row)
}

/// Adds the service of a dependency, unless an earlier dependency names it.
fn add_need(
    inst: &Instance,
    s: u32,
    k: usize,
    marks: &mut Fixed<u32>,
    row: &mut Vec<Service>,
) -> Result<(), NoMemory>
    requires service { s < service_count inst.now.tables }
    requires dependency { k < dependency_count inst.now.tables s }
    requires marked { AreMarked inst.now.tables s k marks.old.items }
    requires row { AreDistinct inst.now.tables s k row.old.items }
    ensures marked { OnOk result (AreMarked inst.now.tables s (k + 1) marks.new.items) }
    ensures row { OnOk result (AreDistinct inst.now.tables s (k + 1) row.new.items) }
{
    let u = need_at(inst, s, k);
    if marks.get(u) != s + 1 {
        marks.set(u, s + 1);
        row.push(Service(u as u32))?;
    }
    Ok(())
}
