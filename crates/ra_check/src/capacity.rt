ghost use Rattle.std.specs.Prelude.{◌≡◌, ◌<◌, List};
ghost use Rattle.ra_base.specs.declared.ids.Machine.{Machine};
ghost use Rattle.ra_model.specs.Numbers.{resource_count, machine_count};
ghost use Rattle.ra_model.specs.Assignments.{IsAssignment};
ghost use Rattle.ra_model.specs.Broken.{capacity_test, row_capacity, broken_capacity};
ghost use Rattle.ra_check.specs.Made.{IsGrid, IsMadeFor};
ghost use Rattle.ra_check.specs.Stands.{IsUsage};

use crate::scratch::Scratch;
use crate::usage::sum_usage;
use ra_base::{Assignment, Cause, Fixed, Machine, Resource, read_cell};
use ra_model::Instance;
use std::marker::Brand;
use std::sync::ledger::Blank;

/// The first use above a capacity, by machine, then resource.
pub(crate) fn broken_capacity(
    inst: &Instance,
    a: &Assignment,
    scratch: &mut Scratch,
) -> Option<Cause>
    requires fits { IsAssignment inst.now.tables a.now.items }
    requires made { IsMadeFor scratch.old inst.now.tables }
    ensures cause { result ≡ broken_capacity inst.now.tables a.now.items }
    ensures kept { IsMadeFor scratch.new inst.now.tables }
{
    sum_usage::<Brand>(inst, a, &mut scratch.used, Blank::new(1));
    machines_capacity(inst, &scratch.used)
}

/// The first use above a capacity, for the assignment whose use the table has.
#[tactic(auto, using(ra_base::proofs::Searches::searches), unfolding(ra_model::specs::Broken::broken_capacity))]
fn machines_capacity(inst: &Instance, used: &Fixed<u64>) -> Option<Cause>
    requires { IsGrid inst.now.tables used.now.items }
    ensures { (a : List Machine) → IsUsage inst.now.tables a used.now.items →
        result ≡ broken_capacity inst.now.tables a }
{
    for m in 0..inst.machines() {
        if let Some(cause) = row_capacity(inst, used, Machine(m)) {
            return Some(cause);
        }
    }
    None
}

/// The first use on one machine that is above its capacity.
#[tactic(auto, using(ra_base::proofs::Searches::searches), unfolding(ra_model::specs::Broken::row_capacity))]
fn row_capacity(inst: &Instance, used: &Fixed<u64>, m: Machine) -> Option<Cause>
    requires machine { m.0 < machine_count inst.now.tables }
    requires grid { IsGrid inst.now.tables used.now.items }
    ensures { (a : List Machine) → IsUsage inst.now.tables a used.now.items →
        result ≡ row_capacity inst.now.tables a m.0 }
{
    for r in 0..inst.resources() {
        if let Some(cause) = capacity_test(inst, used, m, Resource(r)) {
            return Some(cause);
        }
    }
    None
}

/// The use of one resource of one machine, if it is above its capacity.

fn capacity_test(inst: &Instance, used: &Fixed<u64>, m: Machine, r: Resource) -> Option<Cause>
    requires machine { m.0 < machine_count inst.now.tables }
    requires resource { r.0 < resource_count inst.now.tables }
    requires grid { IsGrid inst.now.tables used.now.items }
    ensures { (a : List Machine) → IsUsage inst.now.tables a used.now.items →
        result ≡ capacity_test inst.now.tables a m.0 r.0 }
{
    let used = read_cell(used, inst.resources(), m.0, r.0);
    let cap = inst.capacity(m, r);
    if u64::from(cap) < used {
        Some(Cause::Capacity {
            machine: m,
            resource: r,
            used,
            cap,
        })
    } else {
        None
    }
}
