ghost use Rattle.std.specs.Prelude.{◌≡◌, ◌<◌, List};
ghost use Rattle.ra_base.specs.declared.ids.Machine.{Machine};
ghost use Rattle.ra_model.specs.Numbers.{resource_count, machine_count};
ghost use Rattle.ra_model.specs.Assignments.{IsAssignment};
ghost use Rattle.ra_model.specs.Broken.{transient_test, row_transient, broken_transient};
ghost use Rattle.ra_check.specs.Made.{IsGrid, IsMadeFor};
ghost use Rattle.ra_check.specs.Stands.{IsTransientUse};

use crate::scratch::Scratch;
use crate::usage::sum_transient;
use ra_base::{Assignment, Cause, Fixed, Machine, Resource, read_cell};
use ra_model::Instance;
use std::marker::Brand;
use std::sync::ledger::Blank;

/// The first transient use above a capacity, by machine, then resource.
pub(crate) fn broken_transient(
    inst: &Instance,
    a0: &Assignment,
    a: &Assignment,
    scratch: &mut Scratch,
) -> Option<Cause>
    requires a0_fits { IsAssignment inst.now.tables a0.now.items }
    requires fits { IsAssignment inst.now.tables a.now.items }
    requires made { IsMadeFor scratch.old inst.now.tables }
    ensures cause { result ≡ broken_transient inst.now.tables a0.now.items a.now.items }
    ensures kept { IsMadeFor scratch.new inst.now.tables }
{
    sum_transient::<Brand>(inst, a0, a, &mut scratch.transient, Blank::new(1));
    machines_transient(inst, &scratch.transient)
}

/// The first transient use above a capacity, for the assignment whose transient use the table has.
#[tactic(auto, using(ra_base::proofs::Searches::searches), unfolding(ra_model::specs::Broken::broken_transient))]
fn machines_transient(inst: &Instance, used: &Fixed<u64>) -> Option<Cause>
    requires { IsGrid inst.now.tables used.now.items }
    ensures { (a0 a : List Machine) → IsTransientUse inst.now.tables a0 a used.now.items →
        result ≡ broken_transient inst.now.tables a0 a }
{
    for m in 0..inst.machines() {
        if let Some(cause) = row_transient(inst, used, Machine(m)) {
            return Some(cause);
        }
    }
    None
}

/// The first transient use on one machine that is above its capacity.
#[tactic(auto, using(ra_base::proofs::Searches::searches), unfolding(ra_model::specs::Broken::row_transient))]
fn row_transient(inst: &Instance, used: &Fixed<u64>, m: Machine) -> Option<Cause>
    requires machine { m.0 < machine_count inst.now.tables }
    requires grid { IsGrid inst.now.tables used.now.items }
    ensures { (a0 a : List Machine) → IsTransientUse inst.now.tables a0 a used.now.items →
        result ≡ row_transient inst.now.tables a0 a m.0 }
{
    for r in 0..inst.resources() {
        if let Some(cause) = transient_test(inst, used, m, Resource(r)) {
            return Some(cause);
        }
    }
    None
}

/// The transient use of one resource of one machine, if it is above its capacity.

fn transient_test(inst: &Instance, used: &Fixed<u64>, m: Machine, r: Resource) -> Option<Cause>
    requires machine { m.0 < machine_count inst.now.tables }
    requires resource { r.0 < resource_count inst.now.tables }
    requires grid { IsGrid inst.now.tables used.now.items }
    ensures { (a0 a : List Machine) → IsTransientUse inst.now.tables a0 a used.now.items →
        result ≡ transient_test inst.now.tables a0 a m.0 r.0 }
{
    let used = read_cell(used, inst.resources(), m.0, r.0);
    let cap = inst.capacity(m, r);
    if inst.transient(r) && u64::from(cap) < used {
        Some(Cause::Transient {
            machine: m,
            resource: r,
            used,
            cap,
        })
    } else {
        None
    }
}
