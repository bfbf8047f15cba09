ghost use Rattle.std.specs.Prelude.{◌≡◌, ◌*◌, ◌^◌, ◌<◌, ◌≤◌};
ghost use Rattle.ra_model.specs.Numbers.{resource_count, machine_count};
ghost use Rattle.ra_repair.specs.Keeping.{StandsForKept};
ghost use Rattle.ra_repair.specs.Penalty.{use_above, row_above, transient_above, row_transient_above};

use crate::kept::Kept;
use ra_base::{Assignment, Machine, Resource};
use ra_model::Instance;

/// The use of the resources of a machine above its capacities.
#[tactic(auto, using(ra_base::proofs::Sums::sums), unfolding(crate::specs::Penalty::row_above))]
pub(crate) fn row_above(inst: &Instance, start: &Assignment, kept: &Kept<'_>, m: Machine) -> u64
    requires stands { StandsForKept kept.now inst.now.tables start.now.items }
    requires machine { m.0 < machine_count inst.now.tables }
    ensures value { result ≡ row_above inst.now.tables kept.now.assignment.items m.0 }
    ensures few { result ≤ 20 * 2 ^ 48 }
{
    let mut sum = 0;
    for r in 0..inst.resources() {
        sum += use_above(inst, start, kept, m, Resource(r));
    }
    sum
}

/// The use of a resource of a machine above its capacity.
#[tactic(auto, unfolding(crate::specs::Penalty::use_above))]
fn use_above(inst: &Instance, start: &Assignment, kept: &Kept<'_>, m: Machine, r: Resource) -> u64
    requires stands { StandsForKept kept.now inst.now.tables start.now.items }
    requires machine { m.0 < machine_count inst.now.tables }
    requires resource { r.0 < resource_count inst.now.tables }
    ensures value { result ≡ use_above inst.now.tables kept.now.assignment.items m.0 r.0 }
    ensures few { result ≤ 2 ^ 48 }
{
    let used = kept.rows.usage(m, r);
    used.saturating_sub(u64::from(inst.capacity(m, r)))
}

/// The transient use of the transient resources of a machine above its capacities.
#[tactic(auto, using(ra_base::proofs::Sums::sums), unfolding(crate::specs::Penalty::row_transient_above))]
pub(crate) fn row_transient_above(
    inst: &Instance,
    start: &Assignment,
    kept: &Kept<'_>,
    m: Machine,
) -> u64
    requires stands { StandsForKept kept.now inst.now.tables start.now.items }
    requires machine { m.0 < machine_count inst.now.tables }
    ensures value { result ≡
        row_transient_above inst.now.tables start.now.items kept.now.assignment.items m.0 }
    ensures few { result ≤ 20 * 2 ^ 48 }
{
    let mut sum = 0;
    for r in 0..inst.resources() {
        sum += transient_above(inst, start, kept, m, Resource(r));
    }
    sum
}

/// The transient use of a resource of a machine above its capacity, if the resource is transient.
#[tactic(auto, unfolding(crate::specs::Penalty::transient_above))]
fn transient_above(
    inst: &Instance,
    start: &Assignment,
    kept: &Kept<'_>,
    m: Machine,
    r: Resource,
) -> u64
    requires stands { StandsForKept kept.now inst.now.tables start.now.items }
    requires machine { m.0 < machine_count inst.now.tables }
    requires resource { r.0 < resource_count inst.now.tables }
    ensures value { result ≡
        transient_above inst.now.tables start.now.items kept.now.assignment.items m.0 r.0 }
    ensures few { result ≤ 2 ^ 48 }
{
    if inst.transient(r) {
        let used = kept.rows.transient_use(m, r);
        used.saturating_sub(u64::from(inst.capacity(m, r)))
    } else {
        0
    }
}
