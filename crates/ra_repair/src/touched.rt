ghost use Rattle.std.specs.Prelude.{◌≡◌, ◌*◌, ◌^◌, ◌<◌, ◌≤◌};
ghost use Rattle.ra_model.specs.Numbers.{machine_count, service_count, process_count};
ghost use Rattle.ra_model.specs.Assignments.{IsAssignment};
ghost use Rattle.ra_topology.specs.Fits.{IsTopologyOf};
ghost use Rattle.ra_repair.specs.Keeping.{StandsForKept};
ghost use Rattle.ra_repair.specs.Touched.{touched, rows_touched, transient_touched, crowds_touched};

use crate::above::{row_above, row_transient_above};
use crate::apart::{closed_now, crowd_on, spread_lack};
use crate::far::far_between;
use crate::kept::Kept;
use ra_base::{Assignment, Machine, Service};
use ra_model::Instance;
use ra_moves::Step;
use ra_topology::Topology;

/// All of the penalty that a process can change by going from one machine to another: what the rows of the two
/// machines, the counters of its service there and its own machine add to it now.
#[tactic(auto, unfolding(crate::specs::Touched::touched))]
pub(crate) fn touched(
    inst: &Instance,
    topo: &Topology,
    start: &Assignment,
    kept: &Kept<'_>,
    step: Step,
) -> u64
    requires start { IsAssignment inst.now.tables start.now.items }
    requires topology { IsTopologyOf topo.now inst.now.tables }
    requires stands { StandsForKept kept.now inst.now.tables start.now.items }
    requires process { step.process.0 < process_count inst.now.tables }
    requires from { step.from.0 < machine_count inst.now.tables }
    requires to { step.to.0 < machine_count inst.now.tables }
    ensures value { result ≡ touched inst.now.tables start.now.items kept.now.assignment.items
        step.process.0 step.from.0 step.to.0 }
    ensures few { result ≤ 2 ^ 60 }
{
    let s = inst.service_of(step.process);
    let (left, come) = (inst.neighbourhood(step.from), inst.neighbourhood(step.to));
    rows_touched(inst, start, kept, step.from, step.to)
        + transient_touched(inst, start, kept, step.from, step.to)
        + crowds_touched(inst, start, kept, s, step.from, step.to)
        + spread_lack(inst, start, kept, s)
        + far_between(inst, topo, start, kept, s, left, come)
        + closed_now(inst, start, kept, step.process)
}

/// The use of the resources of two machines above their capacities.
#[tactic(auto, unfolding(crate::specs::Touched::rows_touched))]
fn rows_touched(
    inst: &Instance,
    start: &Assignment,
    kept: &Kept<'_>,
    from: Machine,
    to: Machine,
) -> u64
    requires stands { StandsForKept kept.now inst.now.tables start.now.items }
    requires from { from.0 < machine_count inst.now.tables }
    requires to { to.0 < machine_count inst.now.tables }
    ensures value { result ≡
        rows_touched inst.now.tables kept.now.assignment.items from.0 to.0 }
    ensures few { result ≤ 40 * 2 ^ 48 }
{
    row_above(inst, start, kept, from) + row_above(inst, start, kept, to)
}

/// The transient use of the transient resources of two machines above their capacities.
#[tactic(auto, unfolding(crate::specs::Touched::transient_touched))]
fn transient_touched(
    inst: &Instance,
    start: &Assignment,
    kept: &Kept<'_>,
    from: Machine,
    to: Machine,
) -> u64
    requires stands { StandsForKept kept.now inst.now.tables start.now.items }
    requires from { from.0 < machine_count inst.now.tables }
    requires to { to.0 < machine_count inst.now.tables }
    ensures value { result ≡ transient_touched inst.now.tables start.now.items
        kept.now.assignment.items from.0 to.0 }
    ensures few { result ≤ 40 * 2 ^ 48 }
{
    row_transient_above(inst, start, kept, from) + row_transient_above(inst, start, kept, to)
}

/// How many processes of a service on two machines are too many.
#[tactic(auto, unfolding(crate::specs::Touched::crowds_touched))]
fn crowds_touched(
    inst: &Instance,
    start: &Assignment,
    kept: &Kept<'_>,
    s: Service,
    from: Machine,
    to: Machine,
) -> u64
    requires stands { StandsForKept kept.now inst.now.tables start.now.items }
    requires service { s.0 < service_count inst.now.tables }
    ensures value { result ≡
        crowds_touched inst.now.tables kept.now.assignment.items s.0 from.0 to.0 }
    ensures few { result ≤ 100000 }
{
    crowd_on(inst, start, kept, s, from) + crowd_on(inst, start, kept, s, to)
}
