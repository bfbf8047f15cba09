ghost use Rattle.std.specs.Prelude.{◌≡◌, ◌*◌, ◌^◌, ◌<◌, ◌≤◌};
ghost use Rattle.ra_model.specs.Numbers.{machine_count, service_count, process_count};
ghost use Rattle.ra_model.specs.Assignments.{IsAssignment, machine_at};
ghost use Rattle.ra_repair.specs.Keeping.{StandsForKept};
ghost use Rattle.ra_repair.specs.Penalty.{crowd_on, spread_lack, closed_share};

use crate::kept::Kept;
use ra_base::{Assignment, Machine, Process, Service};
use ra_model::{Instance, machine_of};

/// How many processes of a service on a machine are too many: all but one.
#[tactic(auto, unfolding(crate::specs::Penalty::crowd_on))]
pub(crate) fn crowd_on(
    inst: &Instance,
    start: &Assignment,
    kept: &Kept<'_>,
    s: Service,
    m: Machine,
) -> u64
    requires stands { StandsForKept kept.now inst.now.tables start.now.items }
    requires service { s.0 < service_count inst.now.tables }
    ensures value { result ≡ crowd_on inst.now.tables kept.now.assignment.items s.0 m.0 }
    ensures few { result ≤ 50000 }
{
    let _few = inst.processes();
    u64::from(kept.cells.on_machine(s, m)).saturating_sub(1)
}

/// How many more locations a service needs for its spread.
#[tactic(auto, unfolding(crate::specs::Penalty::spread_lack))]
pub(crate) fn spread_lack(inst: &Instance, start: &Assignment, kept: &Kept<'_>, s: Service) -> u64
    requires stands { StandsForKept kept.now inst.now.tables start.now.items }
    requires service { s.0 < service_count inst.now.tables }
    ensures value { result ≡ spread_lack inst.now.tables kept.now.assignment.items s.0 }
    ensures few { result ≤ 2 ^ 32 }
{
    let wanted = u64::from(inst.spread_min(s));
    wanted.saturating_sub(u64::from(kept.cells.locations(s)))
}

/// 1 for a process that is now on a closed machine which isn't its initial one.
pub(crate) fn closed_now(inst: &Instance, start: &Assignment, kept: &Kept<'_>, p: Process) -> u64
    requires start { IsAssignment inst.now.tables start.now.items }
    requires stands { StandsForKept kept.now inst.now.tables start.now.items }
    requires process { p.0 < process_count inst.now.tables }
    ensures value { result ≡ closed_share inst.now.tables start.now.items p.0
        (machine_at kept.now.assignment.items p.0) }
    ensures few { result ≤ 1 }
{
    closed_share(inst, start, p, machine_of(&kept.assignment, p))
}

/// 1 for a process that is on a closed machine which isn't its initial one.
#[tactic(auto, unfolding(crate::specs::Penalty::closed_share))]
fn closed_share(inst: &Instance, start: &Assignment, p: Process, at: Machine) -> u64
    requires start { IsAssignment inst.now.tables start.now.items }
    requires process { p.0 < process_count inst.now.tables }
    requires machine { at.0 < machine_count inst.now.tables }
    ensures value { result ≡ closed_share inst.now.tables start.now.items p.0 at.0 }
    ensures few { result ≤ 1 }
{
    if inst.closed(at) && machine_of(start, p).0 != at.0 {
        1
    } else {
        0
    }
}
