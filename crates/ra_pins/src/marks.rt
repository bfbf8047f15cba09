ghost use Rattle.std.specs.Prelude.{◌≡◌, ◌+◌, ◌<◌, length};
ghost use Rattle.ra_model.specs.Numbers.{service_count, process_count};
ghost use Rattle.ra_model.specs.Assignments.{IsAssignment};
ghost use Rattle.ra_model.specs.Members.{AreMembers};
ghost use Rattle.ra_pins.specs.Marks.{AreMarksOfFlagged, AreTouched, AreFlaggedMarked, AreFlaggedAndSeated, IsStampSet};
ghost use Rattle.ra_pins.specs.Marks.{is_seat};

use ra_base::{Assignment, Fixed, Process, Service};
use ra_model::{Instance, Members, machine_of};

/// Marks the machines on which flagged processes of a service start, by the service's number plus one. A mark that was
/// set stays true, since no flag is ever cleared.
pub(crate) fn mark_service(
    inst: &Instance,
    a0: &Assignment,
    members: &Members,
    flags: &Fixed<bool>,
    touched: &Fixed<bool>,
    s: Service,
    marks: &mut Fixed<u32>,
)
    requires fits { IsAssignment inst.now.tables a0.now.items }
    requires members { AreMembers members.now inst.now.tables }
    requires service { s.0 < service_count inst.now.tables }
    requires flags { length flags.now.items ≡ process_count inst.now.tables }
    requires touched { AreTouched inst.now.tables flags.now.items touched.now.items }
    requires marked { AreMarksOfFlagged inst.now.tables a0.now.items flags.now.items marks.old.items }
    ensures marked { AreMarksOfFlagged inst.now.tables a0.now.items flags.now.items marks.new.items }
    ensures stamped { AreFlaggedMarked inst.now.tables a0.now.items flags.now.items s.0 marks.new.items }
{
    if touched.get(s.0 as usize) {
        stamp(a0, flags, members.of(s), s.0 + 1, marks);
    }
}

/// Sets a stamp at the machines on which the flagged ones of some processes start.
fn stamp(
    a0: &Assignment,
    flags: &Fixed<bool>,
    processes: &[Process],
    stamp: u32,
    marks: &mut Fixed<u32>,
)
    requires seated { AreFlaggedAndSeated a0.now.items flags.now.items processes.now
        (length marks.old.items) }
    ensures { IsStampSet (is_seat a0.now.items flags.now.items processes.now) (length processes.now)
        stamp marks.old.items marks.new.items }
{
    for k in 0..processes.len() {
        let p = processes[k];
        if flags.get(p.0 as usize) {
            let at = machine_of(a0, p);
            marks.set(at.0 as usize, stamp);
        }
    }
}
