ghost use Rattle.std.specs.Prelude.{◌≡◌, ◌≢◌, ◌+◌, ◌<◌, List};
ghost use Rattle.ra_base.specs.declared.ids.Machine.{Machine};
ghost use Rattle.ra_model.specs.Numbers.{resource_count, machine_count, process_count};
ghost use Rattle.ra_model.specs.Assignments.{machine_at};
ghost use Rattle.ra_model.specs.Usage.{use_share, transient_share};
ghost use Rattle.ra_rows.specs.Changes.{Shifts, MayBeTakenFrom};

use crate::cells::{move_amount, move_beside_home};
use ra_base::{Fixed, Machine, Process, Resource, Steps};
use ra_model::Instance;
use std::sync::ledger::Ledger;

/// Moves what a process requires from one machine's row to another's in the table of use. In the table of transient use
/// it does so except for the row of the initial machine, which always has it.
pub(crate) fn shift_rows<L: Ledger>(
    inst: &Instance,
    p: Process,
    home: Machine,
    from: Machine,
    to: Machine,
    used: &mut Fixed<u64>,
    between: &mut Fixed<u64>,
    steps: &mut Steps<L>,
)
    requires process { p.0 < process_count inst.now.tables }
    requires from { from.0 < machine_count inst.now.tables }
    requires to { to.0 < machine_count inst.now.tables }
    requires apart { from.0 ≢ to.0 }
    requires used { MayBeTakenFrom inst.now.tables p.0 from.0 used.old.items }
    requires between { MayBeTakenFrom inst.now.tables p.0 from.0 between.old.items }
    ensures used { Shifts (resource_count inst.now.tables)
        (use_share inst.now.tables) p.0 from.0 to.0 used.old.items used.new.items }
    ensures between { (a0 : List Machine) → machine_at a0 p.0 ≡ home.0 →
        Shifts (resource_count inst.now.tables)
        (transient_share inst.now.tables a0) p.0 from.0 to.0 between.old.items between.new.items }
    ensures counted { steps.new ≡ steps.old + resource_count inst.now.tables }
{
    let width = inst.resources();
    for r in 0..width {
        let amount = inst.requirement(p, Resource(r), steps);
        move_amount(used, width, r, from, to, amount);
        move_beside_home(between, width, r, home, from, to, amount);
    }
}
