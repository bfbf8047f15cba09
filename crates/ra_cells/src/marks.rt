ghost use Rattle.std.specs.Prelude.{◌≡◌, ◌<◌};
ghost use Rattle.ra_model.specs.Numbers.{machine_count};
ghost use Rattle.ra_cells.specs.Marks.{mark_of};

use ra_base::Machine;
use ra_model::Instance;

/// Which of its marks is read of a machine.
#[derive(Clone, Copy)]
pub(crate) enum Mark {
    OnMachine,
    InLocation,
    InNeighbourhood,
}

/// A mark of a machine: its number, or one of its labels.
#[tactic(auto, unfolding(crate::specs::Marks::mark_of))]
pub(crate) fn mark_of(inst: &Instance, mark: Mark, m: Machine) -> u32
    requires { m.0 < machine_count inst.now.tables }
    ensures { result ≡ mark_of inst.now.tables mark m.0 }
{
    match mark {
        Mark::OnMachine => m.0,
        Mark::InLocation => inst.location(m),
        Mark::InNeighbourhood => inst.neighbourhood(m),
    }
}
