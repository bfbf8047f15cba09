//! The instance of a draft with the processes that the draft left instead of its own. Nothing is copied.
ghost use Rattle.std.specs.Prelude.{◌≡◌};
ghost use Rattle.ra_model.specs.Costs.{parts_of};
ghost use Rattle.ra_model.specs.Feasible.{Feasible};
ghost use Rattle.ra_edit.specs.Drafts.{instance_of};
ghost use Rattle.ra_edit.specs.Keeping.{IsSoundDraft};
ghost use Rattle.ra_edit.specs.Leaving.{left_in};
ghost use Rattle.ra_edit.specs.SameLists.{AreSameLists};

use ra_base::{Assignment, Fixed};
use ra_model::{Instance, ProcessRow};

/// What a draft leaves when it gives back its instance: the processes, what they require by process, then resource, and
/// the two lists of machines.
#[derive(Drop)]
pub struct Left {
    pub rows: Fixed<ProcessRow>,
    pub requirements: Fixed<u32>,
    pub initial: Assignment,
    pub current: Assignment,
}

/// The edited instance and its two lists. The machines that were closed are closed.
#[derive(Drop)]
pub struct Edited {
    pub instance: Instance,
    pub initial: Assignment,
    pub current: Assignment,
}

impl Edited {
    /// An instance whose draft left these lists, with the processes in these lists instead of its own.
    pub fn of(instance: Instance, left: Left) -> Edited
        requires sound { IsSoundDraft (left_in instance.tables left) }
        requires feasible { Feasible (instance_of (left_in instance.tables left))
            left.initial.items left.current.items }
        ensures lists { AreSameLists (instance_of (left_in instance.tables left))
            result.instance.tables }
        ensures initial { result.initial.items ≡ left.initial.items }
        ensures current { result.current.items ≡ left.current.items }
        ensures feasible { Feasible result.instance.tables result.initial.items
            result.current.items }
        ensures parts { parts_of result.instance.tables result.initial.items result.current.items ≡
            parts_of (instance_of (left_in instance.tables left)) left.initial.items
            left.current.items }
    {
        let Left {
            rows,
            requirements,
            initial,
            current,
        } = left;
        Edited {
            instance: instance.with_processes(rows, requirements),
            initial,
            current,
        }
    }
}
