ghost use Rattle.std.specs.Prelude.{IfOk};
ghost use Rattle.ra_check.specs.Services.{AreServicesOf};

use ra_base::{Fixed, NoMemory};
use ra_model::{Instance, Members, Places, copies};
use std::alloc::Global;

/// What the checks of services use: the processes of each service, places instead of labels, and one mark for each
/// machine, on which a check may put any stamp.
#[derive(Drop)]
pub(crate) struct Services {
    pub(crate) members: Members,
    pub(crate) places: Places,
    pub(crate) marks: Fixed<u32>,
}

impl Services {
    /// The lists that the checks of an instance's services use.
    pub(crate) fn make(alloc: Global, inst: &Instance) -> Result<Services, NoMemory>
        ensures { IfOk result (λ services. AreServicesOf services inst.now.tables) }
    {
        let members = Members::make(alloc, inst)?;
        let places = Places::make(alloc, inst)?;
        let marks = copies(alloc, inst.machines() as usize, 0u32)?;
        Ok(Services {
            members,
            places,
            marks,
        })
    }
}
