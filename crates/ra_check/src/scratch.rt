ghost use Rattle.std.specs.Prelude.{◌≡◌, ◌≤◌, IfOk, replicate};
ghost use Rattle.ra_check.specs.Made.{IsMadeFor};

use crate::services::Services;
use ra_base::{Fixed, NoMemory};
use ra_model::Instance;
use std::alloc::Global;

/// Tables that the checks of one instance write into, so that a check takes no memory. Between two calls their contents
/// mean nothing.
pub struct Scratch {
    pub(crate) used: Fixed<u64>,
    pub(crate) transient: Fixed<u64>,
    pub(crate) moved: Fixed<u32>,
    pub(crate) services: Services,
}

/// Frees all tables in one call, so that the end of an owner is short to prove.
impl Drop for Scratch {
    fn drop(self) {
        let Scratch {
            used: _,
            transient: _,
            moved: _,
            services: _,
        } = self;
    }
}

impl Scratch {
    /// A scratch for an instance.
    pub fn make(alloc: Global, inst: &Instance) -> Result<Scratch, NoMemory>
        ensures { IfOk result (λ s. IsMadeFor s inst.now.tables) }
    {
        let cells = inst.machines() as usize * inst.resources() as usize;
        Ok(Scratch {
            used: filled(alloc, cells, 0)?,
            transient: filled(alloc, cells, 0)?,
            moved: filled(alloc, inst.services() as usize, 0)?,
            services: Services::make(alloc, inst)?,
        })
    }
}

/// A table of `count` equal items.
fn filled<T: Copy + Drop>(alloc: Global, count: usize, item: T) -> Result<Fixed<T>, NoMemory>
    ensures { IfOk result (λ t. t.items ≡ replicate count item) }
{
    let mut table = Fixed::make(alloc, count)?;
    fill(&mut table, count, item);
    Ok(table)
}

/// Fills a table with `count` equal items.
pub(crate) fn fill<T: Copy>(table: &mut Fixed<T>, count: usize, item: T)
    requires { count ≤ table.old.room }
    ensures { table.new.items ≡ replicate count item }
{
    table.clear();
    for _ in 0..count {
        table.push(item);
    }
}
