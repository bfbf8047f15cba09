ghost use Rattle.std.specs.Prelude.{◌≡◌, ◌≤◌, length, IfOk};
ghost use Rattle.ra_model.specs.Situations.{IsSound, parts_at, situation};
ghost use Rattle.ra_model.specs.Numbers.{process_count};
ghost use Rattle.ra_search.specs.Kept.{IsKept};

use ra_base::{Assignment, NoMemory, Parts};
use ra_model::copied;
use ra_world::World;
use std::alloc::Global;

/// A list that is kept, with the parts of its cost.
#[derive(Drop)]
pub(crate) struct Kept {
    pub(crate) list: Assignment,
    pub(crate) parts: Parts,
}

impl Kept {
    /// Keeps the list of a world. All its memory is taken here.
    pub(crate) fn make(alloc: Global, world: &World<'_>) -> Result<Kept, NoMemory>
        ensures kept { IfOk result (IsKept world.now) }
        ensures list { IfOk result (λ kept. kept.list.items ≡ world.now.here) }
    {
        let mut list = Assignment::make(alloc, world.instance().processes() as usize)?;
        list.extend_from_slice(world.assignment().as_slice());
        Ok(Kept {
            list,
            parts: world.parts(),
        })
    }

    /// Keeps the list of a world in the place of another one.
    pub(crate) fn keep(&mut self, world: &World<'_>)
        requires { process_count world.now.tables ≤ self.old.list.room }
        ensures kept { IsKept world.now self.new }
        ensures list { self.new.list.items ≡ world.now.here }
    {
        self.list.clear();
        self.list.extend_from_slice(world.assignment().as_slice());
        self.parts = world.parts();
    }
}
