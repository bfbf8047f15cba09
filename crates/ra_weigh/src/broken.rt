ghost use Rattle.std.specs.Prelude.{◌≡◌, ◌↔◌, true, None, length};
ghost use Rattle.ra_model.specs.Broken.{first_broken};
ghost use Rattle.ra_model.specs.Situations.{broken_at};
ghost use Rattle.ra_moves.specs.Replacing.{after_move};
ghost use Rattle.ra_moves.specs.Moving.{MayMove};
ghost use Rattle.ra_world.specs.Required.{AreRequiredRows};
ghost use Rattle.ra_weigh.specs.Trials.{tables_of, initial_of, after_of};

use crate::trial::Trial;
use ra_base::Cause;
use ra_moves::Move;
use ra_world::World;

/// The first constraint that is broken after a move, from what its processes require. It takes the time of
/// `is_unbroken`. If the first broken constraint is a dependency, the time also grows with the number of dependencies
/// and processes of one service.
pub fn first_broken(world: &World<'_>, mv: &Move, required: &[u32; 60]) -> Option<Cause>
    requires moves { MayMove world.now mv.now.steps }
    requires required { AreRequiredRows world.now.tables mv.now.steps
        (length mv.now.steps) required.now }
    ensures { result ≡ broken_at (after_move world.now mv.now.steps) }
{
    Trial::of(world, mv, required).first_broken()
}

/// Whether no constraint is broken after a move, from what its processes require. It tests in the cheapest order, and
/// names no cause. The time grows with the number of resources, and with the number of services that a moved service
/// needs or that need it, each counted once however often a dependency is listed. It doesn't grow with the size of a
/// service, except for the binary searches for a count.
pub fn is_unbroken(world: &World<'_>, mv: &Move, required: &[u32; 60]) -> bool
    requires moves { MayMove world.now mv.now.steps }
    requires required { AreRequiredRows world.now.tables mv.now.steps
        (length mv.now.steps) required.now }
    ensures { (result ≡ true) ↔ (broken_at (after_move world.now mv.now.steps) ≡ None) }
{
    Trial::of(world, mv, required).is_unbroken()
}

impl<'a, 'b> Trial<'a, 'b> {
    /// The first constraint that is broken after the move. Most moves break neither a capacity nor a transient use, and
    /// one look at each row tells it. The place of a conflict is searched for only if there is one.
    fn first_broken(&self) -> Option<Cause>
        ensures { result ≡
            first_broken (tables_of self.now) (initial_of self.now) (after_of self.now) }
    {
        if !self.keeps_rows() {
            if let Some(cause) = self.broken_capacity() {
                return Some(cause);
            }
            return self.broken_transient();
        }
        if !self.keeps_apart() {
            return self.broken_conflict();
        }
        if !self.keeps_spread() {
            return self.broken_spread();
        }
        if let Some(cause) = self.broken_dependency() {
            return Some(cause);
        }
        if self.keeps_closed() {
            return None;
        }
        self.broken_closed()
    }
}
