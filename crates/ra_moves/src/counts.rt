ghost use Rattle.std.specs.Prelude.{◌≡◌, ℕ, ◌<◌, List, None, length, slice_index, IfSome};
ghost use Rattle.ra_model.specs.Situations.{Situation};
ghost use Rattle.ra_cells.specs.Replaced.{counted_after, IsChange};
ghost use Rattle.ra_moves.specs.declared.steps.Step.{Step};
ghost use Rattle.ra_moves.specs.Judging.{broken_by};
ghost use Rattle.ra_moves.specs.Replacing.{after_move};
ghost use Rattle.ra_moves.specs.Moving.{IsMove};
ghost use Rattle.ra_moves.specs.Weighing.{weighed_of};
ghost use Rattle.ra_moves.specs.SettledNow.{AreMovedOf, IsRoomFor};

use crate::Weighed;
use ra_base::MovedCount;
use ra_cells::Greatest;

/// Changes moved counts by the weighing of a move that breaks nothing: the counts of the assignment before the move
/// become those of the assignment after it.
pub fn change_counts(greatest: &mut Greatest, weighed: &Weighed)
    requires first { IfSome weighed.now.first (λ c. IsChange greatest.old c) }
    requires second { IfSome weighed.now.second (λ c. IsChange greatest.old c) }
    requires third { IfSome weighed.now.third (λ c. IsChange greatest.old c) }
    ensures counts { (st : Situation) (steps : List Step) → IsMove st.tables st.here steps →
        broken_by st steps ≡ None → weighed.now ≡ weighed_of st steps →
        AreMovedOf st greatest.old → AreMovedOf (after_move st steps) greatest.new }
    ensures limit { greatest.new.limit ≡ greatest.old.limit }
{
    change_count(greatest, weighed.first);
    change_count(greatest, weighed.second);
    change_count(greatest, weighed.third);
}

/// Gives the service of a change its new count, if there is one.
fn change_count(greatest: &mut Greatest, change: Option<MovedCount>)
    requires { IfSome change (λ c. IsRoomFor greatest.old c) }
    ensures counts { (s : ℕ) → s < length greatest.old.counts → slice_index greatest.new.counts s
        ≡ counted_after change (slice_index greatest.old.counts) s }
    ensures length { length greatest.new.counts ≡ length greatest.old.counts }
    ensures limit { greatest.new.limit ≡ greatest.old.limit }
{
    if let Some(c) = change {
        greatest.change(c.service, c.after);
    }
}
