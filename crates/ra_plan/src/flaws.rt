ghost use Rattle.std.specs.Prelude.{◌≡◌, None, true};
ghost use Rattle.ra_base.specs.Searches.{or_else};
ghost use Rattle.ra_moves.specs.Judging.{repeat_of, same_of};

use ra_base::Cause;
use ra_moves::{Move, first_flaw};

/// The cause for which a move is refused at any assignment. Most moves have none, and pass at once.
#[inline(always)]
pub(crate) fn flaw_of(mv: &Move) -> Option<Cause>
    ensures { result ≡ or_else (repeat_of mv.now.steps) (same_of mv.now.steps) }
{
    if is_flawless(mv) {
        return None;
    }
    first_flaw(mv)
}

/// Whether each step leaves the machine of its process, and no two are of one process.
#[inline(always)]
fn is_flawless(mv: &Move) -> bool
    ensures { result ≡ true → None ≡ or_else (repeat_of mv.now.steps) (same_of mv.now.steps) }
{
    let count = mv.steps();
    let one = mv.step(0);
    if one.from.0 == one.to.0 {
        return false;
    }
    if count == 1 {
        return true;
    }
    let two = mv.step(1);
    if two.from.0 == two.to.0 {
        return false;
    }
    if one.process.0 == two.process.0 {
        return false;
    }
    if count == 2 {
        return true;
    }
    let three = mv.step(2);
    if three.from.0 == three.to.0 {
        return false;
    }
    if one.process.0 == three.process.0 {
        return false;
    }
    two.process.0 != three.process.0
}
