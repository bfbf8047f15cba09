ghost use Rattle.std.specs.Prelude.{◌≡◌, ◌<◌, true, length};
ghost use Rattle.ra_weigh.specs.Exchanges.{IsExchange};

use ra_moves::Move;

/// Whether two processes exchange their machines by a move.
#[inline(always)]
pub(crate) fn is_exchange(mv: &Move) -> bool
    ensures { result ≡ true → IsExchange mv.now.steps }
{
    if mv.steps() != 2 {
        return false;
    }
    let one = mv.step(0);
    let two = mv.step(1);
    if one.from.0 == one.to.0 {
        return false;
    }
    if one.to.0 != two.from.0 {
        return false;
    }
    two.to.0 == one.from.0
}
