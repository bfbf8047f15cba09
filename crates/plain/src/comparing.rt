ghost use Rattle.std.specs.Prelude.{◌≡◌, ◌↔◌, ◌<◌, ◌≤◌, true, length};

use ra_moves::{Move, Verdict};

/// Whether two moves are equal.
#[tactic(auto, using(crate::proofs::SameMoves::one_move))]
pub(crate) fn is_same_move(one: &Move, other: &Move) -> bool
    ensures { (result ≡ true) ↔ (one.now ≡ other.now) }
{
    if one.kind() != other.kind() {
        return false;
    }
    has_same_steps(one, other)
}

/// Whether two moves of one kind have the same steps.
fn has_same_steps(one: &Move, other: &Move) -> bool
    requires { one.now.kind ≡ other.now.kind }
    ensures { (result ≡ true) ↔ (one.now.steps ≡ other.now.steps) }
{
    let _same_count = other.steps();
    for j in 0..one.steps() {
        if one.step(j) != other.step(j) {
            return false;
        }
    }
    true
}

/// Whether two verdicts are equal.
pub(crate) fn is_same_verdict(one: &Verdict, other: &Verdict) -> bool
    ensures { (result ≡ true) ↔ (one.now ≡ other.now) }
{
    one == other
}
