ghost use Rattle.std.specs.Prelude.{◌≡◌, List};
ghost use Rattle.ra_base.specs.declared.ids.Machine.{Machine};
ghost use Rattle.ra_model.specs.Situations.{situation};
ghost use Rattle.ra_moves.specs.declared.steps.Step.{Step};
ghost use Rattle.ra_moves.specs.Judging.{judge};
ghost use Rattle.ra_moves.specs.SettledNow.{IsSettling, HasSettling};

use crate::{Verdict, Weighed, settle};
use ra_cells::Greatest;
use ra_model::Instance;

/// The verdict on a weighed move at the assignment whose moved counts and cost these are: its broken cause, or else Rise
/// or Done by the cost after it. `allowed` is how much the cost may rise.
pub fn settle_now(
    inst: &Instance,
    greatest: &Greatest,
    kept: u128,
    weighed: &Weighed,
    allowed: u64,
) -> Verdict
    requires some { HasSettling inst.now.tables greatest.now kept weighed.now }
    ensures { (a0 a : List Machine) (steps : List Step) →
        IsSettling (situation inst.now.tables a0 a) steps greatest.now kept weighed.now →
        result ≡ judge (situation inst.now.tables a0 a) steps allowed }
{
    if let Some(cause) = weighed.broken {
        return Verdict::Refused { cause };
    }
    let now = greatest.greatest();
    let after = greatest.greatest_after(weighed.first, weighed.second, weighed.third);
    settle(kept, now, after, inst.service_weight(), weighed, allowed)
}
