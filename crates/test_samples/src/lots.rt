//! Lots of written words.
ghost use Rattle.std.specs.Prelude.{◌≡◌, ◌*◌, ◌+◌, ◌≤◌, [], ◌∷◌, IfOk, length};
ghost use Rattle.ra_draws.specs.Lots.{IsFitting};
ghost use Rattle.ra_draws.specs.Shown.{drawing_in, lots_shown, slack_in};
ghost use Rattle.test_samples.specs.WrittenLots.{AreWords, AreWritten};

use crate::lists::list;
use ra_base::{Drawing, NoMemory};
use ra_draws::{Lot, Lots, Source};
use std::alloc::Global;

/// A lot of these words, eight for each proposal.
pub fn written(alloc: Global, words: &[u64], budget: u64) -> Result<Lot, NoMemory>
    requires { length words.now ≡ 8 * budget }
    ensures fitting { IfOk result (λ lot. IsFitting lot) }
    ensures budget { IfOk result (λ lot. lot.budget ≡ budget) }
    ensures words { IfOk result (λ lot. AreWords lot.source words.now) }
{
    let words = list(alloc, words)?;
    Ok(Lot {
        source: Source::Written(words),
        budget,
    })
}

/// One worker with these words, eight for each proposal.
pub fn one_lot(alloc: Global, slack: u64, budget: u64, words: &[u64]) -> Result<Lots, NoMemory>
    requires words { length words.now ≡ 8 * budget }
    requires few { budget ≤ 1000000 }
    ensures slack { IfOk result (λ lots. slack_in lots ≡ slack) }
    ensures drawing { IfOk result (λ lots. drawing_in lots ≡ Drawing.One) }
    ensures one { IfOk result (λ lots. length (lots_shown lots) ≡ 1) }
    ensures written { IfOk result (λ lots.
        AreWritten (lots_shown lots) (words.now ∷ []) budget) }
{
    let mut lots = Vec::new(alloc);
    lots.push(written(alloc, words, budget)?)?;
    Ok(Lots::of(slack, Drawing::One, lots))
}

/// Two workers with equally many proposals, and with these words, eight for each proposal.
pub fn two_lots(
    alloc: Global,
    slack: u64,
    budget: u64,
    first: &[u64],
    second: &[u64],
) -> Result<Lots, NoMemory>
    requires first { length first.now ≡ 8 * budget }
    requires second { length second.now ≡ 8 * budget }
    requires few { budget + budget ≤ 1000000 }
    ensures slack { IfOk result (λ lots. slack_in lots ≡ slack) }
    ensures drawing { IfOk result (λ lots. drawing_in lots ≡ Drawing.One) }
    ensures two { IfOk result (λ lots. length (lots_shown lots) ≡ 2) }
    ensures written { IfOk result (λ lots.
        AreWritten (lots_shown lots) (first.now ∷ second.now ∷ []) budget) }
{
    let mut lots = Vec::new(alloc);
    lots.push(written(alloc, first, budget)?)?;
    lots.push(written(alloc, second, budget)?)?;
    Ok(Lots::of(slack, Drawing::One, lots))
}
