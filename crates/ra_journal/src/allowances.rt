ghost use Rattle.std.specs.Prelude.{◌≡◌, ◌<◌, ◌≤◌};
ghost use Rattle.ra_draws.specs.Allowance.{allowance};
ghost use Rattle.ra_journal.specs.Entries.{worker_count, budget, allowed};

use ra_draws::{Lots, allow};

/// 2^44: a slack below it times a part of a budget is below 2^64.
const WIDE: u64 = 17592186044416;

/// By how much proposal `k` of a worker may raise the cost, counted from 0.
pub fn allowed(lots: &Lots, worker: u32, k: u64) -> u64
    requires worker { worker < worker_count lots.now }
    requires left { k < budget lots.now worker }
    ensures { result ≡ allowed lots.now worker k }
{
    share_of(lots.slack(), lots.lot(worker).budget, k)
}

/// The slack, times the share of a budget that is left after proposal `k`, rounded down. Only a wide slack needs a
/// division in 128 bits, and a slack of 0 needs none.
#[tactic(auto, using(crate::proofs::AllowedLemmas::product_fits, crate::proofs::AllowedLemmas::none_left), unfolding(ra_draws::specs::Allowance::allowance))]
fn share_of(slack: u64, budget: u64, k: u64) -> u64
    requires left { k < budget }
    requires few { budget ≤ 1000000 }
    ensures { result ≡ allowance slack budget k }
{
    if slack == 0 {
        return 0;
    }
    if slack < WIDE {
        slack * (budget - 1 - k) / budget
    } else {
        allow(slack, budget, k)
    }
}
