ghost use Rattle.std.specs.Prelude.{◌≡◌, ◌<◌};
ghost use Rattle.ra_draws.specs.Allowance.{allowance};

/// By how much proposal `k` of a worker may raise the cost, counted from 0: the slack, times the share of its budget
/// that is left after it, rounded down.
#[tactic(auto, unfolding(crate::specs::Allowance::allowance))]
pub fn allow(slack: u64, budget: u64, k: u64) -> u64
    requires { k < budget }
    ensures { result ≡ allowance slack budget k }
{
    let left = budget - 1 - k;
    (slack as u128 * left as u128 / budget as u128) as u64
}
