ghost use Rattle.std.specs.Prelude.{◌≡◌};
ghost use Rattle.ra_guards.specs.Order.{IsKnown};
ghost use Rattle.ra_shared.specs.Holding.{then_version};
ghost use Rattle.ra_shared.specs.Numbers.{number_of_guard};

use ra_base::Guard;
use ra_journal::Reply;
use ra_model::Instance;
use ra_moves::Verdict;

/// The number of a guard in the lock: machine m has m, and service s the machine count plus s.
#[tactic(auto, unfolding(crate::specs::Numbers::number_of_guard, ra_guards::specs::Order::IsKnown))]
pub(crate) fn number_of(inst: &Instance, guard: Guard) -> u32
    requires { IsKnown inst.now.tables guard }
    ensures { result ≡ number_of_guard inst.now.tables guard }
{
    match guard {
        Guard::Machine(m) => m.0,
        Guard::Service(s) => inst.machines() + s.0,
    }
}

/// The version of a write guard after an answer, with `version` before it: the number of entries that were seen if the
/// move was done, and else `version`.
#[tactic(auto, unfolding(crate::specs::Holding::then_version))]
pub(crate) fn then_version(reply: &Option<Reply>, version: u64, seen: u64) -> u64
    ensures { result ≡ then_version reply.now version seen }
{
    match reply {
        Some(
            Reply::Recorded {
                verdict: Verdict::Done { .. },
                ..
            },
        ) => seen,
        _ => version,
    }
}
