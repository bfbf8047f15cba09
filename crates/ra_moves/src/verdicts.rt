ghost use Rattle.std.specs.Prelude.{◌≡◌, ℕ, ◌+◌, ◌^◌, ◌<◌, pos, ◌≤ℤ◌, ◌<ℤ◌};
ghost use Rattle.ra_base.specs.Searches.{or_else};
ghost use Rattle.ra_moves.specs.Judging.{rise_test, verdict_of};
ghost use Rattle.ra_moves.specs.Settling.{settled_cost};

use crate::moves::Move;
use ra_base::{Cause, MovedCount};

/// The verdict on a move.
#[derive(Clone, Copy, Debug, PartialEq, Eq)]
pub enum Verdict {
    /// The move is done, and the cost after it is this.
    Done { cost: u128 },
    /// The move is refused for this cause.
    Refused { cause: Cause },
}

/// The weighing of a move: what it breaks, or what it changes that doesn't depend on the services that don't move.
#[derive(Clone, Copy, Debug, PartialEq, Eq)]
pub struct Weighed {
    /// The cause other than Rise for which the move is refused. If there is one, `local` is 0 and no count is given.
    pub broken: Option<Cause>,
    /// The change of the sum of load, balance, process and machine cost.
    pub local: i128,
    /// The moved counts of the different services of the move, in the order of its steps.
    pub first: Option<MovedCount>,
    pub second: Option<MovedCount>,
    pub third: Option<MovedCount>,
}

/// The move that a worker proposes, with its weighing.
#[derive(Clone, Copy, Debug, PartialEq, Eq)]
pub struct Plan {
    /// How many entries of the journal the worker had taken in.
    pub q: u64,
    /// The number of the worker's proposal, counted from 0.
    pub k: u64,
    /// The move.
    pub mv: Move,
    /// The move's weighing at that state.
    pub weighed: Weighed,
}

/// The verdict on a weighed move: its broken cause, or else Rise or Done by the cost after it. This cost is `kept`, the
/// cost so far, and `local`, and the weight times the change of the greatest moved count from `now` to `after`.
pub fn settle(
    kept: u128,
    now: u32,
    after: u32,
    service_weight: u32,
    weighed: &Weighed,
    allowed: u64,
) -> Verdict
    requires not_negative { pos 0 ≤ℤ settled_cost kept now after service_weight weighed.now.local }
    requires fits { settled_cost kept now after service_weight weighed.now.local <ℤ pos (2 ^ 114) }
    ensures { (cost : ℕ) → settled_cost kept now after service_weight weighed.now.local ≡ pos cost
        → result ≡ verdict_of (or_else weighed.now.broken (rise_test kept cost allowed)) cost }
{
    let cost = cost_after(kept, now, after, service_weight, weighed.local);
    match weighed.broken {
        Some(cause) => Verdict::Refused { cause },
        None => by_rise(kept, cost, allowed),
    }
}

/// The verdict on a move that breaks nothing: Rise, if the cost after it exceeds `kept`, the cost so far, by more than
/// the allowance permits, and else Done.
#[tactic(auto, using(crate::proofs::Settled::risen, crate::proofs::Settled::done))]
pub fn by_rise(kept: u128, cost: u128, allowed: u64) -> Verdict
    requires { kept < 2 ^ 127 + 2 ^ 115 }
    ensures { result ≡ verdict_of (rise_test kept cost allowed) cost }
{
    if cost > kept + allowed as u128 {
        Verdict::Refused {
            cause: Cause::Rise {
                before: kept,
                after: cost,
                allowed,
            },
        }
    } else {
        Verdict::Done { cost }
    }
}

/// The cost after a move: what is added, less what is taken away.
fn cost_after(kept: u128, now: u32, after: u32, weight: u32, local: i128) -> u128
    requires not_negative { pos 0 ≤ℤ settled_cost kept now after weight local }
    requires fits { settled_cost kept now after weight local <ℤ pos (2 ^ 114) }
    ensures value { pos result ≡ settled_cost kept now after weight local }
    ensures near { kept < 2 ^ 127 + 2 ^ 115 }
{
    let added = weight as u128 * after as u128;
    let taken = weight as u128 * now as u128;
    if local < 0 {
        kept + added - (local.unsigned_abs() + taken)
    } else {
        kept + local.unsigned_abs() + added - taken
    }
}
