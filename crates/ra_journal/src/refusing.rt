ghost use Rattle.std.specs.Prelude.{◌≡◌, ℕ, ◌+◌, ◌*◌, ◌<◌, ◌≤◌, pos, ◌<ℤ◌, None, IfSome};
ghost use Rattle.std.specs.Bool.{Decides};
ghost use Rattle.ra_model.specs.Numbers.{service_weight_of};
ghost use Rattle.ra_journal.specs.Entries.{worker_count, budget, allowed};
ghost use Rattle.ra_journal.specs.Refusing.{FallsBy, IsDear, IsRefused};

use crate::allowances::allowed;
use ra_base::MovedCount;
use ra_draws::Lots;
use ra_model::Instance;
use ra_moves::{Plan, Weighed};

/// Whether it is known at once that a worker's plan is refused wherever it is recorded, as long as its guards are
/// untouched: its move breaks a constraint, or costs more than the allowance permits however far the greatest moved
/// count falls.
pub fn is_refused(inst: &Instance, lots: &Lots, worker: u32, plan: &Plan) -> bool
    requires worker { worker < worker_count lots.now }
    requires left { plan.now.k < budget lots.now worker }
    ensures { Decides result
        (IsRefused inst.now.tables (allowed lots.now worker plan.now.k) plan.now) }
{
    if plan.weighed.broken.is_some() {
        return true;
    }
    is_dear(inst, &plan.weighed, allowed(lots, worker, plan.k))
}

/// Whether a move that breaks nothing costs more than the allowance permits, however far the greatest moved count
/// falls.
#[tactic(auto, using(crate::proofs::RisesLemmas::is_dear_at_least))]
fn is_dear(inst: &Instance, weighed: &Weighed, rise: u64) -> bool
    requires unbroken { weighed.now.broken ≡ None }
    ensures { Decides result (IsDear inst.now.tables rise weighed.now) }
{
    let fall = fall_of(weighed);
    let most = rise as u128 + inst.service_weight() as u128 * fall as u128;
    is_above(weighed.local, most)
}

/// Whether a change is above a number.
#[tactic(auto, using(crate::proofs::RisesLemmas::above))]
fn is_above(change: i128, most: u128) -> bool
    ensures { Decides result (pos most <ℤ change) }
{
    change > 0 && change.unsigned_abs() > most
}

/// The most by which a moved count of a weighing falls.
fn fall_of(weighed: &Weighed) -> u32
    ensures falls { FallsBy weighed.now result }
    ensures least { (n : ℕ) → FallsBy weighed.now n → result ≤ n }
{
    let first = fall(weighed.first);
    let second = fall(weighed.second);
    let third = fall(weighed.third);
    first.max(second).max(third)
}

/// By how much a count falls; 0 if there is no count.
fn fall(count: Option<MovedCount>) -> u32
    ensures falls { IfSome count (λ c. c.before ≤ c.after + result) }
    ensures least { (n : ℕ) → IfSome count (λ c. c.before ≤ c.after + n) → result ≤ n }
{
    match count {
        Some(c) => c.before.saturating_sub(c.after),
        None => 0,
    }
}
