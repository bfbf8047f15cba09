//! What a machine costs, by the plain use of its resources.
use ra_base::{Assignment, Machine, Resource, Steps};
use ra_model::Instance;
use std::sync::ledger::Ledger;
use test_samples::counts::used;

/// The load cost of one resource of a machine.
fn load_share<L: Ledger>(
    inst: &Instance,
    a: &Assignment,
    m: u32,
    r: u32,
    steps: &mut Steps<L>,
) -> u128 {
    if m >= inst.machines() || r >= inst.resources() {
        return 0;
    }
    let safety = inst.safety(Machine(m), Resource(r));
    let excess = used(inst, a, m, r, steps).saturating_sub(u64::from(safety));
    u128::from(inst.load_weight(Resource(r))).saturating_mul(u128::from(excess))
}

/// The load cost of a machine.
pub(super) fn load_of<L: Ledger>(
    inst: &Instance,
    a: &Assignment,
    m: u32,
    steps: &mut Steps<L>,
) -> u128 {
    let mut cost = 0u128;
    for r in 0..inst.resources() {
        cost = cost.saturating_add(load_share(inst, a, m, r, steps));
    }
    cost
}

/// What is left of a resource of a machine.
fn left_of<L: Ledger>(
    inst: &Instance,
    a: &Assignment,
    m: u32,
    r: u32,
    steps: &mut Steps<L>,
) -> u128 {
    if m >= inst.machines() || r >= inst.resources() {
        return 0;
    }
    let capacity = inst.capacity(Machine(m), Resource(r));
    u128::from(u64::from(capacity).saturating_sub(used(inst, a, m, r, steps)))
}

/// The balance cost of one objective on a machine.
fn balance_share<L: Ledger>(
    inst: &Instance,
    a: &Assignment,
    m: u32,
    b: u32,
    steps: &mut Steps<L>,
) -> u128 {
    if b >= inst.balances() {
        return 0;
    }
    let objective = inst.balance(b);
    let first = left_of(inst, a, m, objective.first.0, steps);
    let second = left_of(inst, a, m, objective.second.0, steps);
    let wanted = u128::from(objective.target).saturating_mul(first);
    u128::from(objective.weight).saturating_mul(wanted.saturating_sub(second))
}

/// The balance cost of a machine.
pub(super) fn balance_of<L: Ledger>(
    inst: &Instance,
    a: &Assignment,
    m: u32,
    steps: &mut Steps<L>,
) -> u128 {
    let mut cost = 0u128;
    for b in 0..inst.balances() {
        cost = cost.saturating_add(balance_share(inst, a, m, b, steps));
    }
    cost
}
