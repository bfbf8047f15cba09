ghost use Rattle.std.specs.Prelude.{◌≡◌, ◌≢◌, ℕ, ◌+◌, ◌-◌, ◌*◌, ◌^◌, ◌<◌, ◌≤◌, List, length};
ghost use Rattle.ra_base.specs.Sums.{greatest};
ghost use Rattle.ra_base.specs.declared.ids.Machine.{Machine};
ghost use Rattle.ra_model.specs.Numbers.{resource_count, machine_count, process_count, service_count, balance_count, requirement_of, service_of, service_weight_of};
ghost use Rattle.ra_model.specs.Assignments.{machine_at};
ghost use Rattle.ra_model.specs.Usage.{use_of};
ghost use Rattle.ra_model.specs.Costs.{available};
ghost use Rattle.ra_model.specs.Situations.{moved_at};
ghost use Rattle.ra_rows.specs.Rows.{IsUsageRow};
ghost use Rattle.ra_rows.specs.FilterRows.{load_asked, load_row, first_asked, first_row, second_asked, second_row};
ghost use Rattle.ra_shift.specs.Sharing.{AreRequired};
ghost use Rattle.ra_shift.specs.Filter.{load_above, balance_above, saved, service_away};
ghost use Rattle.ra_shift.specs.Sharing.{HasAsked};

use crate::reads::is_away;
use ra_base::{Machine, MovedCount, Process, Resource, Service};
use ra_model::Instance;
use ra_world::World;

/// What a process adds to the load cost of a machine.
#[inline(always)]
pub(crate) fn load_above(world: &World<'_>, required: &[u32], to: Machine) -> u128
    requires machine { to.0 < machine_count world.now.tables }
    requires width { length required.now ≡ resource_count world.now.tables }
    ensures value { (p : ℕ) → AreRequired world.now.tables p required.now →
        result ≡ load_above world.now.tables world.now.here p to.0 }
    ensures bound { result ≤ 20 * 2 ^ 64 }
{
    let inst = world.instance();
    let used = world.rows().usage_row(to);
    let mut sum: u128 = 0;
    for r in 0..inst.resources() {
        let place = r as usize;
        sum += u128::from(load_more(inst, to, Resource(r), used[place], required[place]));
    }
    sum
}

/// What an amount adds to the load cost of one resource of a machine with this use.
#[inline(always)]
#[tactic(auto, using(ra_world::proofs::CostLaws::product_small))]
fn load_more(inst: &Instance, m: Machine, r: Resource, used: u64, amount: u32) -> u64
    requires machine { m.0 < machine_count inst.now.tables }
    requires resource { r.0 < resource_count inst.now.tables }
    ensures value { (a : List Machine) (p : ℕ) → used ≡ use_of inst.now.tables a m.0 r.0
        → amount ≡ requirement_of inst.now.tables p r.0
        → result ≡ load_asked inst.now.tables p r.0 - load_row inst.now.tables a m.0 r.0 }
    ensures bound { result ≤ 2 ^ 64 }
{
    let below = u64::from(inst.safety(m, r)).saturating_sub(used);
    u64::from(inst.load_weight(r)) * u64::from(amount).saturating_sub(below)
}

/// What a process adds to the balance cost of a machine, counted from the most that it could save there.
pub(crate) fn balance_above(world: &World<'_>, required: &[u32], to: Machine) -> u128
    requires machine { to.0 < machine_count world.now.tables }
    requires width { length required.now ≡ resource_count world.now.tables }
    ensures value { (p : ℕ) → AreRequired world.now.tables p required.now →
        result ≡ balance_above world.now.tables world.now.here p to.0 }
    ensures bound { result ≤ 10 * 2 ^ 96 }
{
    let inst = world.instance();
    let used = world.rows().usage_row(to);
    let mut sum: u128 = 0;
    for b in 0..inst.balances() {
        sum += balance_more(inst, to, used, required, b);
    }
    sum
}

/// By how much one objective raises the balance cost of a machine with this use if a process comes, counted from the
/// most that the process could save.
#[tactic(auto, using(ra_world::proofs::CostLaws::product_below))]
fn balance_more(inst: &Instance, m: Machine, used: &[u64], required: &[u32], b: u32) -> u128
    requires machine { m.0 < machine_count inst.now.tables }
    requires objective { b < balance_count inst.now.tables }
    requires used { length used.now ≡ resource_count inst.now.tables }
    requires required { length required.now ≡ resource_count inst.now.tables }
    ensures value { (a : List Machine) (p : ℕ) → IsUsageRow inst.now.tables a m.0 used.now
        → AreRequired inst.now.tables p required.now
        → result ≡ first_asked inst.now.tables p b - first_row inst.now.tables a m.0 b
        + (second_asked inst.now.tables p b - second_row inst.now.tables a m.0 b) }
    ensures bound { result ≤ 2 ^ 96 }
{
    let objective = inst.balance(b);
    let first = left_of(inst, m, used, objective.first);
    let second = left_of(inst, m, used, objective.second);
    let wanted = u64::from(objective.target) * first;
    let asked = asked_of(inst, required, b);
    let more = lack_more(wanted, second, asked.wanted, asked.taken);
    u128::from(objective.weight) * u128::from(more)
}

/// What a process asks for by one objective: what it requires of the first resource, times the target, and what it
/// takes of the second.
#[derive(Clone, Copy)]
pub(crate) struct Asked {
    pub(crate) wanted: u64,
    pub(crate) taken: u64,
}

/// What a process asks for by one objective.
#[inline(always)]
pub(crate) fn asked_of(inst: &Instance, required: &[u32], b: u32) -> Asked
    requires objective { b < balance_count inst.now.tables }
    requires width { length required.now ≡ resource_count inst.now.tables }
    ensures { (p : ℕ) → AreRequired inst.now.tables p required.now →
        HasAsked inst.now.tables p b result }
{
    let objective = inst.balance(b);
    Asked {
        wanted: u64::from(objective.target) * u64::from(required[objective.first.0 as usize]),
        taken: u64::from(required[objective.second.0 as usize]),
    }
}

/// The growth of max(0, wanted - left) if `wanted` falls by `asked` and `left` by `taken`, counted from the most that
/// could be saved.
#[inline(always)]
fn lack_more(wanted: u64, left: u64, asked: u64, taken: u64) -> u64
    ensures { result ≡ (asked - taken - (wanted - left)) + (taken - asked - (left - wanted)) }
{
    let saves = asked
        .saturating_sub(taken)
        .saturating_sub(wanted.saturating_sub(left));
    let adds = taken
        .saturating_sub(asked)
        .saturating_sub(left.saturating_sub(wanted));
    saves + adds
}

/// What is left of a resource of a machine with this use.
#[inline(always)]
fn left_of(inst: &Instance, m: Machine, used: &[u64], r: Resource) -> u64
    requires machine { m.0 < machine_count inst.now.tables }
    requires resource { r.0 < resource_count inst.now.tables }
    requires width { length used.now ≡ resource_count inst.now.tables }
    ensures value { (a : List Machine) → IsUsageRow inst.now.tables a m.0 used.now
        → result ≡ available inst.now.tables a m.0 r.0 }
    ensures bound { result < 2 ^ 32 }
{
    u64::from(inst.capacity(m, r)).saturating_sub(used[r.0 as usize])
}

/// The most that a process can save of the balance cost of a machine.
pub(crate) fn saved(inst: &Instance, required: &[u32]) -> u128
    requires { length required.now ≡ resource_count inst.now.tables }
    ensures value { (p : ℕ) → AreRequired inst.now.tables p required.now → result ≡
        saved inst.now.tables p }
    ensures bound { result ≤ 10 * 2 ^ 96 }
{
    let mut sum: u128 = 0;
    for b in 0..inst.balances() {
        sum += saved_by(inst, required, b);
    }
    sum
}

/// The most that a process can save of the balance cost of a machine by one objective.
#[tactic(auto, using(ra_world::proofs::CostLaws::product_below))]
fn saved_by(inst: &Instance, required: &[u32], b: u32) -> u128
    requires objective { b < balance_count inst.now.tables }
    requires width { length required.now ≡ resource_count inst.now.tables }
    ensures value { (p : ℕ) → AreRequired inst.now.tables p required.now → result ≡
        first_asked inst.now.tables p b }
    ensures bound { result ≤ 2 ^ 96 }
{
    let asked = asked_of(inst, required, b);
    u128::from(inst.balance(b).weight) * u128::from(asked.wanted.saturating_sub(asked.taken))
}

/// The service cost with a process on a machine other than its initial one.
pub(crate) fn service_away(
    world: &World<'_>,
    p: Process,
    s: Service,
    home: Machine,
    from: Machine,
) -> u128
    requires process { p.0 < process_count world.now.tables }
    requires service { s.0 ≡ service_of world.now.tables p.0 }
    requires home { home.0 ≡ machine_at world.now.start p.0 }
    requires from { from.0 ≡ machine_at world.now.here p.0 }
    ensures value { result ≡ service_away world.now p.0 }
    ensures bound { result < 2 ^ 64 }
{
    let after = world.cells().moved(s) + 1 - is_away(home, from);
    service_with(world, s, after)
}

/// The service cost with another moved count of one service.
pub(crate) fn service_with(world: &World<'_>, s: Service, after: u32) -> u128
    requires service { s.0 < service_count world.now.tables }
    requires few { after ≤ process_count world.now.tables }
    ensures value { (f : ℕ → ℕ) → ((k : ℕ) → k < service_count world.now.tables →
        k ≢ s.0 → moved_at world.now k ≡ f k) → after ≡ f s.0 → result ≡
        service_weight_of world.now.tables * greatest (service_count world.now.tables) f }
    ensures bound { result < 2 ^ 64 }
{
    let cells = world.cells();
    let change = MovedCount {
        service: s,
        before: cells.moved(s),
        after,
    };
    let most = cells.greatest().greatest_after(Some(change), None, None);
    u128::from(world.instance().service_weight()) * u128::from(most)
}
