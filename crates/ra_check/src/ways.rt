ghost use Rattle.std.specs.Prelude.{◌≡◌, ◌^◌, ◌<◌, ◌≤◌};
ghost use Rattle.ra_model.specs.Numbers.{process_count};
ghost use Rattle.ra_model.specs.Assignments.{IsAssignment, machine_at, tally};
ghost use Rattle.ra_model.specs.Costs.{process_share, process_cost, way_share, machine_cost};

use ra_base::{Assignment, Process};
use ra_model::{Instance, machine_of};

/// The process cost: what the moved processes cost, times its weight.
#[tactic(auto, using(crate::proofs::CostLaws::times_small), unfolding(ra_model::specs::Costs::process_cost))]
pub(crate) fn process_cost(inst: &Instance, a0: &Assignment, a: &Assignment) -> u128
    requires a0_fits { IsAssignment inst.now.tables a0.now.items }
    requires fits { IsAssignment inst.now.tables a.now.items }
    ensures value { result ≡ process_cost inst.now.tables a0.now.items a.now.items }
    ensures bound { result ≤ 2 ^ 110 }
{
    let sum = moved_sum(inst, a0, a);
    u128::from(inst.process_weight()) * u128::from(sum)
}

/// The machine cost: what the ways of all processes cost, times its weight.
#[tactic(auto, using(crate::proofs::CostLaws::times_small), unfolding(ra_model::specs::Costs::machine_cost))]
pub(crate) fn machine_cost(inst: &Instance, a0: &Assignment, a: &Assignment) -> u128
    requires a0_fits { IsAssignment inst.now.tables a0.now.items }
    requires fits { IsAssignment inst.now.tables a.now.items }
    ensures value { result ≡ machine_cost inst.now.tables a0.now.items a.now.items }
    ensures bound { result ≤ 2 ^ 110 }
{
    let sum = way_sum(inst, a0, a);
    u128::from(inst.machine_weight()) * u128::from(sum)
}

/// The sum of what the moved processes cost.
#[tactic(auto, using(ra_base::proofs::Sums::sums), unfolding(ra_model::specs::Assignments::tally))]
fn moved_sum(inst: &Instance, a0: &Assignment, a: &Assignment) -> u64
    requires a0_fits { IsAssignment inst.now.tables a0.now.items }
    requires fits { IsAssignment inst.now.tables a.now.items }
    ensures { result ≡ tally (process_count inst.now.tables)
        (process_share inst.now.tables a0.now.items) a.now.items }
{
    let mut sum: u64 = 0;
    for p in 0..inst.processes() {
        sum += u64::from(process_share(inst, a0, a, Process(p)));
    }
    sum
}

/// The sum of what the ways of all processes cost.
#[tactic(auto, using(ra_base::proofs::Sums::sums), unfolding(ra_model::specs::Assignments::tally))]
fn way_sum(inst: &Instance, a0: &Assignment, a: &Assignment) -> u64
    requires a0_fits { IsAssignment inst.now.tables a0.now.items }
    requires fits { IsAssignment inst.now.tables a.now.items }
    ensures { result ≡ tally (process_count inst.now.tables)
        (way_share inst.now.tables a0.now.items) a.now.items }
{
    let mut sum: u64 = 0;
    for p in 0..inst.processes() {
        sum += u64::from(way_share(inst, a0, a, Process(p)));
    }
    sum
}

/// What one process costs if it isn't on its initial machine.
fn process_share(inst: &Instance, a0: &Assignment, a: &Assignment, p: Process) -> u32
    requires process { p.0 < process_count inst.now.tables }
    requires a0_fits { IsAssignment inst.now.tables a0.now.items }
    requires fits { IsAssignment inst.now.tables a.now.items }
    ensures { result ≡ process_share inst.now.tables a0.now.items p.0 (machine_at a.now.items p.0) }
{
    if machine_of(a, p) == machine_of(a0, p) {
        0
    } else {
        inst.process_cost(p)
    }
}

/// What the way of one process costs.
fn way_share(inst: &Instance, a0: &Assignment, a: &Assignment, p: Process) -> u32
    requires process { p.0 < process_count inst.now.tables }
    requires a0_fits { IsAssignment inst.now.tables a0.now.items }
    requires fits { IsAssignment inst.now.tables a.now.items }
    ensures { result ≡ way_share inst.now.tables a0.now.items p.0 (machine_at a.now.items p.0) }
{
    let from = machine_of(a0, p);
    let at = machine_of(a, p);
    inst.move_cost(from, at)
}
