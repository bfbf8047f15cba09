ghost use Rattle.std.specs.Prelude.{◌≡◌, ℕ, ◌+◌, ◌-◌, ◌*◌, ◌^◌, ◌<◌, ◌≤◌, slice_index};
ghost use Rattle.ra_model.specs.Numbers.{resource_count, machine_count, process_count};
ghost use Rattle.ra_model.specs.Assignments.{machine_at};
ghost use Rattle.ra_shift.specs.Sharing.{AreRequired, use_without, use_with, row_cost_with, way_cost};

use ra_base::{Machine, Process};
use ra_model::Instance;
use ra_world::{World, row_balance, row_load};

/// The load cost and the balance cost of a machine with this use, a number for each resource.
#[tactic(auto, unfolding(crate::specs::Sharing::row_cost_with))]
pub(crate) fn cost_of_row(inst: &Instance, m: Machine, row: &[u64; 20]) -> u128
    requires { m.0 < machine_count inst.now.tables }
    ensures value { result ≡ row_cost_with inst.now.tables m.0 (slice_index row.now) }
    ensures bound { result ≤ 30 * 2 ^ 96 }
{
    let used = &row[..inst.resources() as usize];
    row_load(inst, m, used) + row_balance(inst, m, used)
}

/// Fills a row with the use of a machine plus what a process requires.
fn fill_with(world: &World<'_>, p: Process, required: &[u32], to: Machine, row: &mut [u64; 20])
    requires machine { to.0 < machine_count world.now.tables }
    requires required { AreRequired world.now.tables p.0 required.now }
    ensures { (r : ℕ) → r < resource_count world.now.tables →
        slice_index row.new r ≡ use_with world.now.tables world.now.here p.0 to.0 r }
{
    let used = world.rows().usage_row(to);
    for r in 0..world.instance().resources() as usize {
        row[r] = used[r] + u64::from(required[r]);
    }
}

/// Fills a row with the use of a process's machine minus what the process requires.
fn fill_without(world: &World<'_>, p: Process, required: &[u32], from: Machine, row: &mut [u64; 20])
    requires process { p.0 < process_count world.now.tables }
    requires from { from.0 ≡ machine_at world.now.here p.0 }
    requires required { AreRequired world.now.tables p.0 required.now }
    ensures { (r : ℕ) → r < resource_count world.now.tables →
        slice_index row.new r ≡ use_without world.now.tables world.now.here p.0 r }
{
    let used = world.rows().usage_row(from);
    for r in 0..world.instance().resources() as usize {
        row[r] = used[r] - u64::from(required[r]);
    }
}

/// The cost of a machine with one more process.
pub(crate) fn cost_with(world: &World<'_>, p: Process, required: &[u32], to: Machine) -> u128
    requires machine { to.0 < machine_count world.now.tables }
    requires required { AreRequired world.now.tables p.0 required.now }
    ensures value { result ≡ row_cost_with
        world.now.tables to.0 (use_with world.now.tables world.now.here p.0 to.0) }
    ensures bound { result ≤ 30 * 2 ^ 96 }
{
    let mut row = [0; 20];
    fill_with(world, p, required, to, &mut row);
    cost_of_row(world.instance(), to, &row)
}

/// The cost of the machine of a process without the process.
pub(crate) fn cost_without(world: &World<'_>, p: Process, required: &[u32], from: Machine) -> u128
    requires process { p.0 < process_count world.now.tables }
    requires from { from.0 ≡ machine_at world.now.here p.0 }
    requires required { AreRequired world.now.tables p.0 required.now }
    ensures value { result ≡ row_cost_with
        world.now.tables from.0 (use_without world.now.tables world.now.here p.0) }
    ensures bound { result ≤ 30 * 2 ^ 96 }
{
    let mut row = [0; 20];
    fill_without(world, p, required, from, &mut row);
    cost_of_row(world.instance(), from, &row)
}

/// The process cost and the machine cost of a process on a machine, with their weights.
#[tactic(auto, using(ra_world::proofs::CostLaws::product_small), unfolding(crate::specs::Sharing::way_cost, ra_model::specs::Costs::process_share, ra_model::specs::Costs::way_share))]
pub(crate) fn way_cost(world: &World<'_>, p: Process, home: Machine, at: Machine) -> u128
    requires process { p.0 < process_count world.now.tables }
    requires home { home.0 ≡ machine_at world.now.start p.0 }
    requires machine { at.0 < machine_count world.now.tables }
    ensures value { result ≡ way_cost world.now.tables world.now.start p.0 at.0 }
    ensures bound { result < 2 ^ 65 }
{
    let inst = world.instance();
    let moved = if at.0 == home.0 {
        0
    } else {
        inst.process_cost(p)
    };
    let process = u128::from(inst.process_weight()) * u128::from(moved);
    process + u128::from(inst.machine_weight()) * u128::from(world.way(home, at))
}
