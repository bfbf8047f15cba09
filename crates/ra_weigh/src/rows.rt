ghost use Rattle.std.specs.Prelude.{◌≡◌, ℕ, ◌+◌, ◌^◌, ◌<◌, ◌≤◌, length, slice_index};
ghost use Rattle.ra_base.specs.Tables.{cell};
ghost use Rattle.ra_model.specs.Numbers.{resource_count, machine_count};
ghost use Rattle.ra_rows.specs.Rows.{IsUsageRow};
ghost use Rattle.ra_moves.specs.Replacing.{applied};
ghost use Rattle.ra_moves.specs.Moving.{MayMove};
ghost use Rattle.ra_world.specs.Required.{AreRequiredRows};
ghost use Rattle.ra_weigh.specs.RowChanges.{share_at, HasMoreInRow, HasMoreInRowAt, RowHasFollowed, CanFollow};
ghost use Rattle.ra_weigh.specs.Exchanges.{HasExchanged};

use ra_base::Machine;
use ra_moves::{Move, Step};
use ra_world::World;

/// Fills a row with the use of a machine after the move.
#[inline(always)]
pub(crate) fn row_after(
    world: &World<'_>,
    mv: &Move,
    required: &[u32; 60],
    m: Machine,
    row: &mut [u64],
)
    requires moves { MayMove world.now mv.now.steps }
    requires required { AreRequiredRows world.now.tables mv.now.steps
        (length mv.now.steps) required.now }
    requires machine { m.0 < machine_count world.now.tables }
    requires width { length row.old ≡ resource_count world.now.tables }
    ensures width { length row.new ≡ resource_count world.now.tables }
    ensures after { IsUsageRow world.now.tables
        (applied world.now.here mv.now.steps) m.0 row.new }
{
    row.copy_from_slice(world.rows().usage_row(m));
    follow_row(world, mv, required, m, row)
}

/// Changes a machine's row of use from before the move to after it.
#[inline(always)]
fn follow_row(world: &World<'_>, mv: &Move, required: &[u32; 60], m: Machine, row: &mut [u64])
    requires moves { MayMove world.now mv.now.steps }
    requires required { AreRequiredRows world.now.tables mv.now.steps
        (length mv.now.steps) required.now }
    requires width { length row.old ≡ resource_count world.now.tables }
    requires before { IsUsageRow world.now.tables world.now.here m.0 row.old }
    ensures width { length row.new ≡ resource_count world.now.tables }
    ensures after { IsUsageRow world.now.tables
        (applied world.now.here mv.now.steps) m.0 row.new }
{
    let width = world.instance().resources();
    for j in 0..mv.steps() {
        follow_step(row, m, mv.step(j), required_row(required, j, width));
    }
}

/// One row of the requirements.
#[inline(always)]
#[tactic(auto, using(crate::proofs::RowLemmas::required_cell))]
pub(crate) fn required_row(required: &[u32; 60], j: u32, width: u32) -> &[u32]
    requires row { j < 3 }
    requires width { width ≤ 20 }
    ensures one_each { length result.now ≡ width }
    ensures each { (r : ℕ) → r < width → slice_index result.now r ≡ cell 20 required.now j r }
{
    let start = j as usize * 20;
    &required[start..start + width as usize]
}

/// Changes a machine's row of use by one step, whose process requires these amounts.
#[inline(always)]
#[tactic(auto, using(crate::proofs::RowLemmas::enough_left, crate::proofs::RowLemmas::followed))]
fn follow_step(row: &mut [u64], m: Machine, step: Step, amounts: &[u32])
    requires width { length amounts.now ≡ length row.old }
    requires able { CanFollow step.from.0 step.to.0 m.0 row.old amounts.now }
    ensures { RowHasFollowed step.from.0 step.to.0 m.0 row.old row.new amounts.now }
{
    enter_row(row, m, step.to, amounts);
    leave_row(row, m, step.from, amounts);
}

/// Adds amounts that enter a machine, if the row is that machine's.
#[inline(always)]
#[tactic(auto, using(crate::proofs::RowLemmas::more_here, crate::proofs::RowLemmas::more_elsewhere))]
fn enter_row(row: &mut [u64], m: Machine, at: Machine, amounts: &[u32])
    requires width { length amounts.now ≡ length row.old }
    requires room { (r : ℕ) → r < length row.old → slice_index row.old r < 2 ^ 63 }
    ensures { HasMoreInRowAt at.0 m.0 row.old row.new amounts.now }
{
    if at.0 == m.0 {
        add_row(row, amounts);
    }
}

/// Subtracts amounts that leave a machine, if the row is that machine's.
#[inline(always)]
#[tactic(auto, using(crate::proofs::RowLemmas::more_here, crate::proofs::RowLemmas::more_elsewhere, crate::proofs::RowLemmas::enough_here))]
fn leave_row(row: &mut [u64], m: Machine, at: Machine, amounts: &[u32])
    requires width { length amounts.now ≡ length row.old }
    requires enough { (r : ℕ) → r < length row.old → share_at at.0 m.0 (slice_index amounts.now r)
        ≤ slice_index row.old r }
    ensures { HasMoreInRowAt at.0 m.0 row.new row.old amounts.now }
{
    if at.0 == m.0 {
        take_row(row, amounts);
    }
}

/// Adds to each number of a row.
#[inline(always)]
fn add_row(row: &mut [u64], amounts: &[u32])
    requires width { length amounts.now ≡ length row.old }
    requires room { (r : ℕ) → r < length row.old → slice_index row.old r < 2 ^ 63 }
    ensures { HasMoreInRow row.old row.new amounts.now }
{
    for r in 0..row.len() {
        row[r] += u64::from(amounts[r]);
    }
}

/// Subtracts from each number of a row.
#[inline(always)]
fn take_row(row: &mut [u64], amounts: &[u32])
    requires width { length amounts.now ≡ length row.old }
    requires enough { (r : ℕ) → r < length row.old → slice_index amounts.now r
        ≤ slice_index row.old r }
    ensures { HasMoreInRow row.new row.old amounts.now }
{
    for r in 0..row.len() {
        row[r] -= u64::from(amounts[r]);
    }
}

/// Fills a row with the use of a machine, plus what comes and minus what goes.
#[inline(always)]
pub(crate) fn exchange_row(used: &[u64], come: &[u32], gone: &[u32], row: &mut [u64])
    requires width { length row.old ≡ length used.now }
    requires width_come { length come.now ≡ length used.now }
    requires width_gone { length gone.now ≡ length used.now }
    requires room { (r : ℕ) → r < length used.now → slice_index used.now r < 2 ^ 63 }
    requires enough { (r : ℕ) → r < length used.now →
        slice_index gone.now r ≤ slice_index used.now r + slice_index come.now r }
    ensures { HasExchanged used.now row.new come.now gone.now }
{
    for r in 0..used.len() {
        row[r] = used[r] + u64::from(come[r]) - u64::from(gone[r]);
    }
}
