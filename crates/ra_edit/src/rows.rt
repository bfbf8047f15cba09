//! Rows of numbers, one for each resource.
ghost use Rattle.std.specs.Prelude.{◌≡◌, ℕ, ◌+◌, ◌^◌, ◌<◌, ◌≤◌, length, slice_index, IfOk};
ghost use Rattle.std.specs.List.{slice_range};
ghost use Rattle.ra_edit.specs.Keeping.{drafted, IsSoundDraft};
ghost use Rattle.ra_edit.specs.Kinds.{Asks};

use crate::lists::Lists;
use ra_base::{Fixed, NoMemory, Process, place};
use ra_model::Instance;
use std::alloc::Global;

/// What a process requires of each resource.
pub(crate) fn requirements_of<'a>(inst: &Instance, lists: &'a Lists, p: Process) -> &'a [u32]
    requires sound { IsSoundDraft (drafted inst.now.tables lists.now) }
    requires process { p.0 < length lists.now.rows.items }
    ensures { Asks (drafted inst.now.tables lists.now) p.0 result.now }
{
    let width = inst.resources();
    part(
        lists.requirements.as_slice(),
        place(width, p.0, 0),
        width as usize,
    )
}

/// `count` items of a slice, from a place on.
fn part<T: Copy>(items: &[T], start: usize, count: usize) -> &[T]
    requires { start + count ≤ length items.now }
    ensures { result.now ≡ slice_range items.now start (start + count) }
{
    &items[start..start + count]
}

/// A row plus amounts.
pub(crate) fn row_with(alloc: Global, row: &[u64], amounts: &[u32]) -> Result<Fixed<u64>, NoMemory>
    requires width { length amounts.now ≡ length row.now }
    requires below { (r : ℕ) → r < length row.now → slice_index row.now r < 2 ^ 63 }
    ensures one_each { IfOk result (λ sums. length sums.items ≡ length row.now) }
    ensures each { IfOk result (λ sums. (r : ℕ) → r < length row.now → slice_index sums.items r ≡
        slice_index row.now r + slice_index amounts.now r) }
{
    let mut sums = Fixed::make(alloc, row.len())?;
    for r in 0..row.len() {
        sums.push(row[r] + u64::from(amounts[r]));
    }
    Ok(sums)
}

/// A row minus amounts.
pub(crate) fn row_without(
    alloc: Global,
    row: &[u64],
    amounts: &[u32],
) -> Result<Fixed<u64>, NoMemory>
    requires width { length amounts.now ≡ length row.now }
    requires enough { (r : ℕ) → r < length row.now → slice_index amounts.now r ≤
        slice_index row.now r }
    ensures one_each { IfOk result (λ rests. length rests.items ≡ length row.now) }
    ensures each { IfOk result (λ rests. (r : ℕ) → r < length row.now →
        slice_index rests.items r + slice_index amounts.now r ≡ slice_index row.now r) }
{
    let mut rests = Fixed::make(alloc, row.len())?;
    for r in 0..row.len() {
        rests.push(row[r] - u64::from(amounts[r]));
    }
    Ok(rests)
}

/// A row minus some amounts, plus others.
pub(crate) fn row_changed(
    alloc: Global,
    row: &[u64],
    less: &[u32],
    more: &[u32],
) -> Result<Fixed<u64>, NoMemory>
    requires less { length less.now ≡ length row.now }
    requires more { length more.now ≡ length row.now }
    requires each { (r : ℕ) → r < length row.now →
        (slice_index less.now r ≤ slice_index row.now r) × (slice_index row.now r < 2 ^ 63) }
    ensures one_each { IfOk result (λ sums. length sums.items ≡ length row.now) }
    ensures each { IfOk result (λ sums. (r : ℕ) → r < length row.now →
        slice_index sums.items r + slice_index less.now r ≡
        slice_index row.now r + slice_index more.now r) }
{
    let rests = row_without(alloc, row, less)?;
    Ok(row_with(alloc, rests.as_slice(), more)?)
}
