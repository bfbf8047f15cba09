ghost use Rattle.std.specs.Prelude.{◌≡◌, ℕ, ◌+◌, ◌-◌, ◌*◌, ◌%◌, ◌^◌, ◌<◌, ◌≤◌, ◌↔◌, IsTrue, length, min, slice_index};
ghost use Rattle.std.specs.Int.{bit_at};
ghost use Rattle.std.specs.Simd.Lanes.{chunk};
ghost use Rattle.ra_shift.specs.Windows.{HasLanes};

use std::simd::prelude::*;

/// How many numbers are side by side in a vector.
pub(crate) const LANES: usize = 16;

/// Sixteen neighbouring numbers.
#[inline(always)]
pub(crate) fn load(numbers: &[u32], at: usize) -> u32x16
    requires { at + 16 ≤ length numbers.now }
    ensures { HasLanes result (λ k. slice_index numbers.now (at + k)) }
{
    u32x16::from_slice(&numbers[at..])
}

/// Sixteen zeros.
#[inline(always)]
pub(crate) fn nothing() -> u32x16
    ensures { HasLanes result (λ k. 0) }
{
    u32x16::splat(0)
}

/// The sums of two lists of sixteen numbers.
#[inline(always)]
pub(crate) fn add(left: u32x16, right: u32x16) -> u32x16
    ensures { HasLanes result (λ k. (slice_index left k + slice_index right k) % 2 ^ 32) }
{
    left + right
}

/// Each number times a weight.
#[inline(always)]
pub(crate) fn weigh(numbers: u32x16, weight: u32) -> u32x16
    ensures { HasLanes result (λ k. weight * slice_index numbers k % 2 ^ 32) }
{
    u32x16::splat(weight) * numbers
}

/// Adds to each sum by how much a number of a row is below an amount.
#[inline(always)]
pub(crate) fn add_lacking(sums: u32x16, row: u32x16, amount: u32) -> u32x16
    ensures { HasLanes result
        (λ k. (slice_index sums k + (amount - slice_index row k)) % 2 ^ 32) }
{
    sums + u32x16::splat(amount).saturating_sub(row)
}

/// A bit for each sum that is at most the limit.
#[inline(always)]
pub(crate) fn small_lanes(sums: u32x16, limit: u32) -> u64
    ensures below { result < 2 ^ 16 }
    ensures bits { (k : ℕ) → k < 16 →
        (bit_at result k ≡ 1) ↔ (slice_index sums k ≤ limit) }
{
    sums.simd_le(u32x16::splat(limit)).to_bitmask()
}

/// The first eight of sixteen numbers.
#[inline(always)]
fn low_half(sums: u32x16) -> u32x8
    ensures { result ≡ chunk 0 8 sums }
{
    sums.extract::<0, 8>()
}

/// The last eight of sixteen numbers.
#[inline(always)]
fn high_half(sums: u32x16) -> u32x8
    ensures { result ≡ chunk 8 8 sums }
{
    sums.extract::<8, 8>()
}

/// The lesser of two numbers, lane by lane.
#[inline(always)]
fn lesser(left: u32x8, right: u32x8) -> u32x8
    ensures { (k : ℕ) → k < 8 → slice_index result k ≡
        min (slice_index left k) (slice_index right k) }
{
    left.simd_min(right)
}

/// No number is at most the limit.
#[inline(always)]
fn are_above(numbers: u32x8, limit: u32) -> bool
    ensures { IsTrue result ↔ ((k : ℕ) → k < 8 → limit < slice_index numbers k) }
{
    numbers.simd_le(u32x8::splat(limit)).to_bitmask() == 0
}

/// All sums are above the limit.
#[inline(always)]
pub(crate) fn are_large(sums: u32x16, limit: u32) -> bool
    ensures { IsTrue result ↔ ((k : ℕ) → k < 16 → limit < slice_index sums k) }
{
    are_above(lesser(low_half(sums), high_half(sums)), limit)
}

/// Writes the sums into a list.
#[inline(always)]
pub(crate) fn store(sums: u32x16, list: &mut [u32], at: usize)
    requires { at + 16 ≤ length list.old }
    ensures there { (k : ℕ) → k < 16 → slice_index list.new (at + k) ≡ slice_index sums k }
    ensures before { (k : ℕ) → k < at → slice_index list.new k ≡ slice_index list.old k }
    ensures after { (k : ℕ) → at + 16 ≤ k → slice_index list.new k ≡ slice_index list.old k }
{
    sums.copy_to_slice(&mut list[at..]);
}
