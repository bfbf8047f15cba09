ghost use Rattle.std.specs.Prelude.{◌≡◌, ℕ, ◌+◌, ◌*◌, ◌^◌, ◌<◌, ◌≤◌, ◌↔◌, All, length, slice_index};
ghost use Rattle.std.specs.Int.{bit_at};
ghost use Rattle.ra_shift.specs.Windows.{lacking, amounts, HasLanes, IsSumOrLarge};

use crate::lanes::{LANES, add, add_lacking, are_large, load, nothing, small_lanes, store, weigh};
use std::simd::prelude::*;

/// What is asked of one row: an amount, and where the row begins.
#[derive(Clone, Copy, Default)]
pub struct Term {
    /// The place of the row's first number.
    pub row: usize,
    /// How much is asked of each of its numbers.
    pub amount: u32,
}

/// The sums of sixteen machines, or partial sums as soon as all of these are above the limit.
#[inline(always)]
fn block(rows: &[u32], terms: &[Term], at: usize, limit: u32) -> u32x16
    requires in_rows { All (λ t. t.row + at + 16 ≤ length rows.now) terms.now }
    requires amounts_small { amounts terms.now ≤ 2 ^ 30 }
    ensures { (k : ℕ) → k < 16 → IsSumOrLarge limit (slice_index result k)
        (lacking rows.now terms.now (at + k)) }
{
    let mut sums = nothing();
    for (i, term) in terms.iter().enumerate() {
        if i >= 2 && are_large(sums, limit) {
            return sums;
        }
        sums = add_lacking(sums, load(rows, term.row + at), term.amount);
    }
    sums
}

/// By how much sixty-four neighbouring machines fall short of the terms: the sum of each, or a partial sum that is
/// above the limit.
#[inline(never)]
pub fn add_up(rows: &[u32], terms: &[Term], start: usize, limit: u32, sums: &mut [u32])
    requires in_rows { All (λ t. t.row + start + 64 ≤ length rows.now) terms.now }
    requires start { start < 2 ^ 32 }
    requires amounts_small { amounts terms.now ≤ 2 ^ 30 }
    requires sums { length sums.old ≡ 64 }
    ensures { (k : ℕ) → k < 64 → IsSumOrLarge limit (slice_index sums.new k)
        (lacking rows.now terms.now (start + k)) }
{
    for number in 0..4 {
        let from = number * LANES;
        store(block(rows, terms, start + from, limit), sums, from);
    }
}

/// Adds to sixty-four sums what the ways to their machines cost, times a weight.
pub fn add_ways(ways: &[u32], weight: u32, sums: &mut [u32])
    requires ways { length ways.now ≡ 64 }
    requires sums { length sums.old ≡ 64 }
    requires ways_small { (k : ℕ) → k < 64 → weight * slice_index ways.now k ≤ 2 ^ 30 }
    requires sums_small { (k : ℕ) → k < 64 → slice_index sums.old k ≤ 2 ^ 30 }
    ensures { (k : ℕ) → k < 64 → slice_index sums.new k ≡
        slice_index sums.old k + weight * slice_index ways.now k }
{
    for number in 0..4 {
        let from = number * LANES;
        let with = add(load(sums, from), weigh(load(ways, from), weight));
        store(with, sums, from);
    }
}

/// A bit for each of sixty-four sums that is at most a limit.
pub fn marks_of(sums: &[u32], limit: u32) -> u64
    requires { length sums.now ≡ 64 }
    ensures { (k : ℕ) → k < 64 →
        (bit_at result k ≡ 1) ↔ (slice_index sums.now k ≤ limit) }
{
    let mut marks = 0u64;
    for number in 0..4 {
        let from = number * LANES;
        marks |= small_lanes(load(sums, from), limit) << from;
    }
    marks
}
