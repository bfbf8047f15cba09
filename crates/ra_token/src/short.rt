ghost use Rattle.std.specs.Prelude.{◌≡◌, ℕ, ◌+◌, ◌-◌, ◌*◌, ◌%◌, ◌^◌, ◌<◌, ◌≤◌, true, IsTrue, length, slice_index};
ghost use Rattle.std.specs.Int.{bit_at};
ghost use Rattle.ra_token.specs.Runs.{is_blank};
ghost use Rattle.ra_token.specs.Scan.{TakesRuns};
ghost use Rattle.ra_token.specs.Short.{AreApart, AreShort, HasSixtyFourLanes, IsTidy, Tells, short_worth};
ghost use Rattle.ra_token.specs.declared.scan.TheConstants.{BLOCK};

use crate::scan::{BLOCK, is_blank, lowest, without};
use ra_base::Fixed;
use std::simd::prelude::*;

/// The most numbers in `BLOCK` bytes, if a blank comes before each.
pub const MOST_SHORT: usize = 32;

/// The `BLOCK` bytes from `from` on, side by side.
#[inline(always)]
fn load(bytes: &[u8], from: usize) -> u8x64
    requires { from + BLOCK ≤ length bytes.now }
    ensures { HasSixtyFourLanes result (λ k. slice_index bytes.now (from + k)) }
{
    u8x64::from_slice(&bytes[from..])
}

/// As many digits 0.
#[inline(always)]
fn zeros() -> u8x64
    ensures { HasSixtyFourLanes result (λ k. 48) }
{
    u8x64::splat(b'0')
}

/// The differences of two lists, with 0 if a difference is negative.
#[inline(always)]
fn less(left: u8x64, right: u8x64) -> u8x64
    ensures { HasSixtyFourLanes result (λ k. slice_index left k - slice_index right k) }
{
    left.saturating_sub(right)
}

/// These numbers as u16, which have room for sums.
#[inline(always)]
fn widened(lanes: u8x64) -> u16x64
    ensures { HasSixtyFourLanes result (λ k. slice_index lanes k) }
{
    lanes.cast::<u16>()
}

/// Each number times a factor.
#[inline(always)]
fn times(lanes: u16x64, factor: u16) -> u16x64
    ensures { HasSixtyFourLanes result (λ k. slice_index lanes k * factor % 2 ^ 16) }
{
    lanes * u16x64::splat(factor)
}

/// The sums of two lists.
#[inline(always)]
fn plus(left: u16x64, right: u16x64) -> u16x64
    ensures { HasSixtyFourLanes result (λ k. (slice_index left k + slice_index right k) % 2 ^ 16) }
{
    left + right
}

/// The numbers with these ones, tens and hundreds.
#[inline(always)]
fn joined(ones: u8x64, tens: u8x64, hundreds: u8x64) -> [u16; 64]
    ensures { HasSixtyFourLanes result
        (λ k. slice_index ones k + slice_index tens k * 10 + slice_index hundreds k * 100) }
{
    let low = plus(widened(ones), times(widened(tens), 10));
    plus(low, times(widened(hundreds), 100)).to_array()
}

/// For each of the `BLOCK` bytes from `from` on, the value of the up to three digits that end there. A digit before a
/// blank doesn't count.
#[inline(always)]
fn short_values(bytes: &[u8], from: usize) -> [u16; 64]
    requires low { 2 ≤ from }
    requires there { from + BLOCK ≤ length bytes.now }
    ensures { HasSixtyFourLanes result (λ k. short_worth bytes.now (from + k)) }
{
    let before = load(bytes, from - 1);
    let ones = less(load(bytes, from), zeros());
    let tens = less(before, zeros());
    let hundreds = less(less(load(bytes, from - 2), zeros()), less(zeros(), before));
    joined(ones, tens, hundreds)
}

/// Which of the `BLOCK` bytes from `from` on are spaces or LFs: bit k is for the byte at `from + k`.
#[inline(always)]
fn spaces(bytes: &[u8], from: usize) -> u64
    requires { from + BLOCK ≤ length bytes.now }
    ensures { (k : ℕ) → k < BLOCK → bit_at result k ≡ 1 → is_blank (slice_index bytes.now (from + k)) ≡ true }
{
    let lanes = load(bytes, from);
    let either = lanes.simd_eq(u8x64::splat(b' ')) | lanes.simd_eq(u8x64::splat(b'\n'));
    either.to_bitmask()
}

/// The lowest bit isn't set, and no two neighbouring bits are.
#[inline(always)]
fn are_apart(bits: u64) -> bool
    ensures { IsTrue result → AreApart bits }
{
    bits & 1 == 0 && bits & (bits >> 1) == 0
}

/// Of any four neighbouring bits one is set.
#[inline(always)]
fn are_short(bits: u64) -> bool
    ensures { IsTrue result → AreShort bits }
{
    let clear = !bits;
    let two = clear & (clear >> 1);
    two & (two >> 2) == 0
}

/// Whether the `BLOCK` bytes after a blank at `from` are numbers of at most three digits, each separated from the next
/// by one blank. `rest` tells which bytes aren't digits.
#[inline(always)]
pub fn is_tidy(bytes: &[u8], from: usize, rest: u64) -> bool
    requires low { 0 < from }
    requires within { from + BLOCK < length bytes.now }
    requires tells { Tells bytes.now from rest }
    ensures { IsTrue result → IsTidy bytes.now from }
{
    if bytes[from - 1] > b'9' || !is_blank(bytes[from]) {
        return false;
    }
    if rest != spaces(bytes, from + 1) {
        return false;
    }
    are_apart(rest) && are_short(rest)
}

/// Adds the values of the runs that end among the `BLOCK` bytes after the blank at `from` to a list. Gives the index
/// after the last one.
#[inline(always)]
pub fn tidy_runs(bytes: &[u8], from: usize, others: u64, values: &mut Fixed<u32>) -> usize
    requires low { 2 ≤ from }
    requires within { from + BLOCK < length bytes.now }
    requires tidy { IsTidy bytes.now from }
    requires tells { Tells bytes.now from others }
    requires room { length values.old.items + MOST_SHORT ≤ values.old.room }
    ensures { TakesRuns bytes.now from result MOST_SHORT values.old values.new }
{
    let worth = short_values(bytes, from);
    let mut at = from;
    let mut rest = others;
    while rest != 0 {
        let bit = lowest(rest);
        values.push(worth[bit] as u32);
        at = from + 1 + bit;
        rest = without(rest, bit);
    }
    at
}
