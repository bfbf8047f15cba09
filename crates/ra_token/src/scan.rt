ghost use Rattle.std.specs.Prelude.{◌≡◌, ℕ, ◌+◌, ◌<◌, ◌≤◌, true, false, ◌≢◌, if◌then◌else◌, List, length, IfSome, slice_index};
ghost use Rattle.std.specs.Int.{bit_at};
ghost use Rattle.ra_token.specs.Runs.{digit_at, is_blank};
ghost use Rattle.ra_token.specs.declared.scan.TheConstants.{NEAR};
ghost use Rattle.ra_token.specs.Reads.{IsBetween, IsPiece};
ghost use Rattle.ra_token.specs.Scan.{InRun, IsNext, FaultsAt, RunsOn, digits_worth, TakesRuns};

use crate::answers::{LARGEST, PLACE_LIMIT, TokenFault};
use ra_base::Fixed;
use std::simd::prelude::*;

/// Whether a byte separates numbers: a space, a tab, CR or LF.
pub fn is_blank(byte: u8) -> bool
    ensures { result ≡ is_blank byte }
{
    byte <= b' ' && matches!(byte, b' ' | b'\t' | b'\r' | b'\n')
}

/// The first index from `from` on whose byte is not a blank, or else the length.
pub fn skip_blanks(bytes: &[u8], from: usize) -> usize
    requires { from ≤ length bytes.now }
    ensures low { from ≤ result }
    ensures high { result ≤ length bytes.now }
    ensures blanks { (k : ℕ) → from ≤ k → k < result → is_blank (slice_index bytes.now k) ≡ true }
    ensures stops { result < length bytes.now → is_blank (slice_index bytes.now result) ≡ false }
{
    for i in from..bytes.len() {
        if !is_blank(bytes[i]) {
            return i;
        }
    }
    bytes.len()
}

/// How far a scan has looked at a run of digits, and what the run is worth up to there.
#[derive(Clone, Copy)]
pub struct Stretch {
    /// The index after the last digit that was looked at.
    pub end: usize,
    /// What the digits are worth.
    pub value: u64,
}

/// Looks at the digits from `from` on, of a run that is worth `carried` up to there, until they end or the run is worth
/// more than `LARGEST`.
pub fn gather(bytes: &[u8], from: usize, carried: u64) -> Stretch
    requires within { from ≤ length bytes.now }
    requires small { carried ≤ LARGEST }
    ensures low { from ≤ result.end }
    ensures high { result.end ≤ length bytes.now }
    ensures moves { from < length bytes.now → digit_at bytes.now from ≡ true → from < result.end }
    ensures moved { from < result.end → digit_at bytes.now from ≡ true }
    ensures stops { result.value ≤ LARGEST → result.end < length bytes.now →
        digit_at bytes.now result.end ≡ false }
    ensures goes_on { RunsOn bytes.now from carried (λ all start first. result.value ≤ LARGEST →
        InRun all first (start + result.end) result.value) }
    ensures too_large { RunsOn bytes.now from carried (λ all start first. LARGEST < result.value →
        FaultsAt all first (TokenFault.TooLarge first)) }
{
    let mut value = carried;
    for i in from..bytes.len() {
        if !bytes[i].is_ascii_digit() {
            return Stretch { end: i, value };
        }
        value = value * 10 + (bytes[i] - b'0') as u64;
        if value > LARGEST {
            return Stretch { end: i + 1, value };
        }
    }
    Stretch {
        end: bytes.len(),
        value,
    }
}

/// The next run of digits from `from` on, with the index of its first digit, if the run is worth at most `LARGEST`, and
/// if the blanks before it and a byte after it are there.
#[inline]
pub fn whole_run(bytes: &[u8], from: usize) -> Option<(usize, Stretch)>
    requires { from ≤ length bytes.now }
    ensures within { IfSome result (λ run. run.1.end < length bytes.now) }
    ensures low { IfSome result (λ run. from ≤ run.0) }
    ensures some { IfSome result (λ run. run.0 < run.1.end) }
    ensures small { IfSome result (λ run. run.1.value ≤ LARGEST) }
    ensures next { (all : List ℕ) (start : ℕ) → start + length bytes.now ≤ PLACE_LIMIT →
        IsPiece all start bytes.now → IsBetween all (start + from)
        → IfSome result (λ run. IsNext all (start + from) (start + run.0)
        (start + run.1.end) run.1.value) }
{
    let first = skip_blanks(bytes, from);
    let stretch = gather(bytes, first, 0);
    if stretch.end == first || stretch.end == bytes.len() || stretch.value > LARGEST {
        return None;
    }
    Some((first, stretch))
}

/// How many bytes of a run `near_digits` looks at.
pub const NEAR: usize = 8;

/// The digits from `from` on, if the run begins there and ends within `NEAR` bytes. The loop has a fixed length, so
/// that it needs no counter.
#[inline]
pub fn near_digits(bytes: &[u8], from: usize) -> Option<Stretch>
    requires { from + NEAR ≤ length bytes.now }
    ensures low { IfSome result (λ run. from ≤ run.end) }
    ensures high { IfSome result (λ run. run.end < from + NEAR) }
    ensures small { IfSome result (λ run. run.value ≤ LARGEST) }
    ensures moved { IfSome result (λ run. from < run.end → digit_at bytes.now from ≡ true) }
    ensures stops { IfSome result (λ run. digit_at bytes.now run.end ≡ false) }
    ensures goes_on { IfSome result (λ run. (all : List ℕ) (start first : ℕ) →
        start + length bytes.now ≤ PLACE_LIMIT → IsPiece all start bytes.now
        → InRun all first (start + from) 0 → InRun all first (start + run.end) run.value) }
{
    let mut value = 0;
    for k in 0..NEAR {
        let byte = bytes[from + k];
        if !byte.is_ascii_digit() {
            return Some(Stretch {
                end: from + k,
                value,
            });
        }
        value = value * 10 + (byte - b'0') as u64;
    }
    None
}

/// The run of digits after one blank at `from`, if it ends within `NEAR` bytes.
#[inline]
pub fn near_run(bytes: &[u8], from: usize) -> Option<Stretch>
    requires { from ≤ length bytes.now }
    ensures low { IfSome result (λ run. from ≤ run.end) }
    ensures within { IfSome result (λ run. run.end < length bytes.now) }
    ensures small { IfSome result (λ run. run.value ≤ LARGEST) }
    ensures next { (all : List ℕ) (start : ℕ) → start + length bytes.now ≤ PLACE_LIMIT →
        IsPiece all start bytes.now → IsBetween all (start + from)
        → IfSome result (λ run. IsNext all (start + from) (start + (from + 1))
        (start + run.end) run.value) }
{
    if bytes.len() - from <= NEAR || !is_blank(bytes[from]) {
        return None;
    }
    let stretch = near_digits(bytes, from + 1)?;
    if stretch.end == from + 1 {
        return None;
    }
    Some(stretch)
}

/// How many bytes after a blank `block_runs` looks at, and how many more it may read.
pub const BLOCK: usize = 64;

/// Which of the `BLOCK` bytes from `from` on aren't digits: bit k is for the byte at `from + k`.
#[inline(always)]
pub fn others(bytes: &[u8], from: usize) -> u64
    requires { from + BLOCK ≤ length bytes.now }
    ensures { (k : ℕ) → k < BLOCK → bit_at result k ≡ (if digit_at bytes.now (from + k) then 0 else 1) }
{
    let lanes = u8x64::from_slice(&bytes[from..]) - u8x64::splat(b'0');
    lanes.simd_gt(u8x64::splat(9)).to_bitmask()
}

/// The lowest bit that is set.
#[inline(always)]
pub fn lowest(bits: u64) -> usize
    requires { bits ≢ 0 }
    ensures within { result < 64 }
    ensures set { bit_at bits result ≡ 1 }
    ensures below { (k : ℕ) → k < result → bit_at bits k ≡ 0 }
{
    bits.trailing_zeros() as usize
}

/// The bits without the lowest one that is set.
#[inline(always)]
pub fn without(bits: u64, bit: usize) -> u64
    requires { bit < 64 }
    ensures gone { bit_at result bit ≡ 0 }
    ensures kept { (k : ℕ) → k < 64 → k ≢ bit → bit_at result k ≡ bit_at bits k }
{
    bits & !(1 << bit)
}

/// What `count` digits from `from` on are worth, for a count of at most eight, if eight bytes are there: it computes
/// eight digits at a time, then pairs of them, then pairs of these.
#[inline(always)]
pub fn eight_worth(bytes: &[u8], from: usize, count: usize) -> u32
    requires there { from + 8 ≤ length bytes.now }
    requires some { 0 < count }
    requires few { count ≤ 8 }
    requires digits { (k : ℕ) → k < count → digit_at bytes.now (from + k) ≡ true }
    ensures { result ≡ digits_worth bytes.now from count }
{
    let eight = u64::from_le_bytes([
        bytes[from],
        bytes[from + 1],
        bytes[from + 2],
        bytes[from + 3],
        bytes[from + 4],
        bytes[from + 5],
        bytes[from + 6],
        bytes[from + 7],
    ]);
    let digits = eight.wrapping_sub(0x3030_3030_3030_3030) << (64 - 8 * count);
    let twos = (digits.wrapping_mul(2_561) >> 8) & 0x00ff_00ff_00ff_00ff;
    let fours = (twos.wrapping_mul(6_553_601) >> 16) & 0x0000_ffff_0000_ffff;
    (fours.wrapping_mul(42_949_672_960_001) >> 32) as u32
}

/// Adds the values of the runs that end among the `BLOCK` bytes after the blank at `from` to a list, at most `most` of
/// them, as long as each follows one blank and has few digits. Gives the index after the last one.
#[inline]
pub fn block_runs(bytes: &[u8], from: usize, most: usize, values: &mut Fixed<u32>) -> usize
    requires within { from + BLOCK + NEAR < length bytes.now }
    requires room { length values.old.items + most ≤ values.old.room }
    ensures { TakesRuns bytes.now from result most values.old values.new }
{
    let mut at = from;
    let mut rest = others(bytes, from + 1);
    for k in 0..most {
        if rest == 0 || !is_blank(bytes[at]) {
            return at;
        }
        let bit = lowest(rest);
        let count = from + bit - at;
        if count == 0 || count > NEAR {
            return at;
        }
        values.push(eight_worth(bytes, at + 1, count));
        at = from + 1 + bit;
        rest = without(rest, bit);
    }
    at
}
