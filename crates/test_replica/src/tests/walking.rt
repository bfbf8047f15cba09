//! A walk from a start, with a comparison of plans at each step.
use super::plans::{compare, is_done};
use crate::Beside;
use ra_base::{Drawing, Steps};
use std::alloc::Global;
use std::process::Abort;
use std::sync::ledger::Ledger;

/// The words of a proposal, which look like drawn ones.
pub(super) fn words_from(seed: &mut u64) -> [u64; 8] {
    let mut words = [0u64; 8];
    for k in 0..8 {
        *seed = seed
            .wrapping_mul(6364136223846793005)
            .wrapping_add(1442695040888963407);
        words[k] = *seed >> 33;
    }
    words
}

/// A rise that is allowed: none, a little, more, or all.
fn allowance_from(seed: u64) -> u64 {
    match seed >> 62 {
        0 => 0,
        1 => 2,
        2 => 700,
        _ => u64::MAX,
    }
}

/// Makes `proposals` proposals, compares their plans with both drawings, and follows the moves that they ask for if
/// these are done. Whether all plans are the same, at least `least` with each drawing are done, and at least `least`
/// moves are followed.
pub(super) fn plans_agree<L: Ledger>(
    rt: &impl Abort,
    alloc: Global,
    beside: &mut Beside<'_>,
    proposals: u32,
    least: u32,
    steps: &mut Steps<L>,
) -> bool {
    let mut seed = 1u64;
    let (mut ones, mut twos, mut followed) = (0u32, 0u32, 0u32);
    for _ in 0..proposals {
        let words = words_from(&mut seed);
        let allowed = allowance_from(seed);
        let world = beside.world();
        let Some(one) = compare(rt, alloc, world, &words, Drawing::One, allowed, steps) else {
            return false;
        };
        let Some(two) = compare(rt, alloc, world, &words, Drawing::Two, allowed, steps) else {
            return false;
        };
        let follows = is_done(&beside.propose(&words, steps));
        ones = ones.saturating_add(u32::from(one));
        twos = twos.saturating_add(u32::from(two));
        followed = followed.saturating_add(u32::from(follows));
    }
    ones >= least && twos >= least && followed >= least
}
