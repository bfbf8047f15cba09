ghost use Rattle.std.specs.Prelude.{◌≡◌, ◌<◌, ◌≤◌};
ghost use Rattle.ra_trial.specs.Numbers.{trial_word, trial_requirement_of, trial_process_cost_of, start_share, start_use_of, trial_capacity_of, trial_way_cost_of, trial_spread_of};

use crate::words::Words;

/// How many processes there are.
pub(crate) const PROCESSES: u32 = 1_000;

/// How many machines there are.
pub(crate) const MACHINES: u32 = 100;

/// What process `p` requires of resource `r`.
#[tactic(auto, unfolding(crate::specs::Numbers::trial_requirement_of))]
pub(crate) fn requirement(words: &Words, p: u32, r: u32) -> u32
    requires process { p < 1000 }
    requires resource { r < 4 }
    ensures value { result ≡ trial_requirement_of (trial_word words.now.number) p r }
    ensures most { result ≤ 100 }
{
    1 + (words.get(4 * p + r) % 100) as u32
}

/// The move cost of process `p`.
#[tactic(auto, unfolding(crate::specs::Numbers::trial_process_cost_of))]
pub(crate) fn process_cost(words: &Words, p: u32) -> u32
    requires { p < 1000 }
    ensures { result ≡ trial_process_cost_of (trial_word words.now.number) p }
{
    1 + (words.get(4000 + p) % 10) as u32
}

/// What process `p` uses of resource `r` on machine `m` at the start.
#[tactic(auto, unfolding(crate::specs::Numbers::start_share, crate::specs::Numbers::trial_start_of))]
fn share(words: &Words, m: u32, r: u32, p: u32) -> u32
    requires process { p < 1000 }
    requires resource { r < 4 }
    ensures value { result ≡ start_share (trial_word words.now.number) m r p }
    ensures most { result ≤ 100 }
{
    if p % MACHINES == m {
        requirement(words, p, r)
    } else {
        0
    }
}

/// The use of resource `r` on machine `m` at the start.
#[tactic(auto, using(ra_base::proofs::Sums::total_none, ra_base::proofs::Sums::total_more), unfolding(crate::specs::Numbers::start_use_of))]
fn start_use(words: &Words, m: u32, r: u32) -> u32
    requires { r < 4 }
    ensures value { result ≡ start_use_of (trial_word words.now.number) m r }
    ensures most { result ≤ 100000 }
{
    let mut sum = 0;
    for p in 0..PROCESSES {
        sum += share(words, m, r, p);
    }
    sum
}

/// The capacity of resource `r` on machine `m`.
#[tactic(auto, unfolding(crate::specs::Numbers::trial_capacity_of))]
pub(crate) fn capacity(words: &Words, m: u32, r: u32) -> u32
    requires machine { m < 100 }
    requires resource { r < 4 }
    ensures value { result ≡ trial_capacity_of (trial_word words.now.number) m r }
    ensures most { result ≤ 100299 }
{
    start_use(words, m, r) + 100 + (words.get(5000 + 4 * m + r) % 200) as u32
}

/// The cost of a move from machine `a` to machine `b`.
#[tactic(auto, unfolding(crate::specs::Numbers::trial_way_cost_of))]
pub(crate) fn move_cost(a: u32, b: u32) -> u32
    requires from { a < 100 }
    requires to { b < 100 }
    ensures { result ≡ trial_way_cost_of a b }
{
    if a == b { 0 } else { 1 + (a + b) % 5 }
}

/// How many locations service `s` needs.
#[tactic(auto, unfolding(crate::specs::Numbers::trial_spread_of))]
pub(crate) fn spread(words: &Words, s: u32) -> u32
    requires { s < 250 }
    ensures { result ≡ trial_spread_of (trial_word words.now.number) s }
{
    1 + (words.get(5400 + s) % 3) as u32
}
