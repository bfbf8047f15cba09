ghost use Rattle.std.specs.Prelude.{◌≡◌, ◌≢◌, ℕ, ◌+◌, ◌%◌, ◌<◌, ◌≤◌, ◌↔◌};
ghost use Rattle.std.specs.Int.{bit_at};

use ra_base::Machine;

/// The marks of a window of machines from one on, with a mark for one machine added if it is in the window.
pub(crate) fn with_mark(marks: u64, first: u32, at: Machine, machines: u32) -> u64
    requires first { first < machines }
    requires machine { at.0 < machines }
    requires few { machines ≤ 5000 }
    ensures here { (k : ℕ) → k < 64 → k < machines → (first + k) % machines ≡ at.0 →
        bit_at result k ≡ 1 }
    ensures others { (k : ℕ) → k < 64 → k < machines → (first + k) % machines ≢ at.0 →
        bit_at result k ≡ bit_at marks k }
{
    let place = place_from(first, at.0, machines);
    if place < 64 {
        marks | (1 << place)
    } else {
        marks
    }
}

/// How many places after `first` the number `at` comes in a ring.
fn place_from(first: u32, at: u32, count: u32) -> u32
    requires first { first < count }
    requires at { at < count }
    requires few { count ≤ 5000 }
    ensures { (k : ℕ) → k < count → ((first + k) % count ≡ at) ↔ (k ≡ result) }
{
    if at >= first {
        at - first
    } else {
        at + count - first
    }
}

/// The first mark from a place on, or the end if there is none before it.
#[inline(always)]
pub(crate) fn next_mark(marks: u64, from: u32, end: u32) -> u32
    requires from { from ≤ end }
    requires end { end ≤ 64 }
    ensures from { from ≤ result }
    ensures end { result ≤ end }
    ensures none { (k : ℕ) → from ≤ k → k < result → bit_at marks k ≢ 1 }
    ensures marked { result < end → bit_at marks result ≡ 1 }
{
    if from == end {
        return end;
    }
    let rest = marks >> from;
    if rest == 0 {
        return end;
    }
    (from + rest.trailing_zeros()).min(end)
}
