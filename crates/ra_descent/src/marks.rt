ghost use Rattle.std.specs.Prelude.{◌≡◌, ◌≢◌, ℕ, ◌<◌, ◌≤◌};
ghost use Rattle.std.specs.Int.{bit_at};

/// The first mark from a place on, or the end if there is none before it.
#[inline(always)]
pub(crate) fn next_mark(marks: u64, from: u32, end: u32) -> u32
    requires from { from ≤ end }
    requires end { end ≤ 64 }
    ensures from { from ≤ result }
    ensures end { result ≤ end }
    ensures none { (k : ℕ) → from ≤ k → k < result → bit_at marks k ≢ 1 }
    ensures marked { result < end → bit_at marks result ≡ 1 }
{
    if from == end {
        return end;
    }
    let rest = marks >> from;
    if rest == 0 {
        return end;
    }
    (from + rest.trailing_zeros()).min(end)
}
