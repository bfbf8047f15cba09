ghost use Rattle.std.specs.Prelude.{◌≡◌, ℕ, ◌+◌, ◌-◌, ◌<◌, ◌≤◌, ◌^◌, true, false, length, slice_index, slice_index_or};
ghost use Rattle.ra_cells.specs.Held.{labels_held, different, Ascends};

/// At most this many labels are counted one by one.
const SHORT: usize = 16;

/// How many of the ascending labels from start to end are x.
pub(crate) fn held_in(labels: &Vec<u32>, start: usize, end: usize, x: u32) -> u32
    requires part { start ≤ end }
    requires there { end ≤ length labels.now.items }
    requires few { length labels.now.items < 2 ^ 32 }
    requires ascends { Ascends labels.now.items start end }
    ensures count { result ≡ labels_held labels.now.items start end x }
{
    if end - start <= SHORT {
        return scan(labels, start, end, x);
    }
    let first = first_from(labels, start, end, u64::from(x));
    let behind = first_from(labels, start, end, u64::from(x) + 1);
    (behind - first) as u32
}

/// Counts x among the labels from start to end by a look at each of them.
#[tactic(auto, using(crate::proofs::HeldLemmas::scanning))]
fn scan(labels: &Vec<u32>, start: usize, end: usize, x: u32) -> u32
    requires part { start ≤ end }
    requires there { end ≤ length labels.now.items }
    requires few { length labels.now.items < 2 ^ 32 }
    ensures count { result ≡ labels_held labels.now.items start end x }
{
    let mut count = 0;
    for k in start..end {
        if label_at(labels, k) == x {
            count += 1;
        }
    }
    count
}

/// The first place from start to end whose label is x or greater, and the end if there is none, found by halving.
pub(crate) fn first_from(labels: &Vec<u32>, start: usize, end: usize, x: u64) -> usize
    requires part { start ≤ end }
    requires there { end ≤ length labels.now.items }
    requires ascends { Ascends labels.now.items start end }
    ensures from { start ≤ result }
    ensures within { result ≤ end }
    ensures below { (k : ℕ) → start ≤ k → k < result → slice_index labels.now.items k < x }
    ensures above { (k : ℕ) → result ≤ k → k < end → x ≤ slice_index labels.now.items k }
{
    let mut low = start;
    let mut high = end;
    while low < high {
        let middle = low + (high - low) / 2;
        if u64::from(label_at(labels, middle)) < x {
            low = middle + 1;
        } else {
            high = middle;
        }
    }
    low
}

/// How many different labels there are among the ascending labels from start to end.
#[tactic(auto, using(crate::proofs::HeldLemmas::differing))]
pub(crate) fn different_in(labels: &Vec<u32>, start: usize, end: usize) -> u32
    requires part { start ≤ end }
    requires there { end ≤ length labels.now.items }
    requires few { length labels.now.items < 2 ^ 32 }
    requires ascends { Ascends labels.now.items start end }
    ensures { result ≡ different labels.now.items start end }
{
    let mut count = 0;
    for k in start..end {
        if is_new(labels, start, k) {
            count += 1;
        }
    }
    count
}

/// Whether the label at a place is the first from the start, or differs from the label before it.
fn is_new(labels: &Vec<u32>, start: usize, k: usize) -> bool
    requires from { start ≤ k }
    requires there { k < length labels.now.items }
    requires ascends { Ascends labels.now.items start (k + 1) }
    ensures new { result ≡ true → labels_held labels.now.items start k (slice_index labels.now.items k) ≡
        0 }
    ensures again { result ≡ false →
        0 < labels_held labels.now.items start k (slice_index labels.now.items k) }
    ensures small { slice_index labels.now.items k < 2 ^ 32 }
{
    let label = label_at(labels, k);
    if k == start {
        return true;
    }
    label_at(labels, k - 1) != label
}

/// The label at a place.
#[inline(always)]
pub(crate) fn label_at(labels: &Vec<u32>, place: usize) -> u32
    requires { place < length labels.now.items }
    ensures { result ≡ slice_index_or labels.now.items place result }
{
    labels.as_slice()[place]
}
