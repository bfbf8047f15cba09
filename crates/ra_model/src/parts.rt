ghost use Rattle.std.specs.Prelude.{◌≡◌, ◌<◌, length, slice_index};
ghost use Rattle.std.specs.List.{slice_range};
ghost use Rattle.ra_model.specs.Parts.{part_start, AreEnds};

use ra_base::Fixed;

/// Part `k` of a flat list that is cut at ends, which ascend: from the part's start to its end.
#[tactic(auto, using(crate::proofs::PartLemmas::part_bounds))]
pub fn part_of<'a, T: Copy>(all: &'a Fixed<T>, ends: &Fixed<u32>, k: u32) -> &'a [T]
    requires there { k < length ends.now.items }
    requires ascend { AreEnds ends.now.items (length all.now.items) }
    ensures { result.now ≡ slice_range all.now.items (part_start 0 ends.now.items k)
        (slice_index ends.now.items k) }
{
    let start = start_in(ends, k);
    let end = ends.get(k as usize);
    &all.as_slice()[start as usize..end as usize]
}

/// Where a part starts: at the end of the part before it.
#[tactic(auto, using(crate::proofs::PartLemmas::part_starts))]
fn start_in(ends: &Fixed<u32>, k: u32) -> u32
    requires { k < length ends.now.items }
    ensures { result ≡ part_start 0 ends.now.items k }
{
    if k == 0 { 0 } else { ends.get(k as usize - 1) }
}
