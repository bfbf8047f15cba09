ghost use Rattle.std.specs.Prelude.{◌≡◌, ℕ, ◌+◌, ◌-◌, ◌<◌, ◌≤◌, min, length, slice_index};
ghost use Rattle.ra_shift.specs.Windows.{IsRingPart};

/// How many numbers a window has.
const WINDOW: usize = 64;

/// Sixty-four numbers of a ring from a place on: a part of the ring, or a copy if they wrap round to its beginning.
pub fn ring_part<'a>(ring: &'a [u32], start: usize, copy: &'a mut [u32]) -> &'a [u32]
    requires start { start < length ring.now }
    requires copy { length copy.old ≡ 64 }
    ensures { IsRingPart ring.now start 64 result.now }
{
    if ring.len() - start >= WINDOW {
        return &ring[start..start + WINDOW];
    }
    copy_ring(ring, start, copy);
    copy
}

/// Fills a list with the numbers of a ring from a place on, and from its beginning after its end.
fn copy_ring(ring: &[u32], start: usize, copy: &mut [u32])
    requires start { start < length ring.now }
    ensures { IsRingPart ring.now start (length copy.old) copy.new }
{
    let mut from = start;
    let mut done = 0;
    while done < copy.len() {
        done += copy_part(ring, from, copy, done);
        from = 0;
    }
}

/// Copies the numbers from a place of a list on, as many as there are and as there is room for from a place of the copy
/// on.
fn copy_part(ring: &[u32], from: usize, copy: &mut [u32], done: usize) -> usize
    requires from { from < length ring.now }
    requires done { done < length copy.old }
    ensures many { result ≡ min (length ring.now - from) (length copy.old - done) }
    ensures before { (k : ℕ) → k < done → slice_index copy.new k ≡ slice_index copy.old k }
    ensures there { (k : ℕ) → k < result →
        slice_index copy.new (done + k) ≡ slice_index ring.now (from + k) }
{
    let many = (ring.len() - from).min(copy.len() - done);
    copy[done..done + many].copy_from_slice(&ring[from..from + many]);
    many
}
