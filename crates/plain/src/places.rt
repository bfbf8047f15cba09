ghost use Rattle.std.specs.Prelude.{◌≡◌, ◌↔◌, ℕ, ◌<◌, ◌≤◌, true, length};
ghost use Rattle.ra_journal.specs.Entries.{entry_at, entries_of};
ghost use Rattle.ra_journal.specs.Legal.{IsNumbered, IsPlaced};

use ra_draws::Lots;
use ra_journal::Entry;

/// The entry at a place.
#[tactic(auto, unfolding(ra_journal::specs::Entries::entry_at))]
pub(crate) fn entry(entries: &[Entry], j: usize) -> &Entry
    requires { j < length entries.now }
    ensures { result.now ≡ entry_at entries.now j }
{
    &entries[j]
}

/// Whether the worker of an entry for place `j` exists, and the entry's number is the number of its earlier entries and
/// below its budget.
#[tactic(auto, unfolding(ra_journal::specs::Entries::worker_count, ra_journal::specs::Entries::budget, ra_draws::specs::Lots::budget_of))]
pub(crate) fn is_numbered(lots: &Lots, entries: &[Entry], j: usize, e: &Entry) -> bool
    requires { j ≤ length entries.now }
    ensures { (result ≡ true) ↔ IsNumbered lots.now entries.now j e.now }
{
    if e.worker >= lots.len() {
        return false;
    }
    if e.k >= lots.lot(e.worker).budget {
        return false;
    }
    if e.k != count_of(entries, j, e.worker) {
        return false;
    }
    true
}

/// How many of the first `n` entries are of a worker.
#[tactic(auto, using(ra_base::proofs::Counts::counts), unfolding(ra_journal::specs::Entries::entries_of))]
fn count_of(entries: &[Entry], n: usize, worker: u32) -> u64
    requires { n ≤ length entries.now }
    ensures { result ≡ entries_of entries.now n worker }
{
    let mut count: u64 = 0;
    for j in 0..n {
        if entry(entries, j).worker == worker {
            count += 1;
        }
    }
    count
}

/// Whether an entry for place `j` was planned at that place or an earlier one, after all earlier entries of its
/// worker.
pub(crate) fn is_placed(entries: &[Entry], j: usize, e: &Entry) -> bool
    requires { j ≤ length entries.now }
    ensures { (result ≡ true) ↔ IsPlaced entries.now j e.now }
{
    if e.q > j as u64 {
        return false;
    }
    for n in 0..j {
        let earlier = entry(entries, n);
        if earlier.worker == e.worker && n as u64 >= e.q {
            return false;
        }
    }
    true
}
