use crate::listing::Entries;
use ra_cells::Greatest;
use ra_guards::Versions;

/// The entries of a journal, and what the journal keeps for them.
pub(crate) struct Book {
    /// The entries.
    pub(crate) entries: Entries,
    /// The version of each guard after all entries.
    pub(crate) versions: Versions,
    /// The moved counts of the state after all entries.
    pub(crate) greatest: Greatest,
    /// The cost of that state.
    pub(crate) kept: u128,
    /// How many entries each worker has made.
    pub(crate) made: [u64; 16],
    /// The first place whose state costs least.
    pub(crate) best_at: u64,
    /// The cost of the state at that place.
    pub(crate) best_cost: u128,
    /// One more than the place of the last entry that is done, and 0 if none is.
    pub(crate) done: u64,
}

/// Frees all lists in one call, so that the end of an owner is short to prove.
impl Drop for Book {
    fn drop(self) {
        let Book {
            entries: _,
            versions: _,
            greatest: _,
            kept: _,
            made: _,
            best_at: _,
            best_cost: _,
            done: _,
        } = self;
    }
}
