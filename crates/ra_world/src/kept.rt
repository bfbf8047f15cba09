use ra_base::{Assignment, Fixed, Parts};
use ra_cells::Cells;
use ra_rows::Rows;

/// An assignment with all that is kept for it.
pub(crate) struct Kept<'a> {
    /// The assignment, as a copy of its own.
    pub(crate) assignment: Assignment,
    /// Its use and its transient use.
    pub(crate) rows: Rows<'a>,
    /// The counts of its services.
    pub(crate) cells: Cells<'a>,
    /// The load cost of each machine.
    pub(crate) loads: Fixed<u128>,
    /// The balance cost of each machine.
    pub(crate) balances: Fixed<u128>,
    /// The filter rows of all machines.
    pub(crate) filters: Fixed<u32>,
    /// The parts of its cost, and their sum.
    pub(crate) parts: Parts,
}

/// Frees all lists in one call, so that the end of an owner is short to prove.
impl Drop for Kept<'_> {
    fn drop(self) {
        let Kept {
            assignment: _,
            rows: _,
            cells: _,
            loads: _,
            balances: _,
            filters: _,
            parts: _,
        } = self;
    }
}
