use ra_base::Assignment;
use ra_cells::Cells;
use ra_rows::Rows;

/// An assignment with all that is kept for it.
pub(crate) struct Kept<'a> {
    /// The assignment, as a copy of its own.
    pub(crate) assignment: Assignment,
    /// Its use and its transient use.
    pub(crate) rows: Rows<'a>,
    /// The counts of its services.
    pub(crate) cells: Cells<'a>,
    /// Its penalty.
    pub(crate) penalty: u128,
}

/// Frees all lists in one call, so that the end of an owner is short to prove.
impl Drop for Kept<'_> {
    fn drop(self) {
        let Kept {
            assignment: _,
            rows: _,
            cells: _,
            penalty: _,
        } = self;
    }
}
