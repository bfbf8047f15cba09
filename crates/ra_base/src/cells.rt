ghost use Rattle.std.specs.Prelude.{◌≡◌, ℕ, ◌+◌, ◌*◌, ◌^◌, ◌<◌, ◌≤◌, length, slice_index_or, slice_set};
ghost use Rattle.ra_base.specs.Tables.{cell};

use crate::lists::Fixed;

/// The place of a row and a column in a table of this width.
#[tactic(auto, using(crate::proofs::Tables::place_small))]
pub fn place(width: u32, row: u32, column: u32) -> usize
    ensures { result ≡ row * width + column }
{
    row as usize * width as usize + column as usize
}

/// The number at a row and a column of a table of this width.
#[tactic(auto, unfolding(crate::specs::Tables::cell))]
pub fn read_cell(table: &Fixed<u64>, width: u32, row: u32, column: u32) -> u64
    requires { row * width + column < length table.now.items }
    ensures { result ≡ cell width table.now.items row column }
{
    table.get(place(width, row, column))
}

/// The numbers of a row, column by column.
#[tactic(auto, using(crate::proofs::Tables::row_length))]
pub fn read_row(table: &Fixed<u64>, width: u32, row: u32) -> &[u64]
    requires { row * width + width ≤ length table.now.items }
    ensures one_each { length result.now ≡ width }
    ensures each { (r : ℕ) → r < width → slice_index_or result.now r 0 ≡
        cell width table.now.items row r }
{
    &table.as_slice()[place(width, row, 0)..place(width, row, width)]
}

/// Adds to the number at a row and a column of a table of this width.
pub fn add_to_cell(table: &mut Fixed<u64>, width: u32, row: u32, column: u32, amount: u32)
    requires place { row * width + column < length table.old.items }
    requires fits { cell width table.old.items row column + amount < 2 ^ 64 }
    ensures { table.new.items ≡ slice_set table.old.items (row * width + column)
        (cell width table.old.items row column + amount) }
{
    let sum = read_cell(table, width, row, column) + u64::from(amount);
    table.set(place(width, row, column), sum);
}
