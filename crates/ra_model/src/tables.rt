ghost use Rattle.std.specs.Prelude.{◌≡◌, ℕ, ◌+◌, ◌*◌, ◌^◌, ◌<◌, length, slice_index};
ghost use Rattle.ra_base.specs.Tables.{cell};

use ra_base::{Fixed, place};

/// The numbers of a table, each below 2^32 by its type.
pub(crate) fn numbers_in(table: &Fixed<u32>) -> &[u32]
    ensures same { result.now ≡ table.now.items }
    ensures small { (k : ℕ) → slice_index table.now.items k < 2 ^ 32 }
{
    let numbers = table.as_slice();
    let _count = numbers.len();
    numbers
}

/// The number of a table at a row and a column.
#[tactic(auto, unfolding(ra_base::specs::Tables::cell))]
pub(crate) fn number_at(table: &Fixed<u32>, width: u32, row: u32, column: u32) -> u32
    requires { row * width + column < length table.now.items }
    ensures { result ≡ cell width table.now.items row column }
{
    table.get(place(width, row, column))
}
