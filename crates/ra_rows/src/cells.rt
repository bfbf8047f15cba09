ghost use Rattle.std.specs.Prelude.{◌≢◌, ◌+◌, ◌*◌, ◌^◌, ◌<◌, ◌≤◌, length};
ghost use Rattle.ra_base.specs.Tables.{cell};
ghost use Rattle.ra_rows.specs.Changes.{at_row, away_row, HasMore, Moves};

use ra_base::{Fixed, Machine, place, read_cell};

/// Adds to the number at a row and a column of a table.
pub(crate) fn add_to_cell(table: &mut Fixed<u64>, width: u32, row: u32, column: u32, amount: u32)
    requires column { column < width }
    requires place { row * width + column < length table.old.items }
    requires fits { cell width table.old.items row column + amount < 2 ^ 64 }
    ensures { HasMore width column (at_row row amount) table.old.items table.new.items }
{
    ra_base::add_to_cell(table, width, row, column, amount);
}

/// Subtracts from the number at a row and a column of a table.
pub(crate) fn take_from_cell(table: &mut Fixed<u64>, width: u32, row: u32, column: u32, amount: u32)
    requires column { column < width }
    requires place { row * width + column < length table.old.items }
    requires enough { amount ≤ cell width table.old.items row column }
    ensures { HasMore width column (at_row row amount) table.new.items table.old.items }
{
    let rest = read_cell(table, width, row, column) - u64::from(amount);
    table.set(place(width, row, column), rest);
}

/// Moves an amount from one row of a table to another.
pub(crate) fn move_amount(
    table: &mut Fixed<u64>,
    width: u32,
    column: u32,
    from: Machine,
    to: Machine,
    amount: u32,
)
    requires column { column < width }
    requires from { from.0 * width + column < length table.old.items }
    requires to { to.0 * width + column < length table.old.items }
    requires apart { from.0 ≢ to.0 }
    requires enough { amount ≤ cell width table.old.items from.0 column }
    requires fits { cell width table.old.items to.0 column + amount < 2 ^ 64 }
    ensures { Moves width column (at_row from.0 amount)
        (at_row to.0 amount) table.old.items table.new.items }
{
    take_from_cell(table, width, from.0, column, amount);
    add_to_cell(table, width, to.0, column, amount);
}

/// Moves an amount from one row of a table to another, but never into or out of the home row, which always has it.
pub(crate) fn move_beside_home(
    table: &mut Fixed<u64>,
    width: u32,
    column: u32,
    home: Machine,
    from: Machine,
    to: Machine,
    amount: u32,
)
    requires column { column < width }
    requires from { from.0 * width + column < length table.old.items }
    requires to { to.0 * width + column < length table.old.items }
    requires apart { from.0 ≢ to.0 }
    requires enough { amount ≤ cell width table.old.items from.0 column }
    requires fits { cell width table.old.items to.0 column + amount < 2 ^ 64 }
    ensures { Moves width column (away_row home.0 from.0 amount)
        (away_row home.0 to.0 amount) table.old.items table.new.items }
{
    leave_row(table, width, column, home, from, amount);
    enter_row(table, width, column, home, to, amount);
}

/// Subtracts an amount from a row, unless it is the home row.
fn leave_row(
    table: &mut Fixed<u64>,
    width: u32,
    column: u32,
    home: Machine,
    from: Machine,
    amount: u32,
)
    requires column { column < width }
    requires place { from.0 * width + column < length table.old.items }
    requires enough { amount ≤ cell width table.old.items from.0 column }
    ensures { HasMore width column (away_row home.0 from.0 amount) table.new.items table.old.items }
{
    if home.0 != from.0 {
        take_from_cell(table, width, from.0, column, amount);
    }
}

/// Adds an amount to a row, unless it is the home row.
fn enter_row(
    table: &mut Fixed<u64>,
    width: u32,
    column: u32,
    home: Machine,
    to: Machine,
    amount: u32,
)
    requires column { column < width }
    requires place { to.0 * width + column < length table.old.items }
    requires fits { cell width table.old.items to.0 column + amount < 2 ^ 64 }
    ensures { HasMore width column (away_row home.0 to.0 amount) table.old.items table.new.items }
{
    if home.0 != to.0 {
        add_to_cell(table, width, to.0, column, amount);
    }
}
