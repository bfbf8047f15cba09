ghost use Rattle.std.specs.Prelude.{◌≡◌, ◌+◌, ◌<◌, ◌≤◌, length, map, IfOk, IfErr, OnOk};
ghost use Rattle.ra_model_read.specs.Lists.{of_balance};
ghost use Rattle.ra_model_read.specs.ModelText.{balance, balances};
ghost use Rattle.ra_token.specs.Moments.{Stands};
ghost use Rattle.ra_model_read.specs.Reading.{seen, Gives, FormatRefuses};
ghost use Rattle.ra_model_read.specs.TableShapes.{AreBalances, HasBalances};

use crate::faults::{Field, ModelFault};
use crate::fields::{read_any, read_field};
use ra_base::{Fixed, Resource};
use ra_io::Files;
use ra_model::BalanceRow;
use ra_token::Tokens;
use std::alloc::Global;

/// The balance objectives over this number of resources: their count, and then each.
pub(crate) fn read_balances<F: Files>(
    alloc: Global,
    files: &mut F,
    tokens: &mut Tokens,
    resource_count: u32,
) -> Result<Fixed<BalanceRow>, ModelFault>
    requires stands { Stands (seen F.Files files.old tokens.old) }
    requires some { 0 < resource_count }
    ensures few { IfOk result (λ rows. length rows.items ≤ 10) }
    ensures among { IfOk result (λ rows. AreBalances resource_count rows.items) }
    ensures gives { IfOk result (λ rows.
        Gives (balances resource_count)
        (seen F.Files files.old tokens.old) (seen F.Files files.new tokens.new)
        (map of_balance rows.items)) }
    ensures refuses { IfErr result
        (FormatRefuses (balances resource_count)
        (seen F.Files files.old tokens.old) (seen F.Files files.new tokens.new)) }
{
    let count = read_field(files, tokens, Field::BalanceCount, 0, 0, 10)?;
    let mut rows = Fixed::make(alloc, count as usize)?;
    for b in 0..count {
        read_balance(files, tokens, resource_count, b, &mut rows)?;
    }
    Ok(rows)
}

/// Balance objective `b`.
fn read_balance<F: Files>(
    files: &mut F,
    tokens: &mut Tokens,
    resource_count: u32,
    b: u32,
    rows: &mut Fixed<BalanceRow>,
) -> Result<(), ModelFault>
    requires stands { Stands (seen F.Files files.old tokens.old) }
    requires some { 0 < resource_count }
    requires has { HasBalances resource_count b rows.old }
    requires room { b < rows.old.room }
    ensures gives { OnOk result (Gives (balance resource_count b (map of_balance rows.old.items))
        (seen F.Files files.old tokens.old) (seen F.Files files.new tokens.new)
        (map of_balance rows.new.items)) }
    ensures has { OnOk result (HasBalances resource_count (b + 1) rows.new) }
    ensures room { rows.new.room ≡ rows.old.room }
    ensures refuses { IfErr result
        (FormatRefuses (balance resource_count b (map of_balance rows.old.items))
        (seen F.Files files.old tokens.old) (seen F.Files files.new tokens.new)) }
{
    let first = read_field(
        files,
        tokens,
        Field::BalanceFirst,
        b as u64,
        0,
        resource_count - 1,
    )?;
    let second = read_field(
        files,
        tokens,
        Field::BalanceSecond,
        b as u64,
        0,
        resource_count - 1,
    )?;
    let target = read_any(files, tokens, Field::BalanceTarget, b as u64)?;
    let weight = read_any(files, tokens, Field::BalanceWeight, b as u64)?;
    rows.push(BalanceRow {
        first: Resource(first),
        second: Resource(second),
        target,
        weight,
    });
    Ok(())
}
