ghost use Rattle.std.specs.Prelude.{◌≡◌, ◌+◌, ◌<◌, ◌≤◌, length, map, IfOk, IfErr, OnOk};
ghost use Rattle.ra_model_read.specs.Lists.{of_resource};
ghost use Rattle.ra_model_read.specs.ModelText.{resource, resources};
ghost use Rattle.ra_token.specs.Moments.{Stands};
ghost use Rattle.ra_model_read.specs.Reading.{seen, Gives, FormatRefuses};

use crate::faults::{Field, ModelFault};
use crate::fields::{read_any, read_field, read_flag};
use ra_base::Fixed;
use ra_io::Files;
use ra_model::ResourceRow;
use ra_token::Tokens;
use std::alloc::Global;

/// The resources: their count, and then each.
pub(crate) fn read_resources<F: Files>(
    alloc: Global,
    files: &mut F,
    tokens: &mut Tokens,
) -> Result<Fixed<ResourceRow>, ModelFault>
    requires { Stands (seen F.Files files.old tokens.old) }
    ensures some { IfOk result (λ rows. 1 ≤ length rows.items) }
    ensures few { IfOk result (λ rows. length rows.items ≤ 20) }
    ensures gives { IfOk result (λ rows.
        Gives resources (seen F.Files files.old tokens.old) (seen F.Files files.new tokens.new)
        (map of_resource rows.items)) }
    ensures refuses { IfErr result
        (FormatRefuses resources (seen F.Files files.old tokens.old) (seen F.Files files.new tokens.new)) }
{
    let count = read_field(files, tokens, Field::ResourceCount, 0, 1, 20)?;
    let mut rows = Fixed::make(alloc, count as usize)?;
    for r in 0..count {
        read_resource(files, tokens, r, &mut rows)?;
    }
    Ok(rows)
}

/// Resource `r`.
fn read_resource<F: Files>(
    files: &mut F,
    tokens: &mut Tokens,
    r: u32,
    rows: &mut Fixed<ResourceRow>,
) -> Result<(), ModelFault>
    requires stands { Stands (seen F.Files files.old tokens.old) }
    requires room { length rows.old.items < rows.old.room }
    ensures gives { OnOk result (Gives (resource r (map of_resource rows.old.items))
        (seen F.Files files.old tokens.old) (seen F.Files files.new tokens.new)
        (map of_resource rows.new.items)) }
    ensures length { OnOk result (length rows.new.items ≡ length rows.old.items + 1) }
    ensures room { rows.new.room ≡ rows.old.room }
    ensures refuses { IfErr result (FormatRefuses (resource r (map of_resource rows.old.items))
        (seen F.Files files.old tokens.old) (seen F.Files files.new tokens.new)) }
{
    let transient = read_flag(files, tokens, r as u64)?;
    let load_weight = read_any(files, tokens, Field::LoadWeight, r as u64)?;
    rows.push(ResourceRow {
        transient,
        load_weight,
    });
    Ok(())
}
