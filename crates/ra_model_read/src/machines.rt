ghost use Rattle.std.specs.Prelude.{◌≡◌, ◌+◌, ◌<◌, ◌≤◌, IfOk, IfErr, OnOk};
ghost use Rattle.ra_model_read.specs.ModelText.{machine, machines};
ghost use Rattle.ra_token.specs.Moments.{Stands};
ghost use Rattle.ra_model_read.specs.Reading.{seen, Gives, FormatRefuses};
ghost use Rattle.ra_model_read.specs.TableShapes.{machine_lists, HasMachines, IsMachines};

use crate::faults::{Field, ModelFault};
use crate::fields::{read_any, read_field, read_numbers};
use crate::tables::MachineTables;
use ra_base::Fixed;
use ra_io::Files;
use ra_model::MachineRow;
use ra_token::Tokens;
use std::alloc::Global;

/// The machines, over this number of resources: their count, and then each.
pub(crate) fn read_machines<F: Files>(
    alloc: Global,
    files: &mut F,
    tokens: &mut Tokens,
    resource_count: u32,
) -> Result<MachineTables, ModelFault>
    requires stands { Stands (seen F.Files files.old tokens.old) }
    requires few { resource_count ≤ 20 }
    ensures shape { IfOk result (IsMachines resource_count) }
    ensures gives { IfOk result (λ tables.
        Gives (machines resource_count)
        (seen F.Files files.old tokens.old) (seen F.Files files.new tokens.new)
        (machine_lists tables)) }
    ensures refuses { IfErr result
        (FormatRefuses (machines resource_count)
        (seen F.Files files.old tokens.old) (seen F.Files files.new tokens.new)) }
{
    let count = read_field(files, tokens, Field::MachineCount, 0, 1, 5000)?;
    let mut tables = machine_tables(alloc, resource_count, count)?;
    for m in 0..count {
        read_machine(files, tokens, resource_count, count, m, &mut tables)?;
    }
    Ok(tables)
}

/// Empty tables with room for this number of machines.
fn machine_tables(
    alloc: Global,
    resource_count: u32,
    machine_count: u32,
) -> Result<MachineTables, ModelFault>
    requires few { resource_count ≤ 20 }
    requires within { machine_count ≤ 5000 }
    ensures none { IfOk result (HasMachines resource_count machine_count 0) }
    ensures memory { IfErr result (λ fault. fault ≡ ModelFault.NoMemory) }
{
    let rows = Fixed::make(alloc, machine_count as usize)?;
    let capacities = Fixed::make(alloc, machine_count as usize * resource_count as usize)?;
    let safeties = Fixed::make(alloc, machine_count as usize * resource_count as usize)?;
    let move_costs = Fixed::make(alloc, machine_count as usize * machine_count as usize)?;
    Ok(MachineTables {
        rows,
        capacities,
        safeties,
        move_costs,
    })
}

/// Machine `m`: its labels and its row of each table.
fn read_machine<F: Files>(
    files: &mut F,
    tokens: &mut Tokens,
    resource_count: u32,
    machine_count: u32,
    m: u32,
    tables: &mut MachineTables,
) -> Result<(), ModelFault>
    requires stands { Stands (seen F.Files files.old tokens.old) }
    requires has { HasMachines resource_count machine_count m tables.old }
    requires below { m < machine_count }
    ensures gives { OnOk result (Gives (machine resource_count machine_count m
        (machine_lists tables.old))
        (seen F.Files files.old tokens.old) (seen F.Files files.new tokens.new)
        (machine_lists tables.new)) }
    ensures has { OnOk result (HasMachines resource_count machine_count (m + 1) tables.new) }
    ensures refuses { IfErr result
        (FormatRefuses (machine resource_count machine_count m (machine_lists tables.old))
        (seen F.Files files.old tokens.old) (seen F.Files files.new tokens.new)) }
{
    let neighbourhood = read_any(files, tokens, Field::Neighbourhood, m as u64)?;
    let location = read_any(files, tokens, Field::Location, m as u64)?;
    let row = m as u64 * resource_count as u64;
    let ways = m as u64 * machine_count as u64;
    let width = resource_count as usize;
    read_numbers(
        files,
        tokens,
        Field::Capacity,
        row,
        width,
        &mut tables.capacities,
    )?;
    read_numbers(
        files,
        tokens,
        Field::Safety,
        row,
        width,
        &mut tables.safeties,
    )?;
    read_numbers(
        files,
        tokens,
        Field::MoveCost,
        ways,
        machine_count as usize,
        &mut tables.move_costs,
    )?;
    tables.rows.push(MachineRow {
        neighbourhood,
        location,
    });
    Ok(())
}
