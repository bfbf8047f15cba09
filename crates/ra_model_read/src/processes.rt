ghost use Rattle.std.specs.Prelude.{◌≡◌, ◌+◌, ◌<◌, ◌≤◌, IfOk, IfErr, OnOk};
ghost use Rattle.ra_model_read.specs.ModelText.{process, processes};
ghost use Rattle.ra_token.specs.Moments.{Stands};
ghost use Rattle.ra_model_read.specs.Reading.{seen, Gives, FormatRefuses};
ghost use Rattle.ra_model_read.specs.TableShapes.{process_lists, HasProcesses, IsProcesses};

use crate::faults::{Field, ModelFault};
use crate::fields::{read_any, read_field, read_numbers};
use crate::tables::ProcessTables;
use ra_base::{Fixed, Service};
use ra_io::Files;
use ra_model::ProcessRow;
use ra_token::Tokens;
use std::alloc::Global;

/// The processes, over these numbers of services and of resources: their count, and then each.
pub(crate) fn read_processes<F: Files>(
    alloc: Global,
    files: &mut F,
    tokens: &mut Tokens,
    service_count: u32,
    resource_count: u32,
) -> Result<ProcessTables, ModelFault>
    requires stands { Stands (seen F.Files files.old tokens.old) }
    requires some { 0 < service_count }
    requires few { resource_count ≤ 20 }
    ensures shape { IfOk result (IsProcesses service_count resource_count) }
    ensures gives { IfOk result (λ tables. Gives (processes service_count resource_count)
        (seen F.Files files.old tokens.old) (seen F.Files files.new tokens.new)
        (process_lists tables)) }
    ensures refuses { IfErr result (FormatRefuses (processes service_count resource_count)
        (seen F.Files files.old tokens.old) (seen F.Files files.new tokens.new)) }
{
    let count = read_field(files, tokens, Field::ProcessCount, 0, 1, 50_000)?;
    let mut tables = process_tables(alloc, service_count, resource_count, count)?;
    for p in 0..count {
        read_process(
            files,
            tokens,
            service_count,
            resource_count,
            count,
            p,
            &mut tables,
        )?;
    }
    Ok(tables)
}

/// Empty tables with room for this number of processes.
fn process_tables(
    alloc: Global,
    service_count: u32,
    resource_count: u32,
    process_count: u32,
) -> Result<ProcessTables, ModelFault>
    requires few { resource_count ≤ 20 }
    requires within { process_count ≤ 50000 }
    ensures none { IfOk result (HasProcesses service_count resource_count process_count 0) }
    ensures memory { IfErr result (λ fault. fault ≡ ModelFault.NoMemory) }
{
    let rows = Fixed::make(alloc, process_count as usize)?;
    let requirements = Fixed::make(alloc, process_count as usize * resource_count as usize)?;
    Ok(ProcessTables { rows, requirements })
}

/// Process `p`: its service, its row of requirements and its move cost.
fn read_process<F: Files>(
    files: &mut F,
    tokens: &mut Tokens,
    service_count: u32,
    resource_count: u32,
    process_count: u32,
    p: u32,
    tables: &mut ProcessTables,
) -> Result<(), ModelFault>
    requires stands { Stands (seen F.Files files.old tokens.old) }
    requires has { HasProcesses service_count resource_count process_count p tables.old }
    requires below { p < process_count }
    requires some { 0 < service_count }
    ensures gives { OnOk result (Gives (process service_count resource_count p
        (process_lists tables.old)) (seen F.Files files.old tokens.old)
        (seen F.Files files.new tokens.new) (process_lists tables.new)) }
    ensures has { OnOk result (HasProcesses service_count resource_count process_count
        (p + 1) tables.new) }
    ensures refuses { IfErr result
        (FormatRefuses (process service_count resource_count p (process_lists tables.old))
        (seen F.Files files.old tokens.old) (seen F.Files files.new tokens.new)) }
{
    let service = read_field(
        files,
        tokens,
        Field::ProcessService,
        p as u64,
        0,
        service_count - 1,
    )?;
    let row = p as u64 * resource_count as u64;
    read_numbers(
        files,
        tokens,
        Field::Requirement,
        row,
        resource_count as usize,
        &mut tables.requirements,
    )?;
    let move_cost = read_any(files, tokens, Field::ProcessCost, p as u64)?;
    tables.rows.push(ProcessRow {
        service: Service(service),
        move_cost,
    });
    Ok(())
}
