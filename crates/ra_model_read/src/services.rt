ghost use Rattle.std.specs.Prelude.{◌≡◌, ◌+◌, ◌<◌, ◌≤◌, length, IfOk, IfErr, OnOk};
ghost use Rattle.ra_model_read.specs.ModelText.{dependencies_more, service, services};
ghost use Rattle.ra_token.specs.Moments.{Stands};
ghost use Rattle.ra_model_read.specs.Reading.{seen, Gives, FormatRefuses};
ghost use Rattle.ra_model_read.specs.TableShapes.{service_lists, HasDependencies, HasServices, IsServices};

use crate::faults::{Field, ModelFault};
use crate::fields::{read_any, read_field};
use crate::tables::ServiceTables;
use ra_base::{Fixed, Service};
use ra_io::Files;
use ra_model::ServiceRow;
use ra_token::Tokens;
use std::alloc::Global;

/// The most dependencies that all services have together.
const MOST_DEPENDENCIES: u32 = 100_000;

/// The services: their count, and then each.
pub(crate) fn read_services<F: Files>(
    alloc: Global,
    files: &mut F,
    tokens: &mut Tokens,
) -> Result<ServiceTables, ModelFault>
    requires { Stands (seen F.Files files.old tokens.old) }
    ensures shape { IfOk result IsServices }
    ensures gives { IfOk result (λ tables.
        Gives services (seen F.Files files.old tokens.old) (seen F.Files files.new tokens.new)
        (service_lists tables)) }
    ensures refuses { IfErr result
        (FormatRefuses services (seen F.Files files.old tokens.old) (seen F.Files files.new tokens.new)) }
{
    let count = read_field(files, tokens, Field::ServiceCount, 0, 1, 50_000)?;
    let mut tables = service_tables(alloc, count)?;
    for s in 0..count {
        read_service(files, tokens, count, s, &mut tables)?;
    }
    Ok(tables)
}

/// Empty tables with room for this number of services.
fn service_tables(alloc: Global, service_count: u32) -> Result<ServiceTables, ModelFault>
    ensures none { IfOk result (HasServices service_count 0) }
    ensures memory { IfErr result (λ fault. fault ≡ ModelFault.NoMemory) }
{
    let rows = Fixed::make(alloc, service_count as usize)?;
    let dependencies = Fixed::make(alloc, MOST_DEPENDENCIES as usize)?;
    Ok(ServiceTables { rows, dependencies })
}

/// Service `s`, with its dependencies.
fn read_service<F: Files>(
    files: &mut F,
    tokens: &mut Tokens,
    service_count: u32,
    s: u32,
    tables: &mut ServiceTables,
) -> Result<(), ModelFault>
    requires stands { Stands (seen F.Files files.old tokens.old) }
    requires has { HasServices service_count s tables.old }
    requires below { s < service_count }
    ensures gives { OnOk result (Gives (service service_count s (service_lists tables.old))
        (seen F.Files files.old tokens.old) (seen F.Files files.new tokens.new)
        (service_lists tables.new)) }
    ensures has { OnOk result (HasServices service_count (s + 1) tables.new) }
    ensures refuses { IfErr result (FormatRefuses (service service_count s (service_lists tables.old))
        (seen F.Files files.old tokens.old) (seen F.Files files.new tokens.new)) }
{
    let spread_min = read_any(files, tokens, Field::SpreadMin, s as u64)?;
    let most = MOST_DEPENDENCIES - tables.dependencies.len() as u32;
    let count = read_field(files, tokens, Field::DependencyCount, s as u64, 0, most)?;
    read_dependencies(
        files,
        tokens,
        service_count,
        count,
        &mut tables.dependencies,
    )?;
    let dependency_end = tables.dependencies.len() as u32;
    tables.rows.push(ServiceRow {
        spread_min,
        dependency_end,
    });
    Ok(())
}

/// Adds this number of dependencies, each on one of the services.
fn read_dependencies<F: Files>(
    files: &mut F,
    tokens: &mut Tokens,
    service_count: u32,
    count: u32,
    list: &mut Fixed<Service>,
) -> Result<(), ModelFault>
    requires stands { Stands (seen F.Files files.old tokens.old) }
    requires some { 0 < service_count }
    requires has { HasDependencies service_count list.old }
    requires room { length list.old.items + count ≤ list.old.room }
    ensures gives { OnOk result (Gives (dependencies_more service_count count list.old.items)
        (seen F.Files files.old tokens.old) (seen F.Files files.new tokens.new) list.new.items) }
    ensures has { HasDependencies service_count list.new }
    ensures length { OnOk result (length list.new.items ≡ length list.old.items + count) }
    ensures refuses { IfErr result (FormatRefuses (dependencies_more service_count count list.old.items)
        (seen F.Files files.old tokens.old) (seen F.Files files.new tokens.new)) }
{
    let first = list.len() as u64;
    for k in 0..count {
        let needed = read_field(
            files,
            tokens,
            Field::Dependency,
            first + k as u64,
            0,
            service_count - 1,
        )?;
        list.push(Service(needed));
    }
    Ok(())
}
