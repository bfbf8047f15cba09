ghost use Rattle.std.specs.Prelude.{◌≡◌, ℕ, ◌<◌, ◌≤◌, List, Some, Err, IsTrue, IfSome, IfOk, IfErr};
ghost use Rattle.ra_io.specs.Faults.{Rose};
ghost use Rattle.ra_model.specs.Limits.{WellFormed};
ghost use Rattle.ra_model.specs.Numbers.{all_open};
ghost use Rattle.ra_model_read.specs.Lists.{lists_of};
ghost use Rattle.ra_model_read.specs.ModelText.{weights, rest, model, model_refusal};
ghost use Rattle.ra_token.specs.Moments.{Stands};
ghost use Rattle.ra_model_read.specs.Reading.{seen, Gives, FormatRefuses, is_by_content};
ghost use Rattle.ra_model_read.specs.TableShapes.{IsRest, rest_lists, weight_numbers};
ghost use Rattle.ra_model_read.specs.Texts.{IsToldModel, IsToldText, ModelIsItsNumbers};

use crate::balances::read_balances;
use crate::faults::{Field, ModelFault};
use crate::fields::{read_any, read_end};
use crate::machines::read_machines;
use crate::processes::read_processes;
use crate::resources::read_resources;
use crate::services::read_services;
use crate::tables::{RestTables, WeightNumbers};
use ra_io::Files;
use ra_model::{Instance, RawInstance};
use ra_token::Tokens;
use std::alloc::Global;

/// The instance that the bytes of a model file mean. The file was read to its end.
///
/// # Errors
///
/// The first thing that is wrong with the file, field after field; `ReadFault` if a fetch failed; `NoMemory`.
pub fn read_model<F: Files>(
    alloc: Global,
    files: &mut F,
    name: &str,
) -> Result<Instance, ModelFault>
    // If the bytes are told, they mean this instance and are its text, or this is the first thing that is wrong with
    // them.
    ensures model { IfOk result (λ inst. IsToldModel (F.held files.old name.now) inst.tables) }
    ensures text { IfOk result (λ inst. IsToldText (F.held files.old name.now) inst.tables) }
    ensures refused { IfErr result (λ fault. IsTrue (is_by_content fault) →
        IfSome (F.held files.old name.now) (λ bytes. model_refusal bytes ≡ Some fault)) }

    // They mean an instance exactly if it is within the limits, no machine of it is closed, and they are its text.
    ensures every_text { IfSome (F.held files.old name.now) ModelIsItsNumbers }

    // A failed fetch is counted.
    ensures fault { result ≡ Err ModelFault.ReadFault →
        Rose (F.faults files.old name.now) (F.faults files.new name.now) }
    ensures kept { (other : List ℕ) → F.held files.new other ≡ F.held files.old other }
    ensures never_fall { (other : List ℕ) → F.faults files.old other ≤ F.faults files.new other }
{
    let Ok(mut tokens) = Tokens::make(alloc, name) else {
        return Err(ModelFault::NoMemory);
    };
    let raw = read_raw(alloc, files, &mut tokens)?;
    Ok(Instance::of(raw))
}

/// The lists of a model file.
fn read_raw<F: Files>(
    alloc: Global,
    files: &mut F,
    tokens: &mut Tokens,
) -> Result<RawInstance, ModelFault>
    requires { Stands (seen F.Files files.old tokens.old) }
    ensures well_formed { IfOk result (λ raw. WellFormed (all_open raw)) }
    ensures gives { IfOk result (λ raw.
        Gives model (seen F.Files files.old tokens.old) (seen F.Files files.new tokens.new)
        (lists_of raw)) }
    ensures refuses { IfErr result
        (FormatRefuses model (seen F.Files files.old tokens.old) (seen F.Files files.new tokens.new)) }
{
    let resources = read_resources(alloc, files, tokens)?;
    let resource_count = resources.len() as u32;
    let machines = read_machines(alloc, files, tokens, resource_count)?;
    let services = read_services(alloc, files, tokens)?;
    let service_count = services.rows.len() as u32;
    let rest = read_rest(alloc, files, tokens, service_count, resource_count)?;
    Ok(RawInstance {
        resources,
        machines: machines.rows,
        capacities: machines.capacities,
        safeties: machines.safeties,
        move_costs: machines.move_costs,
        services: services.rows,
        dependencies: services.dependencies,
        processes: rest.processes.rows,
        requirements: rest.processes.requirements,
        balances: rest.balances,
        process_weight: rest.weights.process,
        service_weight: rest.weights.service,
        machine_weight: rest.weights.machine,
    })
}

/// What follows the services, over these numbers of services and of resources, up to the end of the file.
fn read_rest<F: Files>(
    alloc: Global,
    files: &mut F,
    tokens: &mut Tokens,
    service_count: u32,
    resource_count: u32,
) -> Result<RestTables, ModelFault>
    requires stands { Stands (seen F.Files files.old tokens.old) }
    requires services { 0 < service_count }
    requires some { 0 < resource_count }
    requires few { resource_count ≤ 20 }
    ensures shape { IfOk result (IsRest service_count resource_count) }
    ensures gives { IfOk result (λ tables. Gives (rest service_count resource_count)
        (seen F.Files files.old tokens.old) (seen F.Files files.new tokens.new)
        (rest_lists tables)) }
    ensures refuses { IfErr result (FormatRefuses (rest service_count resource_count)
        (seen F.Files files.old tokens.old) (seen F.Files files.new tokens.new)) }
{
    let processes = read_processes(alloc, files, tokens, service_count, resource_count)?;
    let balances = read_balances(alloc, files, tokens, resource_count)?;
    let weights = read_weights(files, tokens)?;
    read_end(files, tokens)?;
    Ok(RestTables {
        processes,
        balances,
        weights,
    })
}

/// The weights of the three costs of moves.
fn read_weights<F: Files>(files: &mut F, tokens: &mut Tokens) -> Result<WeightNumbers, ModelFault>
    requires { Stands (seen F.Files files.old tokens.old) }
    ensures gives { IfOk result (λ read.
        Gives weights (seen F.Files files.old tokens.old) (seen F.Files files.new tokens.new)
        (weight_numbers read)) }
    ensures refuses { IfErr result
        (FormatRefuses weights (seen F.Files files.old tokens.old) (seen F.Files files.new tokens.new)) }
{
    let process = read_any(files, tokens, Field::ProcessWeight, 0)?;
    let service = read_any(files, tokens, Field::ServiceWeight, 0)?;
    let machine = read_any(files, tokens, Field::MachineWeight, 0)?;
    Ok(WeightNumbers {
        process,
        service,
        machine,
    })
}
