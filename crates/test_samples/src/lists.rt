//! An instance of slices.
ghost use Rattle.std.specs.Prelude.{◌≡◌, IfOk, length, slice_index};
ghost use Rattle.test_samples.specs.declared.lists.Lists.{Lists};
ghost use Rattle.test_samples.specs.Copied.{AreMachines, AreProcesses, IsCopy};

use ra_base::{Assignment, Fixed, Machine, NoMemory, Service};
use ra_model::{
    BalanceRow, Instance, MachineRow, ProcessRow, RawInstance, ResourceRow, ServiceRow,
};
use std::alloc::{AllocError, Global};

/// Why an instance could not be made.
#[derive(Clone, Copy, Debug, PartialEq, Eq)]
pub enum NotMade {
    /// The system refused memory.
    NoMemory,
    /// The lists are not an instance.
    NoInstance,
}

impl From<NoMemory> for NotMade {
    fn from(_: NoMemory) -> NotMade {
        NotMade::NoMemory
    }
}

/// The lists of an instance, as in `RawInstance`, and its three weights: of processes, of services and of machines.
#[derive(Clone, Copy)]
pub struct Lists<'a> {
    pub resources: &'a [ResourceRow],
    pub machines: &'a [MachineRow],
    pub capacities: &'a [u32],
    pub safeties: &'a [u32],
    pub move_costs: &'a [u32],
    pub services: &'a [ServiceRow],
    pub dependencies: &'a [Service],
    pub processes: &'a [ProcessRow],
    pub requirements: &'a [u32],
    pub balances: &'a [BalanceRow],
    pub weights: [u32; 3],
}

/// A list of these items.
pub fn list<T: Copy>(alloc: Global, items: &[T]) -> Result<Fixed<T>, NoMemory>
    ensures { IfOk result (λ list. list.items ≡ items.now) }
{
    let mut list = Fixed::make(alloc, items.len())?;
    list.extend_from_slice(items);
    Ok(list)
}

/// The assignment to these machines, process after process.
pub fn assignment(alloc: Global, machines: &[u32]) -> Result<Assignment, NoMemory>
    ensures { IfOk result (λ a. length a.items ≡ length machines.now) }
{
    let mut list = Fixed::make(alloc, machines.len())?;
    for m in machines {
        list.push(Machine(*m));
    }
    Ok(list)
}

/// These command words.
pub fn strings(alloc: Global, words: &[&str]) -> Result<Vec<String>, AllocError> {
    let mut list = Vec::new(alloc);
    for word in words {
        list.push(String::from_str(alloc, word)?)?;
    }
    Ok(list)
}

/// The lists of resources and of machines.
#[derive(Drop)]
struct MachineLists {
    resources: Fixed<ResourceRow>,
    machines: Fixed<MachineRow>,
    capacities: Fixed<u32>,
    safeties: Fixed<u32>,
    move_costs: Fixed<u32>,
}

/// The lists of services and of processes, and the balance objectives.
#[derive(Drop)]
struct ProcessLists {
    services: Fixed<ServiceRow>,
    dependencies: Fixed<Service>,
    processes: Fixed<ProcessRow>,
    requirements: Fixed<u32>,
    balances: Fixed<BalanceRow>,
}

/// The lists of resources and of machines of these slices.
fn machine_lists(alloc: Global, lists: &Lists<'_>) -> Result<MachineLists, NoMemory>
    ensures { IfOk result (λ made. AreMachines made lists.now) }
{
    Ok(MachineLists {
        resources: list(alloc, lists.resources)?,
        machines: list(alloc, lists.machines)?,
        capacities: list(alloc, lists.capacities)?,
        safeties: list(alloc, lists.safeties)?,
        move_costs: list(alloc, lists.move_costs)?,
    })
}

/// The lists of services and of processes of these slices, and the balance objectives.
fn process_lists(alloc: Global, lists: &Lists<'_>) -> Result<ProcessLists, NoMemory>
    ensures { IfOk result (λ made. AreProcesses made lists.now) }
{
    Ok(ProcessLists {
        services: list(alloc, lists.services)?,
        dependencies: list(alloc, lists.dependencies)?,
        processes: list(alloc, lists.processes)?,
        requirements: list(alloc, lists.requirements)?,
        balances: list(alloc, lists.balances)?,
    })
}

/// All lists, and the weights of processes, of services and of machines.
fn joined(
    machines: MachineLists,
    processes: ProcessLists,
    process_weight: u32,
    service_weight: u32,
    machine_weight: u32,
) -> RawInstance
    ensures { (lists : Lists) → AreMachines machines lists → AreProcesses processes lists
        → process_weight ≡ slice_index lists.weights 0
        → service_weight ≡ slice_index lists.weights 1
        → machine_weight ≡ slice_index lists.weights 2
        → IsCopy result lists }
{
    RawInstance {
        resources: machines.resources,
        machines: machines.machines,
        capacities: machines.capacities,
        safeties: machines.safeties,
        move_costs: machines.move_costs,
        services: processes.services,
        dependencies: processes.dependencies,
        processes: processes.processes,
        requirements: processes.requirements,
        balances: processes.balances,
        process_weight,
        service_weight,
        machine_weight,
    }
}

/// The lists of these slices.
fn copied(alloc: Global, lists: &Lists<'_>) -> Result<RawInstance, NoMemory>
    ensures { IfOk result (λ raw. IsCopy raw lists.now) }
{
    let machines = machine_lists(alloc, lists)?;
    let processes = process_lists(alloc, lists)?;
    let [process_weight, service_weight, machine_weight] = lists.weights;
    Ok(joined(
        machines,
        processes,
        process_weight,
        service_weight,
        machine_weight,
    ))
}

/// The instance of these lists, if they are one. No machine is closed.
pub fn instance(alloc: Global, lists: &Lists<'_>) -> Result<Instance, NotMade>
    ensures { IfOk result (λ inst. IsCopy inst.tables.raw lists.now) }
{
    let raw = copied(alloc, lists)?;
    if raw.is_instance() {
        Ok(Instance::of(raw))
    } else {
        drop(raw);
        Err(NotMade::NoInstance)
    }
}
