ghost use Rattle.std.specs.Prelude.{◌^◌, ◌<◌};

use ra_base::{Fixed, Service};
use ra_model::{BalanceRow, MachineRow, ProcessRow, ServiceRow};

/// The machines of a model, with the tables that have a row for each.
#[derive(Drop)]
pub struct MachineTables {
    pub rows: Fixed<MachineRow>,
    pub capacities: Fixed<u32>,
    pub safeties: Fixed<u32>,
    pub move_costs: Fixed<u32>,
}

/// The services of a model, with the dependencies of all.
#[derive(Drop)]
pub struct ServiceTables {
    pub rows: Fixed<ServiceRow>,
    pub dependencies: Fixed<Service>,
}

/// The processes of a model, with the table of their requirements.
#[derive(Drop)]
pub struct ProcessTables {
    pub rows: Fixed<ProcessRow>,
    pub requirements: Fixed<u32>,
}

/// The weights of the costs of moves.
#[derive(Clone, Copy)]
pub struct WeightNumbers {
    pub process: u32,
    pub service: u32,
    pub machine: u32,
    ghost small_process: { process < 2 ^ 32 },
    ghost small_service: { service < 2 ^ 32 },
    ghost small_machine: { machine < 2 ^ 32 },
}

/// What follows the services of a model.
#[derive(Drop)]
pub struct RestTables {
    pub processes: ProcessTables,
    pub balances: Fixed<BalanceRow>,
    pub weights: WeightNumbers,
}
