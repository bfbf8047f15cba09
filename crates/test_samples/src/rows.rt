//! One row of each list, in one line.
ghost use Rattle.std.specs.Prelude.{◌≡◌};

use ra_base::{Resource, Service};
use ra_model::{BalanceRow, MachineRow, ProcessRow, ResourceRow, ServiceRow};

/// A resource: whether it is transient, and the weight of its load cost.
pub fn resource(transient: bool, load_weight: u32) -> ResourceRow
    ensures transient { result.transient ≡ transient }
    ensures weight { result.load_weight ≡ load_weight }
{
    ResourceRow {
        transient,
        load_weight,
    }
}

/// A machine: the labels of its neighbourhood and of its location.
pub fn machine(neighbourhood: u32, location: u32) -> MachineRow
    ensures neighbourhood { result.neighbourhood ≡ neighbourhood }
    ensures location { result.location ≡ location }
{
    MachineRow {
        neighbourhood,
        location,
    }
}

/// A service: how many locations it needs, and where its dependencies end.
pub fn service(spread_min: u32, dependency_end: u32) -> ServiceRow
    ensures spread { result.spread_min ≡ spread_min }
    ensures end { result.dependency_end ≡ dependency_end }
{
    ServiceRow {
        spread_min,
        dependency_end,
    }
}

/// A process: its service, and what it costs to move it.
pub fn process(service: u32, move_cost: u32) -> ProcessRow
    ensures service { result.service.0 ≡ service }
    ensures cost { result.move_cost ≡ move_cost }
{
    ProcessRow {
        service: Service(service),
        move_cost,
    }
}

/// A balance objective between two resources, with its target and its weight.
pub fn balance(first: u32, second: u32, target: u32, weight: u32) -> BalanceRow
    ensures first { result.first.0 ≡ first }
    ensures second { result.second.0 ≡ second }
    ensures target { result.target ≡ target }
    ensures weight { result.weight ≡ weight }
{
    BalanceRow {
        first: Resource(first),
        second: Resource(second),
        target,
        weight,
    }
}
