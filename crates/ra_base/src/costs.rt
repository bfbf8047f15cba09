ghost use Rattle.std.specs.Prelude.{◌≡◌, ◌+◌};
ghost use Rattle.ra_base.specs.SmallParts.{AreSmall};

use crate::ids::Service;

/// The five parts of the cost of an assignment, each multiplied by its weight, and their sum.
#[derive(Clone, Copy, Debug, PartialEq, Eq)]
pub struct Parts {
    /// Use above the safety capacities.
    pub load: u128,
    /// The shortfall of one available resource against another.
    pub balance: u128,
    /// Moves of processes.
    pub process: u128,
    /// The greatest number of moved processes of one service.
    pub service: u128,
    /// The costs of the ways from machine to machine.
    pub machine: u128,
    /// The sum of the five.
    pub total: u128,
}

impl Parts {
    /// Five parts with their sum.
    pub fn summed(load: u128, balance: u128, process: u128, service: u128, machine: u128) -> Parts
        requires { AreSmall load balance process service machine }
        ensures { result ≡
            record {
              load = load;
              balance = balance;
              process = process;
              service = service;
              machine = machine;
              total = load + balance + process + service + machine;
            } }
    {
        Parts {
            load,
            balance,
            process,
            service,
            machine,
            total: load + balance + process + service + machine,
        }
    }
}

/// How many processes of a service aren't on their initial machine, before and after a move.
#[derive(Clone, Copy, Debug, PartialEq, Eq)]
pub struct MovedCount {
    /// The service.
    pub service: Service,
    /// The number before the move.
    pub before: u32,
    /// The number after the move.
    pub after: u32,
}
