ghost use Rattle.std.specs.Prelude.{◌≡◌, ◌^◌, ◌<◌};

use ra_base::{Fixed, Resource, Service};

/// One resource: whether it is transient, and the weight of its load cost.
#[derive(Clone, Copy)]
pub struct ResourceRow {
    /// Whether a process that moves uses the resource on its old machine and on its new one.
    pub transient: bool,
    /// The weight of the resource's load cost.
    pub load_weight: u32,
    ghost small: { load_weight < 2 ^ 32 },
}

/// One machine: the labels of its neighbourhood and of its location, any numbers.
#[derive(Clone, Copy)]
pub struct MachineRow {
    /// The label of the machine's neighbourhood, which dependencies look at.
    pub neighbourhood: u32,
    /// The label of the machine's location, which spread looks at.
    pub location: u32,
    ghost small_neighbourhood: { neighbourhood < 2 ^ 32 },
    ghost small_location: { location < 2 ^ 32 },
}

/// One service: how many locations it needs, and where its dependencies end.
#[derive(Clone, Copy)]
pub struct ServiceRow {
    /// The least number of different locations that hold a process of the service.
    pub spread_min: u32,
    /// The place after the service's last dependency in the list of all dependencies. Those of service `s` go from the
    /// end of service `s - 1` to its own end.
    pub dependency_end: u32,
    ghost small_spread: { spread_min < 2 ^ 32 },
    ghost small_end: { dependency_end < 2 ^ 32 },
}

/// One process: its service, and what it costs to move it.
#[derive(Clone, Copy)]
pub struct ProcessRow {
    /// The service that the process belongs to.
    pub service: Service,
    /// What it costs to move the process off its initial machine, before the weight.
    pub move_cost: u32,
    ghost small: { move_cost < 2 ^ 32 },
}

/// One balance objective: on each machine, `target` times what is available of `first` should not be above what is
/// available of `second`.
#[derive(Clone, Copy)]
pub struct BalanceRow {
    pub first: Resource,
    pub second: Resource,
    pub target: u32,
    pub weight: u32,
    ghost small_target: { target < 2 ^ 32 },
    ghost small_weight: { weight < 2 ^ 32 },
}

/// The lists of a model file. Tables are stored by machine or by process first.
pub struct RawInstance {
    pub resources: Fixed<ResourceRow>,
    pub machines: Fixed<MachineRow>,
    /// By machine, then resource.
    pub capacities: Fixed<u32>,
    /// By machine, then resource.
    pub safeties: Fixed<u32>,
    /// By the machine that is left, then the machine that is entered.
    pub move_costs: Fixed<u32>,
    pub services: Fixed<ServiceRow>,
    /// The services on which each service depends, service after service.
    pub dependencies: Fixed<Service>,
    pub processes: Fixed<ProcessRow>,
    /// By process, then resource.
    pub requirements: Fixed<u32>,
    pub balances: Fixed<BalanceRow>,
    pub process_weight: u32,
    pub service_weight: u32,
    pub machine_weight: u32,
    ghost small_process_weight: { process_weight < 2 ^ 32 },
    ghost small_service_weight: { service_weight < 2 ^ 32 },
    ghost small_machine_weight: { machine_weight < 2 ^ 32 },
}

/// Frees all lists. It is written out so that the end of an owner is one call, and not the ends of ten lists at each of
/// its exits, which take long to prove.
impl Drop for RawInstance {
    fn drop(self) {
        let RawInstance {
            resources: _,
            machines: _,
            capacities: _,
            safeties: _,
            move_costs: _,
            services: _,
            dependencies: _,
            processes: _,
            requirements: _,
            balances: _,
            process_weight: _,
            service_weight: _,
            machine_weight: _,
        } = self;
    }
}

/// All numbers of an instance: the lists of the model file, and one flag for each machine that says whether it is
/// closed. No list of flags means that no machine is closed.
pub struct Tables {
    pub raw: RawInstance,
    pub closed: Option<Fixed<bool>>,
}

/// Frees the lists and the flags in one call, as `RawInstance` does.
impl Drop for Tables {
    fn drop(self) {
        let Tables { raw: _, closed: _ } = self;
    }
}

impl Tables {
    ghost use Rattle.ra_model.specs.Numbers.{with_closed, with_processes};

    /// These lists with exactly the flagged machines closed.
    pub(crate) fn closing(self, flags: Fixed<bool>) -> Tables
        ensures { result ≡ with_closed self flags }
    {
        let Tables { raw, closed: _ } = self;
        Tables {
            raw,
            closed: Some(flags),
        }
    }

    /// These lists with other processes, which require these numbers. As before, the flagged machines are closed.
    pub(crate) fn with_processes(self, rows: Fixed<ProcessRow>, requirements: Fixed<u32>) -> Tables
        ensures { result ≡ with_processes self rows requirements }
    {
        let Tables { mut raw, closed } = self;
        raw.processes = rows;
        raw.requirements = requirements;
        Tables { raw, closed }
    }
}
