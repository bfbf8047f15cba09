ghost use Rattle.std.specs.Prelude.{◌≡◌, ℕ, ◌+◌, ◌-◌, ◌*◌, ◌<◌, ◌≤◌, length, slice_index, slice_index_or, IfOk};
ghost use Rattle.std.proofs.Props.{props};
ghost use Rattle.ra_model.specs.Limits.{WellFormed, Small, HasMachineFlags};
ghost use Rattle.ra_model.specs.Numbers.{all_open, with_closed, with_processes, resource_count, machine_count, service_count, process_count, balance_count, resource_row, machine_row, service_row, process_row, balance_row, transient_at, load_weight_of, neighbourhood_of, location_of, capacity_of, safety_of, way_cost_of, spread_of, dependency_count, dependency_start, dependency_end, need_of, service_of, requirement_of, process_cost_of, process_weight_of, service_weight_of, machine_weight_of, closed_at};

use crate::raw::{
    BalanceRow, MachineRow, ProcessRow, RawInstance, ResourceRow, ServiceRow, Tables,
};
use crate::tables::{number_at, numbers_in};
use ra_base::{Fixed, Machine, NoMemory, Process, Resource, Service, Steps};
use std::alloc::Global;
use std::sync::ledger::Ledger;

/// An instance: its counts are within the limits, its tables have the lengths that the counts ask for, and every
/// service, machine and resource that it names exists.
#[derive(Drop)]
pub struct Instance {
    /// The numbers themselves. Only the methods read the lists.
    tables: Tables,
    pub ghost well_formed: { WellFormed tables },
    pub ghost small: { Small tables },
    pub ghost flagged: { HasMachineFlags tables } by { Prim.hlevel props },
}

impl Instance {
    /// The instance of these lists, if they are one, as `RawInstance::is_instance` tells. No machine is closed.
    pub fn of(raw: RawInstance) -> Instance
        requires { WellFormed (all_open raw) }
        ensures { result.tables ≡ all_open raw }
    {
        // Each number of a table is below 2^32, by its type.
        let _capacities = numbers_in(&raw.capacities);
        let _safeties = numbers_in(&raw.safeties);
        let _move_costs = numbers_in(&raw.move_costs);
        let _requirements = numbers_in(&raw.requirements);
        Instance {
            tables: Tables { raw, closed: None },
        }
    }

    /// This instance with exactly the flagged machines closed.
    pub fn closing(self, flags: Fixed<bool>) -> Instance
        requires { length flags.items ≡ machine_count self.tables }
        ensures { result.tables ≡ with_closed self.tables flags }
    {
        let Instance { tables } = self;
        Instance {
            tables: tables.closing(flags),
        }
    }

    /// This instance with other processes, which require these numbers. Its closed machines stay closed.
    pub fn with_processes(self, rows: Fixed<ProcessRow>, requirements: Fixed<u32>) -> Instance
        requires { WellFormed (with_processes self.tables rows requirements) }
        ensures { result.tables ≡ with_processes self.tables rows requirements }
    {
        // Each requirement is below 2^32, by its type.
        let _requirements = numbers_in(&requirements);
        let Instance { tables } = self;
        Instance {
            tables: tables.with_processes(rows, requirements),
        }
    }

    /// How many resources there are.
    #[tactic(auto, unfolding(crate::specs::Numbers::resource_count))]
    pub fn resources(&self) -> u32
        ensures { result ≡ resource_count self.now.tables }
    {
        self.tables.raw.resources.len() as u32
    }

    /// How many machines there are.
    #[tactic(auto, unfolding(crate::specs::Numbers::machine_count))]
    pub fn machines(&self) -> u32
        ensures { result ≡ machine_count self.now.tables }
    {
        self.tables.raw.machines.len() as u32
    }

    /// How many services there are.
    #[tactic(auto, unfolding(crate::specs::Numbers::service_count))]
    pub fn services(&self) -> u32
        ensures { result ≡ service_count self.now.tables }
    {
        self.tables.raw.services.len() as u32
    }

    /// How many processes there are.
    #[tactic(auto, unfolding(crate::specs::Numbers::process_count))]
    pub fn processes(&self) -> u32
        ensures { result ≡ process_count self.now.tables }
    {
        self.tables.raw.processes.len() as u32
    }

    /// How many balance objectives there are.
    #[tactic(auto, unfolding(crate::specs::Numbers::balance_count))]
    pub fn balances(&self) -> u32
        ensures { result ≡ balance_count self.now.tables }
    {
        self.tables.raw.balances.len() as u32
    }

    /// Whether a resource is used on both machines while a process moves.
    #[tactic(auto, unfolding(crate::specs::Numbers::transient_at))]
    pub fn transient(&self, r: Resource) -> bool
        requires { r.0 < resource_count self.now.tables }
        ensures { result ≡ transient_at self.now.tables r.0 }
    {
        self.resource(r).transient
    }

    /// The weight of a resource's load cost.
    #[tactic(auto, unfolding(crate::specs::Numbers::load_weight_of))]
    pub fn load_weight(&self, r: Resource) -> u32
        requires { r.0 < resource_count self.now.tables }
        ensures { result ≡ load_weight_of self.now.tables r.0 }
    {
        self.resource(r).load_weight
    }

    /// The label of a machine's neighbourhood, as the file has it.
    #[tactic(auto, unfolding(crate::specs::Numbers::neighbourhood_of))]
    pub fn neighbourhood(&self, m: Machine) -> u32
        requires { m.0 < machine_count self.now.tables }
        ensures { result ≡ neighbourhood_of self.now.tables m.0 }
    {
        self.machine(m).neighbourhood
    }

    /// The label of a machine's location, as the file has it.
    #[tactic(auto, unfolding(crate::specs::Numbers::location_of))]
    pub fn location(&self, m: Machine) -> u32
        requires { m.0 < machine_count self.now.tables }
        ensures { result ≡ location_of self.now.tables m.0 }
    {
        self.machine(m).location
    }

    /// The capacity of a machine for a resource.
    #[tactic(auto, unfolding(crate::specs::Numbers::capacity_of))]
    pub fn capacity(&self, m: Machine, r: Resource) -> u32
        requires machine { m.0 < machine_count self.now.tables }
        requires resource { r.0 < resource_count self.now.tables }
        ensures { result ≡ capacity_of self.now.tables m.0 r.0 }
    {
        number_at(&self.tables.raw.capacities, self.resources(), m.0, r.0)
    }

    /// The safety capacity of a machine for a resource: use above it costs.
    #[tactic(auto, unfolding(crate::specs::Numbers::safety_of))]
    pub fn safety(&self, m: Machine, r: Resource) -> u32
        requires machine { m.0 < machine_count self.now.tables }
        requires resource { r.0 < resource_count self.now.tables }
        ensures { result ≡ safety_of self.now.tables m.0 r.0 }
    {
        number_at(&self.tables.raw.safeties, self.resources(), m.0, r.0)
    }

    /// What the way from machine `a` to machine `b` costs, before the weight.
    #[tactic(auto, unfolding(crate::specs::Numbers::way_cost_of))]
    pub fn move_cost(&self, a: Machine, b: Machine) -> u32
        requires from { a.0 < machine_count self.now.tables }
        requires to { b.0 < machine_count self.now.tables }
        ensures { result ≡ way_cost_of self.now.tables a.0 b.0 }
    {
        number_at(&self.tables.raw.move_costs, self.machines(), a.0, b.0)
    }

    /// What the ways from a machine to each machine cost, before the weight, in the order of the machines' numbers.
    #[tactic(auto, using(crate::proofs::InstanceLemmas::ways_count, crate::proofs::InstanceLemmas::ways_each))]
    pub fn ways_from(&self, from: Machine) -> &[u32]
        requires { from.0 < machine_count self.now.tables }
        ensures count { length result.now ≡ machine_count self.now.tables }
        ensures each { (to : ℕ) → to < machine_count self.now.tables →
            slice_index result.now to ≡ way_cost_of self.now.tables from.0 to }
    {
        let count = self.machines() as usize;
        let start = from.0 as usize * count;
        &self.tables.raw.move_costs.as_slice()[start..start + count]
    }

    /// How many different locations a service needs.
    #[tactic(auto, unfolding(crate::specs::Numbers::spread_of))]
    pub fn spread_min(&self, s: Service) -> u32
        requires { s.0 < service_count self.now.tables }
        ensures { result ≡ spread_of self.now.tables s.0 }
    {
        self.service(s).spread_min
    }

    /// The services on which a service depends, in file order.
    #[tactic(auto, using(crate::proofs::InstanceLemmas::needs_count, crate::proofs::InstanceLemmas::needs_each), unfolding(crate::specs::Numbers::dependency_end))]
    pub fn depends(&self, s: Service) -> &[Service]
        requires { s.0 < service_count self.now.tables }
        ensures count { length result.now ≡ dependency_count self.now.tables s.0 }
        ensures each { (k : ℕ) → k < dependency_count self.now.tables s.0 →
            (slice_index_or result.now k (record { 0 = 0 })).0 ≡ need_of self.now.tables s.0 k }
    {
        let start = self.dependency_start(s);
        let end = self.service(s).dependency_end;
        &self.tables.raw.dependencies.as_slice()[start as usize..end as usize]
    }

    /// The service that a process belongs to.
    #[tactic(auto, unfolding(crate::specs::Numbers::service_of))]
    pub fn service_of(&self, p: Process) -> Service
        requires { p.0 < process_count self.now.tables }
        ensures { result.0 ≡ service_of self.now.tables p.0 }
    {
        self.process(p).service
    }

    /// What it costs to move a process off its initial machine, before the weight.
    #[tactic(auto, unfolding(crate::specs::Numbers::process_cost_of))]
    pub fn process_cost(&self, p: Process) -> u32
        requires { p.0 < process_count self.now.tables }
        ensures { result ≡ process_cost_of self.now.tables p.0 }
    {
        self.process(p).move_cost
    }

    /// What a process requires of a resource. Each call counts one step. Requirements are read only by this call,
    /// `requirements_of` and `read_requirements`.
    #[tactic(auto, unfolding(crate::specs::Numbers::requirement_of))]
    pub fn requirement<L: Ledger>(&self, p: Process, r: Resource, steps: &mut Steps<L>) -> u32
        requires process { p.0 < process_count self.now.tables }
        requires resource { r.0 < resource_count self.now.tables }
        ensures value { result ≡ requirement_of self.now.tables p.0 r.0 }
        ensures counted { steps.new ≡ steps.old + 1 }
    {
        steps.tick();
        number_at(&self.tables.raw.requirements, self.resources(), p.0, r.0)
    }

    /// Lends what a process requires, the numbers of all resources in order. Each number counts one step.
    pub fn requirements_of<L: Ledger>(&self, p: Process, steps: &mut Steps<L>) -> &[u32]
        requires { p.0 < process_count self.now.tables }
        ensures width { length result.now ≡ resource_count self.now.tables }
        ensures each { (r : ℕ) → r < resource_count self.now.tables →
            slice_index result.now r ≡ requirement_of self.now.tables p.0 r }
        ensures counted { steps.new ≡ steps.old + resource_count self.now.tables }
    {
        let width = self.resources() as usize;
        for _ in 0..width {
            steps.tick();
        }
        let start = p.0 as usize * width;
        &self.tables.raw.requirements.as_slice()[start..start + width]
    }

    /// Copies what a process requires into a row, the numbers of all resources in order. Each number counts one step.
    pub fn read_requirements<L: Ledger>(&self, p: Process, row: &mut [u32], steps: &mut Steps<L>)
        requires process { p.0 < process_count self.now.tables }
        requires width { length row.old ≡ resource_count self.now.tables }
        ensures each { (r : ℕ) → r < resource_count self.now.tables →
            slice_index row.new r ≡ requirement_of self.now.tables p.0 r }
        ensures width { length row.new ≡ resource_count self.now.tables }
        ensures counted { steps.new ≡ steps.old + resource_count self.now.tables }
    {
        row.copy_from_slice(self.requirements_of(p, steps));
    }

    /// A balance objective.
    #[tactic(auto, using(crate::proofs::InstanceLemmas::balance_read), unfolding(crate::specs::Numbers::balance_count))]
    pub fn balance(&self, b: u32) -> BalanceRow
        requires { b < balance_count self.now.tables }
        ensures { result ≡ balance_row self.now.tables b }
    {
        self.tables.raw.balances.get(b as usize)
    }

    /// The weight of the process cost.
    #[tactic(auto, unfolding(crate::specs::Numbers::process_weight_of))]
    pub fn process_weight(&self) -> u32
        ensures { result ≡ process_weight_of self.now.tables }
    {
        self.tables.raw.process_weight
    }

    /// The weight of the service cost.
    #[tactic(auto, unfolding(crate::specs::Numbers::service_weight_of))]
    pub fn service_weight(&self) -> u32
        ensures { result ≡ service_weight_of self.now.tables }
    {
        self.tables.raw.service_weight
    }

    /// The weight of the machine cost.
    #[tactic(auto, unfolding(crate::specs::Numbers::machine_weight_of))]
    pub fn machine_weight(&self) -> u32
        ensures { result ≡ machine_weight_of self.now.tables }
    {
        self.tables.raw.machine_weight
    }

    /// Whether a machine is closed: no process may move to it.
    #[tactic(auto, unfolding(crate::specs::Numbers::closed_at, crate::specs::Numbers::flag_in))]
    pub fn closed(&self, m: Machine) -> bool
        requires { m.0 < machine_count self.now.tables }
        ensures { result ≡ closed_at self.now.tables m.0 }
    {
        match &self.tables.closed {
            Some(flags) => flags.as_slice().get(m.0 as usize).copied().unwrap_or(false),
            None => false,
        }
    }

    #[tactic(auto, using(crate::proofs::InstanceLemmas::resource_read), unfolding(crate::specs::Numbers::resource_count))]
    fn resource(&self, r: Resource) -> ResourceRow
        requires { r.0 < resource_count self.now.tables }
        ensures { result ≡ resource_row self.now.tables r.0 }
    {
        self.tables.raw.resources.get(r.0 as usize)
    }

    #[tactic(auto, using(crate::proofs::InstanceLemmas::machine_read), unfolding(crate::specs::Numbers::machine_count))]
    fn machine(&self, m: Machine) -> MachineRow
        requires { m.0 < machine_count self.now.tables }
        ensures { result ≡ machine_row self.now.tables m.0 }
    {
        self.tables.raw.machines.get(m.0 as usize)
    }

    #[tactic(auto, using(crate::proofs::InstanceLemmas::service_read), unfolding(crate::specs::Numbers::service_count))]
    fn service(&self, s: Service) -> ServiceRow
        requires { s.0 < service_count self.now.tables }
        ensures { result ≡ service_row self.now.tables s.0 }
    {
        self.tables.raw.services.get(s.0 as usize)
    }

    #[tactic(auto, using(crate::proofs::InstanceLemmas::process_read), unfolding(crate::specs::Numbers::process_count))]
    fn process(&self, p: Process) -> ProcessRow
        requires { p.0 < process_count self.now.tables }
        ensures { result ≡ process_row self.now.tables p.0 }
    {
        self.tables.raw.processes.get(p.0 as usize)
    }

    #[tactic(auto, using(crate::proofs::InstanceLemmas::start_first, crate::proofs::InstanceLemmas::start_next), unfolding(crate::specs::Numbers::dependency_end))]
    fn dependency_start(&self, s: Service) -> u32
        requires { s.0 < service_count self.now.tables }
        ensures value { result ≡ dependency_start self.now.tables s.0 }
        ensures ordered { dependency_start self.now.tables s.0
            ≤ dependency_end self.now.tables s.0 }
        ensures within { dependency_end self.now.tables s.0
            ≤ length self.now.tables.raw.dependencies.items }
    {
        if s.0 == 0 {
            0
        } else {
            self.service(Service(s.0 - 1)).dependency_end
        }
    }

    /// A copy of the instance.
    pub fn copied(&self, alloc: Global) -> Result<Instance, NoMemory>
        ensures { IfOk result (λ copy. copy.tables ≡ self.now.tables) }
    {
        let tables = self.tables.copied(alloc)?;
        Ok(Instance { tables })
    }
}
