ghost use Rattle.std.specs.Prelude.{◌≡◌, ℕ, ◌*◌, ◌<◌, ◌≤◌, true, length};
ghost use Rattle.std.specs.Bool.{Decides};
ghost use Rattle.ra_model.specs.Limits.{WellFormed, most_resources, most_machines, most_services, most_processes, most_balances, most_dependencies};
ghost use Rattle.ra_model.specs.Numbers.{all_open, resource_count, machine_count, service_count, process_count, balance_count, dependency_start, dependency_end, need_at, service_of, first_of, second_of};
ghost use Rattle.ra_model.specs.Assignments.{IsAssignment};

use crate::assigned::machine_of;
use crate::numbers::Instance;
use crate::raw::RawInstance;
use ra_base::{Assignment, Process};

impl RawInstance {
    /// Whether these lists are an instance, as `Instance::of` needs: the counts are within the limits, each table has
    /// the length that the counts ask for, and each service, machine and resource that is named exists.
    pub fn is_instance(&self) -> bool
        ensures { Decides result (WellFormed (all_open self.now)) }
    {
        counts_fit(self)
            && tables_fit(self)
            && dependencies_fit(self)
            && needs_exist(self)
            && services_exist(self)
            && resources_exist(self)
    }
}

impl Instance {
    /// Whether an assignment gives each process one machine of the instance.
    pub fn is_assignment(&self, a: &Assignment) -> bool
        ensures { Decides result (IsAssignment self.now.tables a.now.items) }
    {
        if a.len() != self.processes() as usize {
            return false;
        }
        for p in 0..self.processes() {
            if machine_of(a, Process(p)).0 >= self.machines() {
                return false;
            }
        }
        true
    }
}

fn is_within(count: usize, least: usize, most: usize) -> bool
    ensures within { result ≡ true → (least ≤ count) × (count ≤ most) }
    ensures only { least ≤ count → count ≤ most → result ≡ true }
{
    least <= count && count <= most
}

/// Whether the counts are within the limits.
#[tactic(auto, unfolding(crate::specs::Numbers::resource_count, crate::specs::Numbers::machine_count, crate::specs::Numbers::service_count, crate::specs::Numbers::process_count, crate::specs::Numbers::balance_count))]
fn counts_fit(raw: &RawInstance) -> bool
    ensures resources { result ≡ true → (1 ≤ resource_count (all_open raw.now)) ×
        (resource_count (all_open raw.now) ≤ most_resources) }
    ensures machines { result ≡ true → (1 ≤ machine_count (all_open raw.now)) ×
        (machine_count (all_open raw.now) ≤ most_machines) }
    ensures services { result ≡ true → (1 ≤ service_count (all_open raw.now)) ×
        (service_count (all_open raw.now) ≤ most_services) }
    ensures processes { result ≡ true → (1 ≤ process_count (all_open raw.now)) ×
        (process_count (all_open raw.now) ≤ most_processes) }
    ensures balances { result ≡ true → balance_count (all_open raw.now) ≤ most_balances }
    ensures dependencies { result ≡ true → length raw.now.dependencies.items ≤ most_dependencies }
    ensures only { WellFormed (all_open raw.now) → result ≡ true }
{
    is_within(raw.resources.len(), 1, 20)
        && is_within(raw.machines.len(), 1, 5000)
        && is_within(raw.services.len(), 1, 50000)
        && is_within(raw.processes.len(), 1, 50000)
        && is_within(raw.balances.len(), 0, 10)
        && is_within(raw.dependencies.len(), 0, 100000)
}

/// Whether the tables have the lengths that the counts ask for.
#[tactic(auto, unfolding(crate::specs::Numbers::resource_count, crate::specs::Numbers::machine_count, crate::specs::Numbers::process_count))]
fn tables_fit(raw: &RawInstance) -> bool
    requires resources { resource_count (all_open raw.now) ≤ most_resources }
    requires machines { machine_count (all_open raw.now) ≤ most_machines }
    requires processes { process_count (all_open raw.now) ≤ most_processes }
    ensures capacities { result ≡ true → length raw.now.capacities.items ≡
        machine_count (all_open raw.now) * resource_count (all_open raw.now) }
    ensures safeties { result ≡ true → length raw.now.safeties.items ≡
        machine_count (all_open raw.now) * resource_count (all_open raw.now) }
    ensures ways { result ≡ true → length raw.now.move_costs.items ≡
        machine_count (all_open raw.now) * machine_count (all_open raw.now) }
    ensures requirements { result ≡ true → length raw.now.requirements.items ≡
        process_count (all_open raw.now) * resource_count (all_open raw.now) }
    ensures only { WellFormed (all_open raw.now) → result ≡ true }
{
    let resources = raw.resources.len();
    let machines = raw.machines.len();
    raw.capacities.len() == machines * resources
        && raw.safeties.len() == machines * resources
        && raw.move_costs.len() == machines * machines
        && raw.requirements.len() == raw.processes.len() * resources
}

/// Whether the dependencies are divided among the services, one service after another.
fn dependencies_fit(raw: &RawInstance) -> bool
    ensures ordered { result ≡ true → (s : ℕ) → s < service_count (all_open raw.now) →
        dependency_start (all_open raw.now) s ≤ dependency_end (all_open raw.now) s }
    ensures within { result ≡ true → (s : ℕ) → s < service_count (all_open raw.now) →
        dependency_end (all_open raw.now) s ≤ length raw.now.dependencies.items }
    ensures all { result ≡ true → dependency_start (all_open raw.now)
        (service_count (all_open raw.now)) ≡ length raw.now.dependencies.items }
    ensures only { WellFormed (all_open raw.now) → result ≡ true }
{
    let count = raw.dependencies.len();
    let mut start: u32 = 0;
    for s in 0..raw.services.len() {
        let end = raw.services.get(s).dependency_end;
        if end < start || end as usize > count {
            return false;
        }
        start = end;
    }
    start as usize == count
}

/// Whether each service that another needs exists.
fn needs_exist(raw: &RawInstance) -> bool
    ensures needs { result ≡ true → (place : ℕ) → place < length raw.now.dependencies.items →
        need_at (all_open raw.now) place < service_count (all_open raw.now) }
    ensures only { WellFormed (all_open raw.now) → result ≡ true }
{
    for place in 0..raw.dependencies.len() {
        if raw.dependencies.get(place).0 as usize >= raw.services.len() {
            return false;
        }
    }
    true
}

/// Whether the service of each process exists.
fn services_exist(raw: &RawInstance) -> bool
    ensures services { result ≡ true → (p : ℕ) → p < process_count (all_open raw.now) →
        service_of (all_open raw.now) p < service_count (all_open raw.now) }
    ensures only { WellFormed (all_open raw.now) → result ≡ true }
{
    for p in 0..raw.processes.len() {
        if raw.processes.get(p).service.0 as usize >= raw.services.len() {
            return false;
        }
    }
    true
}

/// Whether the resources of each balance objective exist.
fn resources_exist(raw: &RawInstance) -> bool
    ensures firsts { result ≡ true → (b : ℕ) → b < balance_count (all_open raw.now) →
        first_of (all_open raw.now) b < resource_count (all_open raw.now) }
    ensures seconds { result ≡ true → (b : ℕ) → b < balance_count (all_open raw.now) →
        second_of (all_open raw.now) b < resource_count (all_open raw.now) }
    ensures only { WellFormed (all_open raw.now) → result ≡ true }
{
    for b in 0..raw.balances.len() {
        let row = raw.balances.get(b);
        if row.first.0 as usize >= raw.resources.len()
            || row.second.0 as usize >= raw.resources.len()
        {
            return false;
        }
    }
    true
}
