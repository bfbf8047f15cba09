ghost use Rattle.std.specs.Prelude.{◌≡◌, ◌+◌, ◌<◌};
ghost use Rattle.ra_model.specs.Numbers.{resource_count, machine_count, process_count, requirement_of, safety_of, capacity_of};
ghost use Rattle.ra_bounds.specs.Totals.{AreTotals, AreRequirementSums, AreSafeties, AreCapacities};

use ra_base::{Machine, Process, Resource, Steps};
use ra_model::Instance;
use std::sync::ledger::{Blank, Ledger};

/// No instance has more resources.
pub(crate) const MOST_RESOURCES: usize = 20;

/// What all processes together require of each resource.
pub(crate) fn required_sums<L: Ledger>(inst: &Instance, blank: Blank) -> [u64; MOST_RESOURCES]
    requires name { blank.name ≡ L.name }
    requires parts { blank.parts ≡ L.parts }
    requires some { 0 < blank.parts }
    ensures { AreRequirementSums inst.now.tables result }
{
    let mut steps = Steps::<L>::make(blank);
    let mut sums = [0; MOST_RESOURCES];
    for p in 0..inst.processes() {
        add_requirements(inst, Process(p), &mut sums, &mut steps);
    }
    sums
}

/// The safety capacity of all machines together, for each resource.
pub(crate) fn safety_sums(inst: &Instance) -> [u64; MOST_RESOURCES]
    ensures { AreSafeties inst.now.tables result }
{
    let mut sums = [0; MOST_RESOURCES];
    for m in 0..inst.machines() {
        add_safeties(inst, Machine(m), &mut sums);
    }
    sums
}

/// The capacity of all machines together, for each resource.
pub(crate) fn capacity_sums(inst: &Instance) -> [u64; MOST_RESOURCES]
    ensures { AreCapacities inst.now.tables result }
{
    let mut sums = [0; MOST_RESOURCES];
    for m in 0..inst.machines() {
        add_capacities(inst, Machine(m), &mut sums);
    }
    sums
}

/// Adds the requirements of a process.
fn add_requirements<L: Ledger>(
    inst: &Instance,
    p: Process,
    sums: &mut [u64; MOST_RESOURCES],
    steps: &mut Steps<L>,
)
    requires process { p.0 < process_count inst.now.tables }
    requires before { AreTotals (resource_count inst.now.tables) p.0
        (requirement_of inst.now.tables) sums.old }
    ensures { AreTotals (resource_count inst.now.tables) (p.0 + 1)
        (requirement_of inst.now.tables) sums.new }
{
    for r in 0..inst.resources() {
        let amount = inst.requirement(p, Resource(r), steps);
        sums[r as usize] += u64::from(amount);
    }
}

/// Adds the safety capacities of a machine.
fn add_safeties(inst: &Instance, m: Machine, sums: &mut [u64; MOST_RESOURCES])
    requires machine { m.0 < machine_count inst.now.tables }
    requires before { AreTotals (resource_count inst.now.tables) m.0
        (safety_of inst.now.tables) sums.old }
    ensures { AreTotals (resource_count inst.now.tables) (m.0 + 1)
        (safety_of inst.now.tables) sums.new }
{
    for r in 0..inst.resources() {
        sums[r as usize] += u64::from(inst.safety(m, Resource(r)));
    }
}

/// Adds the capacities of a machine.
fn add_capacities(inst: &Instance, m: Machine, sums: &mut [u64; MOST_RESOURCES])
    requires machine { m.0 < machine_count inst.now.tables }
    requires before { AreTotals (resource_count inst.now.tables) m.0
        (capacity_of inst.now.tables) sums.old }
    ensures { AreTotals (resource_count inst.now.tables) (m.0 + 1)
        (capacity_of inst.now.tables) sums.new }
{
    for r in 0..inst.resources() {
        sums[r as usize] += u64::from(inst.capacity(m, Resource(r)));
    }
}
