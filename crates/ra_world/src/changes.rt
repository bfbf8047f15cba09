ghost use Rattle.std.specs.Prelude.{◌≡◌, ℕ, ◌+◌, ◌*◌, ◌^◌, ◌<◌, ◌≤◌, List, length};
ghost use Rattle.ra_base.specs.declared.ids.Machine.{Machine};
ghost use Rattle.ra_model.specs.Numbers.{machine_count, process_count, process_weight_of, machine_weight_of};
ghost use Rattle.ra_model.specs.Assignments.{IsAssignment, machine_at};
ghost use Rattle.ra_model.specs.Costs.{process_share, way_share, service_cost};
ghost use Rattle.ra_cells.specs.Stands.{StandFor};

use ra_base::{Assignment, Machine, Process};
use ra_cells::Cells;
use ra_model::Instance;
use ra_moves::Step;

/// The process cost after a step.
#[tactic(auto, using(crate::proofs::CostLaws::product_small))]
pub(crate) fn process_after(inst: &Instance, start: &Assignment, step: Step, before: u128) -> u128
    requires process { step.process.0 < process_count inst.now.tables }
    requires start { IsAssignment inst.now.tables start.now.items }
    requires fits { before < 2 ^ 120 }
    requires counted { process_weight_of inst.now.tables *
        process_share inst.now.tables start.now.items step.process.0 step.from.0 ≤ before }
    ensures { result + process_weight_of inst.now.tables *
        process_share inst.now.tables start.now.items step.process.0 step.from.0
        ≡ before + process_weight_of inst.now.tables *
        process_share inst.now.tables start.now.items step.process.0 step.to.0 }
{
    let weight = u128::from(inst.process_weight());
    let left = weight * u128::from(process_share(inst, start, step.process, step.from));
    let entered = weight * u128::from(process_share(inst, start, step.process, step.to));
    before - left + entered
}

/// The machine cost after a step.
#[tactic(auto, using(crate::proofs::CostLaws::product_small))]
pub(crate) fn machine_after(inst: &Instance, start: &Assignment, step: Step, before: u128) -> u128
    requires process { step.process.0 < process_count inst.now.tables }
    requires from { step.from.0 < machine_count inst.now.tables }
    requires to { step.to.0 < machine_count inst.now.tables }
    requires start { IsAssignment inst.now.tables start.now.items }
    requires fits { before < 2 ^ 120 }
    requires counted { machine_weight_of inst.now.tables *
        way_share inst.now.tables start.now.items step.process.0 step.from.0 ≤ before }
    ensures { result + machine_weight_of inst.now.tables *
        way_share inst.now.tables start.now.items step.process.0 step.from.0
        ≡ before + machine_weight_of inst.now.tables *
        way_share inst.now.tables start.now.items step.process.0 step.to.0 }
{
    let weight = u128::from(inst.machine_weight());
    let left = weight * u128::from(way_share(inst, start, step.process, step.from));
    let entered = weight * u128::from(way_share(inst, start, step.process, step.to));
    before - left + entered
}

/// What a process costs on a machine other than its initial one.
#[tactic(auto, unfolding(ra_model::specs::Costs::process_share))]
pub fn process_share(inst: &Instance, start: &Assignment, p: Process, at: Machine) -> u32
    requires process { p.0 < process_count inst.now.tables }
    requires start { IsAssignment inst.now.tables start.now.items }
    ensures { result ≡ process_share inst.now.tables start.now.items p.0 at.0 }
{
    let home = home_of(start, p);
    if at.0 == home.0 {
        0
    } else {
        inst.process_cost(p)
    }
}

/// What the way of a process from its initial machine costs.
#[tactic(auto, unfolding(ra_model::specs::Costs::way_share))]
pub fn way_share(inst: &Instance, start: &Assignment, p: Process, at: Machine) -> u32
    requires process { p.0 < process_count inst.now.tables }
    requires machine { at.0 < machine_count inst.now.tables }
    requires start { IsAssignment inst.now.tables start.now.items }
    ensures { result ≡ way_share inst.now.tables start.now.items p.0 at.0 }
{
    inst.move_cost(home_of(start, p), at)
}

/// The initial machine of a process.
#[tactic(auto, using(ra_model::proofs::TallyLemmas::machine_at_read))]
fn home_of(start: &Assignment, p: Process) -> Machine
    requires { p.0 < length start.now.items }
    ensures { result.0 ≡ machine_at start.now.items p.0 }
{
    let _there = start.len();
    start.get(p.0 as usize)
}

/// The service cost of the assignment that the counters represent.
#[tactic(auto, using(crate::proofs::CostLaws::product_small))]
pub(crate) fn service_cost(inst: &Instance, cells: &Cells<'_>) -> u128
    ensures { (a0 a : List Machine) → StandFor cells.now inst.now.tables a0 a →
        result ≡ service_cost inst.now.tables a0 a }
{
    let most = cells.greatest().greatest();
    u128::from(inst.service_weight()) * u128::from(most)
}
