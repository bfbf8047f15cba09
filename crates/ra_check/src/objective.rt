ghost use Rattle.std.specs.Prelude.{◌≡◌};
ghost use Rattle.ra_model.specs.Assignments.{IsAssignment};
ghost use Rattle.ra_model.specs.Costs.{parts_of};
ghost use Rattle.ra_check.specs.Made.{IsMadeFor};

use crate::balance::balance_cost;
use crate::load::load_cost;
use crate::moved::service_cost;
use crate::scratch::Scratch;
use crate::usage::sum_usage;
use crate::ways::{machine_cost, process_cost};
use ra_base::{Assignment, Parts};
use ra_model::Instance;
use std::marker::Brand;
use std::sync::ledger::Blank;

/// The five parts of the cost of an assignment, each multiplied by its weight, and their sum. The challenge defines the
/// cost of feasible assignments only.
#[tactic(auto, unfolding(ra_model::specs::Costs::parts_of, ra_model::specs::Costs::objective))]
pub fn parts(inst: &Instance, a0: &Assignment, a: &Assignment, scratch: &mut Scratch) -> Parts
    requires a0_fits { IsAssignment inst.now.tables a0.now.items }
    requires fits { IsAssignment inst.now.tables a.now.items }
    requires made { IsMadeFor scratch.old inst.now.tables }
    ensures value { result ≡ parts_of inst.now.tables a0.now.items a.now.items }
    ensures kept { IsMadeFor scratch.new inst.now.tables }
{
    sum_usage::<Brand>(inst, a, &mut scratch.used, Blank::new(1));
    let load = load_cost(inst, &scratch.used);
    let balance = balance_cost(inst, &scratch.used);
    let process = process_cost(inst, a0, a);
    let service = service_cost(inst, a0, a, &mut scratch.moved);
    let machine = machine_cost(inst, a0, a);
    Parts {
        load,
        balance,
        process,
        service,
        machine,
        total: load + balance + process + service + machine,
    }
}
