ghost use Rattle.std.specs.Prelude.{◌≡◌, ◌≤◌, List};
ghost use Rattle.ra_base.specs.declared.ids.Machine.{Machine};
ghost use Rattle.ra_model.specs.Assignments.{IsAssignment};
ghost use Rattle.ra_model.specs.Feasible.{Feasible};
ghost use Rattle.ra_model.specs.Costs.{objective};
ghost use Rattle.ra_bounds.specs.Bounds.{bound_of};

use crate::balance::balance_bound;
use crate::costs::Bound;
use crate::load::load_bound;
use crate::sums::{capacity_sums, required_sums, safety_sums};
use ra_model::Instance;
use std::marker::Brand;
use std::sync::ledger::Blank;

/// The lower bound of an instance: the load and balance costs as if all machines were one. No feasible assignment costs
/// less. It reads each table once, and takes no memory.
#[tactic(auto, unfolding(crate::specs::Bounds::bound_of))]
pub fn bound(inst: &Instance) -> Bound
    ensures value { result ≡ bound_of inst.now.tables }
    ensures below { (a0 a : List Machine) → IsAssignment inst.now.tables a →
        Feasible inst.now.tables a0 a → result.total ≤ objective inst.now.tables a0 a }
{
    let required = required_sums::<Brand>(inst, Blank::new(1));
    let safety = safety_sums(inst);
    let capacity = capacity_sums(inst);
    let load = load_bound(inst, &required, &safety);
    let balance = balance_bound(inst, &required, &capacity);
    Bound {
        load,
        balance,
        total: load + balance,
    }
}
