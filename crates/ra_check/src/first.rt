ghost use Rattle.std.specs.Prelude.{◌≡◌, ◌↔◌, None, IfSome};
ghost use Rattle.ra_model.specs.Assignments.{IsAssignment};
ghost use Rattle.ra_model.specs.Broken.{first_broken};
ghost use Rattle.ra_model.specs.Causes.{IsConstraint};
ghost use Rattle.ra_model.specs.Feasible.{Feasible};
ghost use Rattle.ra_check.specs.Made.{IsMadeFor};

use crate::capacity::broken_capacity;
use crate::closed::broken_closed;
use crate::conflict::broken_conflict;
use crate::dependency::broken_dependency;
use crate::scratch::Scratch;
use crate::spread::broken_spread;
use crate::transient::broken_transient;
use ra_base::{Assignment, Cause};
use ra_model::Instance;

/// The first constraint that an assignment breaks, with the numbers of its cause: capacity by machine, then resource;
/// transient use by machine, then resource; conflict by service, then machine; spread by service; dependency by
/// service, its dependency in file order, then process; closed by process. There is none exactly if the assignment is
/// feasible. It takes linear time, and no memory.
pub fn first_broken(
    inst: &Instance,
    a0: &Assignment,
    a: &Assignment,
    scratch: &mut Scratch,
) -> Option<Cause>
    requires a0_fits { IsAssignment inst.now.tables a0.now.items }
    requires fits { IsAssignment inst.now.tables a.now.items }
    requires made { IsMadeFor scratch.old inst.now.tables }
    ensures first { result ≡ first_broken inst.now.tables a0.now.items a.now.items }
    ensures feasible { (result ≡ None) ↔ Feasible inst.now.tables a0.now.items a.now.items }
    ensures constraint { IfSome result IsConstraint }
    ensures kept { IsMadeFor scratch.new inst.now.tables }
{
    search_all(inst, a0, a, scratch)
}

/// Searches for each constraint in turn, in the order of the constraints.
#[tactic(auto, using(ra_base::proofs::Searches::choices), unfolding(ra_model::specs::Broken::first_broken))]
fn search_all(
    inst: &Instance,
    a0: &Assignment,
    a: &Assignment,
    scratch: &mut Scratch,
) -> Option<Cause>
    requires a0_fits { IsAssignment inst.now.tables a0.now.items }
    requires fits { IsAssignment inst.now.tables a.now.items }
    requires made { IsMadeFor scratch.old inst.now.tables }
    ensures first { result ≡ first_broken inst.now.tables a0.now.items a.now.items }
    ensures kept { IsMadeFor scratch.new inst.now.tables }
{
    if let Some(cause) = broken_capacity(inst, a, scratch) {
        return Some(cause);
    }
    if let Some(cause) = broken_transient(inst, a0, a, scratch) {
        return Some(cause);
    }
    if let Some(cause) = broken_conflict(inst, a, &mut scratch.services) {
        return Some(cause);
    }
    if let Some(cause) = broken_spread(inst, a, &mut scratch.services) {
        return Some(cause);
    }
    if let Some(cause) = broken_dependency(inst, a, &mut scratch.services) {
        return Some(cause);
    }
    broken_closed(inst, a0, a)
}
