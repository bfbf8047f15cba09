ghost use Rattle.std.specs.Prelude.{◌≡◌, ◌^◌, ◌<◌, ◌≤◌, length, slice_index};
ghost use Rattle.ra_base.specs.Sums.{greatest};
ghost use Rattle.ra_model.specs.Numbers.{service_count, process_count};
ghost use Rattle.ra_model.specs.Assignments.{IsAssignment};
ghost use Rattle.ra_model.specs.Costs.{service_cost};
ghost use Rattle.ra_check.specs.Stands.{HasMoved, AddsMoved, AreBelow};

use crate::scratch::fill;
use ra_base::{Assignment, Fixed, Process};
use ra_model::{Instance, machine_of};

/// The service cost: the greatest number of moved processes of one service, times its weight.
pub(crate) fn service_cost(
    inst: &Instance,
    a0: &Assignment,
    a: &Assignment,
    counts: &mut Fixed<u32>,
) -> u128
    requires a0_fits { IsAssignment inst.now.tables a0.now.items }
    requires fits { IsAssignment inst.now.tables a.now.items }
    requires slots { length counts.old.items ≡ service_count inst.now.tables }
    ensures value { result ≡ service_cost inst.now.tables a0.now.items a.now.items }
    ensures slots { length counts.new.items ≡ service_count inst.now.tables }
    ensures bound { result ≤ 2 ^ 110 }
{
    count_moved(inst, a0, a, counts);
    let most = most(counts);
    u128::from(inst.service_weight()) * u128::from(most)
}

/// The greatest of some counts, and 0 if there is none.
#[tactic(auto, using(ra_base::proofs::Greatest::greatests))]
fn most(counts: &Fixed<u32>) -> u32
    ensures { result ≡ greatest (length counts.now.items) (slice_index counts.now.items) }
{
    let mut most: u32 = 0;
    for s in 0..counts.len() {
        most = most.max(counts.get(s));
    }
    most
}

/// Overwrites a list with the number of moved processes of each service.
fn count_moved(inst: &Instance, a0: &Assignment, a: &Assignment, counts: &mut Fixed<u32>)
    requires a0_fits { IsAssignment inst.now.tables a0.now.items }
    requires fits { IsAssignment inst.now.tables a.now.items }
    requires slots { length counts.old.items ≡ service_count inst.now.tables }
    ensures counted { HasMoved inst.now.tables a0.now.items a.now.items
        (process_count inst.now.tables) counts.new.items }
    ensures slots { length counts.new.items ≡ service_count inst.now.tables }
{
    let services = counts.len();
    fill(counts, services, 0);
    for p in 0..inst.processes() {
        count_process(inst, a0, a, Process(p), counts);
    }
}

/// Counts a process for its service, if it isn't on its initial machine.
fn count_process(
    inst: &Instance,
    a0: &Assignment,
    a: &Assignment,
    p: Process,
    counts: &mut Fixed<u32>,
)
    requires process { p.0 < process_count inst.now.tables }
    requires a0_fits { IsAssignment inst.now.tables a0.now.items }
    requires fits { IsAssignment inst.now.tables a.now.items }
    requires slots { length counts.old.items ≡ service_count inst.now.tables }
    requires below { AreBelow 50000 counts.old.items }
    ensures counted { AddsMoved inst.now.tables a0.now.items a.now.items p.0 counts.old.items
        counts.new.items }
    ensures slots { length counts.new.items ≡ length counts.old.items }
{
    if machine_of(a0, p) != machine_of(a, p) {
        let place = inst.service_of(p).0 as usize;
        let count = counts.get(place) + 1;
        counts.set(place, count);
    }
}
