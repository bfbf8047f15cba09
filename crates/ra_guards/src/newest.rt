ghost use Rattle.std.specs.Prelude.{◌≡◌, ℕ, ◌+◌, ◌<◌, ◌≤◌, length, All};
ghost use Rattle.ra_model.specs.Numbers.{machine_count, service_count};
ghost use Rattle.ra_topology.specs.Fits.{IsTopologyOf};
ghost use Rattle.ra_guards.specs.Guards.{AreWithin, is_guard};
ghost use Rattle.ra_guards.specs.Kept.{version_in, HasGuard, IsTableOf};
ghost use Rattle.ra_guards.specs.Order.{guard_of};
ghost use Rattle.ra_guards.specs.Newest.{first_newer, first_newer_read, reads_only, newer_of};
ghost use Rattle.ra_guards.specs.Lowest.{IsFirstNumber};

use crate::lowest::{least_guard, least_read};
use crate::versions::Versions;
use crate::written::guard_of;
use ra_base::Guard;
use ra_model::Instance;
use ra_moves::Move;
use ra_topology::Topology;

/// A guard that an entry from some place on has touched.
#[derive(Clone, Copy, Debug, PartialEq, Eq)]
pub struct Newer {
    /// The guard.
    pub guard: Guard,
    /// The place of the last entry that touched the guard: one less than its version.
    pub at: u64,
}

/// The first of a move's guards, in guard order, that has a version above q. The answer is immediate if no guard at all
/// has one. Otherwise it takes time in proportion to the move's guards and to the needs and dependants of its services.
#[tactic(auto, using(crate::proofs::LowestLemmas::first_is, crate::proofs::LowestLemmas::first_none))]
pub fn first_newer(
    topo: &Topology,
    inst: &Instance,
    mv: &Move,
    versions: &Versions,
    q: u64,
) -> Option<Newer>
    requires topology { IsTopologyOf topo.now inst.now.tables }
    requires within { AreWithin inst.now.tables mv.now.steps }
    requires sized { IsTableOf inst.now.tables versions.now }
    ensures { result ≡ first_newer inst.now.tables mv.now.steps (version_in versions.now) q }
{
    if versions.is_at_most(q) {
        return None;
    }
    newer_of(inst, versions, least_guard(topo, inst, mv, versions, q))
}

/// The first of a move's guards that aren't write guards, in guard order, that has a version above q. It takes the time
/// of `first_newer`.
#[tactic(auto, using(crate::proofs::LowestLemmas::first_read_is, crate::proofs::LowestLemmas::first_read_none))]
pub fn first_newer_read(
    topo: &Topology,
    inst: &Instance,
    mv: &Move,
    versions: &Versions,
    q: u64,
) -> Option<Newer>
    requires topology { IsTopologyOf topo.now inst.now.tables }
    requires within { AreWithin inst.now.tables mv.now.steps }
    requires sized { IsTableOf inst.now.tables versions.now }
    ensures { result ≡ first_newer_read inst.now.tables mv.now.steps (version_in versions.now) q }
{
    if versions.is_at_most(q) {
        return None;
    }
    newer_of(inst, versions, least_read(topo, inst, mv, versions, q))
}

/// The guard of a number, with the place before its version; none past the guards of the instance.
#[tactic(auto, using(crate::proofs::OrderLemmas::has_guard), unfolding(crate::specs::Newest::newer_of))]
fn newer_of(inst: &Instance, versions: &Versions, number: u32) -> Option<Newer>
    requires sized { IsTableOf inst.now.tables versions.now }
    requires few { number ≤ machine_count inst.now.tables + service_count inst.now.tables }
    requires newer { number < machine_count inst.now.tables + service_count inst.now.tables
        → 0 < version_in versions.now (guard_of (machine_count inst.now.tables) number) }
    ensures { result ≡ newer_of inst.now.tables (version_in versions.now) number }
{
    if number < inst.machines() + inst.services() {
        let guard = guard_of(inst.machines(), number);
        Some(Newer {
            guard,
            at: versions.of(guard) - 1,
        })
    } else {
        None
    }
}
