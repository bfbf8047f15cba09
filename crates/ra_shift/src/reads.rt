ghost use Rattle.std.specs.Prelude.{◌≡◌, ◌≢◌, ◌+◌, ◌<◌, ◌≤◌, true, false};
ghost use Rattle.ra_model.specs.Numbers.{process_count, service_count, service_of, location_of, neighbourhood_of};
ghost use Rattle.ra_model.specs.Assignments.{machine_at};
ghost use Rattle.ra_model.specs.Services.{in_neighbourhood};
ghost use Rattle.ra_cells.specs.Marks.{away};
ghost use Rattle.ra_shift.specs.Conditions.{MayLeave};
ghost use Rattle.ra_shift.specs.Sharing.{locations_without};

use ra_base::{Machine, Process, Service, one_when};
use ra_world::World;

/// In how many locations there is another process of the service of a process.
pub(crate) fn spread_without(world: &World<'_>, p: Process, s: Service, location: u32) -> u32
    requires process { p.0 < process_count world.now.tables }
    requires service { s.0 ≡ service_of world.now.tables p.0 }
    requires location { location ≡ location_of world.now.tables (machine_at world.now.here p.0) }
    ensures value { result ≡ locations_without world.now.tables world.now.here p.0 }
    ensures few { result ≤ 50000 }
{
    let cells = world.cells();
    let all = cells.locations(s);
    if cells.in_location(s, location) == 1 {
        all - 1
    } else {
        all
    }
}

/// Whether a process may leave its neighbourhood: it isn't the last of its service there, or no other service there
/// depends on it.
pub(crate) fn may_leave(world: &World<'_>, p: Process, s: Service, neighbourhood: u32) -> bool
    requires process { p.0 < process_count world.now.tables }
    requires service { s.0 ≡ service_of world.now.tables p.0 }
    requires neighbourhood { neighbourhood ≡
        neighbourhood_of world.now.tables (machine_at world.now.here p.0) }
    ensures may { result ≡ true → MayLeave world.now.tables world.now.here p.0 }
    ensures may_not { result ≡ false → MayLeave world.now.tables world.now.here p.0 → ⊥ }
{
    if world.cells().in_neighbourhood(s, neighbourhood) > 1 {
        return true;
    }
    let dependants = world.topology().dependants(s);
    for d in dependants {
        if is_other_there(world, *d, s, neighbourhood) {
            return false;
        }
    }
    true
}

/// Whether a service is a different one and has a process in a neighbourhood.
fn is_other_there(world: &World<'_>, d: Service, s: Service, neighbourhood: u32) -> bool
    requires { d.0 < service_count world.now.tables }
    ensures other { result ≡ true → d.0 ≢ s.0 }
    ensures there { result ≡ true →
        0 < in_neighbourhood world.now.tables world.now.here d.0 neighbourhood }
    ensures none { result ≡ false → d.0 ≢ s.0 →
        in_neighbourhood world.now.tables world.now.here d.0 neighbourhood ≡ 0 }
{
    if d.0 == s.0 {
        return false;
    }
    world.cells().in_neighbourhood(d, neighbourhood) > 0
}

/// 1 for a process that isn't on its initial machine.
#[tactic(auto, unfolding(ra_cells::specs::Marks::away))]
#[inline(always)]
pub(crate) fn is_away(home: Machine, at: Machine) -> u32
    ensures value { result ≡ away home.0 at.0 }
    ensures few { result ≤ 1 }
{
    one_when(home.0 != at.0)
}
