ghost use Rattle.std.specs.Prelude.{◌≡◌, ◌+◌, ◌<◌, length};
ghost use Rattle.ra_base.specs.Sums.{is_named};
ghost use Rattle.ra_model.specs.Numbers.{service_count};
ghost use Rattle.ra_model.specs.Situations.{moved_at};
ghost use Rattle.ra_cells.specs.Marks.{away};
ghost use Rattle.ra_moves.specs.Replacing.{after_steps};
ghost use Rattle.ra_moves.specs.Touched.{service_in};
ghost use Rattle.ra_moves.specs.Weighing.{moved_count, services_moved};
ghost use Rattle.ra_moves.specs.Moving.{MayMove};
ghost use Rattle.ra_weigh.specs.CountLists.{AreCountsOf};

use ra_base::{Machine, MovedCount, Service};
use ra_moves::Move;
use ra_world::World;

/// The moved counts of the different services of a move, in the order of its steps, and nothing after them.
#[inline(always)]
pub(crate) fn counts_of(world: &World<'_>, mv: &Move) -> [Option<MovedCount>; 3]
    requires { MayMove world.now mv.now.steps }
    ensures { AreCountsOf world.now mv.now.steps (length mv.now.steps) result }
{
    let mut counts = [None; 3];
    let mut filled: usize = 0;
    for j in 0..mv.steps() {
        filled = put_count(world, mv, j, filled, &mut counts);
    }
    counts
}

/// Adds the moved counts of a step's service after those of the steps before it, unless one of these steps moves the
/// service too. Gives how many there are then.
#[inline(always)]
fn put_count(
    world: &World<'_>,
    mv: &Move,
    j: u32,
    filled: usize,
    counts: &mut [Option<MovedCount>; 3],
) -> usize
    requires moves { MayMove world.now mv.now.steps }
    requires step { j < length mv.now.steps }
    requires filled { filled ≡ length (services_moved world.now.tables mv.now.steps j) }
    requires counts { AreCountsOf world.now mv.now.steps j counts.old }
    ensures filled { result ≡ length (services_moved world.now.tables mv.now.steps (j + 1)) }
    ensures counts { AreCountsOf world.now mv.now.steps (j + 1) counts.new }
{
    let s = service_in(world, mv, j);
    if is_named_before(world, mv, j, s) {
        return filled;
    }
    counts[filled] = Some(count_of(world, mv, s));
    filled + 1
}

/// The service of the process of a step.
#[inline(always)]
#[tactic(auto, using(crate::proofs::MoveLemmas::process_known, crate::proofs::MoveLemmas::service_read, crate::proofs::MoveLemmas::service_known))]
fn service_in(world: &World<'_>, mv: &Move, j: u32) -> Service
    requires moves { MayMove world.now mv.now.steps }
    requires step { j < length mv.now.steps }
    ensures value { result.0 ≡ service_in world.now.tables mv.now.steps j }
    ensures there { result.0 < service_count world.now.tables }
{
    world.instance().service_of(mv.step(j).process)
}

/// Whether a step before this one moves a process of a service.
#[inline(always)]
#[tactic(auto, using(ra_base::proofs::Named::names))]
fn is_named_before(world: &World<'_>, mv: &Move, j: u32, s: Service) -> bool
    requires moves { MayMove world.now mv.now.steps }
    requires step { j < length mv.now.steps }
    ensures { result ≡ is_named j (service_in world.now.tables mv.now.steps) s.0 }
{
    for k in 0..j {
        if service_in(world, mv, k).0 == s.0 {
            return true;
        }
    }
    false
}

/// A service with its moved counts before and after the move.
#[inline(always)]
fn count_of(world: &World<'_>, mv: &Move, s: Service) -> MovedCount
    requires moves { MayMove world.now mv.now.steps }
    requires there { s.0 < service_count world.now.tables }
    ensures { result ≡ moved_count world.now mv.now.steps s.0 }
{
    let before = world.cells().moved(s);
    let mut after = before;
    for j in 0..mv.steps() {
        after = moved_next(world, mv, j, s, after);
    }
    MovedCount {
        service: s,
        before,
        after,
    }
}

/// The moved count of a service after one more step, from the count before the step.
#[inline(always)]
fn moved_next(world: &World<'_>, mv: &Move, j: u32, s: Service, moved: u32) -> u32
    requires moves { MayMove world.now mv.now.steps }
    requires step { j < length mv.now.steps }
    requires before { moved ≡ moved_at (record world.now {
      here = after_steps world.now.here
          mv.now.steps j;
    }) s.0 }
    ensures { result ≡ moved_at (record world.now {
      here = after_steps world.now.here mv.now.steps
          (j + 1);
    }) s.0 }
{
    if service_in(world, mv, j).0 != s.0 {
        return moved;
    }
    let step = mv.step(j);
    let home = world.initial().get(step.process.0 as usize);
    moved + away(home, step.to) - away(home, step.from)
}

/// 1 if a machine isn't a process's initial one.
#[inline(always)]
#[tactic(auto, unfolding(ra_cells::specs::Marks::away))]
fn away(home: Machine, at: Machine) -> u32
    ensures { result ≡ away home.0 at.0 }
{
    u32::from(home.0 != at.0)
}
