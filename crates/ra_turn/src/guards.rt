//! Locking and unlocking guards: the steps on their words.
ghost use Rattle.std.specs.Prelude.{◌≡◌, ℕ, ◌+◌, ◌*◌, ◌/◌, ◌%◌, ◌<◌, ◌≤◌, ◌^◌, [], length, Contains, MatchBool, IfSome, IfNone};
ghost use Rattle.ra_turn.specs.Views.{view, slots};
ghost use Rattle.ra_turn.specs.declared.sight.Stage.TheVariants.{Idle};
ghost use Rattle.ra_turn.specs.Notes.{grip, touching, IsVersion};
ghost use Rattle.ra_turn.specs.Seats.{IsSized, IsSameSeat};
ghost use Rattle.ra_turn.specs.Steps.{with_news, heard, TookGuard, GaveGuard};
ghost use Rattle.ra_turn.specs.Holds.{OnlyHolds, IsAnswerAt};

use crate::law::{Desk, Place};
use crate::patience::Patience;
use crate::plays::{Glance, Grasp, Release};
use crate::story::Story;
use std::sync::Wait;

const FIRST_GUARD: usize = 3;

/// What `Turn::hold` answers.
#[derive(Clone, Copy, Debug, PartialEq, Eq)]
pub enum Hold {
    /// The pass has locked the guard.
    Held {
        /// The guard's version, at which the pass locked it.
        version: u64,
    },
    /// The pass has not locked the guard.
    Newer {
        /// The guard's version, which is above the one that was asked for.
        version: u64,
    },
}

/// Reads a guard's word.
fn look<V: Story>(desk: &Desk<V>, seat: &mut Place<V>, guard: u32) -> u64
    requires table { (seat.old.table_id ≡ desk.now.table_id) ×
        IsSized desk.now.table_id desk.now.key }
    requires guard { ((view seat.old.me).stage ≡ Idle) × (guard < desk.now.key.guards) }
    ensures same { IsSameSeat seat.old seat.new }
    ensures view { seat.new.me ≡ (
      with_news (view seat.old.me)
          (heard guard result (view seat.old.me).news),
      slots seat.old.me,
    ) }
{
    desk.load::<Glance>(seat, FIRST_GUARD + guard as usize)
}

/// Locks the guard if it is free and its word is unchanged, and says whether it did.
fn grasp<V: Story>(desk: &Desk<V>, seat: &mut Place<V>, guard: u32, word: u64) -> bool
    requires table { (seat.old.table_id ≡ desk.now.table_id) ×
        IsSized desk.now.table_id desk.now.key }
    requires guard { ((view seat.old.me).stage ≡ Idle) × (guard < desk.now.key.guards) }
    requires even { word % 2 ≡ 0 }
    ensures same { IsSameSeat seat.old seat.new }
    ensures view { MatchBool result (TookGuard V.author V.touches seat.old.me seat.new.me guard
        (word / 2)) (seat.new.me ≡ seat.old.me) }
{
    let free = word;
    let place = FIRST_GUARD + guard as usize;
    desk.compare_exchange::<Grasp>(seat, place, free, free + 1) == free
}

/// Looks once, and locks the guard if it is free and its version is at most the one given. `None` if another pass has
/// locked it.
fn try_hold<V: Story>(desk: &Desk<V>, seat: &mut Place<V>, guard: u32, version: u64) -> Option<Hold>
    requires table { (seat.old.table_id ≡ desk.now.table_id) ×
        IsSized desk.now.table_id desk.now.key }
    requires guard { ((view seat.old.me).stage ≡ Idle) × (guard < desk.now.key.guards) }
    ensures same { IsSameSeat seat.old seat.new × OnlyHolds seat.old.me seat.new.me }
    ensures some { IfSome result (IsAnswerAt V.author V.touches guard version
        (view seat.old.me).grips (view seat.old.me).news (view seat.new.me)) }
    ensures none { IfNone result ((view seat.new.me).grips ≡ (view seat.old.me).grips) }
{
    let word = look(desk, seat, guard);
    if word % 2 != 0 {
        return None;
    }
    let found = word / 2;
    if found > version {
        return Some(Hold::Newer { version: found });
    }
    if grasp(desk, seat, guard, word) {
        Some(Hold::Held { version: found })
    } else {
        None
    }
}

/// Tries to lock the guard until there is an answer.
pub(crate) fn hold_guard<V: Story, R: Wait>(
    rt: &R,
    desk: &Desk<V>,
    seat: &mut Place<V>,
    guard: u32,
    version: u64,
) -> Hold
    requires table { (seat.old.table_id ≡ desk.now.table_id) ×
        IsSized desk.now.table_id desk.now.key }
    requires guard { ((view seat.old.me).stage ≡ Idle) × (guard < desk.now.key.guards) }
    ensures same { IsSameSeat seat.old seat.new × OnlyHolds seat.old.me seat.new.me }
    ensures answer { IsAnswerAt V.author V.touches guard version (view seat.old.me).grips
        (view seat.old.me).news (view seat.new.me) result }
{
    let mut patience = Patience::make();
    for _ in rt.forever() {
        if let Some(answer) = try_hold(desk, seat, guard, version) {
            return answer;
        }
        patience.pause();
    }
    unreachable!()
}

/// Unlocks a guard, at its version.
pub(crate) fn release_guard<V: Story>(desk: &Desk<V>, seat: &mut Place<V>, guard: u32, version: u64)
    requires table { (seat.old.table_id ≡ desk.now.table_id) ×
        (3 + guard < desk.now.table_id.words) × ((view seat.old.me).stage ≡ Idle) }
    requires grips { (v : ℕ) × Contains (view seat.old.me).grips (grip guard v) ×
        (v ≤ length (view seat.old.me).own.seen) }
    requires version { (version < 2 ^ 63) × ((o : V.Opening) → (view seat.old.me).opened ≡ Some o →
        IsVersion (touching V.touches o guard) (view seat.old.me).own.seen version) }
    ensures same { IsSameSeat seat.old seat.new }
    ensures view { GaveGuard V.author V.touches seat.old.me seat.new.me guard }
{
    desk.swap::<Release>(seat, FIRST_GUARD + guard as usize, 2 * version);
}
