//! Closing a lock.
ghost use Rattle.std.specs.Prelude.{◌≡◌, ◌<◌, ◌≤◌, [], ◌∷◌, length, All};
ghost use Rattle.ra_turn.specs.Views.{view};
ghost use Rattle.ra_turn.specs.declared.sight.Stage.TheVariants.{Idle};
ghost use Rattle.ra_turn.specs.Passes.{opening_of, passes_of, EachAt, grips_of, IsPassOf, IsIdle, IsDone, IsPartOf, IsJoined};
ghost use Rattle.ra_turn.specs.Seats.{IsSameSeat};
ghost use Rattle.ra_turn.specs.Steps.{passes_joined};

use crate::law::Place;
use crate::pass::Pass;
use crate::plays::Glue;
use crate::story::Story;
use crate::turn::Turn;

impl<V: Story> Turn<V> {
    /// Ends the lock, and gives the value. It needs all passes, in order and idle.
    pub fn close(self, passes: Vec<Pass<V>>) -> V
        requires passes { (length passes.items ≡ passes_of self) ×
            EachAt (IsDone self) passes.items }
        ensures opening { V.opening result ≡ opening_of V.opening self }
        ensures passes { All (IsPartOf (V.notes result)) passes.items }
        ensures authors { All (λ n. V.author n < passes_of self) (V.notes result) }
    {
        let seat = join_all(&self, passes);
        let Turn { table } = self;
        let mut closed = table.close_with(seat);
        let value = closed.take(0);
        closed.free();
        value.unwrap()
    }
}

/// One seat that knows what all the passes know.
fn join_all<V: Story>(turn: &Turn<V>, mut passes: Vec<Pass<V>>) -> Place<V>
    requires passes { (length passes.items ≡ passes_of turn.now) ×
        EachAt (IsDone turn.now) passes.items }
    ensures { IsJoined turn.now passes.items result }
{
    let Some(last) = passes.pop() else {
        unreachable!()
    };
    let mut seat = last.into_seat();
    while let Some(pass) = passes.pop() {
        join(turn, &mut seat, pass);
    }
    seat
}

/// Joins a pass's seat to the seat.
fn join<V: Story>(turn: &Turn<V>, seat: &mut Place<V>, pass: Pass<V>)
    requires seat { (seat.old.table_id ≡ turn.now.table.shared.table_id) ×
        ((view seat.old.me).stage ≡ Idle) × ((view seat.old.me).grips ≡ []) }
    requires pass { IsPassOf turn.now pass × IsIdle pass × (grips_of pass ≡ []) }
    ensures { IsSameSeat seat.old seat.new ×
        ((view seat.new.me) ≡ passes_joined (view seat.old.me) (view pass.seat.me)) }
{
    let desk = &turn.table.shared;
    desk.join_seat::<Glue>(seat, pass.into_seat());
}
