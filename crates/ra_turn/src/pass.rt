//! A pass, by which one thread enters the critical section of a lock.
ghost use Rattle.std.specs.Prelude.{◌≡◌, ◌+◌, ◌<◌, ◌^◌, length, All};
ghost use Rattle.ra_turn.specs.Views.{view};
ghost use Rattle.ra_turn.specs.Notes.{by};

use crate::law::Place;
use crate::story::Story;

/// The right to take turns at one lock: a turn is one critical section. The pass knows which notes it has seen and
/// made.
pub struct Pass<V: Story> {
    pub(crate) seat: Place<V>,
    pub(crate) number: u32,
    pub(crate) left: u64,
    pub(crate) seen: u64,
    pub ghost numbered: { (view seat.me).own.number ≡ number },
    pub ghost lefts: { (view seat.me).left ≡ left },
    pub ghost seens: { length (view seat.me).own.seen ≡ seen },
    pub ghost alone: { length (view seat.me).joined ≡ 0 },
    pub ghost owned: { by V.author (view seat.me).own.number (view seat.me).own.seen ≡ (view
        seat.me).own.mine },
    pub ghost small: { seen < 2 ^ 62 },
    pub ghost within: { All (λ k. 3 + k.guard < seat.table_id.words) (view seat.me).grips },
}

impl<V: Story> Pass<V> {
    ghost use Rattle.ra_turn.specs.Passes.{seen_by};

    /// The number of the pass, from 0.
    pub fn number(&self) -> u32
        ensures { result ≡ self.now.number }
    {
        self.number
    }

    /// How many turns it has left.
    pub fn turns_left(&self) -> u64
        ensures { result ≡ self.now.left }
    {
        self.left
    }

    /// How many notes it has seen.
    pub fn seen(&self) -> u64
        ensures { result ≡ length (seen_by self.now) }
    {
        self.seen
    }

    /// The pass's seat, for closing the lock.
    pub(crate) fn into_seat(self) -> Place<V>
        ensures { result ≡ self.seat }
    {
        let Self {
            seat,
            number: _,
            left: _,
            seen: _,
        } = self;
        seat
    }
}

impl<V: Story> Drop for Pass<V> {
    fn drop(self) {
        let Self {
            seat: _,
            number: _,
            left: _,
            seen: _,
        } = self;
    }
}

/// The value, while a pass is in its critical section. It has no `Drop`, and a field that only this crate sees, so no
/// caller can drop it: only `Turn::give` takes it.
pub struct Held<V> {
    /// The value that the lock protects.
    pub value: V,
    pub(crate) taken: (),
}
