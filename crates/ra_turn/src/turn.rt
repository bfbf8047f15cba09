//! The lock.
ghost use Rattle.ra_turn.specs.Seats.{IsSized};

use crate::guards::{Hold, hold_guard, release_guard};
use crate::law::{Key, Law};
use crate::pass::{Held, Pass};
use crate::sight::Sight;
use crate::steps::{draw, hand_back, hand_on, see, wait};
use crate::story::Story;
use atomic_table::Table;
use std::alloc::Global;
use std::sync::Wait;

/// A ticket lock that protects a value whose notes form one history.
#[derive(Drop)]
pub struct Turn<V: Story> {
    pub(crate) table: Table<Option<V>, Sight<V::Note, V::Opening>, Key<V>, Law, Global>,
    pub ghost sized: { IsSized table.shared.table_id table.shared.key },
}

impl<V: Story> Turn<V> {
    ghost use Rattle.std.specs.Prelude.{◌≡◌, ℕ, ◌+◌, ◌<◌, ◌≤◌, ◌++◌, length, drop, All, Contains};
    ghost use mathlib.Core.List.{IsPrefix};
    ghost use Rattle.ra_turn.specs.Notes.{by, grip, without};
    ghost use Rattle.ra_turn.specs.Holds.{KeepsNews};
    ghost use Rattle.ra_turn.specs.Passes.{opening_of, guards_of, seen_by, notes_made_by, grips_of, news_of, IsPassOf, IsIdle, IsReady, IsInTurn, IsSamePass, HoldsSame, KnowsSame, IsSeenOrNext, Shut, SeesNews, HasVersion, IsHoldAnswer};

    /// Waits for the pass's turn, enters the critical section and takes the value. The pass has then seen the whole
    /// history.
    pub fn take<R: Wait>(&self, rt: &R, pass: &mut Pass<V>) -> Held<V>
        requires pass { IsPassOf self.now pass.old × IsIdle pass.old × (0 < pass.old.left) }
        ensures pass { IsInTurn pass.new × IsSamePass pass.old pass.new ×
            (pass.new.left + 1 ≡ pass.old.left) }
        ensures opening { V.opening result.value ≡ opening_of V.opening self.now }
        ensures seen { (seen_by pass.new ≡ V.notes result.value) ×
            IsPrefix (seen_by pass.old) (seen_by pass.new) }
        ensures made { (notes_made_by pass.new ≡ notes_made_by pass.old) ×
            (by V.author pass.new.number (seen_by pass.new) ≡ notes_made_by pass.new) }
        ensures guards { HoldsSame pass.old pass.new × Shut self.now pass.new ×
            SeesNews self.now pass.new }
    {
        let desk = &self.table.shared;
        let ticket = draw(desk, &mut pass.seat);
        pass.left -= 1;
        wait(rt, desk, &mut pass.seat, ticket);
        let (seen, value) = see(desk, &mut pass.seat);
        pass.seen = seen;
        Held { value, taken: () }
    }

    /// Puts the value back and leaves the critical section. The value's notes are those that the pass has seen, or
    /// these and one more of its own. The pass must have locked each guard that this note touches.
    pub fn give(&self, pass: &mut Pass<V>, held: Held<V>)
        requires pass { IsPassOf self.now pass.old × IsInTurn pass.old }
        requires opening { V.opening held.value ≡ opening_of V.opening self.now }
        requires notes { IsSeenOrNext (opening_of V.opening self.now) pass.old (V.notes held.value) }
        ensures pass { IsIdle pass.new × IsSamePass pass.old pass.new ×
            (pass.new.left ≡ pass.old.left) }
        ensures seen { seen_by pass.new ≡ V.notes held.value }
        ensures made { notes_made_by pass.new ≡ notes_made_by pass.old ++ drop (length (seen_by pass.old))
            (V.notes held.value) }
        ensures guards { HoldsSame pass.old pass.new × Shut self.now pass.new }
    {
        let Held { value, taken: () } = held;
        let desk = &self.table.shared;
        let count = value.note_count();
        if count == pass.seen {
            hand_back(desk, &mut pass.seat, value);
        } else {
            hand_on(desk, &mut pass.seat, pass.seen, value);
            pass.seen = count;
        }
    }

    /// Locks a guard for the pass if the guard's version is at most the one given. As long as it is locked, no other
    /// pass's note touches it. If the version is above, the guard isn't locked, and the pass's next take shows the note
    /// that gave it this version.
    pub fn hold<R: Wait>(&self, rt: &R, pass: &mut Pass<V>, guard: u32, version: u64) -> Hold
        requires pass { IsReady self.now pass.old }
        requires guard { (guard < guards_of self.now) ×
            All (λ k. k.guard < guard) (grips_of pass.old) × (length (grips_of pass.old) < 9) }
        ensures pass { IsIdle pass.new × IsSamePass pass.old pass.new ×
            KnowsSame pass.old pass.new × KeepsNews (news_of pass.old) (news_of pass.new) }
        ensures answer { IsHoldAnswer self.now pass.old pass.new guard version result }
    {
        hold_guard(rt, &self.table.shared, &mut pass.seat, guard, version)
    }

    /// Unlocks a guard, at its version in the notes that the pass has seen.
    pub fn release(&self, pass: &mut Pass<V>, guard: u32, version: u64)
        requires pass { IsReady self.now pass.old }
        requires grip { (v : ℕ) × Contains (grips_of pass.old) (grip guard v) ×
            (v ≤ length (seen_by pass.old)) }
        requires version { HasVersion self.now pass.old guard version }
        ensures pass { IsIdle pass.new × IsSamePass pass.old pass.new ×
            KnowsSame pass.old pass.new × (news_of pass.new ≡ news_of pass.old) }
        ensures grips { grips_of pass.new ≡ without guard (grips_of pass.old) }
        ensures shut { Shut self.now pass.new }
    {
        release_guard(&self.table.shared, &mut pass.seat, guard, version);
    }
}
