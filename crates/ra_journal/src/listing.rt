ghost use Rattle.std.specs.Prelude.{◌≡◌, ◌-◌, ◌+◌, ◌<◌, ◌≤◌, min, [], ◌∷◌, ◌++◌, length, IfOk};
ghost use Rattle.std.specs.List.{slice_range};
ghost use Rattle.ra_journal.specs.Batches.{batch_from};
ghost use Rattle.ra_journal.specs.Entries.{entry_at};
ghost use Rattle.ra_journal.specs.Packing.{IsSmall};

use crate::entries::Entry;
use crate::packed::{Packed, pack, unpack};
use ra_base::{Fixed, NoMemory};
use std::alloc::Global;
use std::marker::Model;

/// A list of entries whose room is reserved once. Each entry takes 72 bytes. Contracts see the list and the room.
#[derive(Drop)]
pub struct Entries {
    packed: Fixed<Packed>,
}

impl Model for Entries {
    ghost use Rattle.ra_base.specs.Listed.{Listed};
    ghost use Rattle.ra_journal.specs.declared.entries.Entry.{Entry};

    ghost Value = { Listed Entry };

    ghost use Rattle.ra_journal.specs.Packing.{unpacked_all};

    ghost view = { λ e. unpacked_all e.packed };
}

impl Entries {
    /// The empty list with this room.
    pub fn make(alloc: Global, room: usize) -> Result<Entries, NoMemory>
        ensures items { IfOk result (λ entries. entries.items ≡ []) }
        ensures room { IfOk result (λ entries. entries.room ≡ room) }
    {
        let packed = Fixed::make(alloc, room)?;
        Ok(Entries { packed })
    }

    /// Adds an entry at the end.
    #[tactic(auto, using(crate::proofs::PackingLemmas::unpacked_push, crate::proofs::PackingLemmas::unpacked_length))]
    pub fn push(&mut self, entry: &Entry)
        requires room { length self.old.items < self.old.room }
        requires small { IsSmall entry.now }
        ensures items { self.new.items ≡ self.old.items ++ entry.now ∷ [] }
        ensures room { self.new.room ≡ self.old.room }
    {
        self.packed.push(pack(entry));
    }

    /// The entry at a place.
    #[tactic(auto, using(crate::proofs::PackingLemmas::unpacked_length, crate::proofs::PackingLemmas::unpacked_at))]
    #[inline(always)]
    pub fn get(&self, place: usize) -> Entry
        requires { place < length self.now.items }
        ensures { result ≡ entry_at self.now.items place }
    {
        unpack(&self.packed.get(place))
    }

    /// How many entries there are.
    #[tactic(auto, using(crate::proofs::PackingLemmas::unpacked_length))]
    pub fn len(&self) -> usize
        ensures value { result ≡ length self.now.items }
        ensures within { length self.now.items ≤ self.now.room }
    {
        self.packed.len()
    }

    /// How many entries there is room for.
    #[tactic(auto, using(crate::proofs::PackingLemmas::unpacked_length))]
    pub fn room(&self) -> usize
        ensures value { result ≡ self.now.room }
        ensures within { length self.now.items ≤ self.now.room }
    {
        self.packed.room()
    }

    /// Removes all entries. The room stays.
    #[tactic(auto, using(crate::proofs::PackingLemmas::unpacked_none))]
    pub(crate) fn clear(&mut self)
        ensures items { self.new.items ≡ [] }
        ensures room { self.new.room ≡ self.old.room }
    {
        self.packed.clear();
    }

    /// Replaces all entries by those of another list from a place on, as many as a batch has room for, and gives their
    /// number.
    #[tactic(auto, using(crate::proofs::PackingLemmas::unpacked_length, crate::proofs::PackingLemmas::unpacked_part))]
    pub(crate) fn refill(&mut self, from: &Entries, at: usize) -> usize
        requires room { self.old.room ≡ 1024 }
        requires place { at ≤ length from.now.items }
        ensures items { self.new.items ≡ batch_from from.now.items at }
        ensures room { self.new.room ≡ self.old.room }
        ensures number { result ≡ min 1024 (length from.now.items - at) }
    {
        copy_part(&from.packed, at, &mut self.packed)
    }
}

/// Replaces all items of a list by those of another from a place on, at most 1,024, and gives their number.
fn copy_part(from: &Fixed<Packed>, at: usize, to: &mut Fixed<Packed>) -> usize
    requires room { to.old.room ≡ 1024 }
    requires place { at ≤ length from.now.items }
    ensures items { to.new.items ≡ slice_range from.now.items at (at + result) }
    ensures room { to.new.room ≡ to.old.room }
    ensures number { result ≡ min 1024 (length from.now.items - at) }
{
    let number = (from.len() - at).min(1024);
    to.clear();
    to.extend_from_slice(&from.as_slice()[at..at + number]);
    number
}
