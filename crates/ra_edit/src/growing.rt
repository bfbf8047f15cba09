//! Lists that change in place, in room that is taken once.
ghost use Rattle.std.specs.Prelude.{◌≡◌, ◌+◌, ◌<◌, ◌≤◌, [], ◌∷◌, ◌++◌, length, take, drop, ◌-◌, IfOk, slice_index_or};
ghost use Rattle.std.specs.List.{swap_remove};

use ra_base::{Fixed, NoMemory};
use std::alloc::Global;
use std::marker::Model;

/// A list that changes in place, in room that is taken once. As much room again is kept empty, so that the items can be
/// laid out in a `Fixed` without taking memory.
#[derive(Drop)]
pub(crate) struct Growing<T: Copy> {
    items: Vec<T>,
    spare: Fixed<T>,
}

impl<T: Copy> Model for Growing<T> {
    ghost use Rattle.std.specs.Prelude.{◌≡◌, ◌≤◌, [], vec_len, vec_capacity};
    ghost use Rattle.ra_base.specs.Listed.{Listed};

    ghost Value = { Listed T };

    ghost view = { λ g. record { items = g.items.items; room = g.spare.room } };

    ghost invariant = { λ g. (vec_len g.items ≤ g.spare.room) ×
        ((g.spare.room ≤ vec_capacity g.items) × (g.spare.items ≡ [])) };
}

impl<T: Copy> Growing<T> {
    /// A list of these items, with this room.
    pub(crate) fn make(alloc: Global, items: &[T], room: usize) -> Result<Growing<T>, NoMemory>
        requires { length items.now ≤ room }
        ensures items { IfOk result (λ g. g.items ≡ items.now) }
        ensures room { IfOk result (λ g. g.room ≡ room) }
    {
        let mut list = Vec::with_capacity(alloc, room)?;
        list.extend_from_slice(items)?;
        let spare = Fixed::make(alloc, room)?;
        Ok(Growing { items: list, spare })
    }

    /// The items, laid out without taking memory.
    pub(crate) fn into_fixed(self) -> Fixed<T>
        ensures { result.items ≡ self.items }
    {
        let Growing { items, mut spare } = self;
        spare.extend_from_slice(items.as_slice());
        spare
    }

    /// Adds an item at the end.
    pub(crate) fn push(&mut self, item: T)
        requires { length self.old.items < self.old.room }
        ensures items { self.new.items ≡ self.old.items ++ item ∷ [] }
        ensures room { self.new.room ≡ self.old.room }
    {
        self.items.push_reserved(item);
    }

    /// Adds all items of a slice at the end, in order.
    pub(crate) fn extend_from_slice(&mut self, items: &[T])
        requires { length self.old.items + length items.now ≤ self.old.room }
        ensures items { self.new.items ≡ self.old.items ++ items.now }
        ensures room { self.new.room ≡ self.old.room }
    {
        match self.items.extend_from_slice(items) {
            Ok(()) => {}
            Err(_) => unreachable!(),
        }
    }

    /// Takes the item at a place out. The last item takes its place.
    pub(crate) fn swap_remove(&mut self, place: usize)
        requires { place < length self.old.items }
        ensures items { (d : T) → self.new.items ≡ swap_remove self.old.items place d }
        ensures room { self.new.room ≡ self.old.room }
    {
        self.items.swap_remove(place);
    }

    /// Overwrites items with others, from a place on.
    pub(crate) fn write(&mut self, start: usize, part: &[T])
        requires { start + length part.now ≤ length self.old.items }
        ensures items { self.new.items ≡ take start self.old.items ++
            (part.now ++ drop (start + length part.now) self.old.items) }
        ensures room { self.new.room ≡ self.old.room }
    {
        self.items[start..start + part.len()].copy_from_slice(part);
    }

    /// Overwrites items from a place on with as many items from the end, and removes these at the end.
    pub(crate) fn swap_remove_part(&mut self, start: usize, last: usize)
        requires within { last ≤ length self.old.items }
        requires apart { start + (length self.old.items - last) ≤ length self.old.items }
        ensures items { self.new.items ≡ take last (take start self.old.items ++
            (drop last self.old.items ++ drop (start + (length self.old.items - last))
            self.old.items)) }
        ensures room { self.new.room ≡ self.old.room }
    {
        self.items.copy_within(last.., start);
        self.items.truncate(last);
    }

    /// The item at a place.
    pub(crate) fn get(&self, place: usize) -> T
        requires { place < length self.now.items }
        ensures { result ≡ slice_index_or self.now.items place result }
    {
        self.as_slice()[place]
    }

    /// How many items there are.
    pub(crate) fn len(&self) -> usize
        ensures value { result ≡ length self.now.items }
        ensures within { length self.now.items ≤ self.now.room }
    {
        self.items.len()
    }

    /// The items.
    pub(crate) fn as_slice(&self) -> &[T]
        ensures { result.now ≡ self.now.items }
    {
        self.items.as_slice()
    }
}
