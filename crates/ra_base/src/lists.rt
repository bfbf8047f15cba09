ghost use Rattle.std.specs.Prelude.{◌≡◌, ◌+◌, ◌<◌, ◌≤◌, [], ◌∷◌, ◌++◌, length, IfOk, slice_index_or, slice_set};

use crate::ids::Machine;
use std::alloc::{AllocError, AllocFailed, Global};
use std::marker::Model;

/// The system refused memory.
#[derive(Clone, Copy, Debug, PartialEq, Eq)]
pub struct NoMemory;

impl From<AllocError> for NoMemory {
    fn from(_: AllocError) -> NoMemory {
        NoMemory
    }
}

impl<T: Drop> From<AllocFailed<T>> for NoMemory {
    fn from(_: AllocFailed<T>) -> NoMemory {
        NoMemory
    }
}

/// A list whose room is reserved once, so that no call but `make` takes memory.
#[derive(Drop)]
pub struct Fixed<T: Copy> {
    items: Vec<T>,
    room: usize,
}

impl<T: Copy> Model for Fixed<T> {
    ghost use Rattle.std.specs.Prelude.{◌≤◌, vec_len, vec_capacity};
    ghost use Rattle.ra_base.specs.Listed.{Listed};

    ghost Value = { Listed T };

    ghost view = { λ f. record { items = f.items.items; room = f.room } };

    ghost invariant = { λ f. (vec_len f.items ≤ f.room) × (f.room ≤ vec_capacity f.items) };
}

/// The machine of each process, in the order of the processes' numbers.
pub type Assignment = Fixed<Machine>;

impl<T: Copy> Fixed<T> {
    /// The empty list with this room.
    pub fn make(alloc: Global, room: usize) -> Result<Fixed<T>, NoMemory>
        ensures items { IfOk result (λ f. f.items ≡ []) }
        ensures room { IfOk result (λ f. f.room ≡ room) }
    {
        let items = Vec::with_capacity(alloc, room)?;
        Ok(Fixed { items, room })
    }

    /// Adds an item at the end.
    pub fn push(&mut self, item: T)
        requires { length self.old.items < self.old.room }
        ensures items { self.new.items ≡ self.old.items ++ item ∷ [] }
        ensures room { self.new.room ≡ self.old.room }
    {
        match self.items.push(item) {
            Ok(()) => {}
            Err(_) => unreachable!(),
        }
    }

    /// Adds all items of a slice at the end, in order.
    pub fn extend_from_slice(&mut self, items: &[T])
        requires { length self.old.items + length items.now ≤ self.old.room }
        ensures items { self.new.items ≡ self.old.items ++ items.now }
        ensures room { self.new.room ≡ self.old.room }
    {
        match self.items.extend_from_slice(items) {
            Ok(()) => {}
            Err(_) => unreachable!(),
        }
    }

    /// Replaces the item at a place.
    pub fn set(&mut self, place: usize, item: T)
        requires { place < length self.old.items }
        ensures items { self.new.items ≡ slice_set self.old.items place item }
        ensures room { self.new.room ≡ self.old.room }
    {
        self.items[place] = item;
    }

    /// The item at a place.
    pub fn get(&self, place: usize) -> T
        requires { place < length self.now.items }
        ensures { result ≡ slice_index_or self.now.items place result }
    {
        self.as_slice()[place]
    }

    /// Removes all items. The room stays.
    pub fn clear(&mut self)
        ensures items { self.new.items ≡ [] }
        ensures room { self.new.room ≡ self.old.room }
    {
        self.items.clear();
    }

    /// How many items there are.
    pub fn len(&self) -> usize
        ensures value { result ≡ length self.now.items }
        ensures within { length self.now.items ≤ self.now.room }
    {
        self.items.len()
    }

    /// How many items there is room for, including those that are there.
    pub fn room(&self) -> usize
        ensures value { result ≡ self.now.room }
        ensures within { length self.now.items ≤ self.now.room }
    {
        self.room
    }

    /// The items.
    pub fn as_slice(&self) -> &[T]
        ensures { result.now ≡ self.now.items }
    {
        self.items.as_slice()
    }
}
