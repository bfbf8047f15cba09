//! The table of the lock and its rule. Word 0 is the next ticket, word 1 the ticket that is served, word 2 the number
//! of notes. Word 3 + g belongs to guard g: twice its version while the guard is free, and one more than twice the
//! version at which a pass locked it while it is locked. Slot 0 holds the value.
use crate::sight::Sight;
use crate::story::Story;
use atomic_table::{Seat, Shared, Table, TableRule};
use std::alloc::Global;
use std::snapshot::Snapshot;

/// What is fixed for the table when it is made.
#[derive(Drop)]
pub struct Key<V> {
    /// How many passes there are.
    pub passes: u32,
    /// How many turns each of them has.
    pub turns: u64,
    /// How many guards there are.
    pub guards: u32,
    /// The value at the start.
    pub start: Snapshot<V>,
}

/// The rule of the table.
pub struct Law;

impl<V: Story> TableRule<Option<V>, Sight<V::Note, V::Opening>, Key<V>> for Law {
    ghost use Rattle.ra_turn.specs.Law.{Ruled, maker};

    ghost holds = { λ key. Ruled V.opening V.notes V.author V.touches key.passes key.turns
        key.guards (V.opening key.start.value) };

    ghost first = { λ key. maker key.passes key.turns (V.opening key.start.value) };
}

/// The table with its memory.
pub(crate) type Board<V> = Table<
    Option<V>,
    Sight<<V as Story>::Note, <V as Story>::Opening>,
    Key<V>,
    Law,
    Global,
>;

/// The table as its seats use it.
pub(crate) type Desk<V> = Shared<
    Option<V>,
    Sight<<V as Story>::Note, <V as Story>::Opening>,
    Key<V>,
    Law,
>;

/// A seat of the table.
pub(crate) type Place<V> = Seat<Option<V>, Sight<<V as Story>::Note, <V as Story>::Opening>>;
