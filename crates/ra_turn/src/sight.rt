//! What a seat at the table knows. No value of these types is made: only proofs use them.
use std::collections::LinkedList;

/// What is known of the notes of one pass's number.
pub struct Part<N> {
    /// The number of the pass.
    pub number: u32,
    /// The part of the history, from its start, that the pass has seen.
    pub seen: LinkedList<N>,
    /// The notes that it made.
    pub mine: LinkedList<N>,
}

/// A guard with a version.
pub struct Grip {
    /// The guard's number.
    pub guard: u32,
    /// One more than the place of the last note that touches the guard, or 0.
    pub version: u64,
}

/// How far a seat is in its turn.
pub enum Stage {
    /// The first seat, off which the passes are split, and how many turns each of them gets.
    Maker(u64),
    /// A seat that was joined to another one.
    Spent,
    /// A pass without a ticket.
    Idle,
    /// A pass with a ticket.
    Drawn,
    /// A pass whose ticket is served.
    Called,
    /// A pass in its critical section: it has the slot, and has seen the whole history.
    InTurn,
    /// A pass in its critical section that has counted a note in this turn.
    Counted,
}

/// The view of a seat.
pub struct Sight<N, O> {
    /// The opening of the value.
    pub opened: Option<O>,
    /// How far it is in its turn.
    pub stage: Stage,
    /// Its ticket; for the maker's seat, how many numbers were given out.
    pub at: u64,
    /// How many turns it has left.
    pub left: u64,
    /// Its own number.
    pub own: Part<N>,
    /// The numbers of the seats that were joined to it.
    pub joined: LinkedList<Part<N>>,
    /// The guards that it has locked.
    pub grips: LinkedList<Grip>,
    /// The versions that it was told of.
    pub news: LinkedList<Grip>,
}
