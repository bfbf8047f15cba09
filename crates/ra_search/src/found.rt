use ra_base::{Assignment, Parts};

/// What a search tells of itself. Nothing is promised of these numbers.
#[derive(Clone, Copy, Debug, PartialEq, Eq)]
pub struct Told {
    /// The heat, in units of cost, from which it cooled down.
    pub heat: u64,
    /// How many moves it tried.
    pub tries: u64,
    /// How many moves it made.
    pub done: u64,
}

/// What a search has found.
#[derive(Drop)]
pub struct Found {
    /// The best list.
    pub best: Assignment,
    /// The parts of its cost.
    pub parts: Parts,
    /// The list at which the search stood before its last descent.
    pub last: Assignment,
    /// What the search tells of itself.
    pub told: Told,
}
