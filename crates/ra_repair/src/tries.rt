use ra_moves::Move;

/// A try of a repair: the move that was chosen for a proposal, and whether it was taken.
#[derive(Clone, Copy, Debug, PartialEq, Eq)]
pub struct Try {
    /// The number of the proposal, counted from 0.
    pub k: u64,
    /// The move.
    pub mv: Move,
    /// Whether the move was taken, which it is unless the penalty rises by it.
    pub taken: bool,
    /// The penalty before the move.
    pub before: u128,
    /// The penalty after the move, even if it wasn't taken; if no option was left, the penalty before it.
    pub after: u128,
}
