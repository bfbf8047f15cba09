use ra_moves::{Move, Verdict};

/// An entry of a journal: a proposal of a worker, with the move that was planned for it and the verdict on this move.
#[derive(Clone, Copy, Debug, PartialEq, Eq)]
pub struct Entry {
    /// The worker.
    pub worker: u32,
    /// The number of the proposal among its worker's proposals, counted from 0.
    pub k: u64,
    /// How many entries of the journal the worker had taken in when it planned the move.
    pub q: u64,
    /// The move.
    pub mv: Move,
    /// The verdict at the entry's own place.
    pub verdict: Verdict,
}
