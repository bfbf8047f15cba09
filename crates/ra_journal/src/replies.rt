use ra_base::Guard;
use ra_moves::Verdict;

/// The answer to a worker that hands in a plan.
#[derive(Clone, Copy, Debug, PartialEq, Eq)]
pub enum Reply {
    /// The proposal is now an entry of the journal, at this place and with this verdict.
    Recorded { at: u64, verdict: Verdict },
    /// A guard of the move was touched since the move was planned, last by the entry at this place. Nothing changed.
    Stale { guard: Guard, at: u64 },
}
