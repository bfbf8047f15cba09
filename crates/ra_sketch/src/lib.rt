//! Rough costs of moves, from a few small numbers of each machine. A search asks them which of many moves are worth judging.
//! A rough cost is a guess: its sums may wrap, and it knows nothing of services. Nothing but safety is promised of it, and
//! no more is needed, since each move that it lets through is judged.
#![tactic(auto)]

mod change;
mod costs;
mod leaving;
mod rows;
mod sketch;

pub use leaving::Leaving;
pub use sketch::Sketch;
