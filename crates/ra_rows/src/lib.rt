//! The use and the transient use of each machine's resources, kept for one assignment and changed by its moves.
#![tactic(auto)]

mod cells;
mod rows;
mod shifts;
mod sums;

pub use rows::Rows;
