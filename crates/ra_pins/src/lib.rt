//! Pinned processes: a pinned process can be on no machine but its initial one, and so stays there in every assignment
//! that is feasible with respect to the start.
#![tactic(auto)]

mod blocked;
mod looks;
mod marks;
mod pins;
mod search;
mod tables;

pub use pins::Pins;
