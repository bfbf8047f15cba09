//! The descent from a list: the processes in turn, each to its cheapest machine, until no move of a single process makes
//! the list cheaper.
#![tactic(auto)]

mod cheapest;
mod descent;
mod marks;
mod windows;

pub use descent::{descend, improve};
