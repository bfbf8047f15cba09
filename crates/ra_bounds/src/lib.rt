//! The lower bound: no feasible assignment of an instance costs less.
#![tactic(auto)]

mod balance;
mod costs;
mod load;
mod lower;
mod pinned;
mod sums;

pub use costs::Bound;
pub use lower::bound;
pub use pinned::pinned_bound;
