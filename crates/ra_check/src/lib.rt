//! The checker: the first broken constraint of an assignment and the parts of its cost, from scratch.
#![tactic(auto)]

mod balance;
mod capacity;
mod closed;
mod conflict;
mod dependency;
mod first;
mod load;
mod moved;
mod objective;
mod scratch;
mod services;
mod spread;
mod stamps;
mod transient;
mod usage;
mod ways;

pub use first::first_broken;
pub use objective::parts;
pub use scratch::Scratch;
