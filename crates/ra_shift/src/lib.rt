//! The options of one shift: to which machines a process may go, and what each of these ways changes. What all of them
//! share is found once, and the costs of sixty-four neighbouring machines are added up side by side.
#![tactic(auto)]

mod blocks;
mod costs;
mod filter;
mod finding;
mod lanes;
mod reads;
mod rings;
mod shift;
mod terms;
mod weighed;
mod windows;

pub use blocks::{Term, add_up, add_ways, marks_of};
pub use finding::Finding;
pub use rings::ring_part;
pub use shift::Shift;
pub use terms::Asks;
