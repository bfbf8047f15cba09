//! The repair of a start that breaks constraints: how far an assignment is from meeting all of them, and a run of tries
//! that looks for a feasible one.
#![tactic(auto)]

mod above;
mod apart;
mod far;
mod following;
mod kept;
mod options;
mod repair;
mod shifting;
mod sums;
mod touched;
mod tries;
mod trying;

pub use repair::Repair;
pub use tries::Try;
