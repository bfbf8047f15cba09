//! Lists of machines in files: the assignment of each process, and the machines that are closed.
#![tactic(auto)]

mod assignments;
mod closed;
mod faults;
mod text;

pub use assignments::read_assignment;
pub use closed::read_closed;
pub use faults::{AssignFault, ClosedFault};
pub use text::assignment_text;
