//! Edits of an instance's processes as a file has them: processes to add, to retire and to resize, in order.
#![tactic(auto)]

mod edits;
mod faults;
mod numbers;
mod reading;

pub use edits::{Edit, Edits};
pub use faults::EditsFault;
pub use reading::{MOST_EDITS, read_edits};
