//! Edits of a current assignment: processes are added, retired and resized, and each edit that breaks no constraint is
//! done.
#![tactic(auto)]

mod costs;
mod counts;
mod draft;
mod edited;
mod growing;
mod judging;
mod keeping;
mod laws;
mod lists;
mod loads;
mod locations;
mod members;
mod moved;
mod replies;
mod rows;
mod running;
mod scanning;
mod tables;
mod verdicts;

pub use draft::Draft;
pub use edited::{Edited, Left};
pub use laws::edits_are_local;
pub use replies::EditReply;
