//! The guards of a move, what other moves do to them, and their versions in a history.
#![tactic(auto)]

mod apart;
mod guarding;
mod lowest;
mod newest;
mod services;
mod versions;
mod written;

pub use apart::keeps_apart;
pub use guarding::is_guard;
pub use newest::{Newer, first_newer, first_newer_read};
pub use versions::Versions;
pub use written::{WriteGuards, writes};
