//! How the processes of each service are placed, changed move by move: how many are on a machine, in a location and
//! in a neighbourhood, in how many locations they are, how many have moved, and the greatest number of moved processes.
#![tactic(auto)]

mod cells;
mod greatest;
mod held;
mod making;
mod marks;
mod sifting;

pub use cells::Cells;
pub use greatest::Greatest;
