//! What every other crate names: machines, processes, services and resources, lists of a reserved room, tables of
//! numbers, names of files, the causes for which a move or an assignment is refused, and a counter of reads.
#![tactic(auto)]

mod amounts;
mod causes;
mod cells;
mod costs;
mod counter;
mod ids;
mod lists;
mod names;

pub use amounts::{difference, one_when};
pub use causes::{Cause, Drawing};
pub use cells::{add_to_cell, place, read_cell, read_row};
pub use costs::{MovedCount, Parts};
pub use counter::Steps;
pub use ids::{Guard, Machine, Process, Resource, Service};
pub use lists::{Assignment, Fixed, NoMemory};
pub use names::Name;
