//! The weighing of a move, from what its steps change: the cost of one that breaks nothing, and the cause for which a
//! move is refused. It looks only at what the move touches, makes no second assignment and takes no memory.
#![tactic(auto)]

mod amounts;
mod broken;
mod capacity;
mod changes;
mod closed;
mod costs;
mod counts;
mod dependency;
mod ends;
mod exchanges;
mod far;
mod flows;
mod holding;
mod locations;
mod marks;
mod next_ends;
mod rows;
mod services;
mod trial;
mod values;
mod ways;

pub use amounts::Change;
pub use broken::{first_broken, is_unbroken};
pub use changes::changed_by;
pub use costs::{cost_after_move, is_dear_by_ways};
pub use ways::change_of_ways;
