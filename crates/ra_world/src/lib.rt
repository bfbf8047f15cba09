//! The replica of an assignment: its use of the machines, the counts of its services and its costs. All of them follow
//! the moves.
#![tactic(auto)]

mod changes;
mod costs;
mod filters;
mod following;
mod kept;
mod renewal;
mod required;
mod standing;
mod world;

pub use changes::{process_share, way_share};
pub use costs::{row_balance, row_load};
pub use required::requirements;
pub use world::World;
