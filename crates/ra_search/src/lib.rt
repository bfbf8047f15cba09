//! The search for a cheaper list: annealing over replicas, by one worker or by several that search side by side in slices.
//! What guides it is free; every move that it makes is judged, and what it finds is proved.
#![tactic(auto)]

mod concerned;
mod desk;
mod found;
mod guides;
mod heats;
mod hunt;
mod kept;
mod orders;
mod schedule;
mod searcher;
mod searching;
mod settling;
mod stretches;
mod visits;

pub use found::{Found, Told};
pub use schedule::Schedule;
pub use searching::{Beginning, search};
