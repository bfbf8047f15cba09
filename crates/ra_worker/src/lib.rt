//! The workers of a run. A worker's replica knows of the journal what it is told: on it the worker plans its proposals,
//! and it takes in the entries of the others. The replicas and the journal are the core of a run, on one thread or on
//! many: a run of 1 to 16 workers on threads, from the memory that it needs to its best state.
#![tactic(auto)]

mod ahead;
mod all;
mod crew;
mod events;
mod following;
mod prepared;
mod proposals;
mod replaying;
mod replica;
mod restoring;
mod running;
mod solved;
mod turns;
mod worker;

pub use all::make_replicas;
pub use crew::Crew;
pub use events::{CoreEvent, CoreReply};
pub use prepared::Prepared;
pub use replaying::replay;
pub use replica::Replica;
pub use restoring::restore;
pub use running::Desk;
pub use solved::Solved;
pub use turns::{catch_up, hand_in, take_turn_at};
pub use worker::Worker;
