//! The processes of each service, the services on which it depends, and those that depend on it, as lists that are made
//! once.
#![tactic(auto)]

mod counts;
mod dependants;
mod distinct;
mod lists;
mod needs;
mod topology;

pub use topology::Topology;
