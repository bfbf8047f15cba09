//! Instances that the tests of other crates use, each made of the same few slices; the lists, assignments, lots and
//! command words that such tests write; and the plain counts that they compare with.
#![tactic(auto)]

pub mod counts;
mod example;
mod instances;
mod lists;
mod lots;
mod pairs;
mod rows;

pub use example::sample;
pub use instances::{eight_machines, seven_processes, single};
pub use lists::{Lists, NotMade, assignment, instance, list, strings};
pub use lots::{one_lot, two_lots, written};
pub use pairs::{crossed_pair, pair_at_limits, tight_pair};
pub use rows::{balance, machine, process, resource, service};
