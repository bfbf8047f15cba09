//! Tests of what is known of an instance and an assignment, and of what follows moves by changes, beside the plain
//! checker and the plain planner; and tests of what guides a search. There is nothing here but tests and what compares,
//! so that the crates that they test are proved once, without them.
#![tactic(auto)]

mod beside;
#[cfg(test)]
mod cells;
#[cfg(test)]
mod check;
#[cfg(test)]
mod common;
#[cfg(test)]
mod guards;
#[cfg(test)]
mod guides;
#[cfg(test)]
mod model;
#[cfg(test)]
mod moves;
#[cfg(test)]
mod pins;
#[cfg(test)]
mod rows;
#[cfg(test)]
mod tests;
#[cfg(test)]
mod topology;

pub use beside::Beside;
