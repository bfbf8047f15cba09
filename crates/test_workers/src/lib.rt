//! Tests of the journal, the lock and the workers: the answers to two workers, the passes of the lock, runs of several
//! workers on threads, which the plain test of legality judges, and all workers played on one thread, in any order.
#![tactic(auto)]

#[cfg(test)]
mod commits;
#[cfg(test)]
mod from_scratch;
#[cfg(test)]
mod labour;
pub mod laws;
#[cfg(test)]
mod legality;
mod playing;
mod rounds;
#[cfg(test)]
mod runs;
#[cfg(test)]
mod starts;
#[cfg(test)]
mod turns;
#[cfg(test)]
mod verdicts;

pub use playing::{are_named, play};
pub use rounds::round_robin;
