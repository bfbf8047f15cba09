//! The outside: files that are read in pieces, sinks that take bytes in pieces, and the gate that a worker passes
//! before it commits.
//!
//! A contract may leave untold what a file holds and what a sink has taken, as it does for real files. Then only the
//! clauses on counts of faults say something.
#![tactic(auto)]

mod counts;
mod disk;
mod memory;
mod outside;
mod pairs;
mod steady;
mod streams;
mod texts;
mod whole;

pub use disk::DiskFiles;
pub use memory::{MemoryFiles, MemorySink};
pub use outside::{Failed, Files, Gate, NoGate, Sink};
pub use pairs::PairGate;
pub use steady::{CountSink, SteadyFiles};
pub use streams::{ErrSink, OutSink};
pub use whole::put_all;
