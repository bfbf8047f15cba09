//! The program `anneal` but for its `main`: the words of its command line, its stages over files and sinks that the
//! caller hands in, and what it prints. `anneal_run` is the top call, and carries the headline `AnnealPrinted`.
#![tactic(auto)]

mod annealing;
mod forms;
mod given;
mod pairs;
mod refusing;
mod telling;
mod text;
mod words;

pub use annealing::anneal_run;
pub use refusing::refuse_unread;
pub use words::{Job, read_words};
