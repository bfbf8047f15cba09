//! The cases of the conformance suite: their text, which a person reads and writes, and the trial of each by the top
//! call of its program over files and sinks in memory. A case has the command words, the files, what fails, then the
//! wanted status, output and error line; a line says whether the run ended so. CONTRIBUTING.md describes the form. The
//! program `cases` passes the text.
#![tactic(auto)]

mod asking;
mod endings;
mod parts;
mod stages;
mod suite;
mod texts;
mod tokens;
mod trouble;
mod trying;
mod verdicts;

pub use suite::{Tally, try_all};
pub use trouble::Trouble;
