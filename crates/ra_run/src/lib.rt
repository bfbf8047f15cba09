//! The top call: `run` does the one job that the words of the command line name, over files and sinks that the caller
//! gives. Two programs use it: `reassign` gives it those of the system, `cases` those in memory. The jobs that run
//! workers or judge their reports are here, `edit` is in `ra_edit_job`, and the others are in `ra_jobs`.
#![tactic(auto)]

mod beginning;
mod job;
mod solve;
mod trial;
mod verify;

pub use job::run;
pub use solve::solve_run;
pub use trial::trial_run;
pub use verify::verify_run;
