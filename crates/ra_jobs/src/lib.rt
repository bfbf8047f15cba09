//! The jobs without a solver, over files and sinks that the caller hands in: `check_run`, `bound_run`, `repair_run` and
//! `edit_run`; and what every job needs: its files and what they mean, its refusals, and how it ends. It stands beside
//! the crates of a run of workers; `ra_run` stands on both.
#![tactic(auto)]

mod bound;
mod check;
mod edit;
mod edited;
mod judging;
mod lists;
mod outside;
mod reading;
mod refusals;
mod refusing;
mod repair;
mod start;
mod status;
mod steady;

pub use bound::{bound_from, bound_job, bound_run};
pub use check::{check_job, check_run};
pub use edit::{edit_job, edit_run};
pub use edited::write_edited;
pub use judging::{judge, judge_start};
pub use lists::{Lists, read_lists};
pub use outside::Outside;
pub use reading::read_instance;
pub use refusals::{File, JobFiles, Refusal, Role};
pub use refusing::{finish, put_line, refuse_memory, refuse_unread, refuse_words};
pub use repair::{repair_job, repair_run};
pub use start::{Start, read_start};
pub use status::Status;
pub use steady::check_steady;
