//! Laws of the definitions, by their subjects: each function does nothing, and its contract is a proved law. No program
//! depends on them.
#![tactic(auto)]

/// The lower bounds.
pub mod bounds;
/// The guards of moves and their versions in a history.
pub mod guards;
/// What jobs compute, and trials as they are run.
pub mod jobs;
/// Journals: which are legal and whole.
pub mod journal;
/// The lines of bytes.
pub mod lines;
/// The words of the problem: causes, sums and costs.
pub mod model;
/// The text of an instance.
pub mod model_text;
/// What a move can break, and what its weighing depends on.
pub mod moves;
/// The pinned processes of a start.
pub mod pins;
/// What a model file means, and which lists and edits are read.
pub mod reading;
/// Penalties, and runs of tries.
pub mod repair;
/// The lines of a report, and the journal that they tell.
pub mod report;
/// Guards in the lock, and the answers of workers.
pub mod shared;
/// The texts of a trial and its start.
pub mod trial;
/// The wrong line of a report.
pub mod verify;
