//! The journal of a run: one entry for each proposal, the state and the cost after each entry, which journals are legal
//! and whole, and what follows from that.
#![tactic(auto)]

mod allowances;
mod batch;
mod book;
mod entries;
mod halved;
mod journal;
mod listing;
mod outcomes;
mod packed;
mod recording;
mod refusing;
mod replies;
mod small_step;
mod states;

pub use allowances::allowed;
pub use batch::Batch;
pub use entries::Entry;
pub use journal::Journal;
pub use listing::Entries;
pub use refusing::is_refused;
pub use replies::Reply;
pub use states::advance;
