//! The random words of a run: lots, each a source of words with a budget of proposals, the eight words of each
//! proposal, and the rise of cost that a proposal may bring.
#![tactic(auto)]

mod allowance;
mod budgets;
mod sources;
mod words;

pub use allowance::allow;
pub use budgets::Lots;
pub use sources::{Lot, Source};
pub use words::Draws;
