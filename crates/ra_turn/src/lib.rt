//! A ticket lock. Its holder knows the history of the value that the lock protects, and passes can also lock single
//! guards.
#![tactic(auto)]

mod close;
mod guards;
mod law;
mod make;
mod pass;
mod patience;
mod plays;
mod sight;
mod steps;
mod story;
mod turn;

pub use guards::Hold;
pub use pass::{Held, Pass};
pub use sight::Grip;
pub use story::Story;
pub use turn::Turn;
