//! What guides the choices of a search: which processes are on each machine, which machines are near, words by chance,
//! and how much a move may cost. A guide promises that its numbers are in range. One that guides badly makes a search
//! slow, and never wrong.
#![tactic(auto)]

mod chance;
mod cooling;
mod heat;
mod nearby;
mod ranking;
mod residents;
mod spans;

pub use chance::Chance;
pub use cooling::Cooling;
pub use heat::Heat;
pub use nearby::Nearby;
pub use residents::Residents;
