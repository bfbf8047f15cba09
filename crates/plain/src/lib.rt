//! The plain planner and the plain test of legality, which compute the definitions from scratch and are slow and short.
//! The planner judges each option by the checker, on an assignment that it changes and gives back. The test decides
//! whether a journal is legal, each entry by what the definition asks of it: it makes every state anew from the start.
#![tactic(auto)]

mod bench;
mod comparing;
mod judging;
mod places;
mod planning;
mod proposals;
mod search;
mod touching;

pub use judging::judge_plainly;
pub use planning::{Planned, plan_plainly};
pub use search::first_illegal;
