//! The weighing of a move at a world, the verdict on a weighed move, and the plan for a proposal: among the moves that
//! its words name and that the judge calls Done, the first of least cost, with its weighing. All of it is computed by
//! changes on a replica.
#![tactic(auto)]

mod best;
mod flaws;
mod marks;
mod moves;
mod planning;
mod shifts;
mod verdicts;
mod weighing;

pub use moves::cost_below;
pub use planning::plan;
pub use verdicts::verdict;
pub use weighing::weigh;
