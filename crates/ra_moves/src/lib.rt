//! Moves of processes to other machines: the moves that the words of a proposal name, their effect on an assignment,
//! the verdict on a move that was weighed, and the moved counts after it. Over the definitions it says what a move
//! touches, what its weighing is, and which failures and changes of cost it can bring. Weighing by changes and the
//! guards rest on that.
#![tactic(auto)]

mod counts;
mod divisors;
mod drawn;
mod flaws;
mod moves;
mod replace;
mod settling;
mod steps;
mod verdicts;

pub use counts::change_counts;
pub use divisors::{Divisor, Divisors};
pub use drawn::{options, resolve, resolve_by};
pub use flaws::{first_flaw, repeat_of, same_of};
pub use moves::Move;
pub use replace::{apply, undo};
pub use settling::settle_now;
pub use steps::{MoveKind, Step};
pub use verdicts::{Plan, Verdict, Weighed, by_rise, settle};
