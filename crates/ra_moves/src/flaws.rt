ghost use Rattle.std.specs.Prelude.{◌≡◌, ◌<◌, ◌≤◌, length};
ghost use Rattle.ra_base.specs.Searches.{or_else};
ghost use Rattle.ra_base.specs.Sums.{is_named};
ghost use Rattle.ra_moves.specs.Judging.{repeat_test, repeat_of, same_test, same_of};
ghost use Rattle.ra_moves.specs.Steps.{process_in};

use crate::moves::Move;
use ra_base::{Cause, Process};

/// The cause for which a move is refused at any assignment: Repeat, else Same.
#[tactic(auto, using(ra_base::proofs::Searches::choices))]
pub fn first_flaw(mv: &Move) -> Option<Cause>
    ensures { result ≡ or_else (repeat_of mv.now.steps) (same_of mv.now.steps) }
{
    match repeat_of(mv) {
        Some(cause) => Some(cause),
        None => same_of(mv),
    }
}

/// The cause Repeat of the first step that names a process of an earlier step.
#[tactic(auto, using(ra_base::proofs::Searches::searches), unfolding(crate::specs::Judging::repeat_of))]
pub fn repeat_of(mv: &Move) -> Option<Cause>
    ensures { result ≡ repeat_of mv.now.steps }
{
    for j in 0..mv.steps() {
        if let Some(cause) = repeat_test(mv, j) {
            return Some(cause);
        }
    }
    None
}

/// The cause of one step, if it names a process of an earlier step.
#[inline(always)]
#[tactic(auto, unfolding(crate::specs::Judging::repeat_test, crate::specs::Steps::process_in, ra_model::specs::Broken::cause_if))]
fn repeat_test(mv: &Move, j: u32) -> Option<Cause>
    requires { j < length mv.now.steps }
    ensures { result ≡ repeat_test mv.now.steps j }
{
    let process = mv.step(j).process;
    if is_named(mv, j, process) {
        Some(Cause::Repeat { process })
    } else {
        None
    }
}

/// Whether one of the first steps of a move names a process.
#[inline(always)]
#[tactic(auto, using(ra_base::proofs::Named::names), unfolding(crate::specs::Steps::process_in))]
fn is_named(mv: &Move, count: u32, process: Process) -> bool
    requires { count ≤ length mv.now.steps }
    ensures { result ≡ is_named count (process_in mv.now.steps) process.0 }
{
    for j in 0..count {
        if mv.step(j).process == process {
            return true;
        }
    }
    false
}

/// The cause Same of the first step that leaves its process where it is.
#[tactic(auto, using(ra_base::proofs::Searches::searches), unfolding(crate::specs::Judging::same_of))]
pub fn same_of(mv: &Move) -> Option<Cause>
    ensures { result ≡ same_of mv.now.steps }
{
    for j in 0..mv.steps() {
        if let Some(cause) = same_test(mv, j) {
            return Some(cause);
        }
    }
    None
}

/// The cause of one step, if it leaves its process where it is.
#[inline(always)]
#[tactic(auto, unfolding(crate::specs::Judging::same_test, crate::specs::Steps::process_in, crate::specs::Steps::from_in, crate::specs::Steps::to_in, ra_model::specs::Broken::cause_if))]
fn same_test(mv: &Move, j: u32) -> Option<Cause>
    requires { j < length mv.now.steps }
    ensures { result ≡ same_test mv.now.steps j }
{
    let step = mv.step(j);
    if step.from == step.to {
        Some(Cause::Same {
            process: step.process,
        })
    } else {
        None
    }
}
