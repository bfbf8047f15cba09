//! The plan of a proposal by changes, and the plain one.
ghost use Rattle.std.specs.Prelude.{◌≡◌};
ghost use Rattle.ra_moves.specs.Moving.{IsOffered};
ghost use Rattle.ra_moves.specs.Weighing.{weighed_of};

use plain::{Planned, plan_plainly};
use ra_base::{Drawing, Steps};
use ra_check::Scratch;
use ra_moves::{Plan, Verdict};
use ra_plan::{plan, verdict};
use ra_world::World;
use std::alloc::Global;
use std::process::Abort;
use std::sync::ledger::Ledger;
use test_samples::list;

/// What the plain planner makes of a proposal at the assignment of a world, on a copy of it.
fn planned_plainly(
    rt: &impl Abort,
    alloc: Global,
    world: &World<'_>,
    words: &[u64; 8],
    drawing: Drawing,
    allowed: u64,
) -> Planned {
    let (inst, a0, a) = (world.instance(), world.initial(), world.assignment());
    let mut other = list(alloc, a.as_slice()).expect(rt, "no memory");
    let mut scratch = Scratch::make(alloc, inst).expect(rt, "no memory");
    let cost = world.parts().total;
    plan_plainly(
        inst,
        a0,
        a,
        &mut other,
        &mut scratch,
        cost,
        words,
        drawing,
        allowed,
    )
}

/// The verdict on a plan at the world at which it was made.
fn verdict_on(world: &World<'_>, planned: &Plan, allowed: u64) -> Verdict
    requires offered { IsOffered world.now.tables world.now.here planned.now.mv.steps }
    requires weighed { planned.now.weighed ≡ weighed_of world.now planned.now.mv.steps }
{
    verdict(world, &planned.weighed, allowed)
}

/// Compares the two plans of a proposal: the moves, and the verdicts on them. Gives whether they are done, if they are
/// equal.
pub(super) fn compare<L: Ledger>(
    rt: &impl Abort,
    alloc: Global,
    world: &World<'_>,
    words: &[u64; 8],
    drawing: Drawing,
    allowed: u64,
    steps: &mut Steps<L>,
) -> Option<bool> {
    let plain = planned_plainly(rt, alloc, world, words, drawing, allowed);
    let planned = plan(world, words, drawing, allowed, 0, 0, steps);
    let verdict = verdict_on(world, &planned, allowed);
    if planned.mv == plain.mv && verdict == plain.verdict {
        Some(is_done(&verdict))
    } else {
        None
    }
}

/// Whether a move is done.
pub(super) fn is_done(verdict: &Verdict) -> bool {
    match verdict {
        Verdict::Done { .. } => true,
        Verdict::Refused { .. } => false,
    }
}

/// Whether a move is done, and the cost after it is this.
pub(super) fn is_done_at(verdict: &Verdict, want: u128) -> bool {
    match verdict {
        Verdict::Done { cost } => *cost == want,
        Verdict::Refused { .. } => false,
    }
}
