//! What is tried at the start of an instance, with a world and the checker beside it.
ghost use Rattle.std.specs.Prelude.{◌≡◌, ◌<◌};
ghost use Rattle.ra_model.specs.Assignments.{IsAssignment};

use super::each::each_agrees;
use super::walking::plans_agree;
use super::weighing::weighs_shift;
use super::worlds::{comes_home, tells_plainly};
use crate::Beside;
use ra_base::{Assignment, Steps};
use ra_model::Instance;
use ra_topology::Topology;
use std::alloc::Global;
use std::marker::Brand;
use std::process::Abort;
use std::sync::ledger::{Blank, Ledger};
use test_samples::assignment;

/// One trial.
#[derive(Clone, Copy)]
pub(super) enum Trial {
    /// Plans of `proposals` proposals are compared along a walk; with each drawing at least `least` are done, and at
    /// least `least` moves are followed.
    Plans { proposals: u32, least: u32 },
    /// Each chain and each swap is planned along a walk, and compared.
    EachMove,
    /// What the world tells is compared after each of many moves.
    Telling,
    /// A process of the sample leaves and comes home.
    ComingHome,
    /// A shift of the sample is weighed and settled.
    Weighing,
}

/// Makes trials on an instance, each from this start.
pub(super) fn try_on(
    rt: &impl Abort,
    alloc: Global,
    inst: Instance,
    start: &[u32],
    trials: &[Trial],
) {
    for trial in trials {
        try_from(rt, alloc, &inst, start, *trial);
    }
}

/// Makes one trial, with a world and the checker at a start.
fn try_from(rt: &impl Abort, alloc: Global, inst: &Instance, start: &[u32], trial: Trial) {
    let a0 = start_of(rt, alloc, inst, start);
    let topo = Topology::make(alloc, inst).expect(rt, "no memory");
    let made = Beside::make(alloc, inst, &topo, &a0).expect(rt, "no memory");
    let mut beside = made.expect(rt, "no feasible start");
    let passed = passes::<Brand>(rt, alloc, &mut beside, trial, Blank::new(1));
    demand(rt, passed);
}

/// Demands that this holds.
fn demand(rt: &impl Abort, holds: bool) {
    assert!(rt; holds);
}

/// The assignment of an instance to these machines.
fn start_of(rt: &impl Abort, alloc: Global, inst: &Instance, start: &[u32]) -> Assignment
    ensures { IsAssignment inst.now.tables result.items }
{
    let a0 = assignment(alloc, start).expect(rt, "no memory");
    assert!(rt; inst.is_assignment(&a0));
    a0
}

/// Whether a trial passes.
fn passes<L: Ledger>(
    rt: &impl Abort,
    alloc: Global,
    beside: &mut Beside<'_>,
    trial: Trial,
    blank: Blank,
) -> bool
    requires name { blank.name ≡ L.name }
    requires parts { blank.parts ≡ L.parts }
    requires some { 0 < blank.parts }
{
    let mut steps = Steps::<L>::make(blank);
    match trial {
        Trial::Plans { proposals, least } => {
            plans_agree(rt, alloc, beside, proposals, least, &mut steps)
        }
        Trial::EachMove => each_agrees(rt, alloc, beside, &mut steps),
        Trial::Telling => tells_plainly(beside, &mut steps),
        Trial::ComingHome => comes_home(beside, &mut steps),
        Trial::Weighing => weighs_shift(beside, &mut steps),
    }
}
