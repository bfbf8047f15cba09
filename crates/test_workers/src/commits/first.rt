//! The plans of first proposals at the start of a journal, and how they are handed in.
ghost use Rattle.std.specs.Prelude.{◌≡◌, ◌<◌, None};
ghost use Rattle.ra_model.specs.Assignments.{IsAssignment};
ghost use Rattle.ra_model.specs.Broken.{first_broken};
ghost use Rattle.ra_model.specs.Costs.{parts_of};
ghost use Rattle.ra_journal.specs.Journals.{opening_in};
ghost use Rattle.ra_journal.specs.Openings.{opening};
ghost use Rattle.test_workers.specs.FirstPlans.{IsFirstPlan};

use ra_base::{Assignment, Parts, Steps};
use ra_check::{Scratch, first_broken, parts};
use ra_draws::{Draws, Lots, allow};
use ra_journal::{Journal, Reply};
use ra_model::Instance;
use ra_moves::Plan;
use ra_plan::plan;
use ra_world::World;
use std::alloc::Global;
use std::process::Abort;
use std::sync::ledger::Ledger;

/// The parts of the cost of a start, which breaks nothing.
pub(super) fn start_parts(rt: &impl Abort, alloc: Global, inst: &Instance, a0: &Assignment) -> Parts
    requires { IsAssignment inst.now.tables a0.now.items }
    ensures parts { result ≡ parts_of inst.now.tables a0.now.items a0.now.items }
    ensures unbroken { first_broken inst.now.tables a0.now.items a0.now.items ≡ None }
{
    let mut scratch = Scratch::make(alloc, inst).expect(rt, "no memory");
    let broken = first_broken(inst, a0, a0, &mut scratch);
    assert!(rt; broken.is_none());
    parts(inst, a0, a0, &mut scratch)
}

/// A worker's first plan, at a world that is at its start.
#[tactic(auto, unfolding(ra_journal::specs::Entries::worker_count, ra_journal::specs::Entries::budget, ra_draws::specs::Lots::budget_of))]
pub(super) fn first_plan<L: Ledger>(
    rt: &impl Abort,
    world: &World<'_>,
    lots: &Lots,
    worker: u32,
    steps: &mut Steps<L>,
) -> Plan
    requires start { world.now.here ≡ world.now.start }
    ensures { IsFirstPlan (opening world.now.tables world.now.start lots.now) worker result }
{
    assert!(rt; worker < lots.len());
    let lot = lots.lot(worker);
    assert!(rt; lot.budget > 0);
    let mut draws = Draws::make(lot);
    let words = draws.words_for_next();
    let allowed = allow(lots.slack(), lot.budget, 0);
    plan(world, &words, lots.drawing(), allowed, 0, 0, steps)
}

/// Hands in a worker's first plan, if the worker has some budget and has made no entry so far.
pub(super) fn hand_in(journal: &mut Journal<'_>, worker: u32, plan: &Plan) -> Option<Reply>
    requires { IsFirstPlan (opening_in journal.old) worker plan.now }
    ensures instance { journal.new.instance ≡ journal.old.instance }
    ensures initial { journal.new.initial ≡ journal.old.initial }
    ensures lots { journal.new.lots ≡ journal.old.lots }
{
    let lots = journal.lots();
    if worker >= lots.len() {
        return None;
    }
    if lots.lot(worker).budget == 0 || journal.made_by(worker) > 0 {
        return None;
    }
    Some(journal.commit(worker, plan))
}
