ghost use Rattle.std.specs.Prelude.{◌≡◌, ℕ, ◌^◌, ◌<◌, length};
ghost use Rattle.ra_base.specs.Searches.{or_else};
ghost use Rattle.ra_model.specs.Numbers.{machine_count};
ghost use Rattle.ra_model.specs.Assignments.{IsAssignment};
ghost use Rattle.ra_model.specs.Broken.{first_broken};
ghost use Rattle.ra_model.specs.Costs.{objective};
ghost use Rattle.ra_model.specs.Situations.{situation};
ghost use Rattle.ra_check.specs.Made.{IsMadeFor};
ghost use Rattle.ra_moves.specs.Steps.{StandsAt, from_in, to_in};
ghost use Rattle.ra_moves.specs.Judging.{judge, rise_test, verdict_of};

use ra_base::{Assignment, Cause};
use ra_check::{Scratch, first_broken, parts};
use ra_model::Instance;
use ra_moves::{Move, Verdict, apply, first_flaw, undo};

/// The verdict on a move of assignment `a`, whose cost is `before`: the first cause for which it is refused, in the
/// order Repeat, Same, the first constraint that is broken after it, Rise; or Done with the cost after it. It applies
/// the move to `a`, checks the outcome from scratch, and undoes the move. It takes no memory.
#[tactic(auto, using(crate::proofs::Judged::judge_flaw))]
pub fn judge_plainly(
    inst: &Instance,
    a0: &Assignment,
    a: &mut Assignment,
    scratch: &mut Scratch,
    before: u128,
    mv: &Move,
    allowed: u64,
) -> Verdict
    requires a0_fits { IsAssignment inst.now.tables a0.now.items }
    requires fits { IsAssignment inst.now.tables a.old.items }
    requires made { IsMadeFor scratch.old inst.now.tables }
    requires before { before ≡ objective inst.now.tables a0.now.items a.old.items }
    requires stands { StandsAt from_in mv.now.steps a.old.items }
    requires reaches { (j : ℕ) → j < length mv.now.steps →
        to_in mv.now.steps j < machine_count inst.now.tables }
    ensures verdict { result ≡ judge (situation inst.now.tables a0.now.items a.old.items)
        mv.now.steps allowed }
    ensures unchanged { a.new ≡ a.old }
    ensures kept { IsMadeFor scratch.new inst.now.tables }
{
    if let Some(cause) = first_flaw(mv) {
        return Verdict::Refused { cause };
    }
    apply(a, mv);
    let verdict = judge_after(inst, a0, a, scratch, before, allowed);
    undo(a, mv);
    verdict
}

/// The verdict on a move that gave an assignment, if none of its steps is refused.
fn judge_after(
    inst: &Instance,
    a0: &Assignment,
    after: &Assignment,
    scratch: &mut Scratch,
    before: u128,
    allowed: u64,
) -> Verdict
    requires a0_fits { IsAssignment inst.now.tables a0.now.items }
    requires fits { IsAssignment inst.now.tables after.now.items }
    requires made { IsMadeFor scratch.old inst.now.tables }
    requires small { before < 2 ^ 114 }
    ensures verdict { result ≡ verdict_of
        (or_else (first_broken inst.now.tables a0.now.items after.now.items)
        (rise_test before (objective inst.now.tables a0.now.items after.now.items) allowed))
        (objective inst.now.tables a0.now.items after.now.items) }
    ensures kept { IsMadeFor scratch.new inst.now.tables }
{
    if let Some(cause) = first_broken(inst, a0, after, scratch) {
        return Verdict::Refused { cause };
    }
    by_rise(before, parts(inst, a0, after, scratch).total, allowed)
}

/// Rise or Done.
#[tactic(auto, using(ra_moves::proofs::Settled::risen, ra_moves::proofs::Settled::done))]
fn by_rise(before: u128, after: u128, allowed: u64) -> Verdict
    requires { before < 2 ^ 114 }
    ensures { result ≡ verdict_of (rise_test before after allowed) after }
{
    if after > before + u128::from(allowed) {
        Verdict::Refused {
            cause: Cause::Rise {
                before,
                after,
                allowed,
            },
        }
    } else {
        Verdict::Done { cost: after }
    }
}
