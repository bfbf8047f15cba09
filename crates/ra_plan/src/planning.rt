ghost use Rattle.std.specs.Prelude.{◌≡◌, ◌≢◌, ℕ, Some, None, true, ◌+◌, ◌*◌, ◌<◌, ◌≤◌};
ghost use Rattle.ra_base.specs.declared.causes.Drawing.TheVariants.{One, Two};
ghost use Rattle.ra_model.specs.Numbers.{resource_count, machine_count};
ghost use Rattle.ra_model.specs.Situations.{IsSound};
ghost use Rattle.ra_moves.specs.declared.steps.MoveKind.TheVariants as kind;
ghost use Rattle.ra_moves.specs.Options.{kind_of, plan_of, option_at, option_count};
ghost use Rattle.ra_moves.specs.Judging.{broken_by};
ghost use Rattle.ra_moves.specs.Moving.{IsOffered};
ghost use Rattle.ra_moves.specs.Weighing.{weighed_of};
ghost use Rattle.ra_plan.specs.Deciding.{IsPlanned, IsShiftOf};

use crate::best::Best;
use crate::moves::best_move;
use crate::shifts::best_shift;
use crate::verdicts::verdict;
use crate::weighing::{bare, weigh};
use ra_base::{Drawing, Steps};
use ra_moves::{Move, MoveKind, Plan, Weighed, resolve_by};
use ra_shift::{Finding, Shift};
use ra_weigh::changed_by;
use ra_world::{World, requirements};
use std::sync::ledger::Ledger;

/// Plans a proposal: the first of least cost among the options that the eight words name and that are judged Done on
/// the assignment of a world, and option 0 if there is none; with its weighing, and with the numbers `q`, how many
/// entries of the journal the world has taken in, and `k`, the number of the proposal among its worker's. It takes no
/// memory, and reads requirements only of the processes of the options.
pub fn plan<L: Ledger>(
    world: &World<'_>,
    words: &[u64; 8],
    drawing: Drawing,
    allowed: u64,
    q: u64,
    k: u64,
    steps: &mut Steps<L>,
) -> Plan
    ensures numbers_q { result.q ≡ q }
    ensures numbers_k { result.k ≡ k }
    ensures planned { result.mv ≡ plan_of world.now words.now drawing allowed }
    ensures weighed { result.weighed ≡ weighed_of world.now result.mv.steps }
    ensures offered { IsOffered world.now.tables world.now.here result.mv.steps }
    ensures counted_one { drawing ≡ One →
        steps.new ≤ steps.old + 24 * resource_count world.now.tables }
    ensures counted_two { drawing ≡ Two →
        steps.new ≤ steps.old + 384 * resource_count world.now.tables }
{
    let first = resolve_by(world.assignment(), words, world.divisors(), drawing, 0);
    let mut plan = Plan {
        q,
        k,
        mv: first,
        weighed: Weighed {
            broken: None,
            local: 0,
            first: None,
            second: None,
            third: None,
        },
    };
    fill(world, &first, words, drawing, allowed, &mut plan, steps);
    plan
}

/// Gives a plan the move and the weighing of its words, if option 0 is known and is the plan's move so far.
fn fill<L: Ledger>(
    world: &World<'_>,
    first: &Move,
    words: &[u64; 8],
    drawing: Drawing,
    allowed: u64,
    plan: &mut Plan,
    steps: &mut Steps<L>,
)
    requires sound { IsSound world.now }
    requires first { first.now ≡
        option_at world.now.here words.now (machine_count world.now.tables) drawing 0 }
    requires begun { plan.old.mv ≡ first.now }
    ensures planned { IsPlanned world.now words.now drawing allowed plan.new.mv plan.new.weighed }
    ensures numbers_q { plan.new.q ≡ plan.old.q }
    ensures numbers_k { plan.new.k ≡ plan.old.k }
    ensures counted { steps.new ≤ steps.old + 24 * resource_count world.now.tables }
{
    match first.kind() {
        MoveKind::Shift => fill_by_shift(world, first, words, drawing, allowed, plan, steps),
        _ => fill_by_move(world, first, words, drawing, allowed, plan, steps),
    }
}

/// Gives a plan the move and the weighing of words that ask for a shift. Option 0 is weighed at the end, if no option
/// is done.
fn fill_by_shift<L: Ledger>(
    world: &World<'_>,
    first: &Move,
    words: &[u64; 8],
    drawing: Drawing,
    allowed: u64,
    plan: &mut Plan,
    steps: &mut Steps<L>,
)
    requires sound { IsSound world.now }
    requires first { first.now ≡
        option_at world.now.here words.now (machine_count world.now.tables) drawing 0 }
    requires shift { kind_of words.now ≡ kind.Shift }
    ensures planned { IsPlanned world.now words.now drawing allowed plan.new.mv plan.new.weighed }
    ensures numbers_q { plan.new.q ≡ plan.old.q }
    ensures numbers_k { plan.new.k ≡ plan.old.k }
    ensures counted { steps.new ≤ steps.old + 24 * resource_count world.now.tables }
{
    let shift = Shift::make(world, first.step(0).process, steps);
    let best = best_shift(world, &shift, words, drawing, allowed);
    plan.mv = move_of(world, first, words, drawing, best.option);
    plan.weighed = shift_weighing(world, &shift, &best, &plan.mv, steps);
}

/// Gives a plan the move and the weighing of words that ask for a swap or a chain. Option 0 is weighed first and once,
/// since most of these plans are for it: the others have to cost less.
fn fill_by_move<L: Ledger>(
    world: &World<'_>,
    first: &Move,
    words: &[u64; 8],
    drawing: Drawing,
    allowed: u64,
    plan: &mut Plan,
    steps: &mut Steps<L>,
)
    requires sound { IsSound world.now }
    requires first { first.now ≡
        option_at world.now.here words.now (machine_count world.now.tables) drawing 0 }
    requires begun { plan.old.mv ≡ first.now }
    requires other { kind_of words.now ≢ kind.Shift }
    ensures planned { IsPlanned world.now words.now drawing allowed plan.new.mv plan.new.weighed }
    ensures numbers_q { plan.new.q ≡ plan.old.q }
    ensures numbers_k { plan.new.k ≡ plan.old.k }
    ensures counted { steps.new ≤ steps.old + 24 * resource_count world.now.tables }
{
    plan.weighed = weigh(world, first, steps);
    let judged = Best::none().consider(0, &verdict(world, &plan.weighed, allowed));
    let best = best_move(world, words, drawing, allowed, judged, steps);
    if best.option == 0 {
        return;
    }
    let mv = move_of(world, first, words, drawing, best.option);
    plan.mv = mv;
    plan.weighed = weighing(world, best.cost.is_some(), &mv, steps);
}

/// An option of words whose option 0 is known.
fn move_of(world: &World<'_>, first: &Move, words: &[u64; 8], drawing: Drawing, option: u32) -> Move
    requires first { first.now ≡
        option_at world.now.here words.now (machine_count world.now.tables) drawing 0 }
    requires named { option < option_count words.now (machine_count world.now.tables) drawing }
    ensures { result ≡ option_at world.now.here words.now
        (machine_count world.now.tables) drawing option }
{
    if option == 0 {
        return *first;
    }
    resolve_by(world.assignment(), words, world.divisors(), drawing, option)
}

/// The weighing of the planned shift: of the best option, or of option 0 if none is done. The `Shift` gives it fastest,
/// except for the cause of a broken dependency or of a closed machine.
fn shift_weighing<L: Ledger>(
    world: &World<'_>,
    shift: &Shift<'_, '_>,
    best: &Best,
    mv: &Move,
    steps: &mut Steps<L>,
) -> Weighed
    requires world { shift.now.world.now ≡ world.now }
    requires offered { IsOffered world.now.tables world.now.here mv.now.steps }
    requires alone { IsShiftOf world.now shift.now.process.0 mv.now.steps }
    requires best { (cost : ℕ) → best.now.cost ≡ Some cost →
        broken_by world.now mv.now.steps ≡ None }
    ensures value { result ≡ weighed_of world.now mv.now.steps }
    ensures counted { steps.new ≤ steps.old + 6 * resource_count world.now.tables }
{
    let to = mv.step(0).to;
    if best.cost.is_some() {
        return shift.weighed(to);
    }
    match shift.find(to) {
        Finding::Broken(cause) => bare(cause),
        Finding::Unbroken => shift.weighed(to),
        Finding::BrokenElsewhere => weigh(world, mv, steps),
    }
}

/// Weighs a move. `free` skips the search for a broken constraint.
fn weighing<L: Ledger>(world: &World<'_>, free: bool, mv: &Move, steps: &mut Steps<L>) -> Weighed
    requires offered { IsOffered world.now.tables world.now.here mv.now.steps }
    requires free { free ≡ true → broken_by world.now mv.now.steps ≡ None }
    ensures value { result ≡ weighed_of world.now mv.now.steps }
    ensures counted { steps.new ≤ steps.old + 6 * resource_count world.now.tables }
{
    if !free {
        return weigh(world, mv, steps);
    }
    let mut required = [0; 60];
    requirements(world.instance(), mv, &mut required, steps);
    changed_by(world, mv, &required)
}
