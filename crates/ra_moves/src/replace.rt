ghost use Rattle.std.specs.Prelude.{◌≡◌, List};
ghost use Rattle.ra_base.specs.declared.ids.Machine.{Machine};
ghost use Rattle.ra_moves.specs.Steps.{StandsAt, Distinct, from_in, to_in};
ghost use Rattle.ra_moves.specs.Replacing.{Applied, applied};

use crate::moves::Move;
use ra_base::Assignment;

/// Puts each process of a move on the machine that its step enters.
pub fn apply(a: &mut Assignment, mv: &Move)
    requires distinct { Distinct mv.now.steps }
    requires at_from { StandsAt from_in mv.now.steps a.old.items }
    ensures at_once { Applied mv.now.steps a.old.items a.new.items }
    ensures only { (b : List Machine) → Applied mv.now.steps a.old.items b → b ≡ a.new.items }
    ensures at_to { StandsAt to_in mv.now.steps a.new.items }
    ensures in_turn { a.new.items ≡ applied a.old.items mv.now.steps }
    ensures room { a.new.room ≡ a.old.room }
{
    for i in 0..mv.steps() {
        let step = mv.step(i);
        a.set(step.process.0 as usize, step.to);
    }
}

/// Puts each process of a move back on the machine that its step leaves.
pub fn undo(a: &mut Assignment, mv: &Move)
    requires distinct { Distinct mv.now.steps }
    requires at_to { StandsAt to_in mv.now.steps a.old.items }
    ensures at_from { StandsAt from_in mv.now.steps a.new.items }
    ensures was { a.old.items ≡ applied a.new.items mv.now.steps }
    ensures gives_back { (before : List Machine) → StandsAt from_in mv.now.steps before
        → a.old.items ≡ applied before mv.now.steps → a.new.items ≡ before }
    ensures room { a.new.room ≡ a.old.room }
{
    for i in 0..mv.steps() {
        let step = mv.step(i);
        a.set(step.process.0 as usize, step.from);
    }
}
