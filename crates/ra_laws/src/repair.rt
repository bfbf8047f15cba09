//! Laws of penalties and of runs of tries: each function does nothing, and its contract is a law that was proved.
ghost use Rattle.ra_laws.specs.LeastLaws.{ChoiceIsLeast};
ghost use Rattle.ra_repair.specs.Laws.{ZeroIsFeasible, UsesItsBudget};

/// The penalty of an assignment is 0 exactly if it is feasible.
pub fn zero_is_feasible()
    ensures { ZeroIsFeasible }
{}

/// A run that ends with a penalty has used its whole budget.
pub fn uses_its_budget()
    ensures { UsesItsBudget }
{}

/// A try of a repair chooses the first option after which the penalty is least.
pub fn choice_is_least()
    ensures { ChoiceIsLeast }
{}
