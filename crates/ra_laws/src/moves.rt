//! Laws of moves: each function does nothing, and its contract is a law that was proved.
ghost use Rattle.ra_laws.specs.LeastLaws.{PlanIsLeast};
ghost use Rattle.ra_moves.specs.Laws.{FailuresAreLocal, WeighingIsDetermined};

/// A move of an assignment that breaks nothing breaks only what it touches.
pub fn failures_are_local()
    ensures { FailuresAreLocal }
{}

/// A move weighs the same in two assignments that break nothing, if its machines hold the same processes in both, and
/// the processes of each service that it moves, or that is joined with such a service, have the same machines.
pub fn weighing_is_determined()
    ensures { WeighingIsDetermined }
{}

/// The plan of a proposal is the first option of least cost among those that are done, and option 0 if none is.
pub fn plan_is_least()
    ensures { PlanIsLeast }
{}
