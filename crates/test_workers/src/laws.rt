//! Laws of the core. Each function does nothing, and its contract is a law that was proved.
ghost use Rattle.test_workers.specs.Laws.{StepKeepsLegal, StepKeepsPlaces};

/// A step keeps a legal journal legal.
pub fn step_keeps_legal()
    ensures { StepKeepsLegal }
{}

/// A step keeps the places within the length of the journal.
pub fn step_keeps_places()
    ensures { StepKeepsPlaces }
{}
