//! Laws of the texts of a trial: each function does nothing, and its contract is a law that was proved.
ghost use Rattle.ra_laws.specs.TrialLaws.{ModelTextsAreTrials, ModelTextsAreAccepted, StartTextsAreStarts, TrialsHaveNumbers, TrialsAreWellFormed, StartsAreAssignments, StartsAreFeasible};

/// The model file of a trial means the trial's instance and no other.
pub fn model_texts_are_trials()
    ensures { ModelTextsAreTrials }
{}

/// Nothing is wrong with the model file of a trial.
pub fn model_texts_are_accepted()
    ensures { ModelTextsAreAccepted }
{}

/// The assignment file of a trial means its start and no other assignment.
pub fn start_texts_are_starts()
    ensures { StartTextsAreStarts }
{}

/// The instance of a trial has the trial's numbers.
pub fn trials_have_numbers()
    ensures { TrialsHaveNumbers }
{}

/// The instance of a trial is within the limits.
pub fn trials_are_well_formed()
    ensures { TrialsAreWellFormed }
{}

/// The start of a trial gives each process a machine of the instance.
pub fn starts_are_assignments()
    ensures { StartsAreAssignments }
{}

/// The start of a trial meets all constraints.
pub fn starts_are_feasible()
    ensures { StartsAreFeasible }
{}
