//! Laws of journals: each function does nothing, and its contract is a law that was proved.
ghost use Rattle.ra_laws.specs.LeastLaws.{BestIsLeast};
ghost use Rattle.ra_journal.specs.Laws.{LegalIsSound, LegalMakesMoves, LegalIsOffered, NextKeepsLegal, CommittedIsLegal, OneLotsJournal};

/// In a legal journal over a feasible start every state is feasible, and its kept cost is its objective.
pub fn legal_is_sound()
    ensures { LegalIsSound }
{}

/// Each move that a legal journal makes fits the state at which it is made: its processes are named once and are on the
/// machines that its steps leave, and each step enters a machine of the instance.
pub fn legal_makes_moves()
    ensures { LegalMakesMoves }
{}

/// The move of each entry of a legal journal can be weighed, where it was planned and at its own place.
pub fn legal_is_offered()
    ensures { LegalIsOffered }
{}

/// A legal next entry keeps a journal legal.
pub fn next_keeps_legal()
    ensures { NextKeepsLegal }
{}

/// A journal that has answered a worker is legal, if it was legal before.
pub fn committed_is_legal()
    ensures { CommittedIsLegal }
{}

/// With one lot the run of one worker is legal and whole, and no other journal is.
pub fn one_lots_journal()
    ensures { OneLotsJournal }
{}

/// The best state of a journal is the first of least cost among all its states.
pub fn best_is_least()
    ensures { BestIsLeast }
{}
