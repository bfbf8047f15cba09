//! Laws of guards in the lock and of answers: each function does nothing, and its contract is a law that was proved.
ghost use Rattle.ra_shared.specs.Laws.{TouchesAgree, NoneAbove, RecordedStands, StaleStands};
ghost use Rattle.ra_laws.specs.SharedLaws.{VersionsAgree};

/// The number of a guard represents the guard: what an entry makes touches the number exactly if it touches the guard.
pub fn touches_agree()
    ensures { TouchesAgree }
{}

/// No entry touches a number that isn't a guard's.
pub fn none_above()
    ensures { NoneAbove }
{}

/// The lock's version of a guard's number in a history is the guard's version, the greatest of its stamps.
pub fn versions_agree<N>()
    ensures { VersionsAgree N }
{}

/// A worker that is answered Recorded knows the last entry as its own, with its plan and the verdict.
pub fn recorded_stands()
    ensures { RecordedStands }
{}

/// A worker that is answered Stale sees another worker's entry, from the place of its plan on, that touched a guard of
/// the plan's move.
pub fn stale_stands()
    ensures { StaleStands }
{}
