//! Laws of guards and versions: each function does nothing, and its contract is a law that was proved.
ghost use Rattle.ra_guards.specs.Laws.{NewestIsRight, GuardsKeepResidents, UntouchedIsRight};
ghost use Rattle.ra_laws.specs.GuardLaws.{UntouchedIsApart, VersionsAreKept};

/// The guards of a move are untouched from a place on exactly if the move is apart from each move made since.
pub fn untouched_is_apart()
    ensures { UntouchedIsApart }
{}

/// A table has the versions of a history entry after entry, in which each entry that is done touches its write guards.
pub fn versions_are_kept()
    ensures { VersionsAreKept }
{}

/// The first newer guard in a table of versions is that of the history, and there is none exactly if the move is
/// untouched.
pub fn newest_is_right()
    ensures { NewestIsRight }
{}

/// Guards that aren't written keep their residents.
pub fn guards_keep_residents()
    ensures { GuardsKeepResidents }
{}

/// Untouched guards keep the verdict: a move is weighed as it was where it was planned.
pub fn untouched_is_right()
    ensures { UntouchedIsRight }
{}
