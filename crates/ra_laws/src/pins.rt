//! Laws of the pinned processes: each function does nothing, and its contract is a law that was proved.
ghost use Rattle.ra_pins.specs.Laws.{RoundsOnlyAdd, PinnedStay};
ghost use Rattle.ra_laws.specs.PinLaws.{RoundsEnd};

/// A round never clears a flag.
pub fn rounds_only_add()
    ensures { RoundsOnlyAdd }
{}

/// More rounds than there are processes pin nothing more.
pub fn rounds_end()
    ensures { RoundsEnd }
{}

/// In an assignment that is feasible with respect to the start each pinned process is on its initial machine.
pub fn pinned_stay()
    ensures { PinnedStay }
{}
