//! Laws of the bounds: each function does nothing, and its contract is a law that was proved.
ghost use Rattle.ra_bounds.specs.Laws.{NoneCostsLess, NoneCostsLessPinned, PinnedIsAtLeast};

/// No feasible assignment costs less than the bound, and none has a part below that of the bound.
pub fn none_costs_less()
    ensures { NoneCostsLess }
{}

/// No assignment that is feasible with respect to a start costs less than the bound that counts the pinned processes,
/// and none has a part below that of this bound.
pub fn none_costs_less_pinned()
    ensures { NoneCostsLessPinned }
{}

/// The bound that counts the pinned processes is at least the bound of the instance alone.
pub fn pinned_is_at_least()
    ensures { PinnedIsAtLeast }
{}
