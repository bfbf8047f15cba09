//! Laws of edits, each as the contract of a function that does nothing.
ghost use Rattle.ra_edit.specs.Locality.{AddsAreLocal, ResizesAreLocal, RetiresAreLocal};

/// An edit of feasible lists breaks what it touches, or nothing.
pub fn edits_are_local()
    ensures adds { AddsAreLocal }
    ensures retires { RetiresAreLocal }
    ensures resizes { ResizesAreLocal }
{}
