//! Compares what was found with what is expected.
use std::fmt::Debug;
use std::process::Abort;

/// Demands that what was found is what is expected. An `assert_eq!` here, and not in a function that owns lists, adds
/// no exit to that function, so its proof is short.
pub(super) fn same<T: Copy + Debug + PartialEq>(rt: &impl Abort, found: T, want: T) {
    assert_eq!(rt; found, want);
}
