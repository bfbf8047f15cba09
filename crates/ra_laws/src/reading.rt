//! Laws of the files that are read: each function does nothing, and its contract is what was proved.
ghost use Rattle.std.specs.Prelude.{ℕ, List};
ghost use Rattle.ra_model_read.specs.Texts.{ModelIsItsNumbers};
ghost use Rattle.ra_laws.specs.FileLaws.{AssignmentFilesAreRead, ClosedFilesAreRead, EditsFilesAreRead};

/// Bytes mean an instance exactly if they have no fault and the values of their tokens are exactly the numbers of the
/// instance in the order of the fields; the instance is within the limits, and no machine of it is closed.
pub fn model_is_its_numbers()
    ensures { (bytes : List ℕ) → ModelIsItsNumbers bytes }
{}

/// An assignment file is accepted exactly if its bytes have no fault and a token for each process, and each token names
/// a machine.
pub fn assignment_files_are_read()
    ensures { AssignmentFilesAreRead }
{}

/// A closed list is accepted exactly if its bytes have no fault and each token names a machine.
pub fn closed_files_are_read()
    ensures { ClosedFilesAreRead }
{}

/// A file of edits is accepted exactly if its bytes have no fault and their tokens are the numbers of at most 100,000
/// valid edits.
pub fn edits_files_are_read()
    ensures { EditsFilesAreRead }
{}
